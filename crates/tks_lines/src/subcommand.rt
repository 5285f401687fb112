//! The subcommands of a text widget, their words read.
use tks_text::Txt;

/// A subcommand of a text widget. Its places are those that indices named when it was read, up to the one behind the last newline.
#[derive(Clone, Copy)]
pub enum Subcommand<'w> {
    /// It changes nothing.
    Asks(Question<'w>),
    Changes(Change<'w>),
}

/// What a text widget is asked.
#[derive(Clone, Copy)]
pub enum Question<'w> {
    /// `get`: the characters from one place up to another.
    Characters(usize, usize),
    /// `index`: a place as an index.
    Index(usize),
    /// `mark names`.
    Marks,
    /// `mark gravity` with one word: the word for the gravity of the mark that was named, left or right.
    Gravity(bool),
    /// `tag names` without an index.
    Tags,
    /// `tag names` with one: those on the character behind a place.
    TagsOn(usize),
    /// `tag ranges`: the ends of the ranges of the tag of a name, as indices.
    Ranges(&'w Txt),
    /// `cget`: the value of the option of a name.
    Value(&'w Txt),
}

/// What a text widget is to become.
#[derive(Clone, Copy)]
pub enum Change<'w> {
    /// `insert` without tags: these characters before a place, with the tags on both sides.
    Insert(usize, &'w Txt),
    /// `insert` with them: these characters before a place, with the tags of this list.
    InsertWith(usize, &'w Txt, &'w Txt),
    /// `delete`: without the characters from one place up to another.
    Delete(usize, usize),
    /// `mark set`: the mark of a name at a place.
    SetMark(&'w Txt, usize),
    /// `mark unset`: without the marks of some names.
    UnsetMarks(&'w [Txt]),
    /// `mark gravity` with two words: the mark of a name with left or right gravity.
    TurnMark(&'w Txt, bool),
    /// `tag add` where the tag of a name is to be on the characters from one place up to another, `tag remove` where it isn't.
    SetTag(bool, &'w Txt, usize, usize),
    /// `tag delete`: without the tags of some names.
    DeleteTags(&'w [Txt]),
    /// `configure`: options and values in turn.
    Configure(&'w [Txt]),
}
