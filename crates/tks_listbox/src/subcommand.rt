//! The subcommands of a listbox, their words read.
use tks_text::Txt;

/// A subcommand of a listbox. Its places are as they were written: they may be before the first item or behind the last.
#[derive(Clone, Copy)]
pub enum Subcommand<'w> {
    /// It changes nothing.
    Asks(Question<'w>),
    Changes(Change<'w>),
}

/// What a listbox is asked.
#[derive(Clone, Copy)]
pub enum Question<'w> {
    /// `get` with one index: the text of the item in a place, or nothing.
    Item(i64),
    /// `get` with two: the list of the texts from one place to another.
    Items(i64, i64),
    /// `size`.
    Size,
    /// `index`: the number that an index stands for.
    Index(i64),
    /// `nearest`: the item in a row, or the nearest one.
    Nearest(i64),
    /// `selection includes`: whether the item in a place is selected.
    Includes(i64),
    /// `curselection`.
    Selected,
    /// `cget`: the value of the option of a name.
    Value(&'w Txt),
}

/// What a listbox is to become.
#[derive(Clone, Copy)]
pub enum Change<'w> {
    /// `insert`: items with these texts before the one in a place.
    Insert(i64, &'w [Txt]),
    /// `delete`: without the items from one place to another.
    Delete(i64, i64),
    /// `activate`.
    Activate(i64),
    /// `selection set` where the items between two places are to be selected, `selection clear` where they aren't.
    Select(bool, i64, i64),
    /// `configure`: options and values in turn.
    Configure(&'w [Txt]),
}
