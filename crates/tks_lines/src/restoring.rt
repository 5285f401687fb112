//! Whether parts are those of a text widget.
ghost use Rattle.std.specs.Prelude.{◌≡◌, ◌==◌, nat_le, length, map, IfOk};
ghost use Rattle.std.specs.List.{list_all};
ghost use Rattle.tks_lines.specs.Lines.{is_listed};
ghost use Rattle.tks_lines.specs.Restoring.{differ, begins_with_cursor, are_tags, are_marks, restored};

use crate::lined_text::LinedText;
use crate::lines::TextWidget;
use crate::marks::Marks;
use crate::parts::{Mark, Tag};
use crate::tags::Tags;
use std::alloc::{AllocError, Global};
use tks_opt::Options;
use tks_text::{Class, Seq, Txt};

// Whether each tag has a flag for each of so many characters.
fn are_long(len: usize, tags: &[Tag]) -> bool
    ensures { result ≡ list_all (λ g. length g.on == len) tags.now }
{
    tags.iter().all(|tag| tag.on.len() == len)
}

// Whether a tag is among others.
fn has_tag(name: &Txt, tags: &[Tag]) -> bool
    ensures { result ≡ is_listed name.now (map (λ g. g.name) tags.now) }
{
    for tag in tags {
        if name.as_bytes() == tag.name.as_bytes() {
            return true;
        }
    }
    false
}

// Whether a mark is among others.
fn has_mark(name: &Txt, marks: &[Mark]) -> bool
    ensures { result ≡ is_listed name.now (map (λ m. m.name) marks.now) }
{
    for mark in marks {
        if name.as_bytes() == mark.name.as_bytes() {
            return true;
        }
    }
    false
}

/// Whether no two tags have one name.
pub fn tags_differ(tags: &[Tag]) -> bool
    ensures { result ≡ differ (map (λ g. g.name) tags.now) }
{
    let mut rest = tags;
    while let Some((tag, behind)) = rest.split_first() {
        if has_tag(&tag.name, behind) {
            return false;
        }
        rest = behind;
    }
    true
}

/// Whether no two marks have one name.
pub fn marks_differ(marks: &[Mark]) -> bool
    ensures { result ≡ differ (map (λ m. m.name) marks.now) }
{
    let mut rest = marks;
    while let Some((mark, behind)) = rest.split_first() {
        if has_mark(&mark.name, behind) {
            return false;
        }
        rest = behind;
    }
    true
}

// Whether no mark is behind so many characters.
fn are_inside(len: usize, marks: &[Mark]) -> bool
    ensures { result ≡ list_all (λ m. nat_le m.place len) marks.now }
{
    marks.iter().all(|mark| mark.place <= len)
}

/// Whether the first is the mark at which keys insert.
pub fn begins_with_cursor(marks: &[Mark]) -> bool
    ensures { result ≡ begins_with_cursor marks.now }
{
    match marks {
        [] => false,
        [mark, ..] => mark.name.as_bytes() == b"insert".as_slice(),
    }
}

// Whether tags are those of a text of so many characters.
fn are_tags(len: usize, tags: &[Tag]) -> bool
    ensures { result ≡ are_tags len tags.now }
{
    are_long(len, tags) && tags_differ(tags)
}

// Whether marks are.
fn are_marks(len: usize, marks: &[Mark]) -> bool
    ensures { result ≡ are_marks len marks.now }
{
    are_inside(len, marks) && marks_differ(marks) && begins_with_cursor(marks)
}

impl TextWidget {
    /// The text widget that has these options, characters, tags and marks, so that one is made again from what it had:
    /// none where the options aren't those of a text widget, a tag has more flags than there are characters or fewer, a
    /// mark is behind the last newline, two tags or two marks have one name, or the first mark isn't `insert`.
    pub fn restore(
        alloc: Global,
        options: Options,
        text: Txt,
        tags: Seq<Tag>,
        marks: Seq<Mark>,
    ) -> Result<Option<TextWidget>, AllocError>
        ensures { IfOk result (λ o. o ≡ restored options text tags marks) }
    {
        let len = text.len();
        if !are_tags(len, tags.as_slice()) {
            return Ok(None);
        }
        if !are_marks(len, marks.as_slice()) {
            return Ok(None);
        }
        let text = LinedText::of(alloc, &text)?;
        match options.class() {
            Class::Text => Ok(Some(TextWidget {
                alloc,
                options,
                text,
                tags: Tags::of(tags),
                marks: Marks::of(marks),
            })),
            _ => Ok(None),
        }
    }
}
