//! Tags and marks.
use crate::flag_list::Flags;
use tks_text::Txt;

/// A tag: its name, and which of the text's characters have it.
#[derive(Drop)]
pub struct Tag {
    pub name: Txt,
    pub on: Flags,
}

/// A mark: its name, its place, and whether it has left gravity, so that it stays where characters are inserted at it.
#[derive(Drop)]
pub struct Mark {
    pub name: Txt,
    pub place: usize,
    pub left: bool,
}
