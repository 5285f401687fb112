//! Ranges of characters.

/// Characters of a text from one place up to another.
#[derive(Clone, Copy, Debug)]
pub struct Range {
    /// The place before the first character.
    pub first: usize,
    /// The place behind the last one.
    pub last: usize,
}
