//! What an index's modifiers make of a place.

/// How far a modifier goes, and whether back.
#[derive(Clone, Copy)]
pub struct Step {
    pub back: bool,
    pub count: usize,
}

/// A modifier of an index.
#[derive(Clone, Copy)]
pub enum Modifier {
    /// So many characters on or back.
    Chars(Step),
    /// So many lines on or back.
    Lines(Step),
    /// To the first character of the line.
    LineStart,
    /// To the newline that ends the line.
    LineEnd,
}
