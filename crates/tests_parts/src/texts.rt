//! Texts of the tests.

use std::alloc::Global;
use tks_text::Txt;

/// The text of a literal.
pub fn text(alloc: Global, literal: &str) -> Option<Txt> {
    Txt::from_bytes(alloc, literal.as_bytes()).ok()
}

/// The text of these bytes.
pub fn text_of_bytes(alloc: Global, bytes: &[u8]) -> Option<Txt> {
    Txt::from_bytes(alloc, bytes).ok()
}
