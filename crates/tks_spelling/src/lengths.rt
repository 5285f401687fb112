//! Lengths of spellings, counted without memory.

ghost use Rattle.std.specs.Prelude.{◌≡◌, length};
ghost use Rattle.tks_spelling.specs.Spelling as spellings;
ghost use Rattle.tks_spelling.specs.Lengths.{counted, within_side};

use tks_text::Txt;

/// How long the spelling of a world may be, in bytes.
pub const MAX_SIDE: u64 = 1 << 40;

/// The length of a text's spelling, in bytes.
pub fn text_length(text: &Txt) -> u64
    ensures { result ≡ counted (length (spellings.text.write text.now)) }
{
    text.as_bytes().len() as u64 + 4
}

/// A length that a side of the disk may hold, if this is one.
pub fn within_side(length: u64) -> Option<u64>
    ensures { result ≡ within_side length }
{
    if length <= MAX_SIDE {
        Some(length)
    } else {
        None
    }
}
