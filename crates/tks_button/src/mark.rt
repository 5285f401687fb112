//! What stands before the lines of a checkbutton.
ghost use Rattle.std.specs.Prelude.{◌≡◌, IfOk};
ghost use Rattle.tks_button.specs.Block.{lines};
ghost use Rattle.tks_button.specs.Checkbutton.{mark, marked};

use std::alloc::{AllocError, Global};

/// How many columns stand before each line.
pub const MARK_WIDTH: usize = 4;

// What stands before the first line.
fn mark_of(on: bool) -> &'static [u8]
    ensures { result.now ≡ mark on }
{
    if on { b"[x] " } else { b"[ ] " }
}

/// A text with the mark before its first line, and as many spaces before each other one.
pub fn marked_text(alloc: Global, text: &[u8], on: bool) -> Result<Vec<u8>, AllocError>
    ensures { IfOk result (λ block. lines block.items ≡ marked on (lines text.now)) }
{
    let mut block = Vec::from_slice(alloc, mark_of(on))?;
    for byte in text {
        block.push(*byte)?;
        if *byte == b'\n' {
            block.extend_from_slice(b"    ")?;
        }
    }
    Ok(block)
}
