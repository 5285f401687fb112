//! A block of lines in an area.
ghost use Rattle.std.specs.Prelude.{◌≡◌, ◌≤◌, length, slice_get, option_map, IfOk};
ghost use Rattle.tks_opt.specs.Cells.{rows};
ghost use Rattle.tks_button.specs.Block.{lines, longest, left_of, top_of, line_in_row, block_cell};

use std::alloc::{AllocError, Global};
use tks_opt::{Anchor, line_row};
use tks_text::Seq;

/// How many lines a text has: one at least.
pub fn line_count(text: &[u8]) -> usize
    ensures { result ≡ length (lines text.now) }
{
    text.split(|byte| *byte == b'\n').count()
}

/// The length of the longest line.
#[tactic(auto, using(crate::proofs::Blocks::longest_within))]
pub fn longest_line(text: &[u8]) -> usize
    ensures value { result ≡ longest (lines text.now) }
    ensures within { result ≤ length text.now }
{
    text.split(|byte| *byte == b'\n')
        .map(|line| line.len())
        .max()
        .unwrap_or(0)
}

// The column in which the block begins.
fn left_of(text: &[u8], anchor: Anchor, width: usize) -> usize
    ensures { result ≡ left_of (lines text.now) anchor width }
{
    let free = width.saturating_sub(longest_line(text));
    anchor.horizontal().gap(free)
}

// The row of its first line.
fn top_of(text: &[u8], anchor: Anchor, height: usize) -> usize
    ensures { result ≡ top_of (lines text.now) anchor height }
{
    let free = height.saturating_sub(line_count(text));
    anchor.vertical().gap(free)
}

// The line behind so many others.
fn line(text: &[u8], index: usize) -> Option<&[u8]>
    ensures { option_map (λ l. l.now) result ≡ slice_get (lines text.now) index }
{
    text.split(|byte| *byte == b'\n').nth(index)
}

// The line in a row, where the first is in the row `top`.
fn line_in_row(text: &[u8], top: usize, row: usize) -> &[u8]
    ensures { result.now ≡ line_in_row (lines text.now) top row }
{
    if row < top {
        return b"";
    }
    match line(text, row - top) {
        Some(line) => line,
        None => b"",
    }
}

/// The rows of an area in which the lines of a text stand as a block, where the anchor says.
pub fn block_rows(
    alloc: Global,
    text: &[u8],
    anchor: Anchor,
    width: usize,
    height: usize,
) -> Result<Seq<Seq<u8>>, AllocError>
    ensures { IfOk result (λ cells. cells ≡ rows (block_cell (lines text.now) anchor width height) width height) }
{
    let left = left_of(text, anchor, width);
    let top = top_of(text, anchor, height);
    let mut cells = Seq::new(alloc);
    for row in 0..height {
        let line = line_in_row(text, top, row);
        cells.push(line_row(alloc, line, left, width)?)?;
    }
    Ok(cells)
}
