//! The characters that windows show, cell by cell.
ghost use Rattle.std.specs.Prelude.{◌≡◌, IfOk};
ghost use Rattle.tks_opt.specs.Cells.{space, shown_byte, line_cell, row, rows};

use std::alloc::{AllocError, Global};
use tks_text::Seq;

// The character that a byte of a text shows as. This is the one place where tabs and newlines become spaces.
fn shown_byte(byte: u8) -> u8
    ensures { result ≡ shown_byte byte }
{
    match byte {
        b'\t' | b'\n' => b' ',
        other => other,
    }
}

// The character of a line in a column.
fn line_cell(line: &[u8], left: usize, column: usize) -> u8
    ensures { result ≡ line_cell line.now left column }
{
    if column < left {
        return b' ';
    }
    match line.get(column - left) {
        Some(byte) => shown_byte(*byte),
        None => b' ',
    }
}

/// A row of cells that shows a line of a text, which begins in the column `left`; before it and behind it are
/// spaces. A tab and a newline show as a space.
pub fn line_row(
    alloc: Global,
    line: &[u8],
    left: usize,
    width: usize,
) -> Result<Seq<u8>, AllocError>
    ensures { IfOk result (λ cells. cells ≡ row (line_cell line.now left) width) }
{
    let mut cells = Seq::new(alloc);
    for column in 0..width {
        cells.push(line_cell(line, left, column))?;
    }
    Ok(cells)
}

/// A row of spaces.
pub fn blank_row(alloc: Global, width: usize) -> Result<Seq<u8>, AllocError>
    ensures { IfOk result (λ cells. cells ≡ row (λ _. space) width) }
{
    let mut cells = Seq::new(alloc);
    for _column in 0..width {
        cells.push(b' ')?;
    }
    Ok(cells)
}

/// So many rows of spaces.
pub fn blank_rows(alloc: Global, width: usize, height: usize) -> Result<Seq<Seq<u8>>, AllocError>
    ensures { IfOk result (λ cells. cells ≡ rows (λ _ _. space) width height) }
{
    let mut cells = Seq::new(alloc);
    for _row in 0..height {
        cells.push(blank_row(alloc, width)?)?;
    }
    Ok(cells)
}
