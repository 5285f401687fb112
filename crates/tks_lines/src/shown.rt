//! What a text widget asks for and shows.
ghost use Rattle.std.specs.Prelude.{◌≡◌, ◌≤◌, ◌<◌, ◌^◌, ◌+◌, length, IfOk};
ghost use Rattle.tks_opt.specs.Cells.{row, rows};
ghost use Rattle.tks_lines.specs.Shown.{asked, requested_width, requested_height, cursor_place, first_seen, line_text, line_seen, shown};

use crate::lined_text::LinedText;
use crate::lines::TextWidget;
use crate::marks::mark_named;
use crate::places::{line_end, lines_before, place_at};
use std::alloc::{AllocError, Global};
use tks_opt::{OptionName, line_row};
use tks_text::{Seq, Txt};

// The line behind so many others, or none.
fn line_text(alloc: Global, text: &LinedText, lines: usize) -> Result<Txt, AllocError>
    ensures { IfOk result (λ t. t ≡ line_text text.now lines) }
{
    let start = place_at(text, lines, Some(0)).min(text.len());
    let line = text.part(alloc, start, line_end(text, start))?;
    Ok(line)
}

// A row of an area that shows lines from one on.
#[tactic(auto, using(crate::proofs::Far::kept_line))]
fn row_of(
    alloc: Global,
    text: &LinedText,
    first: usize,
    width: usize,
    index: usize,
) -> Result<Seq<u8>, AllocError>
    ensures { IfOk result (λ cells. cells ≡ row (λ x. line_seen text.now first x index) width) }
{
    let _len = text.len();
    let line = line_text(alloc, text, first.saturating_add(index))?;
    let cells = line_row(alloc, line.as_bytes(), 0, width)?;
    Ok(cells)
}

// The rows of an area that shows lines from one on.
fn rows_of(
    alloc: Global,
    text: &LinedText,
    first: usize,
    width: usize,
    height: usize,
) -> Result<Seq<Seq<u8>>, AllocError>
    ensures { IfOk result (λ cells. cells ≡ rows (line_seen text.now first) width height) }
{
    let mut cells = Seq::new(alloc);
    for index in 0..height {
        cells.push(row_of(alloc, text, first, width, index)?)?;
    }
    Ok(cells)
}

impl TextWidget {
    // The cells that an option asks for.
    fn asked(&self, option: OptionName) -> usize
        ensures { result ≡ asked self.now.options option }
    {
        match self.options.size(option) {
            Some(size) => usize::from(size),
            None => 0,
        }
    }

    /// How many cells wide it asks to be: as `-width` says.
    pub fn requested_width(&self) -> usize
        ensures { result ≡ requested_width self.now }
    {
        self.asked(OptionName::Width)
    }

    /// How many cells high it asks to be: as `-height` says.
    pub fn requested_height(&self) -> usize
        ensures { result ≡ requested_height self.now }
    {
        self.asked(OptionName::Height)
    }

    /// The place of the mark `insert`: before so many characters.
    pub fn cursor_place(&self) -> usize
        ensures { result ≡ cursor_place self.now }
    {
        match mark_named(b"insert", self.marks.as_slice()) {
            Some(mark) => mark.place,
            None => 0,
        }
    }

    // How many lines are above the first one that is seen.
    fn first_seen(&self) -> usize
        ensures { result ≡ first_seen self.now }
    {
        let lines = lines_before(&self.text, self.cursor_place());
        (lines + 1).saturating_sub(self.requested_height())
    }

    /// The characters of its area, row by row: a line a row, from so far on that the line of the mark `insert` is seen
    /// where the area is as high as the text widget asks for.
    pub fn shown(&self, width: usize, height: usize) -> Result<Seq<Seq<u8>>, AllocError>
        ensures { IfOk result (λ cells. cells ≡ shown self.now width height) }
    {
        let cells = rows_of(self.alloc, &self.text, self.first_seen(), width, height)?;
        Ok(cells)
    }
}
