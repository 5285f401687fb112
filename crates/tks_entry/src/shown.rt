//! What an entry asks for and shows.
ghost use Rattle.std.specs.Prelude.{◌≡◌, IfOk};
ghost use Rattle.tks_opt.specs.Cells.{row, rows};
ghost use Rattle.tks_entry.specs.Shown.{requested_width, masked, seen, line_in_first, shown};

use crate::entry::EntryWidget;
use std::alloc::{AllocError, Global};
use tks_opt::{OptionName, blank_row, line_row};
use tks_text::Seq;

// A row of an area whose first row shows a line.
fn row_of(alloc: Global, line: &[u8], width: usize, index: usize) -> Result<Seq<u8>, AllocError>
    ensures { IfOk result (λ cells. cells ≡ row (λ x. line_in_first line.now x index) width) }
{
    let cells = if index == 0 {
        line_row(alloc, line, 0, width)?
    } else {
        blank_row(alloc, width)?
    };
    Ok(cells)
}

// The rows of an area whose first row shows a line.
fn rows_of(
    alloc: Global,
    line: &[u8],
    width: usize,
    height: usize,
) -> Result<Seq<Seq<u8>>, AllocError>
    ensures { IfOk result (λ cells. cells ≡ rows (line_in_first line.now) width height) }
{
    let mut cells = Seq::new(alloc);
    for index in 0..height {
        cells.push(row_of(alloc, line, width, index)?)?;
    }
    Ok(cells)
}

impl EntryWidget {
    /// How many cells wide it asks to be: as `-width` says, or, where that is 0, as its text is, and one at least.
    pub fn requested_width(&self) -> usize
        ensures { result ≡ requested_width self.now }
    {
        match self.options.size(OptionName::Width) {
            Some(0) | None => self.len().max(1),
            Some(width) => usize::from(width),
        }
    }

    /// How many cells high it asks to be.
    pub fn requested_height(&self) -> usize
        ensures { result ≡ 1 }
    {
        1
    }

    // The characters that stand for its text.
    fn masked(&self) -> Result<Vec<u8>, AllocError>
        ensures { IfOk result (λ v. v.items ≡ masked self.now) }
    {
        let mask: &[u8] = match self.options.value(OptionName::Show) {
            Some(mask) => mask.as_bytes(),
            None => b"",
        };
        match mask {
            [] => Ok(Vec::from_slice(self.alloc, self.text.as_bytes())?),
            [first, ..] => Ok(vec![in self.alloc; *first; self.len()]?),
        }
    }

    // The characters from the first one that is seen.
    fn seen(&self) -> Result<Vec<u8>, AllocError>
        ensures { IfOk result (λ v. v.items ≡ seen self.now) }
    {
        let masked = self.masked()?;
        let first = (self.cursor_place() + 1).saturating_sub(self.requested_width());
        let first = first.min(masked.len());
        Ok(Vec::from_slice(self.alloc, masked.split_at(first).1)?)
    }

    /// The characters of its area, row by row: the text in the first row, from so far on that the cursor is seen
    /// where the area is as wide as the entry asks for.
    pub fn shown(&self, width: usize, height: usize) -> Result<Seq<Seq<u8>>, AllocError>
        ensures { IfOk result (λ cells. cells ≡ shown self.now width height) }
    {
        let line = self.seen()?;
        let cells = rows_of(self.alloc, &line, width, height)?;
        Ok(cells)
    }
}
