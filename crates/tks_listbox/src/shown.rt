//! What a listbox asks for and shows.
ghost use Rattle.std.specs.Prelude.{◌≡◌, ◌+◌, ◌<◌, ◌^◌, slice_get, IfOk};
ghost use Rattle.tks_opt.specs.Cells.{row, rows, line_cell};
ghost use Rattle.tks_listbox.specs.Shown.{or_needed, requested_width, requested_height, top, text_of, row_from, shown};

use crate::item::Item;
use crate::items::longest;
use crate::listbox::ListWidget;
use std::alloc::{AllocError, Global};
use tks_opt::{OptionName, line_row};
use tks_share::SharedList;
use tks_text::Seq;

// 0 is as many as are needed, one at least.
fn or_needed(size: Option<u16>, needed: usize) -> usize
    ensures { result ≡ or_needed size needed }
{
    match size {
        Some(0) | None => needed.max(1),
        Some(size) => usize::from(size),
    }
}

// The bytes of the item so far behind another, or none.
#[tactic(auto, using(crate::proofs::Whole::got_cut))]
fn text_at(items: &SharedList<Item>, first: usize, index: usize) -> &[u8]
    ensures { result.now ≡ text_of (slice_get items.now (first + index)) }
{
    let _len = items.len();
    match items.get(first.saturating_add(index)) {
        Some(item) => item.text.as_bytes(),
        None => b"",
    }
}

impl ListWidget {
    /// How many cells wide it asks to be: as `-width` says, or, where that is 0, as its longest item is, and one at least.
    pub fn requested_width(&self) -> usize
        ensures { result ≡ requested_width self.now }
    {
        match self.options.size(OptionName::Width) {
            Some(0) | None => longest(&self.items).max(1),
            Some(width) => usize::from(width),
        }
    }

    /// How many cells high it asks to be: as `-height` says, or, where that is 0, one for each item, and one at least.
    pub fn requested_height(&self) -> usize
        ensures { result ≡ requested_height self.now }
    {
        or_needed(self.options.size(OptionName::Height), self.len())
    }

    // The place of the first item that is seen.
    pub(crate) fn top(&self) -> usize
        ensures value { result ≡ top self.now }
        ensures bound { result < 2 ^ 63 }
    {
        (self.active() + 1).saturating_sub(self.requested_height())
    }

    /// The characters of its area, row by row: an item in each, from so far on that the active one is seen where the area
    /// is as high as the listbox asks for.
    pub fn shown(&self, width: usize, height: usize) -> Result<Seq<Seq<u8>>, AllocError>
        ensures { IfOk result (λ cells. cells ≡ shown self.now width height) }
    {
        let cells = rows_of(self.alloc, &self.items, self.top(), width, height)?;
        Ok(cells)
    }
}

// The row of the item so far behind another, or of none.
fn row_of(
    alloc: Global,
    items: &SharedList<Item>,
    first: usize,
    index: usize,
    width: usize,
) -> Result<Seq<u8>, AllocError>
    ensures { IfOk result (λ cells. cells ≡ row (λ x. line_cell (text_of (slice_get items.now (first + index))) 0 x) width) }
{
    let cells = line_row(alloc, text_at(items, first, index), 0, width)?;
    Ok(cells)
}

// The rows of items from one on, one in each, and none in those behind the last.
fn rows_of(
    alloc: Global,
    items: &SharedList<Item>,
    first: usize,
    width: usize,
    height: usize,
) -> Result<Seq<Seq<u8>>, AllocError>
    ensures { IfOk result (λ cells. cells ≡ rows (row_from items.now first) width height) }
{
    let mut cells = Seq::new(alloc);
    for index in 0..height {
        cells.push(row_of(alloc, items, first, index, width)?)?;
    }
    Ok(cells)
}
