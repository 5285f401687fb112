//! The grid of characters.
ghost use Rattle.std.specs.Prelude.{◌≡◌, IfOk};
ghost use Rattle.tks_screen.specs.Screen.{blank};

use std::alloc::{AllocError, Global};
use std::marker::Model;
use tks_opt::blank_rows;
use tks_text::{Seq, Size};

/// The characters of a screen, row by row.
#[derive(Drop)]
pub struct Grid {
    size: Size,
    rows: Vec<Seq<u8>>,
}

impl Model for Grid {
    ghost use Rattle.tks_screen.specs.Screen.{Picture};

    ghost Value = { Picture };

    ghost view = { λ g. record { size = g.size; rows = g.rows.items } };
}

impl Grid {
    /// A grid of spaces.
    pub fn new(alloc: Global, size: Size) -> Result<Grid, AllocError>
        ensures { IfOk result (λ g. g ≡ blank size) }
    {
        let rows = blank_rows(alloc, usize::from(size.width()), usize::from(size.height()))?;
        Ok(Grid {
            size,
            rows: rows.into_items(),
        })
    }

    /// How many cells it has in a row, and how many rows.
    pub fn size(&self) -> Size
        ensures { result ≡ self.now.size }
    {
        self.size
    }

    /// Its rows, from the top.
    pub fn rows(&self) -> &[Seq<u8>]
        ensures { result.now ≡ self.now.rows }
    {
        self.rows.as_slice()
    }

    // Shows these rows from now on.
    pub(crate) fn set_rows(&mut self, rows: Vec<Seq<u8>>)
        ensures { self.new ≡ record self.old { rows = rows.items } }
    {
        self.rows = rows;
    }
}
