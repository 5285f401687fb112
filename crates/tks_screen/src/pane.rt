//! What the windows that are shown show, painted one over the other.
ghost use Rattle.std.specs.Prelude.{◌≡◌, ◌≤◌, ◌<◌, ◌+◌, IfOk};
ghost use Rattle.tks_opt.specs.Cells.{rows};
ghost use Rattle.tks_screen.specs.Screen.{cell_in, rows_of, character};
ghost use Rattle.tks_screen.specs.Panes.{pane_of, over_row, over_rows};

use std::alloc::{AllocError, Global};
use tks_opt::blank_rows;
use tks_pack::Area;
use tks_state::{Placed, World};
use tks_text::{Seq, Size};

/// What a window shows, and its cells on the grid.
#[derive(Drop)]
pub struct Pane {
    pub area: Area,
    pub rows: Seq<Seq<u8>>,
}

// The character in a column and a row.
fn cell_in(rows: &[Seq<u8>], column: usize, row: usize) -> u8
    ensures { result ≡ cell_in rows.now column row }
{
    let Some(cells) = rows.get(row) else {
        return b' ';
    };
    match cells.as_slice().get(column) {
        Some(cell) => *cell,
        None => b' ',
    }
}

// The rows that a window shows in its area.
fn rows_of(alloc: Global, world: &World, placed: &Placed) -> Result<Seq<Seq<u8>>, AllocError>
    ensures { IfOk result (λ cells. cells ≡ rows_of world.now.variables world.now.kept placed.now) }
{
    let Some(kept) = world.kept(placed.window) else {
        return Ok(Seq::new(alloc));
    };
    let width = placed.area.width as usize;
    let height = placed.area.height as usize;
    let cells = kept
        .widget
        .get()
        .shown_as_seen(alloc, world.variables(), width, height)?;
    Ok(cells)
}

// A window that is shown, with what it shows.
fn pane_of(alloc: Global, world: &World, placed: &Placed) -> Result<Pane, AllocError>
    ensures { IfOk result (λ pane. pane ≡ pane_of world.now.variables world.now.kept placed.now) }
{
    Ok(Pane {
        area: placed.area,
        rows: rows_of(alloc, world, placed)?,
    })
}

// Paints the cells of a pane in one of its lines over those of that line of the grid.
fn paint_line(cells: &mut Seq<u8>, pane: &Pane, line: usize)
    requires { (pane.now.area.y ≤ line) × (line < pane.now.area.y + pane.now.area.height) }
    ensures { cells.new ≡ over_row pane.now line cells.old }
{
    let down = line - pane.area.y as usize;
    let left = pane.area.x as usize;
    let right = (left + pane.area.width as usize).min(cells.len());
    for column in left..right {
        cells.set(column, cell_in(pane.rows.as_slice(), column - left, down));
    }
}

// Paints the cells of a pane over those of the grid.
fn paint(cells: &mut Vec<Seq<u8>>, pane: &Pane)
    ensures { cells.new.items ≡ over_rows pane.now cells.old.items }
{
    let top = pane.area.y as usize;
    let bottom = (top + pane.area.height as usize).min(cells.len());
    for line in top..bottom {
        paint_line(&mut cells[line], pane, line);
    }
}

/// The rows of a grid on which the windows that are shown were painted in drawing order, each over what is below it.
pub fn painted_rows(alloc: Global, world: &World, size: Size) -> Result<Vec<Seq<u8>>, AllocError>
    ensures { IfOk result (λ cells. cells.items ≡ rows (character world.now) size.width size.height) }
{
    let shown = world.shown_windows()?;
    let blank = blank_rows(alloc, usize::from(size.width()), usize::from(size.height()))?;
    let mut cells = blank.into_items();
    for placed in &shown {
        let pane = pane_of(alloc, world, placed)?;
        paint(&mut cells, &pane);
    }
    Ok(cells)
}
