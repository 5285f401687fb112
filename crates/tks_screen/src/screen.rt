//! The screen: what each cell shows, and which window is on top there.
ghost use Rattle.std.specs.Prelude.{◌≡◌, OnOk, OnErr, IfOk, option_map};
ghost use Rattle.tks_state.specs.Layout.{topmost};
ghost use Rattle.tks_screen.specs.Screen.{shown};

use crate::grid::Grid;
use crate::pane::painted_rows;
use std::alloc::{AllocError, Global};
use tks_state::World;
use tks_tree::WindowId;

/// Leaves in a grid what the screen shows: in each cell the character of the last window in drawing order that
/// covers it. Where memory is refused, the grid is as it was.
pub fn dump(alloc: Global, world: &World, grid: &mut Grid) -> Result<(), AllocError>
    requires { grid.old.size ≡ world.now.grid }
    ensures ok { OnOk result (grid.new ≡ record grid.old { rows = shown world.now }) }
    ensures err { OnErr result (grid.new ≡ grid.old) }
{
    let rows = painted_rows(alloc, world, grid.size())?;
    grid.set_rows(rows);
    Ok(())
}

/// The window that is seen in a cell of the grid; none outside it.
pub fn window_at(world: &World, column: u16, row: u16) -> Result<Option<WindowId>, AllocError>
    ensures { IfOk result (λ seen. seen ≡ option_map (λ p. p.window) (topmost world.now column row)) }
{
    let seen = world.topmost(u32::from(column), u32::from(row))?;
    match seen {
        Some(placed) => Ok(Some(placed.window)),
        None => Ok(None),
    }
}
