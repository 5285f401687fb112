//! Where the windows lie on the grid.
ghost use Rattle.std.specs.Prelude.{◌≡◌, ◌+◌, ◌≤◌, ◌<◌, ◌^◌, ◌++◌, [], ◌∷◌, map, true, Some, IfOk, IfSome, OnOk};
ghost use Rattle.std.specs.List.{AllByRecursion};
ghost use Rattle.tks_pack.specs.Laws.{LiesInside};
ghost use Rattle.tks_state.specs.Layout.{size_of, sizes, on_grid, with_content, with_contents, with_contents_of, placed_in, with_area, extent_of, grid_area, shown_of, shown_windows, covers, last_over, topmost, LiesOn, IsShownOn, AllInside, AllShownOn};
ghost use Rattle.tks_state.specs.Laid.{AllAsk, asked_by, asks_of};

use crate::by_window::ByWindow;
use crate::kept::Kept;
use crate::laid::{Asked, Laid};
use crate::links::are_same;
use crate::world::World;
use std::alloc::{AllocError, Global};
use tks_pack::{Area, Content, Extent, Requests, windows_lie_inside};
use tks_share::{Items, SharedList};
use tks_text::Size;
use tks_tree::WindowId;
use tks_vars::Vars;

/// A window that is shown, and its cells on the grid.
#[derive(Clone, Copy, Debug)]
pub struct Placed {
    pub window: WindowId,
    pub area: Area,
}

impl Requests for ByWindow<Extent> {
    ghost use Rattle.tks_state.specs.Layout.{size_in};

    ghost size = { size_in };

    fn requested(&self, window: WindowId) -> Extent {
        match self.get(window) {
            Some(size) => size,
            None => Extent {
                width: 0,
                height: 0,
            },
        }
    }
}

// How large a window asks to be, where it is known of those in it.
fn size_of(
    alloc: Global,
    variables: &Vars,
    kept: &Kept,
    sizes: &ByWindow<Extent>,
) -> Result<Extent, AllocError>
    ensures { IfOk result (λ e. e ≡ size_of variables.now kept.now sizes.now) }
{
    match kept.packing.requested(sizes) {
        Some(size) => Ok(size),
        None => {
            let size = kept.widget.get().requested_as_seen(alloc, variables)?;
            Ok(size)
        }
    }
}

// All that is kept, in a row: a list that copies share is walked from the front alone.
fn in_a_row(alloc: Global, kept: &SharedList<Kept>) -> Result<Vec<&Kept>, AllocError>
    ensures { IfOk result (λ row. map (λ k. k.now) row.items ≡ kept.now) }
{
    let mut row = Vec::with_capacity(alloc, kept.len())?;
    for one in kept.iter() {
        row.push(one)?;
    }
    Ok(row)
}

// How large windows ask to be.
fn sizes_of(alloc: Global, variables: &Vars, row: &[&Kept]) -> Result<ByWindow<Extent>, AllocError>
    ensures { IfOk result (λ s. s ≡ sizes variables.now (map (λ k. k.now) row.now)) }
{
    let mut sizes = ByWindow::with_capacity(alloc, row.len())?;
    let mut left = row.len();
    while left > 0 {
        left -= 1;
        let one = row[left];
        let size = size_of(alloc, variables, one, &sizes)?;
        sizes.insert(one.window, size)?;
    }
    Ok(sizes)
}

// Cells of a container, as cells of the grid.
fn on_grid(container: Area, area: Area) -> Area
    requires inside { (area.x + area.width ≤ container.width) × (area.y + area.height ≤ container.height) }
    requires fits { (container.x + container.width < 2 ^ 32) × (container.y + container.height < 2 ^ 32) }
    ensures { result ≡ on_grid container area }
{
    Area {
        x: container.x + area.x,
        y: container.y + area.y,
        width: area.width,
        height: area.height,
    }
}

// Keeps the cells of a content, where it is mapped.
fn place_content(
    placed: &mut ByWindow<Area>,
    container: Area,
    content: &Content,
    place: Option<Area>,
) -> Result<(), AllocError>
    requires inside { LiesInside (extent_of container) place }
    requires fits { (container.x + container.width < 2 ^ 32) × (container.y + container.height < 2 ^ 32) }
    ensures { OnOk result (placed.new ≡ with_content container content.now place placed.old) }
{
    if let Some(area) = place {
        placed.insert(content.window, on_grid(container, area))?;
    }
    Ok(())
}

// Keeps the cells of the contents of a container, those that are mapped.
fn place_contents(
    placed: &mut ByWindow<Area>,
    container: Area,
    contents: Items<'_, Content>,
    places: &[Option<Area>],
) -> Result<(), AllocError>
    requires inside { AllByRecursion (LiesInside (extent_of container)) places.now }
    requires fits { (container.x + container.width < 2 ^ 32) × (container.y + container.height < 2 ^ 32) }
    ensures { OnOk result (placed.new ≡ with_contents container contents.entry places.now placed.old) }
{
    let mut rest = places;
    for content in contents {
        let Some((place, behind)) = rest.split_first() else {
            return Ok(());
        };
        place_content(placed, container, content, *place)?;
        rest = behind;
    }
    Ok(())
}

// Keeps the cells of what is packed in a window, where the window is shown itself.
fn place_in(
    placed: &mut ByWindow<Area>,
    area: Option<Area>,
    kept: &Kept,
    sizes: &ByWindow<Extent>,
) -> Result<(), AllocError>
    requires { IfSome area (λ a. (a.x + a.width < 2 ^ 32) × (a.y + a.height < 2 ^ 32)) }
    ensures { OnOk result (placed.new ≡ with_contents_of sizes.now kept.now area placed.old) }
{
    let Some(area) = area else {
        return Ok(());
    };
    let extent = Extent {
        width: area.width,
        height: area.height,
    };
    let places = kept.packing.place(sizes, extent)?;
    windows_lie_inside();
    place_contents(placed, area, kept.packing.contents(), &places)?;
    Ok(())
}

// Adds a window with its cells, where it is shown.
fn show(shown: &mut Vec<Placed>, window: WindowId, area: Option<Area>) -> Result<(), AllocError>
    ensures { OnOk result (shown.new.items ≡ shown.old.items ++ with_area window area []) }
{
    if let Some(area) = area {
        shown.push(Placed { window, area })?;
    }
    Ok(())
}

// The whole grid.
fn grid_area(grid: Size) -> Area
    ensures value { result ≡ grid_area grid }
    ensures small { (grid.width < 2 ^ 16) × (grid.height < 2 ^ 16) }
{
    Area {
        x: 0,
        y: 0,
        width: u32::from(grid.width()),
        height: u32::from(grid.height()),
    }
}

// The cells of the windows that are shown.
fn place_all(
    alloc: Global,
    variables: &Vars,
    row: &[&Kept],
    grid: Size,
) -> Result<ByWindow<Area>, AllocError>
    ensures inside { IfOk result (AllInside grid) }
    ensures value { IfOk result (λ p. p ≡ placed_in variables.now (map (λ k. k.now) row.now) grid) }
{
    let sizes = sizes_of(alloc, variables, row)?;
    let mut placed = ByWindow::with_capacity(alloc, row.len())?;
    placed.insert(WindowId::root(), grid_area(grid))?;
    for one in row {
        let area = placed.get(one.window);
        place_in(&mut placed, area, one, &sizes)?;
    }
    Ok(placed)
}

// Those of these windows that are shown, with their cells.
fn shown_among(
    alloc: Global,
    windows: &[WindowId],
    placed: &ByWindow<Area>,
) -> Result<Vec<Placed>, AllocError>
    ensures { IfOk result (λ shown. shown.items ≡ shown_of placed.now windows.now) }
{
    let mut shown = Vec::new(alloc);
    for window in windows {
        show(&mut shown, *window, placed.get(*window))?;
    }
    Ok(shown)
}

// Whether a cell of the grid is one of these.
fn covers(area: &Area, column: u32, row: u32) -> bool
    ensures { result ≡ covers area.now column row }
{
    let right = u64::from(area.x) + u64::from(area.width);
    let bottom = u64::from(area.y) + u64::from(area.height);
    area.x <= column && u64::from(column) < right && area.y <= row && u64::from(row) < bottom
}

// The last of these windows that covers a cell.
#[tactic(auto, using(crate::proofs::Layouts::last_of))]
fn last_over(shown: &[Placed], column: u32, row: u32) -> Option<Placed>
    ensures { result ≡ last_over shown.now column row }
{
    let mut rest = shown;
    while let Some((last, before)) = rest.split_last() {
        if covers(&last.area, column, row) {
            return Some(*last);
        }
        rest = before;
    }
    None
}

// Adds what a window asks for, where it shows a global.
fn add_asked(
    asked: &mut Vec<Asked>,
    alloc: Global,
    variables: &Vars,
    one: &Kept,
) -> Result<(), AllocError>
    ensures { OnOk result (asked.new.items ≡ asked.old.items ++ asked_by variables.now (one.now ∷ [])) }
{
    if one.widget.get().is_linked() {
        let size = one.widget.get().requested_as_seen(alloc, variables)?;
        asked.push(Asked {
            window: one.window,
            size,
        })?;
    }
    Ok(())
}

// What the windows that show globals ask for.
fn asked_by(alloc: Global, variables: &Vars, row: &[&Kept]) -> Result<Vec<Asked>, AllocError>
    ensures { IfOk result (λ v. v.items ≡ asked_by variables.now (map (λ k. k.now) row.now)) }
{
    let mut asked = Vec::new(alloc);
    for one in row {
        add_asked(&mut asked, alloc, variables, one)?;
    }
    Ok(asked)
}

// Windows that are shown, once more.
fn shown_again(alloc: Global, shown: &[Placed]) -> Result<Vec<Placed>, AllocError>
    ensures { IfOk result (λ v. v.items ≡ shown.now) }
{
    let mut again = Vec::with_capacity(alloc, shown.len())?;
    for placed in shown {
        again.push(*placed)?;
    }
    Ok(again)
}

impl World {
    // Where the windows lie, found anew.
    fn found(&self) -> Result<Laid, AllocError>
        ensures shown { IfOk result (λ laid. laid.shown ≡ shown_windows self.now) }
        ensures inside { IfOk result (λ laid. AllShownOn self.now.grid laid.shown) }
        ensures asked { IfOk result (λ laid. laid.asked ≡ asked_by self.now.variables self.now.kept) }
    {
        let row = in_a_row(self.alloc(), self.all_kept())?;
        let placed = place_all(self.alloc(), self.variables(), row.as_slice(), self.grid())?;
        let order = self.tree().preorder()?;
        let shown = shown_among(self.alloc(), &order, &placed)?;
        let asked = asked_by(self.alloc(), self.variables(), row.as_slice())?;
        Ok(Laid { shown, asked })
    }

    // Whether a window that shows a global asks for as much room as it did.
    fn still_asks(&self, asked: &Asked) -> Result<bool, AllocError>
        ensures { IfOk result (λ b. b ≡ true → asks_of self.now.variables self.now.kept asked.now.window ≡ Some asked.now.size) }
    {
        let Some(kept) = self.kept(asked.window) else {
            return Ok(false);
        };
        let size = kept
            .widget
            .get()
            .requested_as_seen(self.alloc(), self.variables())?;
        Ok(are_same(size, asked.size))
    }

    // Whether all these do.
    fn all_ask(&self, asked: &[Asked]) -> Result<bool, AllocError>
        ensures { IfOk result (λ b. b ≡ true → AllAsk self.now.variables self.now.kept asked.now) }
    {
        for one in asked {
            if !self.still_asks(one)? {
                return Ok(false);
            }
        }
        Ok(true)
    }

    // The windows that are shown, where it is known where they lie.
    fn known_windows(&self) -> Result<Option<&[Placed]>, AllocError>
        ensures value { IfOk result (λ known. IfSome known (λ shown. shown.now ≡ shown_windows self.now)) }
        ensures inside { IfOk result (λ known. IfSome known (λ shown. AllShownOn self.now.grid shown.now)) }
    {
        let Some(laid) = self.places() else {
            return Ok(None);
        };
        if self.all_ask(&laid.asked)? {
            Ok(Some(laid.shown.as_slice()))
        } else {
            Ok(None)
        }
    }

    /// Finds where the windows lie, where that isn't known, and keeps it for whoever asks next, until something changes that
    /// may move one.
    pub fn lay_out(&mut self) -> Result<(), AllocError>
        ensures { self.new ≡ self.old }
    {
        if self.known_windows()?.is_some() {
            return Ok(());
        }
        self.stands();
        let laid = self.found()?;
        self.keep_places(laid)
    }

    /// The window that is seen in a cell of the grid: the last in drawing order that covers it.
    pub fn topmost(&self, column: u32, row: u32) -> Result<Option<Placed>, AllocError>
        ensures value { IfOk result (λ seen. seen ≡ topmost self.now column row) }
        ensures inside { IfOk result (λ seen. IfSome seen (IsShownOn self.now.grid)) }
    {
        if let Some(shown) = self.known_windows()? {
            return Ok(last_over(shown, column, row));
        }
        let found = self.found()?;
        Ok(last_over(&found.shown, column, row))
    }

    /// The windows that are shown, with their cells on the grid, in the order in which they are drawn: `.`, and each
    /// window before those in it, siblings in the order in which they were made.
    pub fn shown_windows(&self) -> Result<Vec<Placed>, AllocError>
        ensures value { IfOk result (λ shown. shown.items ≡ shown_windows self.now) }
        ensures inside { IfOk result (λ shown. AllShownOn self.now.grid shown.items) }
    {
        match self.known_windows()? {
            Some(shown) => shown_again(self.alloc(), shown),
            None => {
                let Laid { shown, asked: _ } = self.found()?;
                Ok(shown)
            }
        }
    }
}
