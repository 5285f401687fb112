//! Buttons that go down and up over cells of the grid.
ghost use Rattle.std.specs.Prelude.{◌≡◌, ◌≤◌, ◌<◌, ◌^◌, ◌==◌, true, option_copied, IfOk, IfErr, IfSome, OnErr};
ghost use Rattle.std.specs.List.{find};
ghost use Rattle.tks_text.specs.Size.{IsGridSize};
ghost use Rattle.tks_event.specs.Kinds.{is_of_button};
ghost use Rattle.tks_world.specs.Meets.{RefusedSo};
ghost use Rattle.tks_world.specs.Stepped.{Accepts};
ghost use Rattle.tks_world.specs.Buttons.{is_button_number, on_grid, target_placed, target_at, target_of, release_target, IsNear, button_event, press_gesture, release_gesture, press_step, release_step};

use crate::gestures::{Gesture, accept_gesture};
use std::alloc::{AllocError, Global};
use tks_event::{Event, EventFields, Kind};
use tks_input::{Refused, Reply};
use tks_state::{Placed, World};
use tks_text::{Limits, Txt, decimal_of};
use tks_tree::WindowId;

/// The window that an event of a button goes to.
#[derive(Clone, Copy)]
pub struct Target {
    pub window: WindowId,
    /// The column of its top left cell on the grid; 0 where it is not shown.
    pub column: u32,
    /// The row of that cell.
    pub row: u32,
}

// Whether there is a button of a number.
fn is_button_number(button: u8) -> bool
    ensures { result ≡ is_button_number button }
{
    (1..=5).contains(&button)
}

// Whether there is a cell in a column and a row.
fn is_on_grid(world: &World, x: u16, y: u16) -> bool
    ensures { result ≡ on_grid world.now x y }
{
    let grid = world.grid();
    x < grid.width() && y < grid.height()
}

// What holds of the grid and the clock of each world.
fn bounds(world: &World)
    ensures grid { IsGridSize world.now.grid.width world.now.grid.height }
    ensures clock { world.now.clock < 2 ^ 62 }
{
    let _ = world.grid().width();
    let _ = world.clock();
}

// A window with its top left cell, which counts as that of the grid where it is not shown.
fn target_placed(window: WindowId, placed: Option<Placed>) -> Target
    requires low { window ≤ 2 ^ 62 }
    requires near { IfSome placed (λ p. (p.area.x ≤ 200) × (p.area.y ≤ 100)) }
    ensures value { result ≡ target_placed window placed }
    ensures near { IsNear result }
{
    match placed {
        Some(placed) => Target {
            window,
            column: placed.area.x,
            row: placed.area.y,
        },
        None => Target {
            window,
            column: 0,
            row: 0,
        },
    }
}

// The window that is seen in a cell; `.` has those that no other has.
fn target_at(world: &World, x: u16, y: u16) -> Result<Target, AllocError>
    ensures value { IfOk result (λ t. t ≡ target_at world.now x y) }
    ensures near { IfOk result IsNear }
{
    bounds(world);
    match world.topmost(u32::from(x), u32::from(y))? {
        Some(placed) => Ok(target_placed(placed.window, Some(placed))),
        None => Ok(target_placed(WindowId::root(), None)),
    }
}

// Where a window lies, if it is one of those that are shown.
fn placed(shown: &[Placed], window: WindowId) -> Option<Placed>
    ensures { result ≡ find (λ p. p.window == window) shown.now }
{
    for placed in shown {
        if placed.window.number() == window.number() {
            return Some(*placed);
        }
    }
    None
}

// The window of a number.
fn target_of(world: &World, window: WindowId) -> Result<Target, AllocError>
    requires { window ≤ 2 ^ 62 }
    ensures value { IfOk result (λ t. t ≡ target_of world.now window) }
    ensures near { IfOk result IsNear }
{
    bounds(world);
    let shown = world.shown_windows()?;
    Ok(target_placed(window, placed(&shown, window)))
}

// The window that a release goes to.
fn release_target(world: &World, x: u16, y: u16) -> Result<Target, AllocError>
    ensures value { IfOk result (λ t. t ≡ release_target world.now x y) }
    ensures near { IfOk result IsNear }
{
    match world.pressed() {
        Some(window) => {
            let target = target_of(world, window)?;
            Ok(target)
        }
        None => {
            let target = target_at(world, x, y)?;
            Ok(target)
        }
    }
}

// What the event of a button says.
fn button_fields(
    alloc: Global,
    world: &World,
    kind: Kind,
    button: u8,
    x: u16,
    y: u16,
    target: &Target,
) -> Result<EventFields, AllocError>
    ensures { IfOk result (λ e. e ≡ button_event kind button x y target.now world.now) }
{
    Ok(EventFields {
        window: target.window.number(),
        kind,
        detail: decimal_of(alloc, i64::from(button))?,
        state: world.held().state(),
        time: world.clock(),
        x: i64::from(x) - i64::from(target.column),
        y: i64::from(y) - i64::from(target.row),
        root_x: i64::from(x),
        root_y: i64::from(y),
        payload: Txt::new(alloc),
    })
}

// The event of a button.
fn button_event(
    alloc: Global,
    world: &World,
    kind: Kind,
    button: u8,
    x: u16,
    y: u16,
    target: &Target,
) -> Result<Event, AllocError>
    requires kind { is_of_button kind ≡ true }
    requires button { is_button_number button ≡ true }
    requires cell { on_grid world.now x y ≡ true }
    requires near { IsNear target.now }
    ensures { IfOk result (λ e. e ≡ button_event kind button x y target.now world.now) }
{
    bounds(world);
    let fields = button_fields(alloc, world, kind, button, x, y, target)?;
    Ok(Event::new(fields))
}

// A button goes down over a cell. The window that is seen there takes the press.
fn press_gesture(
    alloc: Global,
    world: &World,
    button: u8,
    x: u16,
    y: u16,
) -> Result<Gesture, AllocError>
    requires button { is_button_number button ≡ true }
    requires cell { on_grid world.now x y ≡ true }
    ensures { IfOk result (λ g. g ≡ press_gesture button x y (target_at world.now x y) world.now) }
{
    let target = target_at(world, x, y)?;
    let event = button_event(alloc, world, Kind::ButtonPress, button, x, y, &target)?;
    let mut held = world.held();
    held.set_button(button, true);
    Ok(Gesture {
        event,
        held,
        took: Some(target.window),
    })
}

// A button goes up over a cell.
fn release_gesture(
    alloc: Global,
    world: &World,
    button: u8,
    x: u16,
    y: u16,
) -> Result<Gesture, AllocError>
    requires button { is_button_number button ≡ true }
    requires cell { on_grid world.now x y ≡ true }
    ensures { IfOk result (λ g. g ≡ release_gesture button x y (release_target world.now x y) world.now) }
{
    let target = release_target(world, x, y)?;
    let event = button_event(alloc, world, Kind::ButtonRelease, button, x, y, &target)?;
    let mut held = world.held();
    held.set_button(button, false);
    Ok(Gesture {
        event,
        held,
        took: None,
    })
}

// The same, however the windows are found.
fn press_over(
    alloc: Global,
    world: &mut World,
    button: u8,
    x: u16,
    y: u16,
    limits: &Limits,
) -> Result<Reply, Refused>
    ensures accepted { IfOk result (λ reply. press_step limits.now button x y world.old ≡ Accepts world.new reply) }
    ensures refused { IfErr result (λ why. RefusedSo why (press_step limits.now button x y world.old)) }
    ensures unchanged { OnErr result (world.new ≡ world.old) }
{
    if !is_button_number(button) || !is_on_grid(world, x, y) {
        return Err(Refused::BadInput);
    }
    let gesture = press_gesture(alloc, world, button, x, y)?;
    let reply = accept_gesture(alloc, world, gesture, limits)?;
    Ok(reply)
}

/// A button goes down over a cell. The window that is seen there takes the press.
pub fn press_button(
    alloc: Global,
    world: &mut World,
    button: u8,
    x: u16,
    y: u16,
    limits: &Limits,
) -> Result<Reply, Refused>
    ensures accepted { IfOk result (λ reply. press_step limits.now button x y world.old ≡ Accepts world.new reply) }
    ensures refused { IfErr result (λ why. RefusedSo why (press_step limits.now button x y world.old)) }
    ensures unchanged { OnErr result (world.new ≡ world.old) }
{
    // Where memory is refused, nothing is kept of where the windows lie.
    let _ = world.lay_out();
    press_over(alloc, world, button, x, y, limits)
}

// The same, however the windows are found.
fn release_over(
    alloc: Global,
    world: &mut World,
    button: u8,
    x: u16,
    y: u16,
    limits: &Limits,
) -> Result<Reply, Refused>
    ensures accepted { IfOk result (λ reply. release_step limits.now button x y world.old ≡ Accepts world.new reply) }
    ensures refused { IfErr result (λ why. RefusedSo why (release_step limits.now button x y world.old)) }
    ensures unchanged { OnErr result (world.new ≡ world.old) }
{
    if !is_button_number(button) || !is_on_grid(world, x, y) {
        return Err(Refused::BadInput);
    }
    let gesture = release_gesture(alloc, world, button, x, y)?;
    let reply = accept_gesture(alloc, world, gesture, limits)?;
    Ok(reply)
}

/// A button goes up over a cell. The release goes to the window that took the last press, if it is there.
pub fn release_button(
    alloc: Global,
    world: &mut World,
    button: u8,
    x: u16,
    y: u16,
    limits: &Limits,
) -> Result<Reply, Refused>
    ensures accepted { IfOk result (λ reply. release_step limits.now button x y world.old ≡ Accepts world.new reply) }
    ensures refused { IfErr result (λ why. RefusedSo why (release_step limits.now button x y world.old)) }
    ensures unchanged { OnErr result (world.new ≡ world.old) }
{
    // Where memory is refused, nothing is kept of where the windows lie.
    let _ = world.lay_out();
    release_over(alloc, world, button, x, y, limits)
}
