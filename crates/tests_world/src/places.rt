//! Where windows lie, and which one lies at a cell.

use crate::worlds::world_of;
use std::alloc::Global;
use tks_screen::window_at;
use tks_state::{Placed, World};
use tks_tree::WindowId;

// Adds the path of a window.
fn put_path(world: &World, window: WindowId, text: &mut Vec<u8>) -> Option<()> {
    match world.tree().window(window) {
        Some(window) => text.extend_from_slice(window.path.as_bytes()).ok(),
        None => None,
    }
}

// Adds a window and its place.
fn put_place(alloc: Global, world: &World, placed: &Placed, text: &mut Vec<u8>) -> Option<()> {
    put_path(world, placed.window, text)?;
    let area = placed.area;
    let place = format!(in alloc; " {} {} {} {}", area.x, area.y, area.width, area.height).ok()?;
    text.extend_from_slice(place.as_bytes()).ok()
}

// The windows that are shown, other than `.`, with their places.
fn places(alloc: Global, world: &World) -> Option<Vec<u8>> {
    let mut places = Vec::new(alloc);
    for placed in &world.shown_windows().ok()? {
        if !placed.window.is_root() {
            if !places.is_empty() {
                places.push(b',').ok()?;
            }
            put_place(alloc, world, placed, &mut places)?;
        }
    }
    Some(places)
}

// Where windows lie on a grid of 20 by 10: by tools/rows/places.tcl with wish 8.6.13.
fn rows() -> &'static str {
    "frame .f -width 5 -height 2;frame .f.a -width 9 -height 1;pack .f.a -side left;pack .f => .f 5 0 9 1,.f.a 5 0 9 1\n\
frame .f -width 5 -height 2;frame .f.a -width 9 -height 1;pack .f.a;pack .f;pack propagate .f 0 => .f 7 0 5 2,.f.a 7 0 5 1\n\
frame .f;frame .f.a -width 3 -height 1;frame .f.b -width 4 -height 2;pack .f.a -side left;pack .f.b -side right;pack .f -side bottom -anchor e => .f 13 8 7 2,.f.a 13 8 3 1,.f.b 16 8 4 2\n\
frame .f;frame .f.g;frame .f.g.h -width 7 -height 3;pack .f.g.h -padx 1;pack .f.g -pady 1;pack .f -expand 1 -fill both => .f 0 0 20 10,.f.g 5 1 9 3,.f.g.h 6 1 7 3\n\
frame .f;frame .f.a -width 3 -height 3;pack .f.a;frame .g -width 2 -height 2;pack .g -side right -anchor s => .g 18 8 2 2\n\
frame .a -width 4 -height 12;frame .b -width 6 -height 6;pack .a;pack .b => .a 8 0 4 10\n\
frame .f;frame .f.a -width 30 -height 4;frame .f.b -width 5 -height 5;pack .f.a -side left;pack .f.b -side left;pack .f => .f 0 0 20 5,.f.a 0 0 20 4\n\
frame .f;frame .f.a -width 3 -height 3;frame .f.b -width 2 -height 2;pack .f.a;pack .f.b;pack .f;pack forget .f.a => .f 9 0 2 2,.f.b 9 0 2 2\n\
frame .f;frame .f.a -width 3 -height 3;frame .f.b -width 2 -height 2;pack .f.a;pack .f.b;pack .f -anchor w;destroy .f.b => .f 0 0 3 3,.f.a 0 0 3 3\n\
frame .f;frame .f.a -width 3 -height 3;pack .f.a;pack .f;pack forget .f => \n\
frame .b -width 2 -height 2;frame .a -width 3 -height 1;frame .b.c -width 1 -height 1;pack .a;pack .b;pack .b.c -side right => .b 9 1 1 1,.b.c 9 1 1 1,.a 8 0 3 1\n\
frame .f;frame .f.a -width 3 -height 2;frame .f.a.x -width 8 -height 1;pack .f.a -side bottom;pack .f.a.x -fill y -ipadx 2;pack .f -side left -fill y => .f 0 0 12 10,.f.a 0 9 12 1,.f.a.x 0 9 12 1"
}

#[test]
fn windows_lie_where_they_lie_in_wish(rt: HostRuntime) {
    for row in rows().lines() {
        assert_eq!(rt; lies(rt.alloc(), row), Some(true), "at {row}");
    }
}

// Whether these are the places of a world's windows.
fn has_places(alloc: Global, world: &World, want: &str) -> Option<bool> {
    Some(places(alloc, world)?.as_slice() == want.as_bytes())
}

// Whether the windows of a row lie where it says.
fn lies(alloc: Global, row: &str) -> Option<bool> {
    let (script, want) = row.split_once(" => ")?;
    let world = world_of(alloc, 20, 10, script)?;
    has_places(alloc, &world, want)
}

// The last character of a window's path.
fn last_of_path(world: &World, window: WindowId) -> Option<u8> {
    match world.tree().window(window) {
        Some(window) => window.path.as_bytes().last().copied(),
        None => None,
    }
}

// The last character of the path of the window in each cell, row by row.
fn seen(alloc: Global, world: &World) -> Option<Vec<u8>> {
    let mut seen = Vec::new(alloc);
    for row in 0..3 {
        for column in 0..20 {
            let window = window_at(world, column, row).ok()??;
            seen.push(last_of_path(world, window)?).ok()?;
        }
    }
    Some(seen)
}

// Whether these windows are seen in a world's cells, and none outside.
fn shows(alloc: Global, world: &World, want: &str) -> Option<bool> {
    let outside = window_at(world, 20, 0).ok()?;
    Some(seen(alloc, world)?.as_slice() == want.as_bytes() && outside.is_none())
}

// Whether each cell shows the window that covers it.
fn shows_each(alloc: Global) -> Option<bool> {
    let script = "frame .f;label .f.a -text abc;pack .f.a -side left;pack .f -anchor w";
    let want = "aaa.........................................................";
    let world = world_of(alloc, 20, 3, script)?;
    shows(alloc, &world, want)
}

#[test]
fn each_cell_shows_its_window(rt: HostRuntime) {
    assert_eq!(rt; shows_each(rt.alloc()), Some(true));
}
