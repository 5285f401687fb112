//! Steps under small limits, copies, and the parts of a world.

use crate::nothing::Nothing;
use std::alloc::Global;
use tks_app::Apps;
use tks_cmd::command;
use tks_eval::Plan;
use tks_limits::is_within;
use tks_share::{Marked, Share};
use tks_tcl::Stop;
use tks_text::{Limits, Size, Txt};
use tks_vars::Vars;
use tks_world::{Input, Refused, Reply, World, step};

/// The world before any input, on a grid of so many cells.
pub fn first_world(alloc: Global, width: u16, height: u16) -> Option<World> {
    World::first(alloc, Size::new(width, height)?, &[]).ok()
}

// Whether a script is accepted with code 0.
fn is_accepted(alloc: Global, world: &mut World, script: &str) -> Option<bool> {
    let input = Input::Script(Txt::from_bytes(alloc, script.as_bytes()).ok()?);
    let apps: Apps<Nothing, Nothing> = Apps::new(alloc);
    let reply = step(alloc, world, &apps, &input, &Limits::format1()).ok()?;
    Some(reply.code == 0)
}

/// The world behind a script that is accepted with code 0.
pub fn world_of(alloc: Global, width: u16, height: u16, script: &str) -> Option<World> {
    let mut world = first_world(alloc, width, height)?;
    if is_accepted(alloc, &mut world, script) == Some(true) {
        Some(world)
    } else {
        None
    }
}

/// A reply's number, code and text.
pub fn shown(alloc: Global, reply: &Reply) -> Option<Vec<u8>> {
    let front = format!(in alloc; "{} {} ", reply.number, reply.code).ok()?;
    let mut shown = Vec::from_slice(alloc, front.as_bytes()).ok()?;
    shown.extend_from_slice(reply.text.as_bytes()).ok()?;
    Some(shown)
}

// What a script does to a world: its reply, or why it is refused.
fn answer(alloc: Global, world: &mut World, limits: &Limits, script: &str) -> Option<Vec<u8>> {
    let input = Input::Script(Txt::from_bytes(alloc, script.as_bytes()).ok()?);
    let apps: Apps<Nothing, Nothing> = Apps::new(alloc);
    match step(alloc, world, &apps, &input, limits) {
        Ok(reply) => shown(alloc, &reply),
        Err(Refused::BadInput) => Vec::from_slice(alloc, b"bad").ok(),
        Err(Refused::Depth) => Vec::from_slice(alloc, b"depth").ok(),
        Err(Refused::TooLarge) => Vec::from_slice(alloc, b"large").ok(),
        Err(_) => None,
    }
}

// The first row whose script isn't answered as it says, of rows for one world.
fn differing<'a>(
    alloc: Global,
    world: &mut World,
    limits: &Limits,
    rows: &[(&'a str, &str)],
) -> &'a str {
    for (script, want) in rows {
        match answer(alloc, world, limits, script) {
            Some(told) if told.as_slice() == want.as_bytes() => {}
            _ => return script,
        }
    }
    "none"
}

#[test]
fn limits_are_kept(rt: HostRuntime) {
    let alloc = rt.alloc();
    let limits = Limits::format1();
    let Some(mut world) = first_world(alloc, 20, 3) else {
        return assert!(rt; false, "no world");
    };
    let rows = [("set x 12345", "1 0 12345"), ("$x$x", "2 1 E09 1234512345")];
    assert_eq!(rt; differing(alloc, &mut world, &limits, &rows), "none");
    let closed = Limits { depth: 0, ..limits };
    let rows = [("set x", "depth")];
    assert_eq!(rt; differing(alloc, &mut world, &closed, &rows), "none");
    let one_item = Limits { items: 1, ..limits };
    let rows = [("set y 1", "large"), ("set x 12346", "3 0 12346")];
    assert_eq!(rt; differing(alloc, &mut world, &one_item, &rows), "none");
    let short = Limits { text: 8, ..limits };
    let rows = [
        ("$x$x", "large"),
        ("set x 123", "bad"),
        ("set x 12", "4 0 12"),
    ];
    assert_eq!(rt; differing(alloc, &mut world, &short, &rows), "none");
}

// What words with spaces between them come to, in the form of a row; where they pass a limit, the world goes back, as a step does.
fn command_answer(alloc: Global, world: &mut World, limits: &Limits, row: &str) -> Option<Vec<u8>> {
    let mut words = Vec::new(alloc);
    for word in row.split(' ') {
        let text = Txt::from_bytes(alloc, word.as_bytes()).ok()?;
        words.push(text).ok()?;
    }
    let mut variables = Vars::new(alloc);
    let mark = world.mark().ok()?;
    match command(alloc, world, &mut variables, words.as_slice(), limits) {
        Ok(Some(Plan::Answer(code, text))) => {
            let reply = Reply {
                number: 0,
                code,
                text,
            };
            shown(alloc, &reply)
        }
        Err(Stop::TooLarge) => {
            world.back_to(mark);
            Vec::from_slice(alloc, b"large").ok()
        }
        _ => None,
    }
}

// Limits of three windows and of seven bytes: an error stands before a limit, and its text is under one too.
const ROWS: [(&str, &str); 12] = [
    ("frame .a", "0 0 .a"),
    ("label .b", "0 0 .b"),
    ("frame .c", "large"),
    ("frame .a", "0 1 E31 .a"),
    ("frame .c -f 1", "0 1 E34 -f"),
    ("destroy .a", "0 0 "),
    ("frame .cdefgh", "0 0 .cdefgh"),
    ("pack .b .cdefgh", "0 0 "),
    ("pack slaves .", "large"),
    ("frame .cdefgh", "large"),
    ("destroy .b", "0 0 "),
    ("frame .cdefghi", "large"),
];

// Under the same limits: what a listbox and a text hold.
const HELD: [(&str, &str); 18] = [
    ("listbox .l", "0 0 .l"),
    (".l insert 0 a b c", "0 0 "),
    (".l insert end d", "large"),
    (".l insert x d", "0 1 E19 x"),
    (".l delete 0", "0 0 "),
    (".l insert end d", "0 0 "),
    ("text .t", "0 0 .t"),
    (".t insert end abcdefg", "0 0 "),
    (".t insert 1.0 h", "large"),
    (".t get 1.0 1.7", "0 0 abcdefg"),
    (".t mark set a 1.0", "0 0 "),
    (".t mark set b 1.0", "0 0 "),
    (".t mark set c 1.0", "large"),
    (".t mark set b 1.1", "0 0 "),
    (".t tag add u 1.0", "0 0 "),
    (".t tag add v 1.0", "0 0 "),
    (".t tag add w 1.0", "0 0 "),
    (".t tag add x 1.0", "large"),
];

// What details of more bytes than their patterns have pass, and what options and marks are at first.
const LONGER: [(&str, &str); 10] = [
    ("bind . ^ x", "large"),
    ("bind . ^ ", "0 0 "),
    ("bind . a x", "0 0 "),
    ("bind . <<V>> x", "0 0 "),
    ("event add <<V>> a ^", "large"),
    ("event info", "0 0 "),
    ("event add <<V>> a", "0 0 "),
    ("event generate . ^", "large"),
    ("event generate . ^ -when tail", "large"),
    ("label .l", "0 0 .l"),
];

// The same under a limit of five bytes.
const AT_FIRST: [(&str, &str); 4] = [
    ("frame .f", "0 0 .f"),
    ("label .l", "large"),
    ("text .t", "large"),
    ("destroy .f", "0 0 "),
];

// Limits of so many items, and of so many bytes.
fn limits_of(items: u32, text: u32) -> Limits {
    Limits {
        items,
        text,
        ..Limits::format1()
    }
}

// The first row that isn't answered as it says, of rows for one world.
fn differing_command<'a>(
    alloc: Global,
    world: &mut World,
    limits: Limits,
    rows: &[(&'a str, &str)],
) -> &'a str {
    for (row, want) in rows {
        match command_answer(alloc, world, &limits, row) {
            Some(told) if told.as_slice() == want.as_bytes() => {}
            _ => return row,
        }
    }
    "none"
}

// The same of the first world.
fn differing_row<'a>(alloc: Global, limits: Limits, rows: &[(&'a str, &str)]) -> &'a str {
    match first_world(alloc, 20, 3) {
        Some(mut world) => differing_command(alloc, &mut world, limits, rows),
        None => "no world",
    }
}

#[test]
fn limits_of_windows_are_kept(rt: HostRuntime) {
    assert_eq!(rt; differing_row(rt.alloc(), limits_of(3, 7), &ROWS), "none");
}

#[test]
fn limits_of_what_widgets_hold_are_kept(rt: HostRuntime) {
    assert_eq!(rt; differing_row(rt.alloc(), limits_of(3, 7), &HELD), "none");
}

#[test]
fn what_is_made_keeps_the_limits(rt: HostRuntime) {
    assert_eq!(rt;
        differing_row(rt.alloc(), limits_of(40, 10), &LONGER),
        "none"
    );
    assert_eq!(rt;
        differing_row(rt.alloc(), limits_of(40, 5), &AT_FIRST),
        "none"
    );
}

// Whether a world and its copy, in which `x` is 5, change each for itself.
fn go_their_ways(alloc: Global, world: &mut World, copy: &mut World) -> bool {
    let limits = Limits::format1();
    let same_grid = copy.grid().width() == 20 && copy.grid().height() == 3;
    same_grid
        && differing(alloc, world, &limits, &[("set x 6", "2 0 6")]) == "none"
        && differing(alloc, copy, &limits, &[("set x", "2 0 5")]) == "none"
}

// Whether the copy of a world in which `x` is 5 goes its own way.
fn parts_from_its_copy(alloc: Global, world: &mut World) -> Option<bool> {
    let mut copy = world.share().ok()?;
    Some(go_their_ways(alloc, world, &mut copy))
}

fn copy_goes_its_own_way(alloc: Global) -> Option<bool> {
    let mut world = world_of(alloc, 20, 3, "set x 5")?;
    parts_from_its_copy(alloc, &mut world)
}

#[test]
fn a_copy_goes_its_own_way(rt: HostRuntime) {
    assert_eq!(rt; copy_goes_its_own_way(rt.alloc()), Some(true));
}

#[test]
fn a_world_counts_and_keeps_variables(rt: HostRuntime) {
    let Some(mut world) = first_world(rt.alloc(), 20, 3) else {
        return assert!(rt; false, "no world");
    };
    assert_eq!(rt; world.accepted(), 0);
    world.set_accepted(1);
    assert_eq!(rt; world.accepted(), 1);
    assert_eq!(rt; world.variables().depth(), 0);
}

// Whether the first world keeps within limits of these lengths.
fn first_keeps(alloc: Global, text: u32, items: u32) -> Option<bool> {
    let world = first_world(alloc, 20, 3)?;
    let limits = Limits {
        text,
        items,
        ..Limits::format1()
    };
    Some(is_within(&world, &limits))
}

// Its longest text is a script of 88 characters, and it has 25 bindings.
#[test]
fn what_the_first_world_takes(rt: HostRuntime) {
    let alloc = rt.alloc();
    assert_eq!(rt; first_keeps(alloc, 88, 25), Some(true));
    assert_eq!(rt; first_keeps(alloc, 87, 25), Some(false));
    assert_eq!(rt; first_keeps(alloc, 88, 24), Some(false));
}
