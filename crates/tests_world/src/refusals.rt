//! Inputs that are refused for want of steps, at each step that they take: the world stays as it was, byte by byte, and once
//! the steps are enough the answer is the session's.

use crate::counting::with_counter;
use crate::nothing::Nothing;
use crate::turns::input_of;
use crate::worlds::{first_world, shown};
use std::alloc::Global;
use tks_app::{AppBody, AppMeaning, Apps};
use tks_codec::write_world;
use tks_text::{Limits, Size};
use tks_world::{Input, Refused, World, step};

// The world's bytes.
fn bytes_of(alloc: Global, world: &World) -> Option<Vec<u8>> {
    let mut bytes = Vec::new(alloc);
    write_world(alloc, world, &mut bytes).ok()?;
    Some(bytes)
}

// The answer to an input that may take so many steps; an empty one where these are too few and the world is as it was.
fn answer_within<T: AppMeaning, B: AppBody>(
    alloc: Global,
    world: &mut World,
    apps: &Apps<T, B>,
    input: &Input,
    fuel: u64,
    before: &[u8],
) -> Option<Vec<u8>> {
    let limits = Limits {
        fuel,
        ..Limits::format1()
    };
    match step(alloc, world, apps, input, &limits) {
        Ok(reply) => shown(alloc, &reply),
        Err(Refused::Budget) => {
            let after = bytes_of(alloc, world)?;
            if after.as_slice() == before {
                Some(Vec::new(alloc))
            } else {
                None
            }
        }
        Err(_) => None,
    }
}

// The answer to an input that is given with no step, with one, with two and so on, until it is accepted.
fn answer_at_last<T: AppMeaning, B: AppBody>(
    alloc: Global,
    world: &mut World,
    apps: &Apps<T, B>,
    row: &str,
) -> Option<Vec<u8>> {
    let input = input_of(alloc, row)?;
    let before = bytes_of(alloc, world)?;
    for fuel in 0..100 {
        let told = answer_within(alloc, world, apps, &input, fuel, before.as_slice())?;
        if !told.is_empty() {
            return Some(told);
        }
    }
    None
}

// The first row that isn't answered as it says, of rows for one world.
fn differing_in<'a, T: AppMeaning, B: AppBody>(
    alloc: Global,
    world: &mut World,
    apps: &Apps<T, B>,
    rows: &[(&'a str, &str)],
) -> &'a str {
    for (row, want) in rows {
        match answer_at_last(alloc, world, apps, row) {
            Some(told) if told.as_slice() == want.as_bytes() => {}
            _ => return row,
        }
    }
    "none"
}

// The same of the first world, without an application.
fn differing<'a>(alloc: Global, rows: &[(&'a str, &str)]) -> &'a str {
    let apps: Apps<Nothing, Nothing> = Apps::new(alloc);
    match first_world(alloc, 20, 6) {
        Some(mut world) => differing_in(alloc, &mut world, &apps, rows),
        None => "no world",
    }
}

/// The first world for an application.
pub fn world_for<T: AppMeaning, B: AppBody>(alloc: Global, apps: &Apps<T, B>) -> Option<World> {
    let names = apps.names(alloc).ok()?;
    World::first(alloc, Size::new(20, 3)?, names.as_slice()).ok()
}

// The same of the first world, with the application that counts.
fn differing_beside<'a>(alloc: Global, rows: &[(&'a str, &str)]) -> &'a str {
    let Some(apps) = with_counter(alloc) else {
        return "no application";
    };
    match world_for(alloc, &apps) {
        Some(mut world) => differing_in(alloc, &mut world, &apps, rows),
        None => "no world",
    }
}

// Each script changes several parts of a world, and the last of its commands tells what came of it.
const SESSION: [(&str, &str); 17] = [
    (
        "set x 5; set a(1) one; lappend l b {c d}; set n 3; unset x; list $a(1) $l $n [info exists x]",
        "1 0 one {b {c d}} 3 0",
    ),
    (
        "proc add {u {v 2}} {global n; set n [expr {$n + $u + $v}]}; add 4; add 1 1; set n",
        "2 0 11",
    ),
    (
        "frame .f; label .f.l -text one; entry .e; listbox .b; text .t; pack .f .e .b .t; pack .f.l; pack slaves .",
        "3 0 .f .e .b .t",
    ),
    (
        ".f.l configure -text two; .e insert end ab; .b insert end x y; list [.f.l cget -text] [.e get] [.b size]",
        "4 0 two ab 2",
    ),
    (
        ".t insert end {a b}; .t tag add u 1.0; .t mark set m 1.1; .t index m",
        "5 0 1.1",
    ),
    (
        "bindtags .f {.f all}; bind .f <Key> {set k %K}; bind .f <Key> +x; bindtags .f",
        "6 0 .f all",
    ),
    (
        "event add <<Go>> <Control-g> <Up>; bind .e <<Go>> {incr n}; event delete <<Go>> <Up>; event info <<Go>>",
        "7 0 <Control-KeyPress-g>",
    ),
    (
        "after 5 {incr n}; after idle {incr n 2}; after cancel after#0; after 7 {set k b; x; set k c}; after info",
        "8 0 after#1 after#2",
    ),
    (
        "focus .f; event generate .f <Key> -keysym a -when tail; event generate .b <<Go>> -when head; focus",
        "9 0 .f",
    ),
    (
        "pack propagate .f 0; pack forget .e; destroy .b .t; pack slaves .",
        "10 0 .f",
    ),
    ("clock 7", "11 0 "),
    ("turn", "12 0 event FocusOut ."),
    ("turn", "13 0 event FocusIn .f"),
    ("turn", "14 0 event KeyPress .f"),
    ("turn", "15 0 timer after#2"),
    ("turn", "16 0 idle after#1"),
    (
        "destroy .f; event delete <<Go>>; list $k $n [focus] [event info]",
        "17 0 b 13 . {}",
    ),
];

#[test]
fn a_refused_input_leaves_the_world(rt: HostRuntime) {
    assert_eq!(rt; differing(rt.alloc(), &SESSION), "none");
}

// A key whose script generates an event and calls an application; that event's script leaves a timer.
const WITH_APPLICATION: [(&str, &str); 9] = [
    (
        "entry .e -textvariable v; pack .e; bind .e <Key-a> {event generate .e <<V>>; app.next}; bind .e <<V>> {lappend q %W; after 0 {incr n}}; focus .e",
        "1 0 ",
    ),
    ("key a", "2 0 "),
    ("clock 1", "3 0 "),
    ("turn", "4 0 event FocusOut ."),
    ("turn", "5 0 event FocusIn .e"),
    ("turn", "6 0 event KeyPress .e"),
    ("turn", "7 0 timer after#0"),
    ("list $q $n $v", "8 0 .e 1 a"),
    ("app.next", "9 0 2"),
];

#[test]
fn a_refused_input_leaves_memories(rt: HostRuntime) {
    assert_eq!(rt; differing_beside(rt.alloc(), &WITH_APPLICATION), "none");
}
