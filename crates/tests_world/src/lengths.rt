//! The length of a world's spelling, beside what is written of it.

use crate::counting::{Counter, Counting, with_counter};
use crate::refusals::world_for;
use std::alloc::Global;
use tks_app::Apps;
use tks_codec::{world_length, write_world};
use tks_text::{Limits, Txt};
use tks_world::{Input, World, step};

// Windows of each class with options and tags of their own, packed and not.
const WINDOWS: &str =
    "frame .f -width 5; label .f.l -text {a label}; button .b -text go -command {set x 1}; checkbutton .c -variable v; pack .f .b -side left; pack .f.l -padx 2 -expand 1; bindtags .b {.b all mine}; pack propagate .f 0; focus .b";

// What an entry, a listbox and a text hold.
const HELD: &str =
    "entry .e; .e insert 0 abc; listbox .l; .l insert 0 a b {c d}; .l selection set 1; text .t; .t insert 1.0 \"one\\ntwo three\"; .t mark set m 1.2; .t tag add u 1.0 1.1; .t tag add u 1.2 2.0; .t tag add v 2.3 end; .t tag add w 1.0; .t tag remove w 1.0; pack .e .l .t";

// What scripts bound to events rest on, and what waits.
const EVENTS: &str =
    "bind . <Control-Key-x> {set r %K}; bind all <x><Double-Button-1> y; event add <<V>> <Control-y> <a><b>; event generate . <Key-x>; event generate . <<V>> -when tail -data some; after 100 {set late 1}; after idle {set idle 1}";

// Variables, an array, procedures, a memory.
const VARIABLES: &str =
    "set s 1; set list {}; lappend list a {b c}; set a(x) 1; set a(yy) two; proc p {a {b 2} args} {return $a}; proc q {} {}; app.next; app.next";

// Whether the length that is told is that of what is written.
fn is_told(alloc: Global, world: &World) -> bool {
    let mut bytes = Vec::new(alloc);
    match write_world(alloc, world, &mut bytes) {
        Ok(()) => world_length(world) == Some(bytes.len() as u64),
        Err(_) => false,
    }
}

// Whether a script is accepted with code 0.
fn is_accepted(
    alloc: Global,
    world: &mut World,
    apps: &Apps<Counting, Counter>,
    script: &str,
) -> Option<bool> {
    let input = Input::Script(Txt::from_bytes(alloc, script.as_bytes()).ok()?);
    let reply = step(alloc, world, apps, &input, &Limits::format1()).ok()?;
    Some(reply.code == 0)
}

// Whether the length is told of a world, and behind each of these scripts.
fn are_told(
    alloc: Global,
    world: &mut World,
    apps: &Apps<Counting, Counter>,
    scripts: &[&str],
) -> bool {
    if !is_told(alloc, world) {
        return false;
    }
    for script in scripts {
        if is_accepted(alloc, world, apps, script) != Some(true) || !is_told(alloc, world) {
            return false;
        }
    }
    true
}

// The same of the first world for an application that remembers.
fn worlds_are_told(alloc: Global, scripts: &[&str]) -> bool {
    let Some(apps) = with_counter(alloc) else {
        return false;
    };
    match world_for(alloc, &apps) {
        Some(mut world) => are_told(alloc, &mut world, &apps, scripts),
        None => false,
    }
}

#[test]
fn a_world_is_as_long_as_what_is_written(rt: HostRuntime) {
    let scripts = [WINDOWS, HELD, EVENTS, VARIABLES];
    assert!(rt; worlds_are_told(rt.alloc(), &scripts));
}
