//! Keys, buttons, the clock, turns and `update`: what limits and want of memory leave of them.

use crate::nothing::Nothing;
use crate::worlds::{first_world, shown};
use std::alloc::Global;
use std::str::Split;
use tks_app::Apps;
use tks_text::{Limits, Txt};
use tks_world::{Input, Refused, World, step};

// The text of the next word.
fn next_text(alloc: Global, words: &mut Split<'_, char>) -> Option<Txt> {
    Txt::from_bytes(alloc, words.next()?.as_bytes()).ok()
}

// The number that the next word spells.
fn next_number(words: &mut Split<'_, char>) -> Option<u64> {
    words.next()?.parse::<u64>().ok()
}

// A button, and a cell of the grid.
fn next_press(words: &mut Split<'_, char>) -> Option<(u8, u16, u16)> {
    let button = u8::try_from(next_number(words)?).ok()?;
    let x = u16::try_from(next_number(words)?).ok()?;
    let y = u16::try_from(next_number(words)?).ok()?;
    Some((button, x, y))
}

/// The input that a row tells by words with a space between them; one that names no other kind is a script.
pub fn input_of(alloc: Global, row: &str) -> Option<Input> {
    let mut words = row.split(' ');
    let kind = words.next()?;
    if kind == "key" {
        return Some(Input::KeyPress(next_text(alloc, &mut words)?));
    }
    if kind == "keyup" {
        return Some(Input::KeyRelease(next_text(alloc, &mut words)?));
    }
    if kind == "press" {
        let (button, x, y) = next_press(&mut words)?;
        return Some(Input::Press { button, x, y });
    }
    if kind == "release" {
        let (button, x, y) = next_press(&mut words)?;
        return Some(Input::Release { button, x, y });
    }
    if kind == "clock" {
        return Some(Input::Clock(next_number(&mut words)?));
    }
    if kind == "turn" {
        return Some(Input::Turn);
    }
    if kind == "rules" {
        return Some(Input::Rules(u8::try_from(next_number(&mut words)?).ok()?));
    }
    Some(Input::Script(Txt::from_bytes(alloc, row.as_bytes()).ok()?))
}

// The word for a refusal.
fn refusal(refused: Refused) -> &'static [u8] {
    match refused {
        Refused::BadInput => b"bad",
        Refused::ClockBack => b"clock",
        Refused::Budget => b"budget",
        Refused::Depth => b"depth",
        Refused::TooLarge => b"large",
        Refused::NoMemory => b"memory",
        Refused::Quiet => b"quiet",
        _ => b"other",
    }
}

// What an input does to a world: its reply, or why it is refused.
fn answer(alloc: Global, world: &mut World, limits: &Limits, input: &Input) -> Option<Vec<u8>> {
    let apps: Apps<Nothing, Nothing> = Apps::new(alloc);
    match step(alloc, world, &apps, input, limits) {
        Ok(reply) => shown(alloc, &reply),
        Err(refused) => Vec::from_slice(alloc, refusal(refused)).ok(),
    }
}

// The same; where memory was refused, the world is as it was, so the input is tried again.
fn answer_in_the_end(
    alloc: Global,
    world: &mut World,
    limits: &Limits,
    row: &str,
) -> Option<Vec<u8>> {
    let input = input_of(alloc, row)?;
    let first = answer(alloc, world, limits, &input)?;
    if first.as_slice() == b"memory".as_slice() {
        return answer(alloc, world, limits, &input);
    }
    Some(first)
}

// The first row that isn't answered as it says, of rows for one world.
fn differing_in<'a>(
    alloc: Global,
    world: &mut World,
    limits: &Limits,
    rows: &[(&'a str, &str)],
) -> &'a str {
    for (row, want) in rows {
        match answer_in_the_end(alloc, world, limits, row) {
            Some(told) if told.as_slice() == want.as_bytes() => {}
            _ => return row,
        }
    }
    "none"
}

// The same of the first world.
fn differing<'a>(alloc: Global, limits: &Limits, rows: &[(&'a str, &str)]) -> &'a str {
    match first_world(alloc, 20, 3) {
        Some(mut world) => differing_in(alloc, &mut world, limits, rows),
        None => "no world",
    }
}

// A session of keys, timers, buttons and turns, with an error that joins the faults and a turn that is refused.
const SESSION: [(&str, &str); 30] = [
    ("turn", "quiet"),
    ("bind . <Control-a> {set r a%s; after 2 {incr n}}", "1 0 "),
    ("key Control_L", "2 0 "),
    ("key a", "3 0 "),
    ("keyup Control_L", "4 0 "),
    ("key nosuch", "bad"),
    ("turn", "5 0 event KeyPress ."),
    ("turn", "6 0 event KeyPress ."),
    ("set r", "7 0 a4"),
    ("turn", "8 0 event KeyRelease ."),
    ("turn", "quiet"),
    ("clock 2", "9 0 "),
    ("clock 1", "clock"),
    ("clock 2", "10 0 "),
    ("clock 4611686018427387904", "bad"),
    ("turn", "11 0 timer after#0"),
    ("set n", "12 0 1"),
    ("frame .f -width 3 -height 1; pack .f -side left", "13 0 "),
    (
        "bind .f <1> {set r %x,%y,%X,%Y}; bind .f <ButtonRelease> {set u %x,%s}",
        "14 0 ",
    ),
    ("press 1 2 1", "15 0 "),
    ("release 1 5 2", "16 0 "),
    ("press 9 0 0", "bad"),
    ("press 1 20 0", "bad"),
    ("turn", "17 0 event ButtonPress .f"),
    ("turn", "18 0 event ButtonRelease .f"),
    ("list $r $u", "19 0 2,0,2,1 5,256"),
    (
        "after idle {incr n; while 1 {}}; after 0 {break}",
        "20 0 after#2",
    ),
    ("turn", "21 0 timer after#2"),
    ("turn", "budget"),
    ("set n", "22 0 1"),
];

#[test]
fn a_session_of_turns(rt: HostRuntime) {
    let limits = Limits::format1();
    assert_eq!(rt; differing(rt.alloc(), &limits, &SESSION), "none");
}

// What one input parsed is there for others: a procedure that a key and timers run is made anew, and a turn is refused.
const PARSED: [(&str, &str); 13] = [
    (
        "proc f {x} {global r; lappend r $x}; bind . <Key> {f %K}; f 0",
        "1 0 0",
    ),
    ("key a", "2 0 "),
    ("turn", "3 0 event KeyPress ."),
    (
        "proc f {x} {global r; lappend r -$x}; after 0 {f t}",
        "4 0 after#0",
    ),
    ("key a", "5 0 "),
    ("turn", "6 0 event KeyPress ."),
    ("turn", "7 0 timer after#0"),
    ("proc f {x} {while 1 {}}; after 0 {f t}", "8 0 after#1"),
    ("turn", "budget"),
    ("turn", "budget"),
    ("proc f {x} {global r; lappend r +$x}", "9 0 "),
    ("turn", "10 0 timer after#1"),
    ("set r", "11 0 0 a -a -t +t"),
];

#[test]
fn what_was_parsed_is_there_for_others(rt: HostRuntime) {
    let limits = Limits::format1();
    assert_eq!(rt; differing(rt.alloc(), &limits, &PARSED), "none");
}

#[test]
fn limits_of_events_are_kept(rt: HostRuntime) {
    let limits = Limits {
        items: 2,
        text: 9,
        ..Limits::format1()
    };
    let rows = [
        ("key asciitilde", "large"),
        ("key backslash", "1 0 "),
        ("key a", "2 0 "),
        ("key b", "large"),
        ("press 1 0 0", "large"),
        ("turn", "3 0 event KeyPress ."),
        ("press 1 0 0", "4 0 "),
        ("keyup a", "large"),
    ];
    assert_eq!(rt; differing(rt.alloc(), &limits, &rows), "none");
}

// By which rules a world goes, and `update` by the second ones: where it runs what waits, what that leaves of the scripts
// around it, and how it ends. The timer that isn't due stays.
const UPDATES: [(&str, &str); 28] = [
    ("catch {update}", "1 0 1"),
    ("proc update {} {return mine}; update", "2 0 mine"),
    ("rules 3", "bad"),
    ("rules 0", "bad"),
    ("rules 1", "3 0 "),
    ("rules 2", "4 0 "),
    ("rules 1", "bad"),
    ("rules 2", "5 0 "),
    ("after idle {set a 1}; update; set a", "6 0 1"),
    ("proc update {} {}", "7 1 E17 update"),
    ("update x", "8 1 E10 update"),
    ("update idletasks x", "9 1 E10 update"),
    ("list [update] [update idletasks]", "10 0 {} {}"),
    (
        "proc f {} {set x 1; after idle {set x 2}; update; set x}; list [f] $x",
        "11 0 1 2",
    ),
    (
        "foreach i {1 2} {after idle break; update; lappend q $i}; set q",
        "12 0 1 2",
    ),
    (
        "after idle {after idle {lappend r b}; update; lappend r a}; after idle {lappend r c}; update; set r",
        "13 0 c b a",
    ),
    ("after 5 {set t 1}; update; info exists t", "14 0 0"),
    (
        "bind . <<W>> {lappend s w}; bind all <<V>> {lappend s old}",
        "15 0 ",
    ),
    (
        "bind . <<V>> {lappend s 1; bind all <<V>> {lappend s new}; event generate . <<W>> -when tail; update; lappend s 2}",
        "16 0 ",
    ),
    ("event generate . <<V>>; set s", "17 0 1 w 2 old"),
    (
        "frame .f; bind Frame <<V>> {lappend g late}; bind . <<W>> {destroy .f}",
        "18 0 ",
    ),
    (
        "bind .f <<V>> {event generate . <<W>> -when tail; update; lappend g after}; event generate .f <<V>>; set g",
        "19 0 after",
    ),
    (
        "after idle {error e}; after idle {set h 1; return x}; update; set h",
        "20 0 1",
    ),
    ("turn", "quiet"),
    (
        "after idle {set k 1}; after 0 {set k 2}; update idletasks; set k",
        "21 0 1",
    ),
    ("turn", "22 0 timer after#11"),
    ("set k", "23 0 2"),
    ("turn", "quiet"),
];

#[test]
fn update_does_what_waits(rt: HostRuntime) {
    let limits = Limits::format1();
    assert_eq!(rt; differing(rt.alloc(), &limits, &UPDATES), "none");
}

// `update idletasks` leaves the event and the timer, which `update` then does in the order of turns.
const IN_ORDER: [(&str, &str); 2] = [
    ("rules 2", "1 0 "),
    (
        "bind . <<V>> {lappend r v}; after idle {lappend r i}; after 0 {lappend r t}; event generate . <<V>> -when tail; update idletasks; lappend r x; update; set r",
        "2 0 i x v t",
    ),
];

// What never ends is refused as a whole, whatever was done.
const ENDLESS: [(&str, &str); 6] = [
    ("rules 2", "1 0 "),
    ("proc l {} {after idle l}; l; update", "budget"),
    ("proc l {} {after idle l}; l; catch update", "budget"),
    (
        "bind . <<V>> {event generate . <<V>> -when tail; update}; event generate . <<V>>",
        "depth",
    ),
    ("info exists l; after info", "2 0 "),
    ("bind .", "3 0 "),
];

#[test]
fn update_goes_by_the_order_of_turns(rt: HostRuntime) {
    let limits = Limits::format1();
    assert_eq!(rt; differing(rt.alloc(), &limits, &IN_ORDER), "none");
}

#[test]
fn updates_that_never_end_are_refused(rt: HostRuntime) {
    let limits = Limits::format1();
    assert_eq!(rt; differing(rt.alloc(), &limits, &ENDLESS), "none");
}
