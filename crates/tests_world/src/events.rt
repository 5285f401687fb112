//! Delivering an event, up to the scripts that are to run.
use crate::worlds::world_of;
use std::alloc::Global;
use tks_cmd::begin;
use tks_eval::Plan;
use tks_event::{Event, EventFields, Kind, Modifiers};
use tks_tcl::Stop;
use tks_text::{Limits, Txt};
use tks_world::World;

// The bindings of a key: in its focus window, in all, and in a window that hasn't the focus.
const BOUND: &str =
    "frame .a; bind . <Key> {set r %K}; bind . <x><y> {set r xy}; bind all <Control-Key> {set %W %t}; bind .a <Key> {set never}";

// A key of the window `.a` that goes down with Control held.
fn key(alloc: Global, keysym: &[u8]) -> Option<Event> {
    Event::restore(EventFields {
        window: 1,
        kind: Kind::KeyPress,
        detail: Txt::from_bytes(alloc, keysym).ok()?,
        state: Modifiers::from_bits(4)?,
        time: 7,
        x: 0,
        y: 0,
        root_x: 0,
        root_y: 0,
        payload: Txt::new(alloc),
    })
}

// Whether a key that goes down in the window `.` gives just two scripts, these.
fn gives(
    alloc: Global,
    world: &mut World,
    keysym: &[u8],
    first: &[u8],
    second: &[u8],
) -> Option<bool> {
    let limits = Limits::format1();
    match begin(alloc, world, key(alloc, keysym)?, &limits) {
        Ok(Plan::Dispatch(0, scripts)) => {
            let told = scripts.as_slice();
            Some(
                told.len() == 2
                    && told.first()?.as_bytes() == first
                    && told.last()?.as_bytes() == second,
            )
        }
        _ => None,
    }
}

// The focus window's scripts in the order of its tags, their percent forms replaced; each key joins the history.
fn gives_both(alloc: Global, world: &mut World) -> Option<bool> {
    Some(
        gives(alloc, world, b"x", b"set r x", b"set . 7")?
            && gives(alloc, world, b"y", b"set r xy", b"set . 7")?,
    )
}

fn two_keys(alloc: Global) -> Option<bool> {
    let mut world = world_of(alloc, 20, 3, BOUND)?;
    gives_both(alloc, &mut world)
}

#[test]
fn events_give_scripts_before_any_runs(rt: HostRuntime) {
    let given = two_keys(rt.alloc()) == Some(true);
    assert!(rt; given);
}

// Whether a key stops at a limit of so many bytes, which its scripts of 7 bytes pass or don't.
fn stops_at(alloc: Global, text: u32) -> Option<bool> {
    let limits = Limits {
        text,
        ..Limits::format1()
    };
    let key = key(alloc, b"x")?;
    let mut world = world_of(alloc, 20, 3, BOUND)?;
    match begin(alloc, &mut world, key, &limits) {
        Ok(_) => Some(false),
        Err(Stop::TooLarge) => Some(true),
        Err(_) => None,
    }
}

#[test]
fn scripts_of_events_keep_the_limit(rt: HostRuntime) {
    let kept = stops_at(rt.alloc(), 6) == Some(true) && stops_at(rt.alloc(), 7) == Some(false);
    assert!(rt; kept);
}
