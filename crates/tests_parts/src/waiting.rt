//! Timers and idle scripts beside a plain list.

use crate::plain::Plain;
use crate::texts::text_of_bytes as text;
use crate::trial::call_agrees;
use std::alloc::Global;
use tests_disk::Dice;
use tks_share::Share;
use tks_text::{ErrorNumber, Failure, Txt};
use tks_timer::{Timers, Waiting};

#[test]
fn timers_do_what_a_plain_list_does(rt: HostRuntime) {
    let alloc = rt.alloc();
    for seed in 0..20 {
        let mut dice = Dice::new(seed);
        let mut timers = Timers::new(alloc);
        let mut plain = Plain::new(alloc);
        for call in 0..200 {
            let agrees = call_agrees(alloc, &mut timers, &mut plain, &mut dice) == Some(true);
            assert!(rt; agrees, "seed {seed}, call {call}");
        }
    }
}

fn ids_are(timers: &Timers, ids: &[u64]) -> bool {
    match timers.ids() {
        Ok(found) => found.as_slice() == ids,
        Err(_) => false,
    }
}

fn is_timer(timers: &Timers, id: u64, written: &Txt, script: &[u8]) -> bool {
    match timers.info(id, written) {
        Ok(Waiting::Timer(found)) => found.as_bytes() == script,
        _ => false,
    }
}

fn is_idle(timers: &Timers, id: u64, written: &Txt, script: &[u8]) -> bool {
    match timers.info(id, written) {
        Ok(Waiting::Idle(found)) => found.as_bytes() == script,
        _ => false,
    }
}

fn is_nothing(timers: &Timers, id: u64, written: &Txt) -> bool {
    match timers.info(id, written) {
        Err(Failure::Script(fault)) => {
            let Some(subject) = &fault.subject else {
                return false;
            };
            fault.number.number() == ErrorNumber::NoSuchAfterId.number() && subject == written
        }
        _ => false,
    }
}

// What is told of a timer and an idle script, before and after the timer is cancelled.
fn tells(alloc: Global, timers: &mut Timers) -> Option<bool> {
    let (first, second) = (text(alloc, b"after#0")?, text(alloc, b"after#1")?);
    timers.after(9, text(alloc, b"a b")?).ok()?;
    timers.idle(text(alloc, b"c")?).ok()?;
    let before = ids_are(timers, &[0, 1])
        && is_timer(timers, 0, &first, b"a b")
        && is_idle(timers, 1, &second, b"c");
    timers.cancel_script(&text(alloc, b"a b")?).ok()?;
    Some(before && ids_are(timers, &[1]) && is_nothing(timers, 0, &first))
}

#[test]
fn after_info_tells_what_waits(rt: HostRuntime) {
    let mut timers = Timers::new(rt.alloc());
    assert_eq!(rt; tells(rt.alloc(), &mut timers), Some(true));
}

// Of those that are due, the first due, then that of the least id.
fn run_in_order(timers: &mut Timers) -> Option<bool> {
    let first = timers.due(2).is_none() && timers.due(9) == Some(1);
    timers.cancel(1).ok()?;
    let second = timers.due(9) == Some(2);
    timers.cancel(2).ok()?;
    let is_last = timers.due(9) == Some(0) && timers.timer_count() == 1;
    Some(first && second && is_last && timers.idle_count() == 0)
}

// Whether the copy of such timers runs so, and leaves them.
fn runs_in_order(alloc: Global, timers: &mut Timers) -> Option<bool> {
    timers.after(5, text(alloc, b"a")?).ok()?;
    timers.after(3, text(alloc, b"b")?).ok()?;
    timers.after(3, text(alloc, b"c")?).ok()?;
    let mut copy = timers.share().ok()?;
    Some(run_in_order(&mut copy)? && timers.timer_count() == 3)
}

#[test]
fn timers_run_by_due_time_and_then_id(rt: HostRuntime) {
    let mut timers = Timers::new(rt.alloc());
    assert_eq!(rt; runs_in_order(rt.alloc(), &mut timers), Some(true));
}
