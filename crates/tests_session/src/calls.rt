//! A session by its calls: what is counted, what is told of turns, and what is answered once the device failed.

use crate::own::{Setup, with_both};
use std::alloc::Global;
use tks_app::AppBody;
use tks_disk::{Disk, Fuse, MemoryDisk};
use tks_session::{Drained, Input, Refused, Reply, SessionFault};
use tks_text::{Limits, Txt};

// Two scripts that wait.
fn waiting(alloc: Global) -> Option<Input> {
    let script = Txt::from_bytes(alloc, b"after 0 {set x 1}; after 0 {set x 2}").ok()?;
    Some(Input::Script(script))
}

// Whether a session counts what is posted and what is committed, and tells each of its turns.
fn counts_on<D: Disk + Drop, B: AppBody>(alloc: Global, disk: D, setup: Setup<B>) -> Option<bool> {
    let mut session = setup.open(alloc, disk).ok()?;
    let reply = session.post(&waiting(alloc)?).ok()?;
    let is_first = reply.number == 1 && session.posted() == 1 && session.acknowledged() == 0;
    let mut told = 0u64;
    let drained = session.drain(
        9,
        &mut |reply: &Reply| told = (told % 10) * 10 + reply.number % 10,
    );
    let all = Drained {
        turns: 2,
        ended: Some(Refused::Quiet),
    };
    let is_drained = drained == all && told == 23 && session.world().accepted() == 3;
    let is_committed = session.commit() == Ok(3);
    Some(
        is_first
            && is_drained
            && is_committed
            && session.posted() == 3
            && session.acknowledged() == 3
            && !session.has_failed(),
    )
}

// The same on an empty disk.
fn counts(alloc: Global) -> Option<bool> {
    let setup = with_both(alloc, 3, Limits::format1())?;
    counts_on(alloc, MemoryDisk::new(alloc), setup)
}

#[test]
fn what_is_posted_and_committed_is_counted(rt: HostRuntime) {
    assert_eq!(rt; counts(rt.alloc()), Some(true));
}

// Whether a session whose first commit fails takes nothing from then on, and tells what it told before; nothing where it isn't
// opened.
fn fails_on<D: Disk + Drop, B: AppBody>(alloc: Global, disk: D, setup: Setup<B>) -> Option<bool> {
    let mut session = setup.open(alloc, disk).ok()?;
    let is_posted = session.post(&waiting(alloc)?).is_ok();
    let has_failed = session.commit() == Err(SessionFault::Disk) && session.has_failed();
    let none = Drained {
        turns: 0,
        ended: Some(Refused::Failed),
    };
    let mut told = 0u64;
    let is_none = session.drain(0, &mut |reply: &Reply| told = reply.number) == none
        && session.drain(2, &mut |reply: &Reply| told = reply.number) == none;
    Some(
        is_posted
            && has_failed
            && is_none
            && told == 0
            && matches!(session.post(&Input::Turn), Err(Refused::Failed))
            && session.commit() == Err(SessionFault::Failed)
            && session.posted() == 1
            && session.acknowledged() == 0
            && session.world().accepted() == 1,
    )
}

// The same of a disk that lets just the calls of the opening pass.
fn fails(alloc: Global) -> Option<bool> {
    for calls in 0..40 {
        let disk = Fuse::new(MemoryDisk::new(alloc), calls);
        let fails = fails_on(alloc, disk, with_both(alloc, 3, Limits::format1())?);
        if fails.is_some() {
            return fails;
        }
    }
    None
}

#[test]
fn nothing_is_taken_once_the_device_failed(rt: HostRuntime) {
    assert_eq!(rt; fails(rt.alloc()), Some(true));
}
