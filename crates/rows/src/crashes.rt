//! What is there behind a crash: of a session at its end, and of one that is stopped after each number of calls of its disk.

use crate::setup::{Setup, answered};
use std::alloc::Global;
use tks_app::AppBody;
use tks_disk::{Fuse, Left, MemoryDisk};

/// The line between the lines of one session and those of the next.
pub const BETWEEN: &str = "--\n";

/// More calls than the lines that are stopped may take.
const MAX_CALLS: u64 = 1_000;

/// What crashes leave of what wasn't synced, on both sides.
const LEFTS: [Left; 6] = [
    Left::Old,
    Left::New,
    Left::Fill(0),
    Left::Fill(1),
    Left::Fill(7),
    Left::Fill(255),
];

// Adds what lines are answered behind each crash.
fn put_crashes<B: AppBody>(
    alloc: Global,
    disk: &MemoryDisk,
    setup: Setup<B>,
    lines: &str,
    told: &mut Vec<u8>,
) -> Option<Setup<B>> {
    let mut setup = setup;
    for left in LEFTS {
        told.extend_from_slice(b"| ").ok()?;
        let crashed = disk.crash(alloc, left, left).ok()?;
        setup = answered(alloc, crashed, setup, lines, told).2;
    }
    Some(setup)
}

// What the lines come to that are stopped after so many calls: whether they came to their end, what is told of it, and the
// setup again.
fn stopped<B: AppBody>(
    alloc: Global,
    disk: &MemoryDisk,
    setup: Setup<B>,
    calls: u64,
    lines: (&str, &str),
) -> Option<(bool, Vec<u8>, Setup<B>)> {
    let again = disk.crash(alloc, Left::New, Left::New).ok()?;
    let mut answers = Vec::new(alloc);
    let fuse = Fuse::new(again, calls);
    let (is_told, fuse, setup) = answered(alloc, fuse, setup, lines.0, &mut answers);
    let word = if is_told { "told\n" } else { "stopped\n" };
    let mut told = Vec::from_slice(alloc, word.as_bytes()).ok()?;
    let setup = put_crashes(alloc, &fuse.into_inner(), setup, lines.1, &mut told)?;
    Some((is_told, told, setup))
}

/// Adds what a session comes to that is stopped, for each number of calls up to the one with which it is told; what is the same
/// for several in turn is told once.
pub fn put_stops<B: AppBody>(
    alloc: Global,
    setup: Setup<B>,
    lines: &str,
    written: &mut Vec<u8>,
) -> Option<()> {
    let (before, rest) = lines.split_once(BETWEEN)?;
    let lines = rest.split_once(BETWEEN)?;
    let mut answers = Vec::new(alloc);
    let (_, disk, setup) = answered(alloc, MemoryDisk::new(alloc), setup, before, &mut answers);
    let mut setup = setup;
    let mut last = Vec::new(alloc);
    for calls in 0..MAX_CALLS {
        let (is_told, told, back) = stopped(alloc, &disk, setup, calls, lines)?;
        setup = back;
        if told.as_slice() != last.as_slice() {
            written.extend_from_slice(told.as_slice()).ok()?;
        }
        if is_told {
            return Some(());
        }
        last = told;
    }
    None
}

/// Adds what a session answers, and what one answers that is opened behind a crash of it, with what wasn't synced as it was. Where
/// that isn't opened, it is opened once more.
pub fn put_again<B: AppBody>(
    alloc: Global,
    setup: Setup<B>,
    lines: &str,
    written: &mut Vec<u8>,
) -> Option<()> {
    let (first, second) = lines.split_once(BETWEEN)?;
    let (_, disk, setup) = answered(alloc, MemoryDisk::new(alloc), setup, first, written);
    written.extend_from_slice(BETWEEN.as_bytes()).ok()?;
    let crashed = disk.crash(alloc, Left::Old, Left::Old).ok()?;
    let (is_told, crashed, setup) = answered(alloc, crashed, setup, second, written);
    if !is_told {
        answered(alloc, crashed, setup, second, written);
    }
    Some(())
}
