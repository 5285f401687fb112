//! Journals that are stopped, crashed and cut.

use crate::crashes::left;
use crate::journal_trial::{bytes_of, opened_text, run, state};
use crate::plain::plain_text;
use std::alloc::Global;
use tks_disk::{Disk, Fuse, MemoryDisk, Side};

// Whether the disk holds just this, for the plain program and opened.
fn holds<D: Disk + Drop>(alloc: Global, disk: D, wanted: &[u8], other: &[u8]) -> Option<bool> {
    let mut disk = disk;
    let a = bytes_of(alloc, &mut disk, Side::A)?;
    let b = bytes_of(alloc, &mut disk, Side::B)?;
    let plain = plain_text(alloc, &a, &b)?;
    let opened = opened_text(alloc, disk)?;
    Some(
        (plain.as_slice() == wanted || plain.as_slice() == other)
            && opened.as_slice() == plain.as_slice(),
    )
}

// How many things were acknowledged, where the disk holds what they left, or one thing more.
fn acknowledged<D: Disk + Drop>(alloc: Global, disk: D, done: usize) -> Option<usize> {
    if holds(alloc, disk, state(done), state(done.wrapping_add(1)))? {
        Some(done)
    } else {
        None
    }
}

// Stopped after so many calls and crashed so, the disk holds what was acknowledged, or one thing more. How many were
// acknowledged.
fn stopped(alloc: Global, calls: u64, a: usize, b: usize) -> Option<usize> {
    let (done, fuse) = run(alloc, Fuse::new(MemoryDisk::new(alloc), calls));
    let disk = fuse.into_inner();
    match disk.crash(alloc, left(a), left(b)) {
        Ok(crashed) => acknowledged(alloc, crashed, done),
        Err(_) => None,
    }
}

// The same for each kind of crash.
fn stopped_each(alloc: Global, calls: u64) -> Option<usize> {
    let mut least = 8;
    for a in 0..5 {
        for b in 0..5 {
            least = stopped(alloc, calls, a, b)?;
        }
    }
    Some(least)
}

#[test]
fn each_stop_leaves_what_was_acknowledged(rt: HostRuntime) {
    let alloc = rt.alloc();
    let mut last = 0;
    for calls in 0..120 {
        let done = stopped_each(alloc, calls);
        assert!(rt; done.is_some(), "after {calls} calls");
        last = done.unwrap_or(0);
    }
    assert_eq!(rt; last, 8);
}

// Whether an empty disk, once it has these bytes, holds this.
fn filled_holds<D: Disk + Drop>(
    alloc: Global,
    disk: D,
    a: &[u8],
    b: &[u8],
    wanted: &[u8],
) -> Option<bool> {
    let mut disk = disk;
    disk.write_at(Side::A, 0, a).ok()?;
    disk.write_at(Side::B, 0, b).ok()?;
    holds(alloc, disk, wanted, wanted)
}

fn sides_hold(alloc: Global, a: &[u8], b: &[u8], wanted: &[u8]) -> Option<bool> {
    filled_holds(alloc, MemoryDisk::new(alloc), a, b, wanted)
}

// The first side after so many things.
fn first_side(alloc: Global, calls: u64) -> Option<Vec<u8>> {
    let (_, fuse) = run(alloc, Fuse::new(MemoryDisk::new(alloc), calls));
    let mut disk = fuse.into_inner();
    bytes_of(alloc, &mut disk, Side::A)
}

// A side of the first format: a world and two frames.
const OLD: &[u8] =
    b"\x01\x01\0\0\0\0\0\0\0\x07\0\x14\0\x03\0\0\0\0\0\0\0\0\0\0\0\x02ab\x01\0\0\0\x03xyz\x01\0\0\0\0\0";

#[test]
fn a_side_that_is_cut_is_damaged(rt: HostRuntime) {
    let alloc = rt.alloc();
    let whole =
        b"\x01\x02\0\0\0\0\0\0\0\x07\0\x14\0\x03\0\0\0\0\0\0\0\0\0\0\0\x02ab\x01\0\0\0\x03xyz\x01\0\0\0\0\0";
    assert_eq!(rt;
        sides_hold(alloc, whole, b"", b"\x07\x02ab\xffxyz\xff"),
        Some(true)
    );
    assert_eq!(rt;
        sides_hold(alloc, OLD, b"", b"\x07\x01ab\xffxyz\xff"),
        Some(true)
    );
    for cut in 0..whole.len() {
        let wanted: &[u8] = if cut < 2 { b"nothing" } else { b"damaged" };
        let front = whole.get(..cut).unwrap_or(b"");
        assert_eq!(rt;
            sides_hold(alloc, front, b"", wanted),
            Some(true),
            "cut to {cut}"
        );
        assert_eq!(rt;
            sides_hold(alloc, b"\x01", front, wanted),
            Some(true),
            "B cut to {cut}"
        );
    }
}

#[test]
fn sides_at_fault_are_told_apart(rt: HostRuntime) {
    let alloc = rt.alloc();
    let five = b"\x01\x01\0\0\0\0\0\0\0\x05\0\x14\0\x03\0\0\0\0\0\0\0\0\0\0\0\x01a\0";
    let six = b"\x01\x02\0\0\0\0\0\0\0\x06\0\x14\0\x03\0\0\0\0\0\0\0\0\0\0\0\x01b\0";
    let none = b"\x01\x01\0\0\0\0\0\0\0\0\0\x14\0\x03\0\0\0\0\0\0\0\0\0\0\0\x01b\0";
    let cut = b"\x01\x01\0\0\0\0\0\0\0\x05\0\x14\0\x03\0\0\0\0\0\0\0\0\0\0\0\x09a\0";
    let long =
        b"\x01\x01\0\0\0\0\0\0\0\x05\0\x14\0\x03\0\0\0\0\0\0\0\0\0\0\0\x01a\x01\xff\xff\xff\xff\0";
    assert_eq!(rt; sides_hold(alloc, b"", b"", b"nothing"), Some(true));
    assert_eq!(rt; sides_hold(alloc, b"\x01", b"\x01", b"nothing"), Some(true));
    assert_eq!(rt; sides_hold(alloc, b"\x01\0", b"", b"unknown"), Some(true));
    assert_eq!(rt; sides_hold(alloc, b"\x01\x03", b"", b"unknown"), Some(true));
    assert_eq!(rt; sides_hold(alloc, six, b"\x01\x03", b"unknown"), Some(true));
    assert_eq!(rt;
        sides_hold(alloc, b"\x01\x01", b"\x01\x02", b"damaged"),
        Some(true)
    );
    assert_eq!(rt;
        sides_hold(alloc, b"\x01\x01\0\0\0", b"", b"damaged"),
        Some(true)
    );
    assert_eq!(rt; sides_hold(alloc, five, six, b"\x06\x02b"), Some(true));
    assert_eq!(rt; sides_hold(alloc, six, five, b"\x06\x02b"), Some(true));
    assert_eq!(rt; sides_hold(alloc, five, five, b"damaged"), Some(true));
    assert_eq!(rt; sides_hold(alloc, none, b"", b"damaged"), Some(true));
    assert_eq!(rt; sides_hold(alloc, cut, six, b"\x06\x02b"), Some(true));
    assert_eq!(rt; sides_hold(alloc, cut, b"", b"damaged"), Some(true));
    assert_eq!(rt; sides_hold(alloc, long, b"", b"damaged"), Some(true));
    assert_eq!(rt; sides_hold(alloc, long, six, b"\x06\x02b"), Some(true));
}

// The bytes that eight things leave on the first side, the third of its generation.
#[test]
fn a_side_is_written_to_the_byte(rt: HostRuntime) {
    let side = first_side(rt.alloc(), 10_000);
    let wanted =
        b"\x01\x02\0\0\0\0\0\0\0\x03\0\x14\0\x03\0\0\0\0\0\0\0\0\0\0\0\0\x01\0\0\0\x05seven\0";
    let begins = side.is_some_and(|bytes| bytes.as_slice().starts_with(wanted));
    assert!(rt; begins);
}
