//! Sides of both formats: frames as each has them, and a store of the first one that is gone on with.

use crate::journal_trial::bytes_of;
use crate::sessions::{LOG, fails, kept, lived, opens};
use std::alloc::Global;
use tks_disk::{Disk, Fuse, MemoryDisk, Side};
use tks_durable::SessionFault;

// A side of each format, up to the gate behind its world: generation 1, 20 by 3, no names, a world of one byte `a`.
const ONE: &[u8] = b"\x01\x01\0\0\0\0\0\0\0\x01\0\x14\0\x03\0\0\0\0\0\0\0\0\0\0\0\x01a";

const TWO: &[u8] = b"\x01\x02\0\0\0\0\0\0\0\x01\0\x14\0\x03\0\0\0\0\0\0\0\0\0\0\0\x01a";

// The side with a frame of these bytes, fewer than 256.
fn with_frame(alloc: Global, side: &[u8], frame: &[u8]) -> Option<Vec<u8>> {
    let mut bytes = side.to_vec(alloc).ok()?;
    let length = (frame.len() % 256) as u8;
    bytes.extend_from_slice(&[1, 0, 0, 0, length]).ok()?;
    bytes.extend_from_slice(frame).ok()?;
    bytes.push(0).ok()?;
    Some(bytes)
}

// Whether the side opens to this text with such a frame, or is damaged where there is none.
fn is_so(alloc: Global, side: &[u8], frame: &[u8], text: Option<&[u8]>) -> Option<bool> {
    let bytes = with_frame(alloc, side, frame)?;
    Some(match text {
        Some(text) => opens(alloc, bytes.as_slice(), b"", text),
        None => fails(alloc, bytes.as_slice(), b"", SessionFault::Damaged),
    })
}

#[test]
fn a_frame_of_the_first_format_is_inputs(rt: HostRuntime) {
    let rows: [(&str, &[u8], Option<&[u8]>); 4] = [
        ("an input", b"\x01\0\0\0\x01b", Some(b"ab")),
        ("two", b"\x01\0\0\0\x01b\x01\0\0\0\x01c", Some(b"abc")),
        ("none", b"", Some(b"a")),
        ("a count", b"\0\0\0\x01\x01\0\0\0\x01b", None),
    ];
    for (what, frame, text) in rows {
        assert_eq!(rt; is_so(rt.alloc(), ONE, frame, text), Some(true), "{what}");
    }
}

#[test]
fn a_frame_of_the_second_format_has_their_count(rt: HostRuntime) {
    let rows: [(&str, &[u8], Option<&[u8]>); 14] = [
        ("an input", b"\0\0\0\x01\x01\0\0\0\x01b", Some(b"ab")),
        (
            "two",
            b"\0\0\0\x02\x01\0\0\0\x01b\x01\0\0\0\x01c",
            Some(b"abc"),
        ),
        ("none", b"\0\0\0\0", Some(b"a")),
        ("two, and one is there", b"\0\0\0\x02\x01\0\0\0\x01b", None),
        (
            "one, and two are there",
            b"\0\0\0\x01\x01\0\0\0\x01b\x01\0\0\0\x01c",
            None,
        ),
        ("none, and one is there", b"\0\0\0\0\x01\0\0\0\x01b", None),
        ("one, and none is there", b"\0\0\0\x01", None),
        (
            "the greatest count",
            b"\xff\xff\xff\xff\x01\0\0\0\x01b",
            None,
        ),
        (
            "two, and one is there that is bad by now",
            b"\0\0\0\x02\x01\0\0\0\x02bc",
            None,
        ),
        ("a cut input", b"\0\0\0\x01\x01\0\0\0\x02b", None),
        ("no bytes", b"", None),
        ("a cut count", b"\0\0\0", None),
        ("an input without its count", b"\x01\0\0\0\x01b", None),
        ("a turn without its count", b"\x07", None),
    ];
    for (what, frame, text) in rows {
        assert_eq!(rt; is_so(rt.alloc(), TWO, frame, text), Some(true), "{what}");
    }
}

// The disk with a side of the first format.
fn with_old<D: Disk + Drop>(alloc: Global, disk: D) -> Option<D> {
    let mut side = ONE.to_vec(alloc).ok()?;
    side.push(0).ok()?;
    let mut disk = disk;
    disk.write_at(Side::A, 0, side.as_slice()).ok()?;
    disk.sync(Side::A).ok()?;
    Some(disk)
}

// The sides that a session leaves which does this on a store of the first format, where so many letters are acknowledged.
fn left_by(alloc: Global, acts: &[u8], letters: u64) -> Option<(Vec<u8>, Vec<u8>)> {
    let disk = with_old(alloc, MemoryDisk::new(alloc))?;
    let (told, disk) = lived(alloc, disk, LOG, acts);
    if told? != letters {
        return None;
    }
    let mut disk = disk;
    let a = bytes_of(alloc, &mut disk, Side::A)?;
    let b = bytes_of(alloc, &mut disk, Side::B)?;
    Some((a, b))
}

// Whether a session leaves such sides, which open to such a text.
fn leaves(alloc: Global, acts: &[u8], a: &[u8], b: &[u8], text: &[u8]) -> Option<bool> {
    let left = left_by(alloc, acts, text.len() as u64)?;
    Some(left.0.as_slice() == a && left.1.as_slice() == b && opens(alloc, a, b, text))
}

// The old side with a frame of its own format.
const COMMITTED: &[u8] =
    b"\x01\x01\0\0\0\0\0\0\0\x01\0\x14\0\x03\0\0\0\0\0\0\0\0\0\0\0\x01a\x01\0\0\0\x06\x01\0\0\0\x01b\0";

// A side of the second format that a checkpoint began, and one with a frame.
const BEGUN: &[u8] = b"\x01\x02\0\0\0\0\0\0\0\x02\0\x14\0\x03\0\0\0\0\0\0\0\0\0\0\0\x03abc\0";

const GONE_ON: &[u8] =
    b"\x01\x02\0\0\0\0\0\0\0\x02\0\x14\0\x03\0\0\0\0\0\0\0\0\0\0\0\x03abc\x01\0\0\0\x0a\0\0\0\x01\x01\0\0\0\x01d\0";

// The side behind the next checkpoint, where the old one stood; what it wrote beyond the new gate is left of that.
const BACK: &[u8] =
    b"\x01\x02\0\0\0\0\0\0\0\x03\0\x14\0\x03\0\0\0\0\0\0\0\0\0\0\0\x04abcd\0\x06\x01\0\0\0\x01b\0";

#[test]
fn a_store_of_the_first_format_goes_on(rt: HostRuntime) {
    let alloc = rt.alloc();
    assert_eq!(rt; leaves(alloc, b"b.", COMMITTED, b"", b"ab"), Some(true));
    assert_eq!(rt;
        leaves(alloc, b"b.c!", COMMITTED, BEGUN, b"abc"),
        Some(true)
    );
    assert_eq!(rt;
        leaves(alloc, b"b.c!d.", COMMITTED, GONE_ON, b"abcd"),
        Some(true)
    );
    assert_eq!(rt;
        leaves(alloc, b"b.c!d.!", BACK, GONE_ON, b"abcd"),
        Some(true)
    );
}

// How many letters were acknowledged on a store of the first format whose device stops after so many calls, where each crash
// of it opens to a prefix with these.
fn stopped(alloc: Global, calls: u64) -> Option<u64> {
    let disk = with_old(alloc, MemoryDisk::new(alloc))?;
    let (told, fuse) = lived(alloc, Fuse::new(disk, calls), LOG, b"b.c!de.!f.");
    let told = Some(told?.max(1));
    kept(alloc, &fuse.into_inner(), LOG, b"abcdef", told)
}

#[test]
fn each_stop_of_a_store_of_the_first_format_leaves_a_prefix(rt: HostRuntime) {
    let alloc = rt.alloc();
    let mut last = 0;
    for calls in 0..80 {
        let told = stopped(alloc, calls);
        assert!(rt; told.is_some(), "after {calls} calls");
        last = told.unwrap_or(0);
    }
    assert_eq!(rt; last, 6);
}
