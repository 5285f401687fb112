//! The disk in memory beside a plain one, by random calls and crashes.
use super::*;
use std::alloc::Global;
use tks_disk::{Disk, Fuse, Left, MemoryDisk, Once, Side};

fn any_left(dice: &mut Dice) -> Left {
    match dice.roll(4) {
        0 => Left::Old,
        1 => Left::New,
        2 => Left::Fill(0xff),
        _ => Left::Fill((dice.roll(256) % 256) as u8),
    }
}

// Whether both sides have what the plain program says that a crash leaves of them.
fn sides_agree<D: Disk>(
    alloc: Global,
    disk: &mut D,
    plain: &Plain,
    left: (Left, Left),
) -> Option<bool> {
    let of_a = plain.left(alloc, Side::A, left.0).ok()?;
    let of_b = plain.left(alloc, Side::B, left.1).ok()?;
    Some(reads_as(disk, Side::A, &of_a)? && reads_as(disk, Side::B, &of_b)?)
}

// Whether a further crash leaves the same: all was synced.
fn all_is_synced(
    alloc: Global,
    disk: &MemoryDisk,
    plain: &Plain,
    left: (Left, Left),
    dice: &mut Dice,
) -> Option<bool> {
    match disk.crash(alloc, any_left(dice), any_left(dice)) {
        Ok(mut again) => sides_agree(alloc, &mut again, plain, left),
        Err(_) => None,
    }
}

// What a crash leaves of each side, and that it is all synced.
fn crash_agrees(alloc: Global, disk: &MemoryDisk, plain: &Plain, dice: &mut Dice) -> Option<bool> {
    let left = (any_left(dice), any_left(dice));
    match disk.crash(alloc, left.0, left.1) {
        Ok(crashed) => all_is_synced(alloc, &crashed, plain, left, dice),
        Err(_) => None,
    }
}

#[test]
fn a_disk_in_memory_does_what_a_plain_program_does(rt: HostRuntime) {
    let alloc = rt.alloc();
    for seed in 0..40 {
        let mut dice = Dice::new(seed);
        let mut disk = MemoryDisk::new(alloc);
        let mut plain = Plain::new(alloc);
        for call in 0..200 {
            let agrees = call_agrees(alloc, &mut disk, &mut plain, &mut dice) == Some(true)
                && crash_agrees(alloc, &disk, &plain, &mut dice) == Some(true);
            assert!(rt; agrees, "seed {seed}, call {call}");
        }
    }
}

// Whether side A has just so many bytes `x`, unless the memory to compare them is refused.
fn has_xs<D: Disk>(alloc: Global, disk: &mut D, count: usize) -> Option<bool> {
    let mut xs = Vec::new(alloc);
    match xs.resize(count, b'x') {
        Ok(()) => reads_as(disk, Side::A, &xs),
        Err(_) => Some(true),
    }
}

fn writes<D: Disk>(disk: &mut D, at: usize) -> bool {
    disk.write_at(Side::A, at, b"x").is_ok()
}

// Appends a byte, and tells how many there are.
fn after<D: Disk>(disk: &mut D, written: usize) -> usize {
    if writes(disk, written) {
        written.wrapping_add(1)
    } else {
        written
    }
}

// Appends a byte, syncs, and appends another; tells how many were written and how many of them synced, or none where the
// disk holds anything else.
fn appended<D: Disk>(alloc: Global, disk: &mut D, count: (usize, usize)) -> Option<(usize, usize)> {
    let one = after(disk, count.0);
    let synced = if disk.sync(Side::A).is_ok() {
        one
    } else {
        count.1
    };
    let two = after(disk, one);
    if has_xs(alloc, disk, two)? {
        Some((two, synced))
    } else {
        None
    }
}

// Does so many times.
fn all_appended<D: Disk>(alloc: Global, disk: &mut D) -> Option<usize> {
    let mut count = (0, 0);
    for _ in 0..40 {
        count = appended(alloc, disk, count)?;
    }
    Some(count.1)
}

fn crash_leaves_xs(alloc: Global, disk: &MemoryDisk, count: usize) -> Option<bool> {
    match disk.crash(alloc, Left::Old, Left::New) {
        Ok(mut left) => has_xs(alloc, &mut left, count),
        Err(_) => Some(true),
    }
}

// Whether each call does all or nothing, also where memory was refused in it.
fn does_all_or_nothing(alloc: Global) -> bool {
    let mut disk = MemoryDisk::new(alloc);
    match all_appended(alloc, &mut disk) {
        Some(synced) => crash_leaves_xs(alloc, &disk, synced) == Some(true),
        None => false,
    }
}

// To be run with each allocation refused in turn (`rt try --test --fail-alloc N`); here none is.
#[test]
fn a_refused_growth_changes_nothing(rt: HostRuntime) {
    assert!(rt; does_all_or_nothing(rt.alloc()));
}

// Whether just the first so many of 16 writes of a byte pass.
fn passes<D: Disk>(disk: &mut D, calls: u64) -> bool {
    for at in 0..16 {
        if writes(disk, at) != ((at as u64) < calls) {
            return false;
        }
    }
    true
}

fn refuses_all<D: Disk>(disk: &mut D) -> bool {
    disk.len(Side::A).is_err()
        && disk.read_at(Side::A, 0, &mut [0; 4]).is_err()
        && disk.sync(Side::A).is_err()
}

// Whether a fuse lets just so many calls through, at most 16, and what they wrote stands behind it.
fn fuse_stops(alloc: Global, calls: u64) -> Option<bool> {
    let mut fuse = Fuse::new(MemoryDisk::new(alloc), calls);
    let stops = passes(&mut fuse, calls) && refuses_all(&mut fuse);
    let mut disk = fuse.into_inner();
    Some(stops && has_xs(alloc, &mut disk, calls as usize)?)
}

#[test]
fn a_fuse_lets_so_many_calls_through(rt: HostRuntime) {
    for calls in 0..17 {
        assert!(rt;
            fuse_stops(rt.alloc(), calls) == Some(true),
            "{calls} calls"
        );
    }
}

// Whether each of 16 writes of a byte passes but this one.
fn passes_but<D: Disk>(disk: &mut D, calls: u64) -> bool {
    for at in 0..16 {
        if writes(disk, at) == (at as u64 == calls) {
            return false;
        }
    }
    true
}

// Whether one call fails, behind so many, at most 16, and all others pass.
fn fails_once(alloc: Global, calls: u64) -> Option<bool> {
    let mut once = Once::new(MemoryDisk::new(alloc), calls);
    let is_one = passes_but(&mut once, calls);
    let fails_later = once.len(Side::A).is_err() == (calls == 16);
    let mut disk = once.into_inner();
    // The last byte is missing where it was its write that failed.
    let length = disk.len(Side::A).ok()?;
    Some(is_one && fails_later && length == if calls == 15 { 15 } else { 16 })
}

#[test]
fn one_call_fails_and_no_other(rt: HostRuntime) {
    for calls in 0..17 {
        assert!(rt;
            fails_once(rt.alloc(), calls) == Some(true),
            "behind {calls} calls"
        );
    }
}
