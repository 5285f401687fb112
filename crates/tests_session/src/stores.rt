//! Stores that were made for other commands, grids or limits, or are damaged; and what the faults are called.

use crate::own::{
    Setup, answered_on, bytes_of, counting, fault_of, left_by, opens_and_tells, with_both,
};
use std::alloc::Global;
use tks_app::AppBody;
use tks_desk::{Own, name_of, status_of};
use tks_disk::{Disk, MemoryDisk, Side};
use tks_session::SessionFault;
use tks_text::Limits;

// The disk, where this fault is why it isn't opened.
fn refused_for<D: Disk + Drop, B: AppBody>(
    alloc: Global,
    disk: D,
    setup: Setup<B>,
    fault: SessionFault,
) -> Option<D> {
    match fault_of(alloc, disk, setup) {
        Some((found, disk)) if found == fault => Some(disk),
        _ => None,
    }
}

// Whether this fault is why a disk isn't opened, and its sides are as they were: A so, and B empty.
fn refused_as_it_was<D: Disk + Drop, B: AppBody>(
    alloc: Global,
    disk: D,
    setup: Setup<B>,
    fault: SessionFault,
    a: &[u8],
) -> Option<bool> {
    let mut disk = refused_for(alloc, disk, setup, fault)?;
    let is_a = bytes_of(alloc, &mut disk, Side::A)?.as_slice() == a;
    Some(is_a && bytes_of(alloc, &mut disk, Side::B)?.is_empty())
}

// Whether nothing is opened, or written, within limits of 8 members a list: the first world has 25 bindings.
fn few_items(alloc: Global) -> Option<bool> {
    let limits = Limits {
        items: 8,
        ..Limits::format1()
    };
    let setup = with_both(alloc, 3, limits)?;
    let disk = MemoryDisk::new(alloc);
    refused_as_it_was(alloc, disk, setup, SessionFault::SmallerLimits, b"")
}

#[test]
fn the_first_world_is_held_to_the_limits(rt: HostRuntime) {
    assert_eq!(rt; few_items(rt.alloc()), Some(true));
}

// A loop of 10,000 steps: the start and `set`, and two for each of 4,998 turns beside the last test.
const LONG: &[u8] = b"cmd for {set i 0} {$i < 4998} {incr i} {}; set i\ncommit\n";

// Whether a store isn't opened for limits that are too small, and then opens for others and answers so.
fn opens_for_others<D: Disk + Drop, B: AppBody>(
    alloc: Global,
    disk: D,
    small: Setup<B>,
    others: Setup<B>,
    lines: &[u8],
    want: &[u8],
) -> Option<bool> {
    let disk = refused_for(alloc, disk, small, SessionFault::SmallerLimits)?;
    opens_and_tells(alloc, disk, others, lines, want)
}

// Whether a store whose input took 10,000 steps opens within 10,000, and not within 9,999.
fn few_steps(alloc: Global) -> Option<bool> {
    let fewer = Limits {
        fuel: 9_999,
        ..Limits::format1()
    };
    let fewer = with_both(alloc, 3, fewer)?;
    let enough = with_both(alloc, 3, Limits::format1())?;
    let disk = left_by(alloc, LONG)?;
    opens_for_others(alloc, disk, fewer, enough, b"cmd set i\n", b"ok 2 4998\n")
}

#[test]
fn inputs_are_held_to_the_limits_again(rt: HostRuntime) {
    assert_eq!(rt; few_steps(rt.alloc()), Some(true));
}

// A counter that goes on twice, and a third time in an input that is refused.
const COUNTS: &[u8] = b"cmd app.next\ncmd app.next\ncommit\ncmd app.next; while 1 {}\nquit\n";

const COUNTED: &[u8] = b"ok 1 1\nok 2 2\ncommitted 2\nrefused budget\nbye\n";

// Whether this store is none for other commands, nor for another grid, and then goes on for the same ones.
fn opens_for_the_same<D: Disk + Drop, B: AppBody>(
    alloc: Global,
    disk: D,
    commands: Setup<B>,
    grid: Setup<B>,
    same: Setup<B>,
) -> Option<bool> {
    let disk = refused_for(alloc, disk, commands, SessionFault::OtherCommands)?;
    let disk = refused_for(alloc, disk, grid, SessionFault::OtherGrid)?;
    opens_and_tells(alloc, disk, same, b"cmd app.next\n", b"ok 3 3\n")
}

// Whether a store of both commands is none for one of them, or for another height.
fn other_stores(alloc: Global) -> Option<bool> {
    let one = counting(alloc)?;
    let higher = with_both(alloc, 4, Limits::format1())?;
    let same = with_both(alloc, 3, Limits::format1())?;
    let both = with_both(alloc, 3, Limits::format1())?;
    let disk = answered_on(alloc, MemoryDisk::new(alloc), both, COUNTS, COUNTED)?;
    opens_for_the_same(alloc, disk, one, higher, same)
}

#[test]
fn a_store_of_other_commands_or_another_grid(rt: HostRuntime) {
    assert_eq!(rt; other_stores(rt.alloc()), Some(true));
}

// Whether such a side of an empty disk has this fault, and stays as it is.
fn side_on<D: Disk + Drop, B: AppBody>(
    alloc: Global,
    disk: D,
    setup: Setup<B>,
    side: &[u8],
    fault: SessionFault,
) -> Option<bool> {
    let mut disk = disk;
    disk.write_at(Side::A, 0, side).ok()?;
    disk.sync(Side::A).ok()?;
    refused_as_it_was(alloc, disk, setup, fault, side)
}

// The same of a disk in memory.
fn side_is(alloc: Global, side: &[u8], fault: SessionFault) -> Option<bool> {
    let setup = with_both(alloc, 3, Limits::format1())?;
    side_on(alloc, MemoryDisk::new(alloc), setup, side, fault)
}

// A gate that is open, a format, and a cut header.
#[test]
fn a_cut_header_is_damage(rt: HostRuntime) {
    for side in [b"\x01\x01\0\0\0", b"\x01\x02\0\0\0"] {
        let is_so = side_is(rt.alloc(), side, SessionFault::Damaged);
        assert_eq!(rt; is_so, Some(true));
    }
}

#[test]
fn another_format_is_a_version(rt: HostRuntime) {
    for side in [b"\x01\x03\0\0\0", b"\x01\0\0\0\0"] {
        let is_so = side_is(rt.alloc(), side, SessionFault::Version);
        assert_eq!(rt; is_so, Some(true));
    }
}

// The words and statuses of docs/PROGRAM.md.
#[test]
fn what_faults_are_called(rt: HostRuntime) {
    let rows = [
        (SessionFault::TooLarge, "large", 1),
        (SessionFault::NoMemory, "memory", 5),
        (SessionFault::Disk, "disk", 1),
        (SessionFault::Failed, "failed", 1),
        (SessionFault::Damaged, "damaged", 1),
        (SessionFault::OtherCommands, "commands", 1),
        (SessionFault::OtherGrid, "grid", 1),
        (SessionFault::SmallerLimits, "limits", 1),
        (SessionFault::Version, "version", 1),
    ];
    for (fault, name, status) in rows {
        assert_eq!(rt; name_of(&fault), name);
        assert_eq!(rt; status_of(&fault), status);
    }
}
