//! What commits and checkpoints write.

use crate::own::{answered_on, bytes_of, left_by, with_both};
use std::alloc::Global;
use tks_disk::{MemoryDisk, Side};
use tks_text::Limits;

// An open gate, the frame's length, how many inputs it has, the input, and the next gate, closed.
const FRAME: &[u8] = b"\x01\0\0\0\x10\0\0\0\x01\x01\0\0\0\x07set x 5\0";

// The first side that lines leave.
fn side_left(alloc: Global, lines: &[u8]) -> Option<Vec<u8>> {
    match left_by(alloc, lines) {
        Some(mut disk) => bytes_of(alloc, &mut disk, Side::A),
        None => None,
    }
}

// Whether the commit of a script puts just this frame behind the side's first gate.
fn frame(alloc: Global) -> Option<bool> {
    let before = side_left(alloc, b"commit\n")?;
    let after = side_left(alloc, b"cmd set x 5\ncommit\n")?;
    let (gate, front) = before.as_slice().split_last()?;
    Some(*gate == 0 && after.as_slice().strip_prefix(front)? == FRAME)
}

#[test]
fn a_commit_writes_a_frame(rt: HostRuntime) {
    assert_eq!(rt; frame(rt.alloc()), Some(true));
}

// Two checkpoints, of which the second goes back to the first side, and a commit behind them.
const CHECKPOINTS: &[u8] = b"cmd set a 1\ncheckpoint\ncheckpoint\ncmd set a 2\ncommit\nquit\n";

const CHECKPOINTED: &[u8] = b"ok 1 1\ncheckpointed 1\ncheckpointed 1\nok 2 2\ncommitted 2\nbye\n";

// Whether each checkpoint begins the other side, of the next generation.
fn checkpoints(alloc: Global) -> Option<bool> {
    let setup = with_both(alloc, 3, Limits::format1())?;
    let disk = MemoryDisk::new(alloc);
    let mut disk = answered_on(alloc, disk, setup, CHECKPOINTS, CHECKPOINTED)?;
    let a = bytes_of(alloc, &mut disk, Side::A)?;
    let b = bytes_of(alloc, &mut disk, Side::B)?;
    Some(
        a.as_slice().starts_with(b"\x01\x02\0\0\0\0\0\0\0\x03")
            && b.as_slice().starts_with(b"\x01\x02\0\0\0\0\0\0\0\x02"),
    )
}

#[test]
fn a_checkpoint_begins_the_other_side(rt: HostRuntime) {
    assert_eq!(rt; checkpoints(rt.alloc()), Some(true));
}
