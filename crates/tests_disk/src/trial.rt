//! One random call on a disk and on the plain program.

use crate::dice::Dice;
use crate::plain::Plain;
use std::alloc::Global;
use tks_disk::{Disk, Left, Side};

/// No side grows past this in a trial.
const ROOM: usize = 96;

/// Whether the side has just these bytes.
pub fn reads_as<D: Disk>(disk: &mut D, side: Side, want: &[u8]) -> Option<bool> {
    let mut buf = [0xee; ROOM];
    let read = disk.read_at(side, 0, &mut buf).ok()?;
    let len = disk.len(side).ok()?;
    Some(len == want.len() && &buf[..read] == want && buf[read..].iter().all(|b| *b == 0xee))
}

fn write_agrees<D: Disk>(
    disk: &mut D,
    plain: &mut Plain,
    side: Side,
    dice: &mut Dice,
) -> Option<bool> {
    let mut bytes = [0; 16];
    for byte in &mut bytes {
        *byte = (dice.roll(256) % 256) as u8;
    }
    let at = dice.roll(64);
    let (some, _) = bytes.split_at_checked(dice.roll(17))?;
    plain.write(side, at, some).ok()?;
    Some(disk.write_at(side, at, some).is_ok())
}

fn read_agrees<D: Disk>(disk: &mut D, want: &[u8], side: Side, dice: &mut Dice) -> Option<bool> {
    let at = dice.roll(ROOM);
    let mut buf = [0; 16];
    let (some, _) = buf.split_at_mut_checked(dice.roll(17))?;
    let read = disk.read_at(side, at, some).ok()?;
    let rest = want.get(at..).unwrap_or(&[]);
    Some(read == rest.len().min(some.len()) && rest.starts_with(&some[..read]))
}

/// Makes one call on both, and says whether the disk answered and holds what the plain program does; none where memory or
/// the device failed.
pub fn call_agrees<D: Disk>(
    alloc: Global,
    disk: &mut D,
    plain: &mut Plain,
    dice: &mut Dice,
) -> Option<bool> {
    let side = if dice.roll(2) == 0 { Side::A } else { Side::B };
    match dice.roll(8) {
        0 => {
            plain.sync(alloc, side).ok()?;
            Some(disk.sync(side).is_ok())
        }
        1 | 2 | 3 => {
            let want = plain.left(alloc, side, Left::New).ok()?;
            read_agrees(disk, &want, side, dice)
        }
        4 => {
            let want = plain.left(alloc, side, Left::New).ok()?;
            reads_as(disk, side, &want)
        }
        _ => write_agrees(disk, plain, side, dice),
    }
}
