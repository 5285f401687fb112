//! Bytes of a side that are there.
ghost use Rattle.std.specs.Prelude.{◌≡◌, ◌↔◌, ◌<◌, ◌≤◌, ◌+◌, ℕ, IfOk, length, take, drop, slice_index};
ghost use Rattle.tks_disk.specs.DiskModel.{on, Counts, Rests};
ghost use Rattle.tks_journal.specs.Opening.{Tells, NoSideFault};
ghost use Rattle.tks_journal.specs.Sides.{size_at};

use crate::error::OpenError;
use byteorder::{BigEndian, ByteOrder};
use std::alloc::Global;
use tks_disk::{DeviceFault, Disk, Side};

/// Reads so many bytes, which are there.
pub fn read_exactly<D: Disk>(
    alloc: Global,
    disk: &mut D,
    side: Side,
    at: usize,
    count: usize,
) -> Result<Vec<u8>, OpenError>
    requires there { D.honest disk.old → at + count ≤ length (on side (D.view disk.old).reads) }
    ensures bytes { IfOk result (λ v. D.honest disk.old → v.items ≡ take count (drop at (on side (D.view disk.old).reads))) }
    ensures size { IfOk result (λ v. length v.items ≡ count) }
    ensures sound { NoSideFault result }
    ensures rests { D.honest disk.old → Rests (D.view disk.old) (D.view disk.new) }
    ensures honesty { D.honest disk.old ↔ D.honest disk.new }
    ensures tells { Tells result (D.failures disk.old) (D.failures disk.new) }
{
    let mut bytes = vec![in alloc; 0u8; count]?;
    let _read = disk.read_at(side, at, &mut bytes)?;
    Ok(bytes)
}

/// The byte in this place, which is there.
pub fn byte_at<D: Disk>(disk: &mut D, side: Side, at: usize) -> Result<u8, DeviceFault>
    requires there { D.honest disk.old → at < length (on side (D.view disk.old).reads) }
    ensures byte { IfOk result (λ b. D.honest disk.old → b ≡ slice_index (on side (D.view disk.old).reads) at) }
    ensures rests { D.honest disk.old → Rests (D.view disk.old) (D.view disk.new) }
    ensures honesty { D.honest disk.old ↔ D.honest disk.new }
    ensures counts { Counts result (D.failures disk.old) (D.failures disk.new) }
{
    let mut byte = [0];
    let _read = disk.read_at(side, at, &mut byte)?;
    Ok(byte[0])
}

/// The number that the four bytes from this place on spell, which are there.
pub fn size_from<D: Disk>(disk: &mut D, side: Side, at: usize) -> Result<u32, DeviceFault>
    requires there { D.honest disk.old → at + 4 ≤ length (on side (D.view disk.old).reads) }
    ensures size { IfOk result (λ n. D.honest disk.old → n ≡ size_at (drop at (on side (D.view disk.old).reads))) }
    ensures rests { D.honest disk.old → Rests (D.view disk.old) (D.view disk.new) }
    ensures honesty { D.honest disk.old ↔ D.honest disk.new }
    ensures counts { Counts result (D.failures disk.old) (D.failures disk.new) }
{
    let mut bytes = [0; 4];
    let _read = disk.read_at(side, at, &mut bytes)?;
    Ok(BigEndian::read_u32(&bytes))
}
