//! What stands on a live side: its world, then frame after frame.
ghost use Rattle.std.specs.Prelude.{◌≡◌, ◌≢◌, ◌↔◌, ◌<◌, ◌≤◌, ◌+◌, ℕ, IfOk, IfSome, Ok, Err, None, length, take, drop, slice_index};
ghost use Rattle.tks_disk.specs.DiskModel.{on, Rests};
ghost use Rattle.tks_journal.specs.Loading.{FrameIs};
ghost use Rattle.tks_journal.specs.Opening.{Tells};
ghost use Rattle.tks_journal.specs.Sides.{frames};
ghost use Rattle.tks_journal.specs.declared.fault.SideFault.{SideFault};

use crate::error::OpenError;
use crate::fault::SideFault;
use crate::reading::{byte_at, read_exactly, size_from};
use std::alloc::Global;
use tks_disk::{Disk, Side};

/// The bytes of a world, so many, from this place on; the side has `len` bytes.
pub fn world_from<D: Disk>(
    alloc: Global,
    disk: &mut D,
    live: Side,
    at: usize,
    world_length: u64,
    len: usize,
) -> Result<Vec<u8>, OpenError>
    requires side { D.honest disk.old → len ≡ length (on live (D.view disk.old).reads) }
    ensures world { IfOk result (λ w. D.honest disk.old → w.items ≡ take world_length (drop at (on live (D.view disk.old).reads))) }
    ensures size { IfOk result (λ w. (length w.items ≡ world_length) × (at + world_length ≤ len)) }
    ensures fault { (f : SideFault) → result ≡ Err (OpenError.Sides f) → (f ≡ SideFault.Damaged) × (len < at + world_length) }
    ensures rests { D.honest disk.old → Rests (D.view disk.old) (D.view disk.new) }
    ensures honesty { D.honest disk.old ↔ D.honest disk.new }
    ensures tells { Tells result (D.failures disk.old) (D.failures disk.new) }
{
    if at > len || world_length > (len - at) as u64 {
        return Err(OpenError::Sides(SideFault::Damaged));
    }
    let world = read_exactly(alloc, disk, live, at, world_length as usize)?;
    Ok(world)
}

/// The body of the frame at this place, or none behind a closed gate; the side has `len` bytes. Memory is taken for a body
/// that is there.
pub fn frame_from<D: Disk>(
    alloc: Global,
    disk: &mut D,
    live: Side,
    at: usize,
    len: usize,
) -> Result<Option<Vec<u8>>, OpenError>
    requires side { D.honest disk.old → len ≡ length (on live (D.view disk.old).reads) }
    ensures frame { IfOk result (λ o. IfSome o (λ body. D.honest disk.old → FrameIs (on live (D.view disk.old).reads) at body.items)) }
    ensures size { IfOk result (λ o. IfSome o (λ body. at + 5 + length body.items ≤ len)) }
    ensures end { result ≡ Ok None → (at < len) × (D.honest disk.old → slice_index (on live (D.view disk.old).reads) at ≢ 1) }
    ensures fault { (f : SideFault) → result ≡ Err (OpenError.Sides f) → (f ≡ SideFault.Damaged)
        × (D.honest disk.old → frames (drop at (on live (D.view disk.old).reads)) ≡ None) }
    ensures rests { D.honest disk.old → Rests (D.view disk.old) (D.view disk.new) }
    ensures honesty { D.honest disk.old ↔ D.honest disk.new }
    ensures tells { Tells result (D.failures disk.old) (D.failures disk.new) }
{
    if at >= len {
        return Err(OpenError::Sides(SideFault::Damaged));
    }
    let gate = byte_at(disk, live, at)?;
    if gate != 1 {
        return Ok(None);
    }
    if len - at < 5 {
        return Err(OpenError::Sides(SideFault::Damaged));
    }
    let size = size_from(disk, live, at + 1)? as usize;
    if len - at - 5 < size {
        return Err(OpenError::Sides(SideFault::Damaged));
    }
    let body = read_exactly(alloc, disk, live, at + 5, size)?;
    Ok(Some(body))
}
