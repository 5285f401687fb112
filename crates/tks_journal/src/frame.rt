//! Frames: bytes that are put behind a gate.
ghost use Rattle.std.specs.Prelude.{◌≡◌, ◌↔◌, ◌<◌, ◌^◌, ◌+◌, ◌++◌, ◌∷◌, [], ℕ, OnOk, length, take};
ghost use Rattle.std.specs.Int.{w32, to_be_bytes};
ghost use Rattle.tks_disk.specs.DiskModel.{View, Images, on, beside, Counts};
ghost use Rattle.tks_journal.specs.Moments.{LeavesOnly, IsSettled};
ghost use Rattle.tks_journal.specs.Staging.{Begins, Staged};
ghost use Rattle.tks_journal.specs.Resting.{AtRest, OneOf};
ghost use Rattle.tks_journal.specs.Sides.{holds, with_frames};

use crate::gate::open_gate;
use crate::pieces::write_pieces;
use byteorder::{BigEndian, ByteOrder};
use tks_disk::{DeviceFault, Disk, Side};

/// Writes a frame and the next gate, closed, behind the gate, which stays closed, and syncs the side.
fn stage_frame<D: Disk>(
    disk: &mut D,
    live: Side,
    gate: usize,
    lead: &[u8],
    body: &[u8],
) -> Result<(), DeviceFault>
    requires short { length lead.now + length body.now < 2 ^ 32 }
    requires room { gate + (length lead.now + length body.now) < 2 ^ 41 }
    requires within { D.honest disk.old → gate < length (on live (D.view disk.old).reads) }
    requires settled { D.honest disk.old → IsSettled (D.view disk.old) }
    ensures any_moment { D.honest disk.old → LeavesOnly (D.view disk.old) (D.view disk.new)
        (Begins live (take (gate + 1) (on live (D.view disk.old).reads)) (beside live (D.view disk.old).reads)) }
    ensures staged { OnOk result (D.honest disk.old
        → Staged live (gate + 1) (to_be_bytes w32 (length (lead.now ++ body.now)) ++ ((lead.now ++ body.now) ++ 0 ∷ [])) (D.view disk.old) (D.view disk.new)) }
    ensures honesty { D.honest disk.old ↔ D.honest disk.new }
    ensures counts { Counts result (D.failures disk.old) (D.failures disk.new) }
{
    let mut size = [0; 4];
    BigEndian::write_u32(&mut size, (lead.len() + body.len()) as u32);
    write_pieces(disk, live, gate + 1, &size)?;
    write_pieces(disk, live, gate + 5, lead)?;
    write_pieces(disk, live, gate + 5 + lead.len(), body)?;
    write_pieces(disk, live, gate + 5 + lead.len() + body.len(), &[0])?;
    disk.sync(live)?;
    Ok(())
}

/// Puts a frame of a lead and a body behind the closed gate, with a closed gate behind it, and opens the gate.
pub fn append_frame<D: Disk>(
    disk: &mut D,
    live: Side,
    gate: usize,
    lead: &[u8],
    body: &[u8],
) -> Result<(), DeviceFault>
    requires short { length lead.now + length body.now < 2 ^ 32 }
    requires room { gate + (length lead.now + length body.now) < 2 ^ 41 }
    requires at_rest { D.honest disk.old → AtRest (D.view disk.old) live gate }
    ensures at_rest { OnOk result (D.honest disk.old → AtRest (D.view disk.new) live (gate + 5 + (length lead.now + length body.now))) }
    ensures holds { OnOk result (D.honest disk.old → holds (D.view disk.new).reads ≡ with_frames ((lead.now ++ body.now) ∷ []) (holds (D.view disk.old).reads)) }
    ensures any_moment { D.honest disk.old → LeavesOnly (D.view disk.old) (D.view disk.new)
        (OneOf (holds (D.view disk.old).reads) (with_frames ((lead.now ++ body.now) ∷ []) (holds (D.view disk.old).reads))) }
    ensures honesty { D.honest disk.old ↔ D.honest disk.new }
    ensures counts { Counts result (D.failures disk.old) (D.failures disk.new) }
{
    stage_frame(disk, live, gate, lead, body)?;
    open_gate(disk, live, gate)?;
    Ok(())
}
