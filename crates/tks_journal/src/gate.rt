//! Gates: a byte that says whether what stands behind it counts.
ghost use Rattle.std.specs.Prelude.{◌≡◌, ◌↔◌, ◌<◌, ℕ, OnOk, IfOk, length};
ghost use Rattle.tks_disk.specs.DiskModel.{View, Images, on, Counts, Rests};
ghost use Rattle.tks_journal.specs.Moments.{LeavesOnly, IsSettled};
ghost use Rattle.tks_journal.specs.Staging.{AtGate, Opened, Closing, Shut, ClosesBy};

use tks_disk::{DeviceFault, Disk, Side};

/// Writes 1 into the gate at this place, a write of its own, and syncs the side.
pub fn open_gate<D: Disk>(disk: &mut D, side: Side, place: usize) -> Result<(), DeviceFault>
    requires within { D.honest disk.old → place < length (on side (D.view disk.old).reads) }
    requires settled { D.honest disk.old → IsSettled (D.view disk.old) }
    ensures any_moment { D.honest disk.old → LeavesOnly (D.view disk.old) (D.view disk.new) (AtGate side place (D.view disk.old).reads) }
    ensures opened { OnOk result (D.honest disk.old → Opened side place (D.view disk.old) (D.view disk.new)) }
    ensures honesty { D.honest disk.old ↔ D.honest disk.new }
    ensures counts { Counts result (D.failures disk.old) (D.failures disk.new) }
{
    disk.write_at(side, place, &[1])?;
    disk.sync(side)?;
    Ok(())
}

/// Whether a write is needed to close the gate: the side is empty, or its gate open. Over a gate that stands closed before a
/// torn body a crash might leave a 1.
fn needs_closing<D: Disk>(disk: &mut D, side: Side) -> Result<bool, DeviceFault>
    ensures closes { D.honest disk.old → IfOk result (λ b. ClosesBy b (on side (D.view disk.old).reads)) }
    ensures rests { D.honest disk.old → Rests (D.view disk.old) (D.view disk.new) }
    ensures honesty { D.honest disk.old ↔ D.honest disk.new }
    ensures counts { Counts result (D.failures disk.old) (D.failures disk.new) }
{
    let mut gate = [1];
    let _read = disk.read_at(side, 0, &mut gate)?;
    Ok(gate[0] == 1)
}

/// Closes the gate at the front of the side, which is synced, and syncs it.
pub fn close_gate<D: Disk>(disk: &mut D, side: Side) -> Result<(), DeviceFault>
    requires settled { D.honest disk.old → IsSettled (D.view disk.old) }
    ensures any_moment { D.honest disk.old → LeavesOnly (D.view disk.old) (D.view disk.new) (Closing side (D.view disk.old).reads) }
    ensures closed { OnOk result (D.honest disk.old → Shut side (D.view disk.old) (D.view disk.new)) }
    ensures honesty { D.honest disk.old ↔ D.honest disk.new }
    ensures counts { Counts result (D.failures disk.old) (D.failures disk.new) }
{
    let open = needs_closing(disk, side)?;
    if !open {
        return Ok(());
    }
    disk.write_at(side, 0, &[0])?;
    disk.sync(side)?;
    Ok(())
}
