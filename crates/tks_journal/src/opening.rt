//! Opening a disk: which side is live, if any.
ghost use Rattle.std.specs.Prelude.{◌≡◌, ◌↔◌, ◌<◌, ◌≤◌, ℕ, OnOk, IfOk, IfSome, Ok, Err, None, length, MatchResult};
ghost use Rattle.tks_disk.specs.DiskModel.{Counts};
ghost use Rattle.tks_journal.specs.Loading.{StoredAt};
ghost use Rattle.tks_journal.specs.Moments.{IsSettled};
ghost use Rattle.tks_journal.specs.Opening.{Tells, Unwritten};
ghost use Rattle.tks_journal.specs.Resting.{HoldsNothing};
ghost use Rattle.tks_journal.specs.Sides.{holds};
ghost use Rattle.tks_journal.specs.declared.fault.SideFault.{SideFault};

use crate::error::OpenError;
use crate::front::{Head, choose, front_of};
use std::alloc::Global;
use tks_disk::{DeviceFault, Disk, Side};

/// Syncs both sides.
fn settle<D: Disk>(disk: &mut D) -> Result<(), DeviceFault>
    ensures settled { OnOk result (D.honest disk.old → IsSettled (D.view disk.new)) }
    ensures unwritten { D.honest disk.old → Unwritten (D.view disk.old) (D.view disk.new) }
    ensures honesty { D.honest disk.old ↔ D.honest disk.new }
    ensures counts { Counts result (D.failures disk.old) (D.failures disk.new) }
{
    disk.sync(Side::A)?;
    disk.sync(Side::B)?;
    Ok(())
}

/// Syncs both sides, and says which is live, if any, with its format and its header.
pub fn survey<D: Disk>(alloc: Global, disk: &mut D) -> Result<Option<(Side, Head)>, OpenError>
    ensures blank { result ≡ Ok None → D.honest disk.old → HoldsNothing (D.view disk.new) }
    ensures stored { IfOk result (λ o. IfSome o (λ found. D.honest disk.old
        → StoredAt (D.view disk.new) found.0 found.1.format found.1.header found.1.at found.1.len)) }
    ensures fault { (f : SideFault) → result ≡ Err (OpenError.Sides f) → D.honest disk.old → holds (D.view disk.old).reads ≡ Err f }
    ensures unwritten { D.honest disk.old → Unwritten (D.view disk.old) (D.view disk.new) }
    ensures honesty { D.honest disk.old ↔ D.honest disk.new }
    ensures tells { Tells result (D.failures disk.old) (D.failures disk.new) }
{
    settle(disk)?;
    let a = front_of(alloc, disk, Side::A)?;
    let b = front_of(alloc, disk, Side::B)?;
    match choose(a, b) {
        Ok(found) => Ok(found),
        Err(fault) => Err(OpenError::Sides(fault)),
    }
}
