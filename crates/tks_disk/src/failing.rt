//! A disk of which calls fail, and which ones do.
ghost use Rattle.std.specs.Prelude.{◌≡◌, ◌↔◌, ◌≤◌, ℕ, length, IsErr, IfOk};
ghost use Rattle.tks_disk.specs.DiskModel.{View, Images, on, Rests, Writes, Syncs, ReadsAt, Counts};

use crate::trail::Trail;
use crate::{DeviceFault, Disk, Side};
use std::marker::Model;

/// Which calls fail.
pub trait Schedule: Drop {
    /// The next call is refused.
    ghost refuses: { Self → Type 0 };

    /// What stands behind the next call.
    ghost next: { Self → Self };

    /// Goes on by a call, which passes or is refused.
    fn spend(&mut self) -> Result<(), DeviceFault>
        ensures fails { IsErr result ↔ refuses self.old }
        ensures next { self.new ≡ next self.old };
}

/// A disk whose calls fail by a schedule, for tests.
#[derive(Drop)]
pub struct Failing<D, S> {
    disk: D,
    schedule: S,
    /// One for each call that it refused. Only clauses read it.
    refused: Trail<()>,
}

impl<D, S> Model for Failing<D, S> {
    ghost use Rattle.std.specs.Prelude.{length};
    ghost use Rattle.tks_disk.specs.Failing.{FailingState};

    ghost Value = { FailingState D S };

    ghost view = { λ f. record { disk = f.disk; schedule = f.schedule; refused = length f.refused } };
}

impl<D, S: Schedule> Failing<D, S> {
    /// Passes on to the disk the calls that pass by the schedule, and nothing of one that fails.
    pub fn by(disk: D, schedule: S) -> Failing<D, S>
        ensures { result ≡ record { disk = disk; schedule = schedule; refused = 0 } }
    {
        Failing {
            disk,
            schedule,
            refused: Trail::new(),
        }
    }

    /// Gives the disk back as it stands.
    pub fn into_inner(self) -> D
        ensures { result ≡ self.disk }
    {
        let Failing {
            disk,
            schedule: _,
            refused: _,
        } = self;
        disk
    }

    /// Goes on by a call, and counts it where it is refused.
    fn spend(&mut self) -> Result<(), DeviceFault>
        ensures disk { self.new.disk ≡ self.old.disk }
        ensures counts { Counts result self.old.refused self.new.refused }
        ensures fails { IsErr result ↔ S.refuses self.old.schedule }
        ensures next { self.new.schedule ≡ S.next self.old.schedule }
    {
        let may_pass = self.schedule.spend();
        if may_pass.is_err() {
            self.refused = self.refused.and(&());
        }
        may_pass
    }
}

impl<D: Disk, S: Schedule> Disk for Failing<D, S> {
    ghost use Rattle.std.specs.Prelude.{◌≡◌, ◌↔◌, ◌≤◌, ℕ, ◌+◌, length, IfOk};
    ghost use Rattle.tks_disk.specs.DiskModel.{View, Images, on, Rests, Writes, Syncs, ReadsAt, Counts};
    ghost use Rattle.tks_disk.specs.Failing.{FailsBy};

    ghost honest = { λ f. D.Disk.honest f.disk };

    ghost view = { λ f. D.Disk.view f.disk };

    ghost failures = { λ f. D.Disk.failures f.disk + f.refused };

    fn len(&mut self, side: Side) -> Result<usize, DeviceFault>
        ensures honesty { D.honest self.old.disk ↔ D.honest self.new.disk }
        ensures counts { Counts result (D.failures self.old.disk + self.old.refused) (D.failures self.new.disk + self.new.refused) }
        ensures len { D.honest self.old.disk → IfOk result (λ n. n ≡ length (on side (D.view self.old.disk).reads)) }
        ensures rests { D.honest self.old.disk → Rests (D.view self.old.disk) (D.view self.new.disk) }
        ensures scheduled { FailsBy D.failures S.refuses S.next result self.old self.new }
    {
        let may_len = self.spend();
        may_len?;
        self.disk.len(side)
    }

    fn read_at(&mut self, side: Side, at: usize, buf: &mut [u8]) -> Result<usize, DeviceFault>
        ensures honesty { D.honest self.old.disk ↔ D.honest self.new.disk }
        ensures counts { Counts result (D.failures self.old.disk + self.old.refused) (D.failures self.new.disk + self.new.refused) }
        ensures fits { IfOk result (λ n. n ≤ length buf.old) }
        ensures read { D.honest self.old.disk → IfOk result (λ n. ReadsAt at n (on side (D.view self.old.disk).reads) buf.old buf.new) }
        ensures rests { D.honest self.old.disk → Rests (D.view self.old.disk) (D.view self.new.disk) }
        ensures scheduled { FailsBy D.failures S.refuses S.next result self.old self.new }
    {
        let may_read = self.spend();
        may_read?;
        self.disk.read_at(side, at, buf)
    }

    fn write_at(&mut self, side: Side, at: usize, bytes: &[u8]) -> Result<(), DeviceFault>
        ensures honesty { D.honest self.old.disk ↔ D.honest self.new.disk }
        ensures counts { Counts result (D.failures self.old.disk + self.old.refused) (D.failures self.new.disk + self.new.refused) }
        ensures writes { D.honest self.old.disk → Writes side at bytes.now result (D.view self.old.disk) (D.view self.new.disk) }
        ensures scheduled { FailsBy D.failures S.refuses S.next result self.old self.new }
    {
        let may_write = self.spend();
        may_write?;
        self.disk.write_at(side, at, bytes)
    }

    fn sync(&mut self, side: Side) -> Result<(), DeviceFault>
        ensures honesty { D.honest self.old.disk ↔ D.honest self.new.disk }
        ensures counts { Counts result (D.failures self.old.disk + self.old.refused) (D.failures self.new.disk + self.new.refused) }
        ensures syncs { D.honest self.old.disk → Syncs side result (D.view self.old.disk) (D.view self.new.disk) }
        ensures scheduled { FailsBy D.failures S.refuses S.next result self.old self.new }
    {
        let may_sync = self.spend();
        may_sync?;
        self.disk.sync(side)
    }

    ghost reads_may_stay = { λ f. D.Disk.reads_may_stay f.disk };

    ghost counts_now = { λ f. D.Disk.counts_now f.disk };

    ghost only_now = { λ f. D.Disk.only_now f.disk };

    ghost since_earlier = { λ f. D.Disk.since_earlier f.disk };
}
