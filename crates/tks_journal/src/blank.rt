//! A disk on which neither side is open.
ghost use Rattle.std.specs.Prelude.{◌≡◌, ◌↔◌, ◌<◌, ◌≤◌, ◌^◌, ◌+◌, ℕ, true, false, Ok, None, MatchResult, IfOk, length};
ghost use Rattle.tks_disk.specs.DiskModel.{Counts};

use crate::journal::Journal;
use crate::side::{NEWEST, start_side};
use std::marker::Model;
use tks_disk::{Disk, Side};
use tks_spelling::Header;

/// A disk that holds nothing, all of it synced. Contracts see it as the disk.
#[derive(Drop)]
pub struct Blank<D: Disk> {
    disk: D,
}

impl<D: Disk> Model for Blank<D> {
    ghost use Rattle.std.specs.Prelude.{◌≡◌, Ok, None};
    ghost use Rattle.tks_journal.specs.Resting.{HoldsNothing};

    ghost Value = { D };

    ghost view = { λ b. b.disk };

    ghost invariant = { λ b. D.honest b.disk → HoldsNothing (D.view b.disk) };
}

impl<D: Disk> Blank<D> {
    ghost use Rattle.tks_disk.specs.declared.disk.Side.TheVariants.{A};
    ghost use Rattle.tks_spelling.specs.declared.format.Format.TheVariants.{Two};
    ghost use Rattle.tks_journal.specs.Journal.{JournalState, SpelledAs};
    ghost use Rattle.tks_journal.specs.Moments.{LeavesOnly};
    ghost use Rattle.tks_journal.specs.Resting.{AllHold, HoldsNothing, OneOf, begun_as};
    ghost use Rattle.tks_journal.specs.Sides.{holds};

    /// A disk that holds nothing.
    pub(crate) fn over(disk: D) -> Blank<D>
        requires { D.honest disk → HoldsNothing (D.view disk) }
        ensures { result ≡ disk }
    {
        Blank { disk }
    }

    /// The disk holds nothing, and neither does what a crash may leave.
    pub fn is_blank(&self)
        ensures { D.honest self.now → HoldsNothing (D.view self.now) }
    {
        let _ = &self.disk;
    }

    /// Gives the disk back, and makes no call of it.
    pub fn into_disk(self) -> D
        ensures { result ≡ self }
    {
        let Blank { disk } = self;
        disk
    }

    /// Begins the first side with this header of generation 1, spelled as `head`, and this world. It takes no memory. Where the
    /// device fails it gives the disk back.
    pub fn start(self, header: &Header, head: &[u8], world: &[u8]) -> Result<Journal<D>, D>
        requires first { header.now.generation ≡ 1 }
        requires spelled { SpelledAs head.now header.now }
        requires measured { header.now.world_length ≡ length world.now }
        requires room { length head.now + length world.now < 2 ^ 61 }

        // At Ok, what is read, and all that a crash may leave, holds the world.
        ensures begun { IfOk result (λ j. D.honest self → AllHold (D.view j.disk) (begun_as Side.A header.now world.now)) }

        // A crash at any moment of the call leaves nothing, or that.
        ensures any_moment { D.honest self → MatchResult result
            (λ j. LeavesOnly (D.view self) (D.view j.disk) (OneOf (Ok None) (begun_as Side.A header.now world.now)))
            (λ d. LeavesOnly (D.view self) (D.view d) (OneOf (Ok None) (begun_as Side.A header.now world.now))) }

        ensures ok { IfOk result (λ j. j ≡ record { disk = j.disk; live = Side.A; format = Two; generation = 1; gate = 2 + length head.now + length world.now; failed = false }) }
        ensures counts { MatchResult result (λ j. D.failures j.disk ≡ D.failures self) (λ d. D.failures self < D.failures d) }
        ensures honesty { MatchResult result (λ j. D.honest self ↔ D.honest j.disk) (λ d. D.honest self ↔ D.honest d) }
    {
        let Blank { mut disk } = self;
        match start_side(&mut disk, Side::A, header, head, world) {
            Ok(()) => Ok(Journal::at(disk, Side::A, NEWEST, 1, 2 + head.len() + world.len())),
            Err(_) => Err(disk),
        }
    }
}
