//! A live side at rest, to which frames are added.
ghost use Rattle.std.specs.Prelude.{◌≡◌, ◌↔◌, ◌<◌, ◌≤◌, ◌^◌, ◌+◌, ◌++◌, ◌∷◌, [], ℕ, true, false, OnOk, OnErr, length, Some};
ghost use Rattle.tks_disk.specs.DiskModel.{Counts};

use crate::frame::append_frame;
use crate::side::{NEWEST, other, start_side};
use std::marker::Model;
use tks_disk::{DeviceFault, Disk, Side};
use tks_spelling::{Format, Header};

/// The most bytes that a side grows to.
const SIDE_MAX: usize = 1 << 40;

/// What two sides hold, open for more: a live side, with a closed gate behind its last frame.
///
/// Once a call has failed, what the disk holds is known no longer but by opening it again.
#[derive(Drop)]
pub struct Journal<D: Disk> {
    disk: D,
    live: Side,
    format: Format,
    generation: u64,
    gate: usize,
    failed: bool,
}

impl<D: Disk> Model for Journal<D> {
    ghost use Rattle.std.specs.Prelude.{◌≡◌, false};
    ghost use Rattle.tks_journal.specs.Journal.{JournalState};
    ghost use Rattle.tks_journal.specs.Resting.{IsLive};

    ghost Value = { JournalState D };

    ghost view = { λ j. record { disk = j.disk; live = j.live; format = j.format; generation = j.generation; gate = j.gate; failed = j.failed } };

    ghost invariant = { λ j. j.failed ≡ false → D.honest j.disk → IsLive (D.view j.disk) j.live j.format j.generation j.gate };
}

impl<D: Disk> Journal<D> {
    ghost use Rattle.tks_journal.specs.Journal.{JournalState, SpelledAs, room_for};
    ghost use Rattle.tks_journal.specs.Moments.{LeavesOnly, IsSettled};
    ghost use Rattle.tks_journal.specs.Resting.{AllHold, IsLive, OneOf, begun_as};
    ghost use Rattle.tks_journal.specs.Sides.{holds, live_of, other_of, with_frames};
    ghost use Rattle.tks_spelling.specs.declared.format.Format.TheVariants.{Two};

    /// A journal over a disk at rest.
    pub(crate) fn at(
        disk: D,
        live: Side,
        format: Format,
        generation: u64,
        gate: usize,
    ) -> Journal<D>
        requires { D.honest disk → IsLive (D.view disk) live format generation gate }
        ensures { result ≡ record { disk = disk; live = live; format = format; generation = generation; gate = gate; failed = false } }
    {
        Journal {
            disk,
            live,
            format,
            generation,
            gate,
            failed: false,
        }
    }

    /// While no call has failed, a crash leaves just what is read, and this side is live in it.
    pub fn stands(&self)
        ensures { self.now.failed ≡ false → D.honest self.now.disk
            → IsSettled (D.view self.now.disk) × (live_of (holds (D.view self.now.disk).reads) ≡ Some (self.now.live, self.now.format, self.now.generation)) }
    {
        let _ = &self.failed;
    }

    /// The format of the live side.
    pub fn format(&self) -> Format
        ensures { result ≡ self.now.format }
    {
        self.format
    }

    /// How many sides were begun by now, the live one counted.
    pub fn generation(&self) -> u64
        ensures { result ≡ self.now.generation }
    {
        self.generation
    }

    /// Whether a call has failed.
    pub fn has_failed(&self) -> bool
        ensures { result ≡ self.now.failed }
    {
        self.failed
    }

    /// Whether a frame of so many bytes finds room: it is shorter than 2^32, and the side stays within 2^40 bytes.
    pub fn has_room(&self, count: usize) -> bool
        ensures { result ≡ room_for self.now count }
    {
        count < 1 << 32 && self.gate <= SIDE_MAX && self.gate + 6 + count <= SIDE_MAX
    }

    /// Puts a frame behind the others: a lead, and a body right behind it. It takes no memory.
    pub fn append(&mut self, lead: &[u8], body: &[u8]) -> Result<(), DeviceFault>
        requires working { self.old.failed ≡ false }
        requires room { room_for self.old (length lead.now + length body.now) ≡ true }

        // At Ok, what is read, and all that a crash may leave, holds the frame too.
        ensures added { OnOk result (D.honest self.old.disk
            → AllHold (D.view self.new.disk) (with_frames ((lead.now ++ body.now) ∷ []) (holds (D.view self.old.disk).reads))) }

        // A crash at any moment of the call leaves what was held, with the frame or without.
        ensures any_moment { D.honest self.old.disk
            → LeavesOnly (D.view self.old.disk) (D.view self.new.disk) (OneOf (holds (D.view self.old.disk).reads) (with_frames ((lead.now ++ body.now) ∷ []) (holds (D.view self.old.disk).reads))) }

        ensures ok { OnOk result (self.new ≡ record self.old { disk = self.new.disk; gate = self.old.gate + 5 + (length lead.now + length body.now) }) }
        ensures err { OnErr result (self.new ≡ record self.old { disk = self.new.disk; failed = true }) }
        ensures honesty { D.honest self.old.disk ↔ D.honest self.new.disk }
        ensures counts { Counts result (D.failures self.old.disk) (D.failures self.new.disk) }
    {
        self.failed = true;
        append_frame(&mut self.disk, self.live, self.gate, lead, body)?;
        self.gate += 5 + (lead.len() + body.len());
        self.failed = false;
        Ok(())
    }

    /// Begins the other side, of the newest format, with this header, spelled as `head`, and this world. That side is live then, with no frames. It
    /// takes no memory.
    pub fn checkpoint(
        &mut self,
        header: &Header,
        head: &[u8],
        world: &[u8],
    ) -> Result<(), DeviceFault>
        requires working { self.old.failed ≡ false }
        requires next { header.now.generation ≡ self.old.generation + 1 }
        requires last { header.now.generation ≤ 2 ^ 62 }
        requires spelled { SpelledAs head.now header.now }
        requires measured { header.now.world_length ≡ length world.now }
        requires room { length head.now + length world.now < 2 ^ 61 }

        // At Ok, what is read, and all that a crash may leave, holds the world alone, on the other side.
        ensures begun { OnOk result (D.honest self.old.disk
            → AllHold (D.view self.new.disk) (begun_as (other_of self.old.live) header.now world.now)) }

        // A crash at any moment of the call leaves what was held, or that.
        ensures any_moment { D.honest self.old.disk
            → LeavesOnly (D.view self.old.disk) (D.view self.new.disk) (OneOf (holds (D.view self.old.disk).reads) (begun_as (other_of self.old.live) header.now world.now)) }

        ensures ok { OnOk result (self.new ≡ record self.old {
          disk = self.new.disk;
          live = other_of self.old.live;
          format = Two;
          generation = header.now.generation;
          gate = 2 + length head.now + length world.now;
        }) }
        ensures err { OnErr result (self.new ≡ record self.old { disk = self.new.disk; failed = true }) }
        ensures honesty { D.honest self.old.disk ↔ D.honest self.new.disk }
        ensures counts { Counts result (D.failures self.old.disk) (D.failures self.new.disk) }
    {
        let side = other(self.live);
        self.failed = true;
        start_side(&mut self.disk, side, header, head, world)?;
        self.live = side;
        self.format = NEWEST;
        self.generation = header.generation;
        self.gate = 2 + head.len() + world.len();
        self.failed = false;
        Ok(())
    }

    /// Gives the disk back, and makes no call of it.
    pub fn into_disk(self) -> D
        ensures { result ≡ self.disk }
    {
        let Journal {
            disk,
            live: _,
            format: _,
            generation: _,
            gate: _,
            failed: _,
        } = self;
        disk
    }
}
