//! A disk that holds something: its header, then its world.
ghost use Rattle.std.specs.Prelude.{◌≡◌, ◌↔◌, ◌<◌, ◌≤◌, ◌+◌, ℕ, false, IfOk, IfErr, MatchResult, Ok, Err, length};

use crate::blank::Blank;
use crate::error::OpenError;
use crate::frames::Frames;
use crate::loading::world_from;
use crate::opening::survey;
use std::alloc::Global;
use std::marker::Model;
use tks_disk::{Disk, Side};
use tks_spelling::{Format, Header};

/// Why a disk wasn't opened, and the disk.
#[derive(Drop)]
pub struct OpenFault<D> {
    pub disk: D,
    pub error: OpenError,
}

/// A disk whose live side is known, with its format and header.
#[derive(Drop)]
pub struct Stored<D: Disk> {
    disk: D,
    live: Side,
    format: Format,
    header: Header,
    at: usize,
    len: usize,
}

/// What was found on a disk.
#[derive(Drop)]
pub enum Opened<D: Disk> {
    /// Neither side is open.
    Nothing(Blank<D>),
    Something(Stored<D>),
}

impl<D: Disk> Model for Stored<D> {
    ghost use Rattle.tks_journal.specs.Loading.{StoredState, StoredAt};

    ghost Value = { StoredState D };

    ghost view = { λ s. record { disk = s.disk; live = s.live; format = s.format; header = s.header; at = s.at; len = s.len } };

    ghost invariant = { λ s. D.honest s.disk → StoredAt (D.view s.disk) s.live s.format s.header s.at s.len };
}

impl<D: Disk> Stored<D> {
    ghost use Rattle.tks_journal.specs.Loading.{StoredState, FramesState, StoredAt, behind};
    ghost use Rattle.tks_journal.specs.Opening.{RaisedBy, Unwritten};
    ghost use Rattle.tks_journal.specs.Sides.{frames, holds, kept};
    ghost use Rattle.tks_journal.specs.declared.fault.SideFault.{SideFault};

    /// The format of the live side.
    pub fn format(&self) -> Format
        ensures { result ≡ self.now.format }
    {
        self.format
    }

    /// The header of the live side.
    pub fn header(&self) -> &Header
        ensures { result.now ≡ self.now.header }
    {
        &self.header
    }

    /// Gives the disk back, and makes no call of it.
    pub fn into_disk(self) -> D
        ensures { result ≡ self.disk }
    {
        let Stored {
            disk,
            live: _,
            format: _,
            header: _,
            at: _,
            len: _,
        } = self;
        disk
    }

    /// Reads the world, and hands it out with the header and the frames, which are still to be read. It takes memory for a
    /// world that is there. On a fault it gives the disk back.
    pub fn world(self, alloc: Global) -> Result<(Header, Vec<u8>, Frames<D>), OpenFault<D>>
        // The disk holds this header, this world, and the frames that are left.
        ensures read { IfOk result (λ x. D.honest self.disk → holds (D.view self.disk).reads
            ≡ kept x.2.live x.2.format x.0 x.1.items (frames (behind x.2.live x.2.at (D.view x.2.disk).reads))) }
        ensures frames { IfOk result (λ x. (x.0 ≡ self.header) × (x.2 ≡ record {
          disk = x.2.disk;
          live = self.live;
          format = self.format;
          generation = self.header.generation;
          at = self.at + self.header.world_length;
          len = self.len;
          ended = false;
        })) }
        ensures fault { IfErr result (λ x. (f : SideFault) → x.error ≡ OpenError.Sides f → D.honest self.disk → holds (D.view self.disk).reads ≡ Err f) }
        ensures unwritten { D.honest self.disk → MatchResult result (λ x. Unwritten (D.view self.disk) (D.view x.2.disk)) (λ x. Unwritten (D.view self.disk) (D.view x.disk)) }
        ensures honesty { MatchResult result (λ x. D.honest self.disk ↔ D.honest x.2.disk) (λ x. D.honest self.disk ↔ D.honest x.disk) }
        ensures tells { MatchResult result (λ x. D.failures x.2.disk ≡ D.failures self.disk) (λ x. RaisedBy x.error (D.failures self.disk) (D.failures x.disk)) }
    {
        let Stored {
            mut disk,
            live,
            format,
            header,
            at,
            len,
        } = self;
        match world_from(alloc, &mut disk, live, at, header.world_length, len) {
            Ok(world) => {
                let frames = Frames::from(
                    disk,
                    live,
                    format,
                    header.generation,
                    at + world.len(),
                    len,
                );
                Ok((header, world, frames))
            }
            Err(error) => Err(OpenFault { disk, error }),
        }
    }
}

ghost use Rattle.tks_journal.specs.Found.{OpensTo, disk_of};
ghost use Rattle.tks_journal.specs.Opening.{RaisedBy, Unwritten};
ghost use Rattle.tks_journal.specs.Sides.{holds};
ghost use Rattle.tks_journal.specs.declared.fault.SideFault.{SideFault};

/// Opens a disk: syncs both sides, and says what is there. It writes nothing. On a fault it gives the disk back.
pub fn open<D: Disk>(alloc: Global, disk: D) -> Result<Opened<D>, OpenFault<D>>
    // What was found is what the disk holds.
    ensures found { IfOk result (λ o. D.honest disk → OpensTo (holds (D.view disk).reads) (D.view (disk_of o)).reads o) }
    ensures fault { IfErr result (λ x. (f : SideFault) → x.error ≡ OpenError.Sides f → D.honest disk → holds (D.view disk).reads ≡ Err f) }
    ensures unwritten { D.honest disk → MatchResult result (λ o. Unwritten (D.view disk) (D.view (disk_of o))) (λ x. Unwritten (D.view disk) (D.view x.disk)) }
    ensures honesty { MatchResult result (λ o. D.honest disk ↔ D.honest (disk_of o)) (λ x. D.honest disk ↔ D.honest x.disk) }
    ensures tells { MatchResult result (λ o. D.failures (disk_of o) ≡ D.failures disk) (λ x. RaisedBy x.error (D.failures disk) (D.failures x.disk)) }
{
    let mut disk = disk;
    match survey(alloc, &mut disk) {
        Ok(None) => Ok(Opened::Nothing(Blank::over(disk))),
        Ok(Some((live, head))) => Ok(Opened::Something(Stored {
            disk,
            live,
            format: head.format,
            header: head.header,
            at: head.at,
            len: head.len,
        })),
        Err(error) => Err(OpenFault { disk, error }),
    }
}
