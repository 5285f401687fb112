//! The frames of a live side, read one after the other.
ghost use Rattle.std.specs.Prelude.{◌≡◌, ◌↔◌, ◌<◌, ◌≤◌, ◌+◌, [], ℕ, true, false, OnErr, IfOk, IfSome, Ok, Err, Some, None, length};

use crate::error::OpenError;
use crate::journal::Journal;
use crate::loading::frame_from;
use std::alloc::Global;
use std::marker::Model;
use tks_disk::{Disk, Side};
use tks_spelling::Format;

/// A disk whose world was read, and whose frames are being read.
#[derive(Drop)]
pub struct Frames<D: Disk> {
    disk: D,
    live: Side,
    format: Format,
    generation: u64,
    at: usize,
    len: usize,
    ended: bool,
}

impl<D: Disk> Model for Frames<D> {
    ghost use Rattle.std.specs.Prelude.{◌≡◌, true};
    ghost use Rattle.tks_journal.specs.Loading.{FramesState, FramesAt, ShutAt};

    ghost Value = { FramesState D };

    ghost view = { λ f. record { disk = f.disk; live = f.live; format = f.format; generation = f.generation; at = f.at; len = f.len; ended = f.ended } };

    ghost invariant = { λ f. D.honest f.disk → FramesAt (D.view f.disk) f.live f.format f.generation f.at f.len × (f.ended ≡ true → ShutAt f.live f.at (D.view f.disk).reads) };
}

impl<D: Disk> Frames<D> {
    ghost use Rattle.tks_journal.specs.Journal.{JournalState};
    ghost use Rattle.tks_journal.specs.Loading.{FramesState, FramesAt, behind};
    ghost use Rattle.tks_journal.specs.Opening.{Tells, Unwritten};
    ghost use Rattle.tks_journal.specs.Sides.{frames, with_front};
    ghost use Rattle.tks_journal.specs.declared.fault.SideFault.{SideFault};

    /// The frames from this place on, on a live side of `len` bytes and this format.
    pub(crate) fn from(
        disk: D,
        live: Side,
        format: Format,
        generation: u64,
        at: usize,
        len: usize,
    ) -> Frames<D>
        requires { D.honest disk → FramesAt (D.view disk) live format generation at len }
        ensures { result ≡ record { disk = disk; live = live; format = format; generation = generation; at = at; len = len; ended = false } }
    {
        Frames {
            disk,
            live,
            format,
            generation,
            at,
            len,
            ended: false,
        }
    }

    /// The format of the live side, by which its frames are read.
    pub fn format(&self) -> Format
        ensures { result ≡ self.now.format }
    {
        self.format
    }

    /// The body of the next frame, or none where a closed gate ends them. It writes nothing, holds one frame, and takes memory
    /// for a body that is there.
    pub fn next(&mut self, alloc: Global) -> Result<Option<Vec<u8>>, OpenError>
        // What is handed out is the first of the frames that are left.
        ensures frame { IfOk result (λ o. IfSome o (λ body. D.honest self.old.disk
            → frames (behind self.old.live self.old.at (D.view self.old.disk).reads) ≡ with_front body.items (frames (behind self.new.live self.new.at (D.view self.new.disk).reads)))) }
        ensures on { IfOk result (λ o. IfSome o (λ body. (self.new ≡ record self.old { disk = self.new.disk; at = self.old.at + 5 + length body.items; ended = false })
            × (self.old.at + 5 + length body.items ≤ self.old.len))) }

        // None is left where it answers none, and none can be read where it says that the side is damaged.
        ensures end { result ≡ Ok None → (self.new ≡ record self.old { disk = self.new.disk; ended = true })
            × (D.honest self.old.disk → frames (behind self.old.live self.old.at (D.view self.old.disk).reads) ≡ Some []) }
        ensures fault { (f : SideFault) → result ≡ Err (OpenError.Sides f) → (f ≡ SideFault.Damaged)
            × (D.honest self.old.disk → frames (behind self.old.live self.old.at (D.view self.old.disk).reads) ≡ None) }

        ensures err { OnErr result (self.new ≡ record self.old { disk = self.new.disk }) }
        ensures unwritten { D.honest self.old.disk → Unwritten (D.view self.old.disk) (D.view self.new.disk) }
        ensures honesty { D.honest self.old.disk ↔ D.honest self.new.disk }
        ensures tells { Tells result (D.failures self.old.disk) (D.failures self.new.disk) }
    {
        match frame_from(alloc, &mut self.disk, self.live, self.at, self.len) {
            Ok(Some(body)) => {
                self.at += 5 + body.len();
                self.ended = false;
                Ok(Some(body))
            }
            Ok(None) => {
                self.ended = true;
                Ok(None)
            }
            Err(error) => Err(error),
        }
    }

    /// The journal, once all frames were handed out.
    pub fn into_journal(self) -> Journal<D>
        requires { self.ended ≡ true }
        ensures { result ≡ record { disk = self.disk; live = self.live; format = self.format; generation = self.generation; gate = self.at; failed = false } }
    {
        let Frames {
            disk,
            live,
            format,
            generation,
            at,
            len: _,
            ended: _,
        } = self;
        Journal::at(disk, live, format, generation, at)
    }

    /// Gives the disk back, and makes no call of it.
    pub fn into_disk(self) -> D
        ensures { result ≡ self.disk }
    {
        let Frames {
            disk,
            live: _,
            format: _,
            generation: _,
            at: _,
            len: _,
            ended: _,
        } = self;
        disk
    }
}
