//! What stands at the front of a side.
ghost use Rattle.std.specs.Prelude.{◌≡◌, ◌↔◌, ◌<◌, ◌≤◌, ◌+◌, ◌∷◌, [], ℕ, List, IfOk, Err, length, take, drop};
ghost use Rattle.tks_disk.specs.DiskModel.{on, Rests};
ghost use Rattle.tks_journal.specs.Opening.{Tells, NoSideFault};
ghost use Rattle.tks_journal.specs.Fronts.{FrontIs, AttemptIs, IsOpenSide, live_front, front_with, newest};
ghost use Rattle.tks_journal.specs.Sides.{is_given};

use crate::error::OpenError;
use crate::fault::SideFault;
use crate::reading::{byte_at, read_exactly};
use std::alloc::Global;
use tks_disk::{Disk, Side};
use tks_spelling::{CodecFault, Format, Header, read_header};
use tks_text::MAX_NUMBER;

/// How many bytes behind the format are read at first.
const FIRST_READ: usize = 256;

/// The format and the header of an open side.
#[derive(Drop)]
pub struct Head {
    pub format: Format,
    pub header: Header,
    /// Where what stands behind it begins.
    pub at: usize,
    /// How many bytes the side has.
    pub len: usize,
}

/// What a side says before its world.
#[derive(Drop)]
pub enum Front {
    Closed,
    /// It is open, in a format that isn't known.
    Unknown,
    /// It is open, with a header that is cut or no spelling, or of a generation that is never given out.
    Broken,
    Intact(Head),
}

/// What reading a header from the front of bytes comes to.
#[derive(Drop)]
pub enum Attempt {
    /// The header, and how many bytes it takes.
    Read(Header, usize),
    /// No header stands there, whatever follows.
    Wrong,
    /// The bytes end too early.
    Short,
}

/// Reads a header from the front of these bytes.
fn try_header(alloc: Global, bytes: &[u8]) -> Result<Attempt, OpenError>
    ensures read { IfOk result (λ a. AttemptIs a bytes.now) }
    ensures refused { (e : OpenError) → result ≡ Err e → e ≡ OpenError.NoMemory }
{
    match read_header(alloc, bytes) {
        Ok((header, count)) => Ok(Attempt::Read(header, count)),
        Err(CodecFault::Bad(place)) => {
            if place < bytes.len() {
                return Ok(Attempt::Wrong);
            }
            Ok(Attempt::Short)
        }
        Err(CodecFault::NoMemory) => Err(OpenError::NoMemory),
    }
}

/// What an open side of this format with this header says.
fn headed(format: Format, header: Header, at: usize, len: usize) -> Front
    ensures { result ≡ front_with format header at len }
{
    if header.generation == 0 || header.generation > MAX_NUMBER {
        return Front::Broken;
    }
    Front::Intact(Head {
        format,
        header,
        at,
        len,
    })
}

/// Reads the header of an open side of this format. It takes no more memory than twice what the header needs.
fn front_with_header<D: Disk>(
    alloc: Global,
    disk: &mut D,
    side: Side,
    format: Format,
    len: usize,
) -> Result<Front, OpenError>
    requires some { 2 ≤ len }
    requires side { D.honest disk.old → IsOpenSide format len (on side (D.view disk.old).reads) }
    ensures front { IfOk result (λ f. D.honest disk.old → FrontIs f (on side (D.view disk.old).reads)) }
    ensures sound { NoSideFault result }
    ensures rests { D.honest disk.old → Rests (D.view disk.old) (D.view disk.new) }
    ensures honesty { D.honest disk.old ↔ D.honest disk.new }
    ensures tells { Tells result (D.failures disk.old) (D.failures disk.new) }
{
    let all = len - 2;
    let mut count = all.min(FIRST_READ);
    loop {
        let bytes = read_exactly(alloc, disk, side, 2, count)?;
        match try_header(alloc, &bytes)? {
            Attempt::Read(header, end) => return Ok(headed(format, header, 2 + end, len)),
            Attempt::Wrong => return Ok(Front::Broken),
            Attempt::Short => {}
        }
        if count >= all {
            return Ok(Front::Broken);
        }
        count += (all - count).min(count + 1);
    }
}

/// What this side says before its world.
pub fn front_of<D: Disk>(alloc: Global, disk: &mut D, side: Side) -> Result<Front, OpenError>
    ensures front { IfOk result (λ f. D.honest disk.old → FrontIs f (on side (D.view disk.old).reads)) }
    ensures sound { NoSideFault result }
    ensures rests { D.honest disk.old → Rests (D.view disk.old) (D.view disk.new) }
    ensures honesty { D.honest disk.old ↔ D.honest disk.new }
    ensures tells { Tells result (D.failures disk.old) (D.failures disk.new) }
{
    let len = disk.len(side)?;
    if len < 2 {
        return Ok(Front::Closed);
    }
    let gate = byte_at(disk, side, 0)?;
    if gate != 1 {
        return Ok(Front::Closed);
    }
    let byte = byte_at(disk, side, 1)?;
    let Some(format) = Format::of_byte(byte) else {
        return Ok(Front::Unknown);
    };
    front_with_header(alloc, disk, side, format, len)
}

/// Which side is live, by the fronts of both.
pub fn choose(a: Front, b: Front) -> Result<Option<(Side, Head)>, SideFault>
    ensures { result ≡ live_front a b }
{
    match (a, b) {
        (Front::Unknown, _) | (_, Front::Unknown) => Err(SideFault::UnknownFormat),
        (Front::Broken, _) | (_, Front::Broken) => Err(SideFault::Damaged),
        (Front::Closed, Front::Closed) => Ok(None),
        (Front::Intact(a), Front::Closed) => Ok(Some((Side::A, a))),
        (Front::Closed, Front::Intact(b)) => Ok(Some((Side::B, b))),
        (Front::Intact(a), Front::Intact(b)) => newer(a, b),
    }
}

/// Of two open sides the one with the greater generation is live.
fn newer(a: Head, b: Head) -> Result<Option<(Side, Head)>, SideFault>
    ensures { result ≡ newest a b }
{
    if a.header.generation == b.header.generation {
        return Err(SideFault::Damaged);
    }
    if b.header.generation < a.header.generation {
        return Ok(Some((Side::A, a)));
    }
    Ok(Some((Side::B, b)))
}
