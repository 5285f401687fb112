//! A journal's life, on any disk, and what it holds when it is opened again.
ghost use Rattle.std.specs.Prelude.{◌≡◌, ◌<◌, ◌^◌, ℕ, IfSome, length};
ghost use Rattle.tks_journal.specs.Journal.{SpelledAs};

use std::alloc::Global;
use tks_disk::{Disk, Side};
use tks_journal::{Frames, Journal, OpenError, Opened, SideFault, Stored, open, spell};
use tks_spelling::Header;
use tks_text::{Seq, Size};

/// A header of this generation, and its spelling.
pub fn head_of(alloc: Global, generation: u64, world_length: u64) -> Option<(Header, Vec<u8>)>
    ensures spelled { IfSome result (λ x. SpelledAs x.1.items x.0) }
    ensures header { IfSome result (λ x. (x.0.generation ≡ generation) × (x.0.world_length ≡ world_length)) }
    ensures short { IfSome result (λ x. length x.1.items < 2 ^ 40) }
{
    let grid = Size::new(20, 3)?;
    let header = Header {
        generation,
        grid,
        names: Seq::new(alloc),
        world_length,
    };
    let head = spell(alloc, &header).ok()?;
    if head.len() >= 1 << 40 {
        return None;
    }
    Some((header, head))
}

// Begins the first side with this world.
fn begun<D: Disk + Drop>(alloc: Global, disk: D, world: &[u8]) -> Result<Journal<D>, D> {
    match open(alloc, disk) {
        Ok(Opened::Nothing(blank)) => match head_of(alloc, 1, world.len() as u64) {
            Some((header, head)) if world.len() < 1 << 40 => blank.start(&header, &head, world),
            _ => Err(blank.into_disk()),
        },
        Ok(Opened::Something(stored)) => Err(stored.into_disk()),
        Err(fault) => Err(fault.disk),
    }
}

fn adds<D: Disk>(journal: &mut Journal<D>, lead: &[u8], body: &[u8]) -> bool {
    if lead.len() >= 1 << 32 || body.len() >= 1 << 32 {
        return false;
    }
    if journal.has_failed() || !journal.has_room(lead.len() + body.len()) {
        return false;
    }
    journal.append(lead, body).is_ok()
}

fn renews<D: Disk>(alloc: Global, journal: &mut Journal<D>, world: &[u8]) -> bool {
    if journal.has_failed() || journal.generation() >= 1 << 62 || world.len() >= 1 << 40 {
        return false;
    }
    match head_of(alloc, journal.generation() + 1, world.len() as u64) {
        Some((header, head)) => journal.checkpoint(&header, &head, world).is_ok(),
        None => false,
    }
}

// Does the next thing, and says whether it was acknowledged.
fn acts<D: Disk>(alloc: Global, journal: &mut Journal<D>, step: usize) -> bool {
    match step {
        1 => adds(journal, b"", b"one"),
        2 => adds(journal, b"", b""),
        3 => adds(journal, b"thr", b"ee"),
        4 => renews(alloc, journal, b"second"),
        5 => adds(journal, b"five", b""),
        6 => renews(alloc, journal, b""),
        _ => adds(journal, b"s", b"even"),
    }
}

/// Eight things: a side that is begun, frames and checkpoints. How many of them were acknowledged, and the disk.
pub fn run<D: Disk + Drop>(alloc: Global, disk: D) -> (usize, D) {
    match begun(alloc, disk, b"first") {
        Ok(journal) => {
            let mut journal = journal;
            for step in 1..8 {
                if !acts(alloc, &mut journal, step) {
                    return (step, journal.into_disk());
                }
            }
            (8, journal.into_disk())
        }
        Err(disk) => (0, disk),
    }
}

/// What is held after so many of these things, as the plain program tells it.
pub fn state(done: usize) -> &'static [u8] {
    match done {
        0 => b"nothing",
        1 => b"\x01\x02first",
        2 => b"\x01\x02first\xffone",
        3 => b"\x01\x02first\xffone\xff",
        4 => b"\x01\x02first\xffone\xff\xffthree",
        5 => b"\x02\x02second",
        6 => b"\x02\x02second\xfffive",
        7 => b"\x03\x02",
        _ => b"\x03\x02\xffseven",
    }
}

/// The bytes of a side.
pub fn bytes_of<D: Disk>(alloc: Global, disk: &mut D, side: Side) -> Option<Vec<u8>> {
    let len = disk.len(side).ok()?;
    let mut bytes = Vec::new(alloc);
    bytes.resize(len, 0).ok()?;
    let _read = disk.read_at(side, 0, &mut bytes).ok()?;
    Some(bytes)
}

// Adds each frame.
fn add_frames<D: Disk + Drop>(
    alloc: Global,
    text: &mut Vec<u8>,
    frames: Frames<D>,
) -> Option<bool> {
    let mut frames = frames;
    for _ in 0..99 {
        match frames.next(alloc) {
            Ok(Some(body)) => {
                text.push(255).ok()?;
                text.extend_from_slice(&body).ok()?;
            }
            Ok(None) => return Some(true),
            Err(OpenError::Sides(_)) => return Some(false),
            Err(_) => return None,
        }
    }
    None
}

fn stored_text<D: Disk + Drop>(alloc: Global, stored: Stored<D>) -> Option<Vec<u8>> {
    let format = stored.format().byte();
    match stored.world(alloc) {
        Ok((header, world, frames)) => {
            let mut text = Vec::new(alloc);
            text.push((header.generation % 256) as u8).ok()?;
            text.push(format).ok()?;
            text.extend_from_slice(&world).ok()?;
            if add_frames(alloc, &mut text, frames)? {
                Some(text)
            } else {
                b"damaged".to_vec(alloc).ok()
            }
        }
        Err(fault) => word_of(alloc, fault.error),
    }
}

fn word_of(alloc: Global, error: OpenError) -> Option<Vec<u8>> {
    match error {
        OpenError::Sides(SideFault::Damaged) => b"damaged".to_vec(alloc).ok(),
        OpenError::Sides(SideFault::UnknownFormat) => b"unknown".to_vec(alloc).ok(),
        _ => None,
    }
}

/// What the disk holds when it is opened, told as the plain program does. None where memory or the device failed.
pub fn opened_text<D: Disk + Drop>(alloc: Global, disk: D) -> Option<Vec<u8>> {
    match open(alloc, disk) {
        Ok(Opened::Nothing(_)) => b"nothing".to_vec(alloc).ok(),
        Ok(Opened::Something(stored)) => stored_text(alloc, stored),
        Err(fault) => word_of(alloc, fault.error),
    }
}
