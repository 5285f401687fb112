//! One side of a disk in memory: what it reads as, what was synced last, and the ranges written since.
ghost use Rattle.std.specs.Prelude.{◌≡◌, ◌∷◌, ◌++◌, [], length, OnOk, OnErr, IfOk, if◌then◌else◌};
ghost use Rattle.tks_disk.specs.DiskModel.{Torn, Holds, ReadsAt};
ghost use Rattle.tks_disk.specs.MemorySide.{filled, touched};

use crate::left::Left;
use crate::span::{Span, is_touched};
use std::alloc::{AllocError, Global};
use std::marker::Model;

#[derive(Drop)]
pub struct MemorySide {
    bytes: Vec<u8>,
    synced: Vec<u8>,
    unsynced: Vec<Span>,
}

impl Model for MemorySide {
    ghost use Rattle.tks_disk.specs.MemorySide.{SideState};

    ghost Value = { SideState };

    ghost view = { λ s. record { bytes = s.bytes.items; synced = s.synced.items; unsynced = s.unsynced.items } };
}

/// Puts the bytes into the file, which has room for them.
fn overwrite(file: &mut Vec<u8>, at: usize, bytes: &[u8]) -> Result<(), AllocError>
    ensures written { OnOk result (Holds at bytes.now file.old.items file.new.items) }
    ensures torn { OnOk result (Torn at (length bytes.now) file.old.items file.new.items) }
    ensures refused { OnErr result (file.new.items ≡ file.old.items) }
{
    let end = at.checked_add(bytes.len()).ok_or(AllocError)?;
    if end > file.len() {
        file.resize(end, 0)?;
    }
    file[at..end].copy_from_slice(bytes);
    Ok(())
}

impl MemorySide {
    ghost use Rattle.tks_disk.specs.MemorySide.{settled, left_of, SideWritten};

    /// These bytes, all of them synced.
    pub fn holding(alloc: Global, bytes: Vec<u8>) -> Result<MemorySide, AllocError>
        ensures { IfOk result (λ s. s ≡ settled bytes.items) }
    {
        let synced = bytes.to_vec(alloc)?;
        Ok(MemorySide {
            bytes,
            synced,
            unsynced: Vec::new(alloc),
        })
    }

    /// No bytes.
    pub fn new(alloc: Global) -> MemorySide
        ensures { result ≡ settled [] }
    {
        MemorySide {
            bytes: Vec::new(alloc),
            synced: Vec::new(alloc),
            unsynced: Vec::new(alloc),
        }
    }

    /// How many bytes it has.
    pub fn len(&self) -> usize
        ensures { result ≡ length self.now.bytes }
    {
        self.bytes.len()
    }

    /// Copies the bytes from `at` on that are there and fit, and answers how many.
    pub fn read_at(&self, at: usize, buf: &mut [u8]) -> usize
        ensures { ReadsAt at result self.now.bytes buf.old buf.new }
    {
        let bytes = self.bytes.as_slice();
        if at >= bytes.len() {
            return 0;
        }
        let rest = &bytes[at..];
        let n = rest.len().min(buf.len());
        buf[..n].copy_from_slice(&rest[..n]);
        n
    }

    /// Writes the bytes, and notes their range. Nothing is changed where memory is refused.
    pub fn write_at(&mut self, at: usize, bytes: &[u8]) -> Result<(), AllocError>
        ensures written { OnOk result (SideWritten at bytes.now self.old self.new) }
        ensures refused { OnErr result (self.new ≡ self.old) }
    {
        self.unsynced.reserve(1)?;
        overwrite(&mut self.bytes, at, bytes)?;
        self.unsynced.push_reserved(Span {
            at,
            len: bytes.len(),
        });
        Ok(())
    }

    /// Makes sure of what it reads as. Nothing is changed where memory is refused.
    pub fn sync(&mut self) -> Result<(), AllocError>
        ensures settled { OnOk result (self.new ≡ settled self.old.bytes) }
        ensures refused { OnErr result (self.new ≡ self.old) }
    {
        let synced = self.bytes.to_vec(*self.bytes.allocator())?;
        self.synced = synced;
        self.unsynced.clear();
        Ok(())
    }

    /// What a crash leaves of it, where this is asked for.
    pub fn left(&self, alloc: Global, left: Left) -> Result<Vec<u8>, AllocError>
        ensures { IfOk result (λ bytes. bytes.items ≡ left_of left self.now) }
    {
        match left {
            Left::Old => Ok(self.synced.to_vec(alloc)?),
            Left::New => Ok(self.bytes.to_vec(alloc)?),
            Left::Fill(byte) => Ok(filled(alloc, &self.bytes, &self.unsynced, byte)?),
        }
    }
}

/// What is left in this place, where the byte was written there.
fn left_in(spans: &[Span], place: usize, written: u8, byte: u8) -> u8
    ensures { result ≡ (if touched spans.now place then byte else written) }
{
    if is_touched(spans, place) {
        byte
    } else {
        written
    }
}

/// The bytes, with this one in each place of the ranges.
fn filled(alloc: Global, bytes: &[u8], spans: &[Span], byte: u8) -> Result<Vec<u8>, AllocError>
    ensures { IfOk result (λ image. image.items ≡ filled byte spans.now bytes.now) }
{
    let mut image = Vec::new(alloc);
    for (at, written) in bytes.iter().enumerate() {
        image.push(left_in(spans, at, *written, byte))?;
    }
    Ok(image)
}
