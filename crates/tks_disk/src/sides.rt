//! The two sides of a disk in memory.
ghost use Rattle.std.specs.Prelude.{◌≡◌, length, OnOk, OnErr};
ghost use Rattle.tks_disk.specs.DiskModel.{ReadsAt, on};

use crate::Side;
use crate::memory_side::MemorySide;
use std::alloc::AllocError;

/// Both sides.
#[derive(Drop)]
pub struct Sides {
    pub a: MemorySide,
    pub b: MemorySide,
}

impl Sides {
    ghost use Rattle.tks_disk.specs.Memory.{images, SidesWritten, with_settled};

    /// How many bytes a side reads as.
    pub fn len(&self, side: Side) -> usize
        ensures { result ≡ length (on side (images self.now)) }
    {
        match side {
            Side::A => self.a.len(),
            Side::B => self.b.len(),
        }
    }

    /// Reads the bytes of a side from `at` on that are there and fit, and answers how many.
    pub fn read_at(&self, side: Side, at: usize, buf: &mut [u8]) -> usize
        ensures { ReadsAt at result (on side (images self.now)) buf.old buf.new }
    {
        match side {
            Side::A => self.a.read_at(at, buf),
            Side::B => self.b.read_at(at, buf),
        }
    }

    /// Writes over what is there, and past the end. Nothing is changed where memory is refused.
    pub fn write_at(&mut self, side: Side, at: usize, bytes: &[u8]) -> Result<(), AllocError>
        ensures written { OnOk result (SidesWritten side at bytes.now self.old self.new) }
        ensures refused { OnErr result (self.new ≡ self.old) }
    {
        match side {
            Side::A => self.a.write_at(at, bytes),
            Side::B => self.b.write_at(at, bytes),
        }
    }

    /// Makes sure of a side. Nothing is changed where memory is refused.
    pub fn sync(&mut self, side: Side) -> Result<(), AllocError>
        ensures settled { OnOk result (self.new ≡ with_settled side self.old) }
        ensures refused { OnErr result (self.new ≡ self.old) }
    {
        match side {
            Side::A => self.a.sync(),
            Side::B => self.b.sync(),
        }
    }
}
