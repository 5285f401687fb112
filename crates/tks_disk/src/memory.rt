//! A disk in memory. It keeps what was synced last and the ranges written since, so a crash may tear them.
ghost use Rattle.std.specs.Prelude.{◌≡◌, [], length, refl};
ghost use Rattle.std.proofs.Common.{inl};

use crate::left::Left;
use crate::memory_side::MemorySide;
use crate::sides::Sides;
use crate::trail::Trail;
use crate::{DeviceFault, Disk, Side};
use std::alloc::{AllocError, Global};
use std::marker::Model;

/// A disk of two files in memory, for tests: it says what a crash at this moment leaves.
///
/// A growth that is refused is a failure of the device; a call that fails changes nothing.
pub struct MemoryDisk {
    sides: Sides,
    /// The sides as they were at each moment before. Only clauses read it.
    past: Trail<Sides>,
    /// One for each call that failed. Only clauses read it.
    failed: Trail<()>,
}

// Written out, so that to let go of it is one step for whoever owns it.
impl Drop for MemoryDisk {
    fn drop(self) {
        let MemoryDisk {
            sides: _,
            past: _,
            failed: _,
        } = self;
    }
}

impl Model for MemoryDisk {
    ghost use Rattle.std.specs.Prelude.{length};
    ghost use Rattle.tks_disk.specs.Memory.{MemoryState, AreConsistent};

    ghost Value = { MemoryState };

    ghost view = { λ m. record { sides = m.sides; past = m.past; failures = length m.failed } };

    ghost invariant = { λ m. AreConsistent m.sides };
}

impl MemoryDisk {
    ghost use Rattle.std.specs.Prelude.{IfOk};
    ghost use Rattle.tks_disk.specs.DiskModel.{Images};
    ghost use Rattle.tks_disk.specs.Memory.{fresh, images, BothLeave, AreConsistent};
    ghost use Rattle.tks_disk.specs.MemorySide.{left_of};

    /// A disk of these sides, with no past.
    fn of(sides: Sides) -> MemoryDisk
        requires { AreConsistent sides }
        ensures { result ≡ record { sides = sides; past = []; failures = 0 } }
    {
        MemoryDisk {
            sides,
            past: Trail::new(),
            failed: Trail::new(),
        }
    }

    /// Two empty sides. A crash leaves them empty.
    pub fn new(alloc: Global) -> MemoryDisk
        ensures empty { result ≡ fresh [] [] }
        ensures only { (i : Images) → BothLeave result.sides i → i ≡ record { a = []; b = [] } }
    {
        MemoryDisk::of(Sides {
            a: MemorySide::new(alloc),
            b: MemorySide::new(alloc),
        })
    }

    /// It keeps to the laws of `Disk`.
    pub fn is_honest(&self)
        ensures { ⟦<MemoryDisk as Disk>⟧.honest self.now }
    {
        let _ = &self.sides;
    }

    /// The disk after a crash at this moment, where that is left of the sides which is asked for. It is all synced.
    pub fn crash(&self, alloc: Global, a: Left, b: Left) -> Result<MemoryDisk, AllocError>
        // It reads as exactly what was asked for.
        ensures left { IfOk result (λ m. m ≡ fresh (left_of a self.now.sides.a) (left_of b self.now.sides.b)) }
        // That is one of the images that a crash may leave.
        ensures image { IfOk result (λ m. BothLeave self.now.sides (images m.sides)) }
        ensures only { IfOk result (λ m. (i : Images) → BothLeave m.sides i → i ≡ images m.sides) }
    {
        let a = self.sides.a.left(alloc, a)?;
        let b = self.sides.b.left(alloc, b)?;
        let sides = Sides {
            a: MemorySide::holding(alloc, a)?,
            b: MemorySide::holding(alloc, b)?,
        };
        Ok(MemoryDisk::of(sides))
    }
}

impl Disk for MemoryDisk {
    ghost use Rattle.tks_disk.specs.Memory.{AreConsistent, memory_view, only_present, since_earlier};

    ghost honest = { λ m. AreConsistent m.sides };

    ghost view = { memory_view };

    ghost failures = { λ m. m.failures };

    fn len(&mut self, side: Side) -> Result<usize, DeviceFault> {
        Ok(self.sides.len(side))
    }

    fn read_at(&mut self, side: Side, at: usize, buf: &mut [u8]) -> Result<usize, DeviceFault> {
        Ok(self.sides.read_at(side, at, buf))
    }

    fn write_at(&mut self, side: Side, at: usize, bytes: &[u8]) -> Result<(), DeviceFault> {
        self.past = self.past.and(&self.sides);
        match self.sides.write_at(side, at, bytes) {
            Ok(()) => Ok(()),
            Err(_) => {
                self.failed = self.failed.and(&());
                Err(DeviceFault)
            }
        }
    }

    fn sync(&mut self, side: Side) -> Result<(), DeviceFault> {
        self.past = self.past.and(&self.sides);
        match self.sides.sync(side) {
            Ok(()) => Ok(()),
            Err(_) => {
                self.failed = self.failed.and(&());
                Err(DeviceFault)
            }
        }
    }

    ghost reads_may_stay = { λ m h. h };

    ghost counts_now = { λ m t i h le now. inl now };

    ghost only_now = { λ m i h left. only_present m.sides m.past i left };

    ghost since_earlier = { λ m t u i h le left. since_earlier t u m.sides m.past i le left };
}
