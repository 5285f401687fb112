//! A disk that fails once: it passes so many calls on, fails one, and passes on all others.
ghost use Rattle.std.specs.Prelude.{◌≡◌, ◌↔◌, IsErr, Some};
ghost use Rattle.tks_disk.specs.Once.{one_less};

use crate::DeviceFault;
use crate::failing::{Failing, Schedule};
use std::marker::Model;

/// One call fails, behind so many, and all others pass.
#[derive(Drop)]
pub struct OneAfter {
    /// How many calls pass before the one that fails; none behind that.
    calls_left: Option<u64>,
}

impl Model for OneAfter {
    ghost use Rattle.std.specs.Prelude.{ℕ, Option};

    ghost Value = { Option ℕ };

    ghost view = { λ s. s.calls_left };
}

impl Schedule for OneAfter {
    ghost use Rattle.std.specs.Prelude.{◌≡◌, ◌↔◌, IsErr, Some};
    ghost use Rattle.tks_disk.specs.Once.{one_less};

    ghost refuses = { λ s. s ≡ Some 0 };

    ghost next = { one_less };

    fn spend(&mut self) -> Result<(), DeviceFault>
        ensures fails { IsErr result ↔ (self.old ≡ Some 0) }
        ensures next { self.new ≡ one_less self.old }
    {
        match self.calls_left {
            Some(0) => {
                self.calls_left = None;
                Err(DeviceFault)
            }
            Some(left) => {
                self.calls_left = Some(left - 1);
                Ok(())
            }
            None => Ok(()),
        }
    }
}

/// A disk of which one call fails, for tests.
pub type Once<D> = Failing<D, OneAfter>;

impl<D> Failing<D, OneAfter> {
    /// Passes this many calls on to the disk, fails one, passing nothing on, and passes on all others.
    pub fn new(disk: D, calls: u64) -> Once<D>
        ensures { result ≡ record { disk = disk; schedule = Some calls; refused = 0 } }
    {
        Failing::by(
            disk,
            OneAfter {
                calls_left: Some(calls),
            },
        )
    }
}
