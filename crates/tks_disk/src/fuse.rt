//! A disk that stops: it passes so many calls on, and fails each one after.
ghost use Rattle.std.specs.Prelude.{◌≡◌, ◌-◌, ◌↔◌, IsErr};

use crate::DeviceFault;
use crate::failing::{Failing, Schedule};
use std::marker::Model;

/// So many calls pass, and each one after fails.
#[derive(Drop)]
pub struct EachAfter {
    calls_left: u64,
}

impl Model for EachAfter {
    ghost use Rattle.std.specs.Prelude.{ℕ};

    ghost Value = { ℕ };

    ghost view = { λ s. s.calls_left };
}

impl Schedule for EachAfter {
    ghost use Rattle.std.specs.Prelude.{◌≡◌, ◌-◌, ◌↔◌, IsErr};

    ghost refuses = { λ s. s ≡ 0 };

    ghost next = { λ s. s - 1 };

    fn spend(&mut self) -> Result<(), DeviceFault>
        ensures fails { IsErr result ↔ (self.old ≡ 0) }
        ensures next { self.new ≡ self.old - 1 }
    {
        if self.calls_left == 0 {
            return Err(DeviceFault);
        }
        self.calls_left -= 1;
        Ok(())
    }
}

/// A disk whose power fails after so many calls, for tests.
pub type Fuse<D> = Failing<D, EachAfter>;

impl<D> Failing<D, EachAfter> {
    /// Passes this many calls on to the disk, and then fails each one, passing nothing on.
    pub fn new(disk: D, calls: u64) -> Fuse<D>
        ensures { result ≡ record { disk = disk; schedule = calls; refused = 0 } }
    {
        Failing::by(disk, EachAfter { calls_left: calls })
    }
}
