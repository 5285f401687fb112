//! Why a disk wasn't opened or read on.

use crate::fault::SideFault;
use std::alloc::AllocError;
use thiserror::Error;
use tks_disk::DeviceFault;

/// Why what a disk holds wasn't read.
#[derive(Clone, Copy, Debug, PartialEq, Eq, Error)]
pub enum OpenError {
    /// An allocation was refused.
    #[error("out of memory")]
    NoMemory,
    /// The device failed.
    #[error("the device failed")]
    Device,
    /// The bytes of the sides are at fault.
    #[error("{0}")]
    Sides(SideFault),
}

impl From<AllocError> for OpenError {
    ghost use Rattle.std.specs.Prelude.{◌≡◌};
    ghost use Rattle.tks_journal.specs.declared.error.OpenError.TheVariants.{NoMemory};

    ghost from_gives = { λ _ e. e ≡ NoMemory };

    fn from(_e: AllocError) -> OpenError {
        OpenError::NoMemory
    }
}

impl From<DeviceFault> for OpenError {
    ghost use Rattle.std.specs.Prelude.{◌≡◌};
    ghost use Rattle.tks_journal.specs.declared.error.OpenError.TheVariants.{Device};

    ghost from_gives = { λ _ e. e ≡ Device };

    fn from(_e: DeviceFault) -> OpenError {
        OpenError::Device
    }
}

impl From<SideFault> for OpenError {
    ghost use Rattle.std.specs.Prelude.{◌≡◌};
    ghost use Rattle.tks_journal.specs.declared.error.OpenError.TheVariants.{Sides};

    ghost from_gives = { λ f e. e ≡ Sides f };

    fn from(fault: SideFault) -> OpenError {
        OpenError::Sides(fault)
    }
}
