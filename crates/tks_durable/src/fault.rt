//! Faults of a durable machine.
ghost use Rattle.std.specs.Prelude.{◌≡◌};

use std::alloc::AllocError;
use thiserror::Error;

/// Why a call of a durable machine, or of a session, failed.
#[derive(Clone, Copy, Debug, PartialEq, Eq, Error)]
pub enum SessionFault {
    /// A world's bytes, or the number of a side, would pass what a disk holds.
    #[error("too large")]
    TooLarge,
    /// An allocation was refused.
    #[error("out of memory")]
    NoMemory,
    /// The device failed in this call.
    #[error("the device failed")]
    Disk,
    /// The device failed in an earlier call.
    #[error("an earlier call failed at the device")]
    Failed,
    /// The bytes of the sides were never written so.
    #[error("the store is damaged")]
    Damaged,
    /// The store was made with other application commands.
    #[error("the store has other commands")]
    OtherCommands,
    /// The store was made for another grid.
    #[error("the store has another grid")]
    OtherGrid,
    /// What stands in the store passes the present limits.
    #[error("the store passes the limits")]
    SmallerLimits,
    /// A side is of a format that isn't known.
    #[error("the store is of an unknown format")]
    Version,
}

impl From<AllocError> for SessionFault {
    ghost use Rattle.tks_durable.specs.declared.fault.SessionFault.TheVariants.{NoMemory};

    ghost from_gives = { λ _ e. e ≡ NoMemory };

    fn from(_e: AllocError) -> SessionFault {
        SessionFault::NoMemory
    }
}
