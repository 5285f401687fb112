//! How a run ends.
ghost use Rattle.std.specs.Prelude.{◌≡◌};

use std::alloc::AllocError;
use thiserror::Error;
use tks_session::SessionFault;

/// How a run ended that met no fault.
#[derive(Clone, Copy, Debug)]
pub enum RunEnd {
    /// The line `quit` was read.
    Quit,
    /// Nothing more was to be read.
    EndOfInput,
}

/// Why a run was cut off.
#[derive(Clone, Copy, Debug, Error)]
pub enum RunFault {
    /// The reader failed, or gave 2^40 bytes.
    #[error("reading failed")]
    Read,
    /// The writer failed.
    #[error("writing failed")]
    Write,
    /// A line could not be held.
    #[error("out of memory")]
    Memory,
    /// The session failed: the device did in the last call, or had before.
    #[error("the session failed")]
    Session(SessionFault),
}

impl From<AllocError> for RunFault {
    ghost use Rattle.tks_desk.specs.declared.ending.RunFault.TheVariants.{Memory};

    ghost from_gives = { λ _ e. e ≡ Memory };

    fn from(_e: AllocError) -> RunFault {
        RunFault::Memory
    }
}
