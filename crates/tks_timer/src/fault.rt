//! Why a script is not kept.
use std::alloc::AllocError;
use thiserror::Error;

/// Why a script was not kept to be run later.
#[derive(Clone, Copy, Debug, Error)]
pub enum AfterFault {
    /// All ids up to 2^62 were given out.
    #[error("too many scripts were kept")]
    OutOfNumbers,
    /// An allocation was refused.
    #[error("out of memory")]
    NoMemory,
}

impl From<AllocError> for AfterFault {
    ghost use Rattle.std.specs.Prelude.{◌≡◌};
    ghost use Rattle.tks_timer.specs.declared.fault.AfterFault.TheVariants.{NoMemory};

    ghost from_gives = { λ _ e. e ≡ NoMemory };

    fn from(_e: AllocError) -> AfterFault {
        AfterFault::NoMemory
    }
}
