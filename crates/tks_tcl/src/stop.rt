//! Why a run of a script stopped.
use std::alloc::AllocError;
use thiserror::Error;

/// Why a run of a script stopped. No script sees it.
#[derive(Clone, Copy, Debug, Error)]
pub enum Stop {
    /// It would have taken one step too many.
    #[error("out of steps")]
    Budget,
    /// One script too many would have been open at once.
    #[error("scripts too deep in one another")]
    Depth,
    /// A text or a list would have passed its limit.
    #[error("too large")]
    TooLarge,
    /// An allocation was refused.
    #[error("out of memory")]
    NoMemory,
}

impl From<AllocError> for Stop {
    ghost use Rattle.std.specs.Prelude.{◌≡◌};
    ghost use Rattle.tks_tcl.specs.declared.stop.Stop.TheVariants.{NoMemory};

    ghost from_gives = { λ _ e. e ≡ NoMemory };

    fn from(_e: AllocError) -> Stop {
        Stop::NoMemory
    }
}
