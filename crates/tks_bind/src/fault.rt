//! Faults of bindings.
use std::alloc::AllocError;
use thiserror::Error;

/// Why a binding was not set.
#[derive(Clone, Copy, Debug, Error)]
pub enum BindFault {
    /// All numbers up to 2^62 were given out.
    #[error("too many scripts were bound")]
    OutOfNumbers,
    /// An allocation was refused.
    #[error("out of memory")]
    NoMemory,
}

impl From<AllocError> for BindFault {
    ghost use Rattle.std.specs.Prelude.{◌≡◌};
    ghost use Rattle.tks_bind.specs.declared.fault.BindFault.TheVariants.{NoMemory};

    ghost from_gives = { λ _ e. e ≡ NoMemory };

    fn from(_e: AllocError) -> BindFault {
        BindFault::NoMemory
    }
}
