//! Why bytes are refused by those who read a whole value.
use std::alloc::AllocError;
use thiserror::Error;

/// Why bytes were not read.
#[derive(Clone, Copy, Debug, Error)]
pub enum CodecFault {
    /// No spelling stands at the front. The position, counted from 0, is that of the first byte with
    /// which this is known, or the number of bytes where they end too early.
    #[error("no spelling, by the byte at position {0}")]
    Bad(usize),
    /// An allocation was refused.
    #[error("out of memory")]
    NoMemory,
}

impl From<AllocError> for CodecFault {
    ghost use Rattle.std.specs.Prelude.{◌≡◌};
    ghost use Rattle.tks_spelling.specs.declared.fault.CodecFault.TheVariants.{NoMemory};

    ghost from_gives = { λ _ e. e ≡ NoMemory };

    fn from(_e: AllocError) -> CodecFault {
        CodecFault::NoMemory
    }
}
