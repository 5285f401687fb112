//! Why a value is not read.
use std::alloc::AllocError;

/// Why no value was read at the front of bytes.
#[derive(Debug, Drop)]
pub enum Unread {
    /// No spelling stands there. So many bytes are left, from the first one on with which this is known;
    /// none where the bytes end too early.
    Left(usize),
    /// An allocation was refused.
    NoMemory,
}

impl From<AllocError> for Unread {
    ghost use Rattle.std.specs.Prelude.{◌≡◌};
    ghost use Rattle.tks_spelling.specs.declared.unread.Unread.TheVariants.{NoMemory};

    ghost from_gives = { λ _ e. e ≡ NoMemory };

    fn from(_e: AllocError) -> Unread {
        Unread::NoMemory
    }
}
