//! Why a text gave no list.
use std::alloc::AllocError;
use thiserror::Error;

/// Why a text gave no list.
#[derive(Debug, Drop, Error)]
pub enum ListFault {
    /// An allocation was refused.
    #[error("out of memory")]
    NoMemory,
    /// The text is no list.
    #[error("not a list")]
    NotAList,
}

impl From<AllocError> for ListFault {
    ghost use Rattle.std.specs.Prelude.{◌≡◌};
    ghost use Rattle.tks_list.specs.declared.fault.ListFault.TheVariants.{NoMemory};

    ghost from_gives = { λ _ e. e ≡ NoMemory };

    fn from(_e: AllocError) -> ListFault {
        ListFault::NoMemory
    }
}
