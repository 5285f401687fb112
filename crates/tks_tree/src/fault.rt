//! Why a window wasn't made.
ghost use Rattle.tks_text.specs.Fault.{fault_about};
ghost use Rattle.tks_tree.specs.Meets.{TellsSo};

use std::alloc::{AllocError, AllocFailed};
use thiserror::Error;
use tks_text::{ErrorNumber, ScriptFault, Txt};

/// Why a window wasn't made.
#[derive(Debug, Drop, Error)]
pub enum CreateFault {
    /// An error of the script's own.
    #[error("an error of the script")]
    Script(ScriptFault),
    /// All numbers up to 2^62 were given out.
    #[error("too many windows were made")]
    OutOfNumbers,
    /// An allocation was refused.
    #[error("out of memory")]
    NoMemory,
}

impl From<AllocError> for CreateFault {
    ghost use Rattle.std.specs.Prelude.{◌≡◌};
    ghost use Rattle.tks_tree.specs.declared.fault.CreateFault.TheVariants.{NoMemory};

    ghost from_gives = { λ _ e. e ≡ NoMemory };

    fn from(_e: AllocError) -> CreateFault {
        CreateFault::NoMemory
    }
}

impl<T: Drop> From<AllocFailed<T>> for CreateFault {
    ghost use Rattle.std.specs.Prelude.{◌≡◌};
    ghost use Rattle.tks_tree.specs.declared.fault.CreateFault.TheVariants.{NoMemory};

    ghost from_gives = { λ _ e. e ≡ NoMemory };

    fn from(_e: AllocFailed<T>) -> CreateFault {
        CreateFault::NoMemory
    }
}

/// The error about a path.
pub fn error_about(number: ErrorNumber, path: &Txt) -> CreateFault
    ensures { TellsSo (fault_about number path.now) result }
{
    match ScriptFault::about(number, path) {
        Ok(fault) => CreateFault::Script(fault),
        Err(_) => CreateFault::NoMemory,
    }
}
