//! Why a command gave no value.
ghost use Rattle.std.specs.Prelude.{◌≡◌};
ghost use Rattle.tks_tcl.specs.Cause.{about, bare, within};
ghost use Rattle.tks_text.specs.Limits.{fits};
ghost use Rattle.tks_tcl.specs.Meets.{TellsSo, GivesSo};

use std::alloc::AllocError;
use tks_text::{ErrorNumber, Failure, Limits, ScriptFault, Txt, fits};

/// Why a command gave no value.
#[derive(Drop)]
pub enum Interrupt {
    /// An error of the script's own.
    Script(ScriptFault),
    /// Something would have passed a limit.
    TooLarge,
    /// An allocation was refused.
    NoMemory,
}

impl From<AllocError> for Interrupt {
    ghost use Rattle.tks_tcl.specs.declared.interrupt.Interrupt.TheVariants.{NoMemory};

    ghost from_gives = { λ _ e. e ≡ NoMemory };

    fn from(_e: AllocError) -> Interrupt {
        Interrupt::NoMemory
    }
}

impl From<Failure> for Interrupt {
    ghost use Rattle.tks_tcl.specs.Meets.{interrupt_of};

    ghost from_gives = { λ failure e. e ≡ interrupt_of failure };

    fn from(failure: Failure) -> Interrupt {
        match failure {
            Failure::Script(fault) => Interrupt::Script(fault),
            Failure::NoMemory => Interrupt::NoMemory,
        }
    }
}

/// An error about a text.
pub fn error_about(number: ErrorNumber, subject: &Txt) -> Interrupt
    ensures { TellsSo (about number subject.now) result }
{
    match subject.try_clone() {
        Ok(subject) => Interrupt::Script(ScriptFault {
            number,
            subject: Some(subject),
        }),
        Err(_) => Interrupt::NoMemory,
    }
}

/// An error about nothing that has a name.
pub fn error(number: ErrorNumber) -> Interrupt
    ensures { TellsSo (bare number) result }
{
    Interrupt::Script(ScriptFault {
        number,
        subject: None,
    })
}

/// The error of a command that has a wrong number of words, or a subcommand that it doesn't know.
pub fn wrong_words(command: &Txt) -> Interrupt
    ensures { TellsSo (about ErrorNumber.WrongWords command.now) result }
{
    error_about(ErrorNumber::WrongWords, command)
}

/// A text, where it passes no limit.
pub fn within(text: Txt, limits: &Limits) -> Result<Txt, Interrupt>
    ensures { GivesSo (λ t. t) result (within limits.now text) }
{
    if fits(&text, limits) {
        Ok(text)
    } else {
        Err(Interrupt::TooLarge)
    }
}
