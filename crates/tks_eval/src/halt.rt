//! What leaves the machine's run: an error of the script, or a stop.
ghost use Rattle.std.specs.Prelude.{◌≡◌};
ghost use Rattle.tks_text.specs.Fault.{fault_about};
ghost use Rattle.tks_eval.specs.Meets.{TellsSo};

use std::alloc::AllocError;
use tks_tcl::{Interrupt, Stop};
use tks_text::{ErrorNumber, Failure, ScriptFault, Txt};

/// Why there is nothing to go on with.
#[derive(Drop)]
pub enum Halt {
    /// An error of the script's own, which `catch` may answer.
    Fault(ScriptFault),
    /// The run stops.
    Stop(Stop),
}

impl From<AllocError> for Halt {
    ghost use Rattle.tks_eval.specs.declared.halt.Halt.TheVariants.{Stop};
    ghost use Rattle.tks_tcl.specs.declared.stop.Stop.TheVariants.{NoMemory};

    ghost from_gives = { λ _ e. e ≡ Stop NoMemory };

    fn from(_e: AllocError) -> Halt {
        Halt::Stop(Stop::NoMemory)
    }
}

impl From<Stop> for Halt {
    ghost use Rattle.tks_eval.specs.declared.halt.Halt.TheVariants.{Stop};

    ghost from_gives = { λ stop e. e ≡ Stop stop };

    fn from(stop: Stop) -> Halt {
        Halt::Stop(stop)
    }
}

impl From<Failure> for Halt {
    ghost use Rattle.tks_eval.specs.Meets.{halt_of_failure};

    ghost from_gives = { λ failure e. e ≡ halt_of_failure failure };

    fn from(failure: Failure) -> Halt {
        match failure {
            Failure::Script(fault) => Halt::Fault(fault),
            Failure::NoMemory => Halt::Stop(Stop::NoMemory),
        }
    }
}

impl From<Interrupt> for Halt {
    ghost use Rattle.tks_eval.specs.Meets.{halt_of_interrupt};

    ghost from_gives = { λ interrupt e. e ≡ halt_of_interrupt interrupt };

    fn from(interrupt: Interrupt) -> Halt {
        match interrupt {
            Interrupt::Script(fault) => Halt::Fault(fault),
            Interrupt::TooLarge => Halt::Stop(Stop::TooLarge),
            Interrupt::NoMemory => Halt::Stop(Stop::NoMemory),
        }
    }
}

/// An error about a text.
pub fn error_about(number: ErrorNumber, subject: &Txt) -> Halt
    ensures { TellsSo (fault_about number subject.now) result }
{
    match ScriptFault::about(number, subject) {
        Ok(fault) => Halt::Fault(fault),
        Err(_) => Halt::Stop(Stop::NoMemory),
    }
}
