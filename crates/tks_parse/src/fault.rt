//! Faults of a script's text, and how they are told.
ghost use Rattle.std.specs.Prelude.{◌≡◌};
ghost use Rattle.tks_text.specs.declared.fault.Failure.TheVariants as failure;
ghost use Rattle.tks_parse.specs.Fault.{fault_of};

use tks_text::{ErrorNumber, Failure, ScriptFault};

/// A fault with this number, and no subject.
pub fn fault(number: ErrorNumber) -> Failure
    ensures { result ≡ failure.Script (fault_of number) }
{
    Failure::Script(ScriptFault {
        number,
        subject: None,
    })
}
