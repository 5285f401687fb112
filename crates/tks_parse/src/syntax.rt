//! Whose syntax a text is read by.
ghost use Rattle.std.specs.Prelude.{◌≡◌};
ghost use Rattle.tks_text.specs.declared.fault.Failure.TheVariants as failure;
ghost use Rattle.tks_parse.specs.Fault.{fault_of, told};

use crate::fault::fault;
use tks_text::{ErrorNumber, Failure};

/// Whose syntax a text is read by, which says how a fault outside brackets is told.
#[derive(Clone, Copy)]
pub enum Syntax {
    /// That of scripts: each fault is told as itself.
    Scripts,
    /// That of expressions: each fault is bad syntax of an expression.
    Expressions,
}

impl Syntax {
    /// A fault outside brackets, which has this number in a script.
    pub fn fault(self, number: ErrorNumber) -> Failure
        ensures { result ≡ failure.Script (told self (fault_of number)) }
    {
        match self {
            Syntax::Scripts => fault(number),
            Syntax::Expressions => fault(ErrorNumber::ExpressionSyntax),
        }
    }
}
