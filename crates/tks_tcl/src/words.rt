//! What a word says as an integer, a list or a truth value.
ghost use Rattle.std.specs.Prelude.{◌≡◌, ◌<◌, ◌^◌, IfOk};
ghost use Rattle.std.specs.Fmt.{decimal};
ghost use Rattle.tks_tcl.specs.Meets.{GivesSo};
ghost use Rattle.tks_tcl.specs.Words.{integer_in, list_in, truth_text};

use crate::interrupt::{Interrupt, error, error_about};
use std::alloc::{AllocError, Global};
use tks_list::{Elements, ListFault, read, split};
use tks_text::{ErrorNumber, Seq, Txt, decimal_of, integer_of};

/// The integer that a text spells.
#[tactic(auto, using(crate::proofs::Causes::tells))]
pub fn integer_in(text: &Txt) -> Result<i64, Interrupt>
    ensures { GivesSo (λ z. z) result (integer_in text.now) }
{
    match integer_of(text) {
        Ok(Some(integer)) => Ok(integer),
        Ok(None) => Err(error_about(ErrorNumber::NotAnInteger, text)),
        Err(_) => Err(error(ErrorNumber::OutOfRange)),
    }
}

/// The list that a text splits into, in one buffer.
pub fn elements_in(alloc: Global, text: &Txt) -> Result<Elements, Interrupt>
    ensures { GivesSo (λ l. l) result (list_in text.now) }
{
    match read(alloc, text) {
        Ok(list) => Ok(list),
        Err(ListFault::NotAList) => Err(error(ErrorNumber::NotAList)),
        Err(ListFault::NoMemory) => Err(Interrupt::NoMemory),
    }
}

/// The list that a text splits into.
pub fn list_in(alloc: Global, text: &Txt) -> Result<Seq<Txt>, Interrupt>
    ensures { GivesSo (λ l. l) result (list_in text.now) }
{
    match split(alloc, text) {
        Ok(list) => Ok(list),
        Err(ListFault::NotAList) => Err(error(ErrorNumber::NotAList)),
        Err(ListFault::NoMemory) => Err(Interrupt::NoMemory),
    }
}

/// `1` or `0`.
pub fn truth_text(alloc: Global, is_true: bool) -> Result<Txt, AllocError>
    ensures { IfOk result (λ t. t ≡ truth_text is_true) }
{
    Txt::from_text(alloc, if is_true { b"1" } else { b"0" })
}

/// The decimal of a count.
pub fn count_text(alloc: Global, count: usize) -> Result<Txt, AllocError>
    requires { count < 2 ^ 63 }
    ensures { IfOk result (λ t. t ≡ decimal count) }
{
    decimal_of(alloc, count as i64)
}
