//! What operators give, and which texts hold as conditions.
ghost use Rattle.std.specs.Prelude.{◌≡◌, false};
ghost use Rattle.tks_text.specs.Fault.{Gives};
ghost use Rattle.tks_expr.specs.Operation.{integer_in, truth_in_word, truth_of, order, truth, compares, of_integers, binary_value, of_integer, unary_value, result_of};

use crate::arithmetic::{Integers, fault_of, in_range};
use crate::operator::{Binary, Unary};
use std::alloc::Global;
use std::cmp::Ordering;
use tks_text::{ErrorNumber, Failure, ScriptFault, Txt, decimal_of, integer_of, truth_of_word};

// The integer that a text spells.
fn integer_in(text: &Txt) -> Result<i64, Failure>
    ensures { Gives (λ z. z) result (integer_in text.now) }
{
    match integer_of(text) {
        Ok(Some(integer)) => Ok(integer),
        Ok(None) => Err(Failure::Script(ScriptFault::about(ErrorNumber::NotAnInteger, text)?)),
        Err(_) => Err(fault_of(ErrorNumber::OutOfRange)),
    }
}

// The truth that a word stands for.
fn truth_in_word(text: &Txt) -> Result<bool, Failure>
    ensures { Gives (λ b. b) result (truth_in_word text.now) }
{
    match truth_of_word(text.as_bytes()) {
        Some(holds) => Ok(holds),
        None => Err(Failure::Script(ScriptFault::about(ErrorNumber::NotAnInteger, text)?)),
    }
}

/// Whether a text holds as a condition: an integer but 0, or one of the words `true`, `yes` and `on`,
/// and not where it is 0, `false`, `no` or `off`. Any other text is the error `NotAnInteger`, and an
/// integer beyond 64 bits `OutOfRange`.
pub fn truth_of(text: &Txt) -> Result<bool, Failure>
    ensures { Gives (λ b. b) result (truth_of text.now) }
{
    match integer_of(text) {
        Ok(Some(integer)) => Ok(integer != 0),
        Ok(None) => truth_in_word(text),
        Err(_) => Err(fault_of(ErrorNumber::OutOfRange)),
    }
}

// How two texts stand to one another: by number where both spell integers, else by their bytes.
fn order(left: &Txt, right: &Txt) -> Result<Ordering, Failure>
    ensures { Gives (λ o. o) result (order left.now right.now) }
{
    match (integer_of(left), integer_of(right)) {
        (Ok(Some(left)), Ok(Some(right))) => Ok(left.cmp(&right)),
        (Ok(None), _) | (_, Ok(None)) => Ok(left.as_bytes().cmp(right.as_bytes())),
        _ => Err(fault_of(ErrorNumber::OutOfRange)),
    }
}

// 1 where something holds, else 0.
fn truth(holds: bool) -> i64
    ensures { result ≡ truth holds }
{
    if holds { 1 } else { 0 }
}

/// The integer that an operator gives for two integers.
pub fn binary_of_integers(operator: Binary, left: i64, right: i64) -> Result<i64, Failure>
    ensures { Gives (λ z. z) result (of_integers operator left right) }
{
    let integers = Integers { left, right };
    match operator {
        Binary::Multiply => integers.product(),
        Binary::Divide => integers.quotient(),
        Binary::Remainder => integers.remainder(),
        Binary::Add => integers.sum(),
        Binary::Subtract => integers.difference(),
        Binary::ShiftLeft => integers.shifted_left(),
        Binary::ShiftRight => integers.shifted_right(),
        Binary::Less => Ok(truth(left < right)),
        Binary::Greater => Ok(truth(left > right)),
        Binary::AtMost => Ok(truth(left <= right)),
        Binary::AtLeast => Ok(truth(left >= right)),
        Binary::Equal | Binary::SameText => Ok(truth(left == right)),
        Binary::NotEqual | Binary::OtherText => Ok(truth(left != right)),
        Binary::BitAnd => Ok(integers.bits_of_both()),
        Binary::BitXor => Ok(integers.bits_of_one()),
        Binary::BitOr => Ok(integers.bits_of_any()),
    }
}

// The integer that an operator on integers gives for two texts.
#[tactic(auto, using(crate::proofs::Conditions::not_compared))]
fn of_spelled(operator: Binary, left: &Txt, right: &Txt) -> Result<i64, Failure>
    requires { compares operator ≡ false }
    ensures { Gives (λ z. z) result (binary_value operator left.now right.now) }
{
    let left = integer_in(left)?;
    let right = integer_in(right)?;
    binary_of_integers(operator, left, right)
}

/// The integer that an operator gives for two texts.
pub fn binary_of_texts(operator: Binary, left: &Txt, right: &Txt) -> Result<i64, Failure>
    ensures { Gives (λ z. z) result (binary_value operator left.now right.now) }
{
    match operator {
        Binary::Less => Ok(truth(order(left, right)?.is_lt())),
        Binary::Greater => Ok(truth(order(left, right)?.is_gt())),
        Binary::AtMost => Ok(truth(order(left, right)?.is_le())),
        Binary::AtLeast => Ok(truth(order(left, right)?.is_ge())),
        Binary::Equal => Ok(truth(order(left, right)?.is_eq())),
        Binary::NotEqual => Ok(truth(order(left, right)?.is_ne())),
        Binary::SameText => Ok(truth(left == right)),
        Binary::OtherText => Ok(truth(left != right)),
        _ => of_spelled(operator, left, right),
    }
}

/// The integer that an operator gives for an integer.
pub fn unary_of_integer(operator: Unary, operand: i64) -> Result<i64, Failure>
    ensures { Gives (λ z. z) result (of_integer operator operand) }
{
    match operator {
        Unary::Minus => in_range(-i128::from(operand)),
        Unary::Plus => Ok(operand),
        Unary::Complement => Ok(!operand),
        Unary::Not => Ok(truth(operand == 0)),
    }
}

/// The integer that an operator gives for a text.
pub fn unary_of_text(operator: Unary, operand: &Txt) -> Result<i64, Failure>
    ensures { Gives (λ z. z) result (unary_value operator operand.now) }
{
    match operator {
        Unary::Minus => unary_of_integer(Unary::Minus, integer_in(operand)?),
        Unary::Plus => integer_in(operand),
        Unary::Complement => Ok(!integer_in(operand)?),
        Unary::Not => Ok(truth(!truth_of(operand)?)),
    }
}

/// The result of an expression whose value is a text.
pub fn result_of(alloc: Global, text: Txt) -> Result<Txt, Failure>
    ensures { Gives (λ t. t) result (result_of text) }
{
    match integer_of(&text) {
        Ok(Some(integer)) => Ok(decimal_of(alloc, integer)?),
        Ok(None) => Ok(text),
        Err(_) => Err(fault_of(ErrorNumber::OutOfRange)),
    }
}
