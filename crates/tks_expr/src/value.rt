//! Values: integers, or texts.
ghost use Rattle.std.specs.Prelude.{◌≡◌, IfOk};
ghost use Rattle.std.specs.Fmt.{signed_decimal};
ghost use Rattle.tks_text.specs.Fault.{Gives};
ghost use Rattle.tks_expr.specs.Operation.{applied, applied_unary, truth_of, result_of};
ghost use Rattle.tks_expr.specs.View.{operand_text, held_text};

use crate::operation::{
    binary_of_integers, binary_of_texts, result_of, truth_of, unary_of_integer, unary_of_text,
};
use crate::operator::{Binary, Unary};
use std::alloc::{AllocError, Global};
use std::marker::Model;
use std::mem;
use tks_text::{Failure, Txt, decimal_in, decimal_of};

/// What an operand comes to, where it stands. Contracts see its text: an integer stands for its decimal.
#[derive(Clone, Copy)]
pub enum Operand<'a> {
    Integer(i64),
    Text(&'a Txt),
}

/// The same, kept. Contracts see the text.
pub struct Value {
    held: Held,
}

#[derive(Drop)]
enum Held {
    Integer(i64),
    Text(Txt),
}

// Written out, so that to let go of it is one step for whoever owns it.
impl Drop for Value {
    fn drop(self) {
        let Value { held: _ } = self;
    }
}

impl Model for Value {
    ghost use Rattle.std.specs.Prelude.{List, ℕ};
    ghost use Rattle.tks_expr.specs.View.{held_text};

    ghost Value = { List ℕ };

    ghost view = { λ v. held_text v.held };
}

impl<'a> Operand<'a> {
    /// A text, which is an integer where it is the decimal of one.
    pub fn of(text: &'a Txt) -> Operand<'a>
        ensures { operand_text result ≡ text.now }
    {
        match decimal_in(text.as_bytes()) {
            Some(integer) => Operand::Integer(integer),
            None => Operand::Text(text),
        }
    }

    /// The same, kept.
    pub fn value(self) -> Result<Value, AllocError>
        ensures { IfOk result (λ v. v ≡ operand_text self.entry) }
    {
        match self {
            Operand::Integer(integer) => Ok(Value::integer(integer)),
            Operand::Text(text) => Ok(Value::text(text.try_clone()?)),
        }
    }
}

impl Value {
    /// An integer.
    pub fn integer(integer: i64) -> Value
        ensures { result ≡ signed_decimal integer }
    {
        Value {
            held: Held::Integer(integer),
        }
    }

    /// A text, as it is.
    pub fn text(text: Txt) -> Value
        ensures { result ≡ text }
    {
        Value {
            held: Held::Text(text),
        }
    }

    /// A text, which is an integer where it is the decimal of one.
    pub fn of(text: Txt) -> Value
        ensures { result ≡ text }
    {
        match decimal_in(text.as_bytes()) {
            Some(integer) => Value::integer(integer),
            None => Value::text(text),
        }
    }

    // What is held.
    fn into_held(self) -> Held
        ensures { held_text result ≡ self }
    {
        let mut value = self;
        mem::replace(&mut value.held, Held::Integer(0))
    }

    /// The value where it stands.
    pub fn operand(&self) -> Operand<'_>
        ensures { operand_text result ≡ self.now }
    {
        match &self.held {
            Held::Integer(integer) => Operand::Integer(*integer),
            Held::Text(text) => Operand::Text(text),
        }
    }

    /// The value's text.
    pub fn into_text(self, alloc: Global) -> Result<Txt, AllocError>
        ensures { IfOk result (λ t. t ≡ self) }
    {
        match self.into_held() {
            Held::Integer(integer) => decimal_of(alloc, integer),
            Held::Text(text) => Ok(text),
        }
    }

    /// The result of an expression of this value (expr(n)): an integer in decimal, or the error `OutOfRange` where it is
    /// out of range; any other text as it is.
    #[tactic(auto, using(crate::proofs::Decimals::decimal_is_its_result))]
    #[inline(always)]
    pub fn into_result(self, alloc: Global) -> Result<Txt, Failure>
        ensures { Gives (λ t. t) result (result_of self) }
    {
        match self.into_held() {
            Held::Integer(integer) => Ok(decimal_of(alloc, integer)?),
            Held::Text(text) => result_of(alloc, text),
        }
    }

    /// Whether the value holds as a condition: an integer but 0, or one of the words `true`, `yes` and `on`, and not
    /// where it is 0, `false`, `no` or `off`. Any other text is the error `NotAnInteger`, and an integer beyond 64 bits
    /// `OutOfRange`.
    #[tactic(auto, using(crate::proofs::Conditions::integer_holds))]
    #[inline(always)]
    pub fn holds(&self) -> Result<bool, Failure>
        ensures { Gives (λ b. b) result (truth_of self.now) }
    {
        match &self.held {
            Held::Integer(integer) => Ok(*integer != 0),
            Held::Text(text) => truth_of(text),
        }
    }
}

/// What an operator gives for two operands (expr(n), "OPERATORS"), an integer.
///
/// A text that spells no integer is the error `NotAnInteger` where an integer is wanted, of the left
/// operand before the right one. An operand, a result or a count of a shift that is out of range is
/// `OutOfRange`, and a divisor of 0 `DivisionByZero`.
pub fn apply(
    alloc: Global,
    operator: Binary,
    left: Operand<'_>,
    right: Operand<'_>,
) -> Result<i64, Failure>
    ensures { Gives signed_decimal result (applied operator (operand_text left.entry) (operand_text right.entry)) }
{
    match (left, right) {
        (Operand::Integer(left), Operand::Integer(right)) => {
            binary_of_integers(operator, left, right)
        }
        (Operand::Integer(left), Operand::Text(right)) => {
            binary_of_texts(operator, &decimal_of(alloc, left)?, right)
        }
        (Operand::Text(left), Operand::Integer(right)) => {
            binary_of_texts(operator, left, &decimal_of(alloc, right)?)
        }
        (Operand::Text(left), Operand::Text(right)) => binary_of_texts(operator, left, right),
    }
}

/// What an operator gives for an operand (expr(n), "OPERATORS"), an integer. The errors are those of [`apply`], and of
/// [`Value::holds`] for `!`.
pub fn apply_unary(operator: Unary, operand: Operand<'_>) -> Result<i64, Failure>
    ensures { Gives signed_decimal result (applied_unary operator (operand_text operand.entry)) }
{
    match operand {
        Operand::Integer(integer) => unary_of_integer(operator, integer),
        Operand::Text(text) => unary_of_text(operator, text),
    }
}
