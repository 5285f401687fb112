//! Arithmetic on integers of 64 bits, and its laws.
ghost use Rattle.std.specs.Prelude.{◌≡◌, ◌≢◌, ◌↔◌, ℕ, ◌+◌, ◌-◌, ◌%◌, ◌^◌, min, max, ℤ, pos, ◌+ℤ◌, ◌-ℤ◌, ◌*ℤ◌};
ghost use Rattle.tks_text.specs.Fault.{Gives};
ghost use Rattle.tks_expr.specs.Arithmetic.{divided, quotient, remainder, LiesBefore, bit, complement, bits_of_both, bits_of_any, bits_of_one};
ghost use Rattle.tks_expr.specs.Operation.{fault_of, in_range, division_by, shift_by};

use tks_text::{ErrorNumber, Failure, ScriptFault};

/// A quotient is rounded down and a remainder lies from 0 to the divisor: just one pair of integers does so.
pub fn quotients_round_down()
    ensures { (x y q r : ℤ) → y ≢ pos 0 → ((x ≡ q *ℤ y +ℤ r) × LiesBefore y r) ↔ ((q ≡ quotient x y) × (r ≡ remainder x y)) }
{}

/// An operator on bits does with each bit, of all that an integer has in two's complement without end, what its
/// name says.
pub fn operators_on_bits()
    ensures both { (x y : ℤ) (k : ℕ) → bit (bits_of_both x y) k ≡ min (bit x k) (bit y k) }
    ensures any { (x y : ℤ) (k : ℕ) → bit (bits_of_any x y) k ≡ max (bit x k) (bit y k) }
    ensures one { (x y : ℤ) (k : ℕ) → bit (bits_of_one x y) k ≡ (bit x k + bit y k) % 2 }
    ensures turned { (x : ℤ) (k : ℕ) → bit (complement x) k ≡ 1 - bit x k }
{}

/// Integers with the same bits are the same.
pub fn bits_make_an_integer()
    ensures { (x y : ℤ) → ((k : ℕ) → bit x k ≡ bit y k) → x ≡ y }
{}

/// The two integers that an operator is applied to.
#[derive(Clone, Copy)]
pub struct Integers {
    pub left: i64,
    pub right: i64,
}

/// An error about nothing that has a name.
pub fn fault_of(number: ErrorNumber) -> Failure
    ensures { result ≡ Failure.Script (fault_of number) }
{
    Failure::Script(ScriptFault {
        number,
        subject: None,
    })
}

/// An integer, where 64 bits hold it.
pub fn in_range(value: i128) -> Result<i64, Failure>
    ensures { Gives (λ z. z) result (in_range value) }
{
    match i64::try_from(value) {
        Ok(value) => Ok(value),
        Err(_) => Err(fault_of(ErrorNumber::OutOfRange)),
    }
}

// A quotient, rounded down.
fn quotient(left: i64, right: i64) -> i128
    requires { right ≢ pos 0 }
    ensures { result ≡ quotient left right }
{
    let (left, right) = (i128::from(left), i128::from(right));
    if right < 0 {
        (-left).div_euclid(-right)
    } else {
        left.div_euclid(right)
    }
}

// What a division leaves.
fn remainder(left: i64, right: i64) -> i128
    requires { right ≢ pos 0 }
    ensures { result ≡ remainder left right }
{
    let (left, right) = (i128::from(left), i128::from(right));
    if right < 0 {
        -(-left).rem_euclid(-right)
    } else {
        left.rem_euclid(right)
    }
}

// A product with a power of two.
fn shifted_left(value: i64, count: u64) -> Result<i64, Failure>
    ensures { Gives (λ z. z) result (in_range (value *ℤ pos (2 ^ count))) }
{
    if value == 0 {
        return Ok(0);
    }
    if 64 <= count {
        return Err(fault_of(ErrorNumber::OutOfRange));
    }
    in_range(i128::from(value) * 2i128.pow(count as u32))
}

// A quotient by a power of two, rounded down.
fn shifted_right(value: i64, count: u64) -> i64
    ensures { result ≡ divided value (2 ^ count) }
{
    value >> count.min(63)
}

impl Integers {
    /// `*`
    pub fn product(self) -> Result<i64, Failure>
        ensures { Gives (λ z. z) result (in_range (self.left *ℤ self.right)) }
    {
        in_range(i128::from(self.left) * i128::from(self.right))
    }

    /// `/`
    pub fn quotient(self) -> Result<i64, Failure>
        ensures { Gives (λ z. z) result (division_by self.right (quotient self.left self.right)) }
    {
        if self.right == 0 {
            return Err(fault_of(ErrorNumber::DivisionByZero));
        }
        in_range(quotient(self.left, self.right))
    }

    /// `%`
    pub fn remainder(self) -> Result<i64, Failure>
        ensures { Gives (λ z. z) result (division_by self.right (remainder self.left self.right)) }
    {
        if self.right == 0 {
            return Err(fault_of(ErrorNumber::DivisionByZero));
        }
        in_range(remainder(self.left, self.right))
    }

    /// `+`
    pub fn sum(self) -> Result<i64, Failure>
        ensures { Gives (λ z. z) result (in_range (self.left +ℤ self.right)) }
    {
        in_range(i128::from(self.left) + i128::from(self.right))
    }

    /// `-`
    pub fn difference(self) -> Result<i64, Failure>
        ensures { Gives (λ z. z) result (in_range (self.left -ℤ self.right)) }
    {
        in_range(i128::from(self.left) - i128::from(self.right))
    }

    /// `<<`
    pub fn shifted_left(self) -> Result<i64, Failure>
        ensures { Gives (λ z. z) result (shift_by self.right (λ n. self.left *ℤ pos (2 ^ n))) }
    {
        match u64::try_from(self.right) {
            Ok(count) => shifted_left(self.left, count),
            Err(_) => Err(fault_of(ErrorNumber::OutOfRange)),
        }
    }

    /// `>>`
    pub fn shifted_right(self) -> Result<i64, Failure>
        ensures { Gives (λ z. z) result (shift_by self.right (λ n. quotient self.left (pos (2 ^ n)))) }
    {
        match u64::try_from(self.right) {
            Ok(count) => Ok(shifted_right(self.left, count)),
            Err(_) => Err(fault_of(ErrorNumber::OutOfRange)),
        }
    }

    /// `&`
    #[tactic(auto, using(crate::proofs::Bits::both_of_64))]
    pub fn bits_of_both(self) -> i64
        ensures { result ≡ bits_of_both self.left self.right }
    {
        self.left & self.right
    }

    /// `^`
    #[tactic(auto, using(crate::proofs::Bits::one_of_64))]
    pub fn bits_of_one(self) -> i64
        ensures { result ≡ bits_of_one self.left self.right }
    {
        self.left ^ self.right
    }

    /// `|`
    #[tactic(auto, using(crate::proofs::Bits::any_of_64))]
    pub fn bits_of_any(self) -> i64
        ensures { result ≡ bits_of_any self.left self.right }
    {
        self.left | self.right
    }
}
