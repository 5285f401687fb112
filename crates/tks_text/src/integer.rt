//! Integers as texts.
ghost use Rattle.std.specs.Prelude.{◌≡◌, ◌<◌, ◌≤◌, ◌+◌, ◌*◌, ◌^◌, length, Some, Ok, IfOk, IfSome, OnSome};
ghost use Rattle.std.specs.Char.{digit_value, is_digit};
ghost use Rattle.std.specs.Fmt.{signed_decimal};
ghost use Rattle.std.specs.List.{prefix_len, list_all};
ghost use Rattle.std.specs.Option.{SomeIff, option_map};
ghost use Rattle.std.specs.Str.Parse.{digits_value};
ghost use Rattle.tks_text.specs.Integer.{is_space, AreDigits, number_in, unsigned_value, with_sign, signed_value, within_u64, within_i64, integer_of};

use crate::text::Txt;
use itoa::Buffer;
use std::alloc::{AllocError, Global};
use thiserror::Error;

/// An integer below -2^63 or above 2^63 - 1.
#[derive(Clone, Copy, Debug, Error)]
#[error("integer out of range")]
pub struct Range;

/// Whether a byte is white space: a space, a tab or a newline.
pub fn is_space(byte: u8) -> bool
    ensures { result ≡ is_space byte }
{
    byte == b' ' || byte == b'\t' || byte == b'\n'
}

// Whether there is nothing but white space.
fn is_all_space(text: &[u8]) -> bool
    ensures { result ≡ list_all is_space text.now }
{
    text.iter().all(|byte| is_space(*byte))
}

/// How many bytes of white space the text begins with.
pub fn space_len(text: &[u8]) -> usize
    ensures value { result ≡ prefix_len is_space text.now }
    ensures bound { result ≤ length text.now }
{
    text.iter().take_while(|byte| is_space(**byte)).count()
}

// The value of a digit or a letter, 0 to 35, and 36 for any other byte.
fn digit_value(byte: u8) -> u64
    ensures { result ≡ digit_value byte }
{
    match (byte as char).to_digit(36) {
        Some(value) => u64::from(value),
        None => 36,
    }
}

/// How many digits of the base the text begins with.
pub fn digits_len(base: u64, text: &[u8]) -> usize
    ensures value { result ≡ prefix_len (λ c. is_digit c base) text.now }
    ensures bound { result ≤ length text.now }
{
    text.iter()
        .take_while(|byte| digit_value(**byte) < base)
        .count()
}

// The number that a digit makes of those before it, where it is below 2^64.
fn with_digit(base: u64, before: u64, digit: u8) -> Option<u64>
    ensures { SomeIff result (before * base + digit_value digit < 2 ^ 64) (before * base + digit_value digit) }
{
    before.checked_mul(base)?.checked_add(digit_value(digit))
}

/// The number that digits write, where it is below 2^64.
pub fn value_of(base: u64, digits: &[u8]) -> Option<u64>
    requires { 1 ≤ base }
    ensures { SomeIff result (digits_value base digits.now < 2 ^ 64) (digits_value base digits.now) }
{
    let mut value = 0;
    for digit in digits {
        value = with_digit(base, value, *digit)?;
    }
    Some(value)
}

// The number that the digits at the front write, where nothing but white space follows them.
fn number_in(base: u64, text: &[u8]) -> Result<Option<u64>, Range>
    requires { 1 ≤ base }
    ensures { result ≡ within_u64 (number_in base text.now) }
{
    let len = digits_len(base, text);
    let (digits, behind) = text.split_at(len);
    if len == 0 || !is_all_space(behind) {
        return Ok(None);
    }
    match value_of(base, digits) {
        Some(number) => Ok(Some(number)),
        None => Err(Range),
    }
}

// The value of a numeral without a sign.
fn unsigned_value(text: &[u8]) -> Result<Option<u64>, Range>
    ensures { result ≡ within_u64 (unsigned_value text.now) }
{
    match text {
        [b'0', b'x', digits @ ..] => number_in(16, digits),
        [b'0', ..] => number_in(8, text),
        _ => number_in(10, text),
    }
}

// A number with its sign, where it fits 64 bits.
fn with_sign(is_negative: bool, number: u64) -> Result<Option<i64>, Range>
    ensures { result ≡ within_i64 (Some (with_sign is_negative number)) }
{
    let number = i128::from(number);
    match i64::try_from(if is_negative { -number } else { number }) {
        Ok(value) => Ok(Some(value)),
        Err(_) => Err(Range),
    }
}

// The value of the numeral behind a sign.
#[tactic(auto, using(crate::proofs::Integers::too_large, crate::proofs::Integers::no_number, crate::proofs::Integers::one_number))]
fn value_behind_sign(is_negative: bool, numeral: &[u8]) -> Result<Option<i64>, Range>
    ensures { result ≡ within_i64 (option_map (with_sign is_negative) (unsigned_value numeral.now)) }
{
    match unsigned_value(numeral)? {
        Some(number) => with_sign(is_negative, number),
        None => Ok(None),
    }
}

// The value of a numeral with a sign or none.
fn signed_value(text: &[u8]) -> Result<Option<i64>, Range>
    ensures { result ≡ within_i64 (signed_value text.now) }
{
    match text {
        [b'-', numeral @ ..] => value_behind_sign(true, numeral),
        [b'+', numeral @ ..] => value_behind_sign(false, numeral),
        _ => value_behind_sign(false, text),
    }
}

// The number that decimal digits write, where it is below 10^18; nothing where another byte is among them.
fn decimal_value(digits: &[u8]) -> Option<u64>
    ensures digits { OnSome result (AreDigits 10 digits.now) }
    ensures value { IfSome result (λ n. n ≡ digits_value 10 digits.now) }
    ensures small { IfSome result (λ n. n < 10 ^ 18) }
{
    let mut value: u64 = 0;
    for digit in digits {
        if value >= 100_000_000_000_000_000 || !digit.is_ascii_digit() {
            return None;
        }
        value = value * 10 + u64::from(*digit - b'0');
    }
    Some(value)
}

// The number of which a text is the decimal, where it is below 10^18; nothing for any other text.
#[tactic(auto, using(crate::proofs::Decimals::decimal_written, crate::proofs::Decimals::zero_written))]
fn number_in_decimal(text: &[u8]) -> Option<i64>
    ensures { IfSome result (λ z. text.now ≡ signed_decimal z) }
{
    match text {
        [first, ..] if *first != b'0' => i64::try_from(decimal_value(text)?).ok(),
        [b'0'] => Some(0),
        _ => None,
    }
}

/// The integer of which a text is the decimal, where it has at most 18 digits; nothing for any other text.
#[tactic(auto, using(crate::proofs::Decimals::negative_written))]
pub fn decimal_in(text: &[u8]) -> Option<i64>
    ensures { IfSome result (λ z. text.now ≡ signed_decimal z) }
{
    match text {
        [b'-', digits @ ..] => {
            let number = number_in_decimal(digits)?;
            if number > 0 { Some(-number) } else { None }
        }
        _ => number_in_decimal(text),
    }
}

/// The integer that a text spells: an optional sign and decimal digits, `0x` and hex digits, or `0` and
/// octal digits, with white space around them or none. `None` where the text is no integer, and `Range`
/// where it is one beyond 64 bits.
pub fn integer_of(text: &Txt) -> Result<Option<i64>, Range>
    ensures { result ≡ integer_of text.now }
{
    let bytes = text.as_bytes();
    if let Some(integer) = decimal_in(bytes) {
        return Ok(Some(integer));
    }
    signed_value(bytes.split_at(space_len(bytes)).1)
}

/// The decimal spelling of an integer.
#[tactic(auto, using(crate::proofs::Integers::decimal_is_text))]
pub fn decimal_of(alloc: Global, integer: i64) -> Result<Txt, AllocError>
    ensures { IfOk result (λ t. t ≡ signed_decimal integer) }
{
    let mut digits = Buffer::new();
    Txt::from_text(alloc, digits.format(integer).as_bytes())
}
