//! The parts of which indices are made: names, numbers, counts.
ghost use Rattle.std.specs.Prelude.{◌≡◌, ◌+◌, ◌-◌, ◌<◌, ◌≤◌, ◌^◌, length, take, IfSome};
ghost use Rattle.tks_lines.specs.Indices.{word_len, word_at, number_at, column_at, behind_dot, line_column, sign_len, begins_minus, count_at, turned_back};
ghost use Rattle.tks_lines.specs.IndexText.{is_minus, is_sign, is_of_word};

use crate::modifier::Step;
use tks_text::{digits_len, is_space, value_of};

// Whether a byte is a minus sign.
pub(crate) fn is_minus(byte: u8) -> bool
    ensures { result ≡ is_minus byte }
{
    byte == b'-'
}

// Whether a byte begins a modifier by a count.
pub(crate) fn is_sign(byte: u8) -> bool
    ensures { result ≡ is_sign byte }
{
    byte == b'+' || is_minus(byte)
}

// Whether a byte may stand in a name or a keyword.
fn is_of_word(byte: u8) -> bool
    ensures { result ≡ is_of_word byte }
{
    !(is_space(byte) || is_sign(byte))
}

/// How many bytes of a name or a keyword the text begins with.
pub(crate) fn word_len(text: &[u8]) -> usize
    ensures value { result ≡ word_len text.now }
    ensures bound { result ≤ length text.now }
{
    text.iter().take_while(|byte| is_of_word(**byte)).count()
}

/// The name or the keyword at the front.
pub(crate) fn word_at(text: &[u8]) -> &[u8]
    ensures { result.now ≡ word_at text.now }
{
    text.split_at(word_len(text)).0
}

// The number that the digits at the front write, as far as 64 bits go.
fn number_at(text: &[u8]) -> usize
    ensures { result ≡ number_at text.now }
{
    match value_of(10, text.split_at(digits_len(10, text)).0) {
        Some(number) => number as usize,
        None => usize::MAX,
    }
}

// A column, or none for that of the line's end, and how many bytes it takes.
fn column_at(text: &[u8]) -> Option<(Option<usize>, usize)>
    ensures value { result ≡ column_at text.now }
    ensures bound { IfSome result (λ x. x.1 ≤ length text.now) }
{
    if text.starts_with(b"end") {
        return Some((None, 3));
    }
    let len = digits_len(10, text);
    if len == 0 {
        return None;
    }
    Some((Some(number_at(text)), len))
}

// The column behind a dot.
fn behind_dot(text: &[u8]) -> Option<(Option<usize>, usize)>
    ensures value { result ≡ behind_dot text.now }
    ensures bound { IfSome result (λ x. x.1 ≤ length text.now) }
{
    match text {
        [b'.', rest @ ..] => {
            let (column, taken) = column_at(rest)?;
            Some((column, taken + 1))
        }
        _ => None,
    }
}

/// A line and its column, none for that of the line's end, and how many bytes they take.
pub(crate) fn line_column(text: &[u8]) -> Option<(usize, Option<usize>, usize)>
    ensures value { result ≡ line_column text.now }
    ensures bound { IfSome result (λ x. x.2 ≤ length text.now) }
{
    let len = digits_len(10, text);
    if len == 0 {
        return None;
    }
    let (column, taken) = behind_dot(text.split_at(len).1)?;
    Some((number_at(text), column, len + taken))
}

// How many bytes a sign takes.
fn sign_len(text: &[u8]) -> usize
    ensures value { result ≡ sign_len text.now }
    ensures bound { result ≤ length text.now }
{
    match text {
        [first, ..] if is_sign(*first) => 1,
        _ => 0,
    }
}

// Whether a minus sign stands at the front.
fn begins_minus(text: &[u8]) -> bool
    ensures { result ≡ begins_minus text.now }
{
    match text {
        [first, ..] => is_minus(*first),
        [] => false,
    }
}

/// A count: a sign or none, and digits; and how many bytes it takes.
pub(crate) fn count_at(text: &[u8]) -> Option<(Step, usize)>
    ensures value { result ≡ count_at text.now }
    ensures bound { IfSome result (λ x. x.1 ≤ length text.now) }
{
    let sign = sign_len(text);
    let digits = text.split_at(sign).1;
    let len = digits_len(10, digits);
    if len == 0 {
        return None;
    }
    let step = Step {
        back: begins_minus(text),
        count: number_at(digits),
    };
    Some((step, sign + len))
}

/// The step in the other direction, where it is to go back.
pub(crate) fn turned_back(back: bool, step: Step) -> Step
    ensures { result ≡ turned_back back step }
{
    if back {
        Step {
            back: !step.back,
            count: step.count,
        }
    } else {
        step
    }
}
