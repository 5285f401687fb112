//! The signs of operators, and how tightly they bind.
ghost use Rattle.std.specs.Prelude.{◌≡◌, ◌<◌, ◌≤◌, length, IfSome};
ghost use Rattle.std.specs.Option.{option_map};
ghost use Rattle.tks_text.specs.Text.{IsText};
ghost use Rattle.tks_expr.specs.Sign.{binary_level, level_of, is_letter, begins_letter, long_sign, word_sign, short_sign, long_join, short_join, join_at, unary_of};

use crate::operator::{Binary, Unary};

/// What joins two operands.
#[derive(Clone, Copy, Debug, PartialEq, Eq)]
pub enum Join {
    /// An operator that uses both.
    Of(Binary),
    /// `&&`
    And,
    /// `||`
    Or,
}

// The level of an operator that uses both operands.
fn binary_level(binary: Binary) -> u32
    ensures { result ≡ binary_level binary }
{
    match binary {
        Binary::Multiply | Binary::Divide | Binary::Remainder => 1,
        Binary::Add | Binary::Subtract => 2,
        Binary::ShiftLeft | Binary::ShiftRight => 3,
        Binary::Less | Binary::Greater | Binary::AtMost | Binary::AtLeast => 4,
        Binary::Equal | Binary::NotEqual => 5,
        Binary::SameText | Binary::OtherText => 6,
        Binary::BitAnd => 7,
        Binary::BitXor => 8,
        Binary::BitOr => 9,
    }
}

impl Join {
    /// The level, from 1, which binds tightest, to 11.
    pub fn level(self) -> u32
        ensures { result ≡ level_of self }
    {
        match self {
            Join::Of(binary) => binary_level(binary),
            Join::And => 10,
            Join::Or => 11,
        }
    }
}

/// A letter.
pub fn is_letter(c: u8) -> bool
    ensures { result ≡ is_letter c }
{
    (b'A' <= c && c <= b'Z') || (b'a' <= c && c <= b'z')
}

fn begins_letter(text: &[u8]) -> bool
    ensures { result ≡ begins_letter text.now }
{
    match text {
        [] => false,
        [c, ..] => is_letter(*c),
    }
}

// The operator of two characters.
fn long_sign(first: u8, second: u8) -> Option<Join>
    ensures { result ≡ long_sign first second }
{
    if first == b'<' && second == b'<' {
        Some(Join::Of(Binary::ShiftLeft))
    } else if first == b'>' && second == b'>' {
        Some(Join::Of(Binary::ShiftRight))
    } else if first == b'<' && second == b'=' {
        Some(Join::Of(Binary::AtMost))
    } else if first == b'>' && second == b'=' {
        Some(Join::Of(Binary::AtLeast))
    } else if first == b'=' && second == b'=' {
        Some(Join::Of(Binary::Equal))
    } else if first == b'!' && second == b'=' {
        Some(Join::Of(Binary::NotEqual))
    } else if first == b'&' && second == b'&' {
        Some(Join::And)
    } else if first == b'|' && second == b'|' {
        Some(Join::Or)
    } else {
        None
    }
}

// The operator of two letters, where no letter follows.
fn word_sign(first: u8, second: u8, rest: &[u8]) -> Option<Join>
    ensures { result ≡ word_sign first second rest.now }
{
    if begins_letter(rest) {
        None
    } else if first == b'e' && second == b'q' {
        Some(Join::Of(Binary::SameText))
    } else if first == b'n' && second == b'e' {
        Some(Join::Of(Binary::OtherText))
    } else {
        None
    }
}

// The operator of one character.
fn short_sign(first: u8) -> Option<Join>
    ensures { result ≡ short_sign first }
{
    if first == b'*' {
        Some(Join::Of(Binary::Multiply))
    } else if first == b'/' {
        Some(Join::Of(Binary::Divide))
    } else if first == b'%' {
        Some(Join::Of(Binary::Remainder))
    } else if first == b'+' {
        Some(Join::Of(Binary::Add))
    } else if first == b'-' {
        Some(Join::Of(Binary::Subtract))
    } else if first == b'<' {
        Some(Join::Of(Binary::Less))
    } else if first == b'>' {
        Some(Join::Of(Binary::Greater))
    } else if first == b'&' {
        Some(Join::Of(Binary::BitAnd))
    } else if first == b'^' {
        Some(Join::Of(Binary::BitXor))
    } else if first == b'|' {
        Some(Join::Of(Binary::BitOr))
    } else {
        None
    }
}

// The operator of two characters at the front of a text.
fn long_join(text: &[u8]) -> Option<Join>
    ensures value { result ≡ long_join text.now }
    ensures bound { IfSome result (λ _. 2 ≤ length text.now) }
{
    match text {
        [first, second, rest @ ..] => match long_sign(*first, *second) {
            Some(join) => Some(join),
            None => word_sign(*first, *second, rest),
        },
        _ => None,
    }
}

// The operator of one character at the front of a text.
fn short_join(text: &[u8]) -> Option<Join>
    ensures value { result ≡ short_join text.now }
    ensures bound { IfSome result (λ _. 1 ≤ length text.now) }
{
    match text {
        [] => None,
        [first, ..] => short_sign(*first),
    }
}

/// The operator at the front of a text, the longest one, and how many bytes it takes behind its first.
#[tactic(auto, unfolding(crate::specs::Sign::join_at))]
pub fn join_at(text: &[u8]) -> Option<(Join, usize)>
    ensures value { result ≡ join_at text.now }
    ensures bound { IfSome result (λ x. x.1 < length text.now) }
{
    if let Some(join) = long_join(text) {
        return Some((join, 1));
    }
    match short_join(text) {
        Some(join) => Some((join, 0)),
        None => None,
    }
}

/// The operator of one operand with this sign.
pub fn unary_of(c: u8) -> Option<Unary>
    ensures { result ≡ unary_of c }
{
    if c == b'-' {
        Some(Unary::Minus)
    } else if c == b'+' {
        Some(Unary::Plus)
    } else if c == b'~' {
        Some(Unary::Complement)
    } else if c == b'!' {
        Some(Unary::Not)
    } else {
        None
    }
}
