//! Operands that stand for themselves: integers and truth words.
ghost use Rattle.std.specs.Prelude.{◌≡◌, ◌≤◌, length};
ghost use Rattle.std.specs.List.{prefix_len};
ghost use Rattle.tks_expr.specs.Literal.{numeral_len, word_len, literal_len};
ghost use Rattle.tks_expr.specs.Sign.{is_letter};

use crate::sign::is_letter;
use tks_text::{digits_len, truth_of_word};

// How many bytes the integer at the front takes: `0x` and hex digits, `0` and octal digits, or decimal digits.
#[tactic(auto, unfolding(crate::specs::Literal::numeral_len))]
fn numeral_len(text: &[u8]) -> usize
    ensures value { result ≡ numeral_len text.now }
    ensures bound { result ≤ length text.now }
{
    match text {
        [] => 0,
        [b'0'] => 1,
        [b'0', b'x', digits @ ..] => {
            let len = digits_len(16, digits);
            if len == 0 { 0 } else { 2 + len }
        }
        [b'0', digits @ ..] => 1 + digits_len(8, digits),
        _ => digits_len(10, text),
    }
}

// How many letters a text begins with.
fn letters_len(text: &[u8]) -> usize
    ensures value { result ≡ prefix_len is_letter text.now }
    ensures bound { result ≤ length text.now }
{
    text.iter().take_while(|c| is_letter(**c)).count()
}

// How many bytes the truth word at the front takes.
#[tactic(auto, unfolding(crate::specs::Literal::word_len))]
fn word_len(text: &[u8]) -> usize
    ensures value { result ≡ word_len text.now }
    ensures bound { result ≤ length text.now }
{
    let len = letters_len(text);
    if truth_of_word(text.split_at(len).0).is_some() {
        len
    } else {
        0
    }
}

/// How many bytes the integer or the truth word at the front takes; 0 where there is none.
#[tactic(auto, unfolding(crate::specs::Literal::literal_len))]
pub fn literal_len(text: &[u8]) -> usize
    ensures value { result ≡ literal_len text.now }
    ensures bound { result ≤ length text.now }
{
    let len = numeral_len(text);
    if len == 0 { word_len(text) } else { len }
}
