//! Escapes: what a backslash and the characters behind it stand for.
ghost use Rattle.std.specs.Prelude.{◌≡◌, ◌<◌, ◌≤◌, ◌+◌, length, IfSome, IfOk, true, Some, None};
ghost use Rattle.std.specs.List.{prefix_len};
ghost use Rattle.tks_text.specs.Backslash.{is_blank, character, digit_count, number_of, hex_escape, octal_escape, in_text, escaped, escape};
ghost use Rattle.tks_text.specs.Text.{is_text_byte, IsText};

use crate::integer::{digits_len, value_of};
use crate::text::is_text_byte;

/// Whether a byte is white space that doesn't end a line: a space or a tab.
pub fn is_blank(byte: u8) -> bool
    ensures { result ≡ is_blank byte }
{
    byte == b' ' || byte == b'\t'
}

/// How many blanks the text begins with.
pub fn blank_len(text: &[u8]) -> usize
    ensures value { result ≡ prefix_len is_blank text.now }
    ensures bound { result ≤ length text.now }
{
    text.iter().take_while(|byte| is_blank(**byte)).count()
}

// The character that a letter behind a backslash stands for.
fn character(letter: u8) -> u8
    ensures { result ≡ character letter }
{
    match letter {
        b'a' => 7,
        b'b' => 8,
        b'f' => 12,
        b'n' => b'\n',
        b'r' => b'\r',
        b't' => b'\t',
        b'v' => 11,
        _ => letter,
    }
}

// How many digits of the base the text begins with, up to the most that count.
fn digit_count(base: u64, most: usize, text: &[u8]) -> usize
    ensures value { result ≡ digit_count base most text.now }
    ensures bound { result ≤ length text.now }
    ensures most { result ≤ most }
{
    digits_len(base, text).min(most)
}

// A value of so many bytes, where it stands in texts.
fn in_text(value: u64, taken: usize) -> Option<(u8, usize)>
    ensures value { result ≡ in_text (value, taken) }
    ensures taken { IfSome result (λ x. x.1 ≡ taken) }
    ensures text { IfSome result (λ x. is_text_byte x.0 ≡ true) }
{
    if value > 126 {
        return None;
    }
    let byte = value as u8;
    if is_text_byte(byte) {
        Some((byte, taken))
    } else {
        None
    }
}

// The number that the first digits write, where it stands in texts.
fn number_of(base: u64, before: usize, count: usize, text: &[u8]) -> Option<(u8, usize)>
    requires base { 1 ≤ base }
    requires bound { count ≤ length text.now }
    requires before { before ≤ 1 }
    ensures value { result ≡ in_text (number_of base before count text.now) }
    ensures bound { IfSome result (λ x. x.1 ≤ before + length text.now) }
    ensures text { IfSome result (λ x. is_text_byte x.0 ≡ true) }
{
    let value = value_of(base, &text[..count])?;
    in_text(value, before + count)
}

// The hex digits behind a letter, up to the most that count, or the letter where there are none.
fn hex_escape(letter: u8, most: usize, text: &[u8]) -> Option<(u8, usize)>
    ensures value { result ≡ in_text (hex_escape letter most text.now) }
    ensures bound { IfSome result (λ x. x.1 ≤ 1 + length text.now) }
    ensures text { IfSome result (λ x. is_text_byte x.0 ≡ true) }
{
    let count = digit_count(16, most, text);
    if count == 0 {
        in_text(u64::from(letter), 1)
    } else {
        number_of(16, 1, count, text)
    }
}

// The octal digits at the front: three where they write at most 377, else two.
fn octal_escape(text: &[u8]) -> Option<(u8, usize)>
    ensures value { result ≡ in_text (octal_escape text.now) }
    ensures bound { IfSome result (λ x. x.1 ≤ length text.now) }
    ensures text { IfSome result (λ x. is_text_byte x.0 ≡ true) }
{
    let count = digit_count(8, 3, text);
    match value_of(8, &text[..count]) {
        Some(value) if value <= 255 => in_text(value, count),
        _ => number_of(8, 0, digit_count(8, 2, text), text),
    }
}

/// What the bytes behind a backslash stand for, and how many they are. A backslash at the end stands for
/// itself. `None` where the value stands in no text.
#[tactic(auto, unfolding(crate::specs::Backslash::escape))]
pub fn escape(text: &[u8]) -> Option<(u8, usize)>
    ensures value { result ≡ escape text.now }
    ensures bound { IfSome result (λ x. x.1 ≤ length text.now) }
    ensures text { IfSome result (λ x. is_text_byte x.0 ≡ true) }
{
    match text {
        [] => Some((b'\\', 0)),
        [b'\n', rest @ ..] => Some((b' ', blank_len(rest) + 1)),
        [b'x', rest @ ..] => hex_escape(b'x', 2, rest),
        [b'u', rest @ ..] => hex_escape(b'u', 4, rest),
        [b'0'..=b'7', ..] => octal_escape(text),
        [letter, ..] => in_text(u64::from(character(*letter)), 1),
    }
}
