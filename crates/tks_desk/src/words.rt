//! The words of a line.
ghost use Rattle.std.specs.Prelude.{◌≡◌, option_map};
ghost use Rattle.tks_desk.specs.Words.{cell_behind, is_number, is_word, number_in, point, pointed_in, space_in, split_word};

use tks_text::{digits_len, value_of};

/// The most digits of a number.
const MAX_DIGITS: usize = 19;

/// What three numbers say that stand for a button and a cell.
#[derive(Clone, Copy)]
pub enum Pointed {
    /// They are no three numbers.
    Unread,
    /// No input can hold one of them.
    Beyond,
    /// A button, a column and a row.
    At(u8, u16, u16),
}

// Where the first space stands.
fn space_in(text: &[u8]) -> Option<usize>
    ensures { result ≡ space_in text.now }
{
    text.iter().position(|c| *c == b' ')
}

/// What stands before the first space, and what stands behind it.
pub fn split_word(text: &[u8]) -> Option<(&[u8], &[u8])>
    ensures { option_map (λ words. (words.0.now, words.1.now)) result ≡ split_word text.now }
{
    let space = space_in(text)?;
    Some((&text[..space], &text[space + 1..]))
}

/// Whether a text is one word: neither empty nor with a space in it.
pub fn is_word(text: &[u8]) -> bool
    ensures { result ≡ is_word text.now }
{
    !text.is_empty() && space_in(text).is_none()
}

// Whether a word is a number.
fn is_number(word: &[u8]) -> bool
    ensures { result ≡ is_number word.now }
{
    !word.is_empty() && word.len() <= MAX_DIGITS && digits_len(10, word) == word.len()
}

/// The number that a word is: 1 to 19 decimal digits.
pub fn number_in(word: &[u8]) -> Option<u64>
    ensures { result ≡ number_in word.now }
{
    if is_number(word) {
        value_of(10, word)
    } else {
        None
    }
}

// What three numbers say, where all are there.
fn point(button: Option<u64>, x: Option<u64>, y: Option<u64>) -> Pointed
    ensures { result ≡ point button x y }
{
    let (Some(button), Some(x), Some(y)) = (button, x, y) else {
        return Pointed::Unread;
    };
    if button <= 255 && x <= 65_535 && y <= 65_535 {
        Pointed::At(button as u8, x as u16, y as u16)
    } else {
        Pointed::Beyond
    }
}

// What two numbers say behind a button's.
fn cell_behind(button: Option<u64>, words: Option<(&[u8], &[u8])>) -> Pointed
    ensures { result ≡ cell_behind button (option_map (λ words. (words.0.now, words.1.now)) words.entry) }
{
    let Some((x, y)) = words else {
        return Pointed::Unread;
    };
    point(button, number_in(x), number_in(y))
}

/// What the three numbers say that a text has to be.
pub fn pointed_in(text: &[u8]) -> Pointed
    ensures { result ≡ pointed_in text.now }
{
    let Some((button, rest)) = split_word(text) else {
        return Pointed::Unread;
    };
    cell_behind(number_in(button), split_word(rest))
}
