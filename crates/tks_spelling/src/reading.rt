//! Readers of single values. Each takes bytes, and answers the value at their front and the bytes behind it.

ghost use Rattle.std.specs.Prelude.{◌≡◌, ◌≤◌, length};
ghost use Rattle.std.specs.Int.{w16, w32, w64};
ghost use Rattle.std.specs.List.{prefix_len};
ghost use Rattle.tks_text.specs.Text.{is_text_byte};
ghost use Rattle.tks_spelling.specs.Spelling.{byte, byte_at, number_at, letters_at, text, such_that, is_flag, flag_of, flag, signed};
ghost use Rattle.tks_spelling.specs.Reading.{Gives};

use crate::unread::Unread;
use byteorder::{BigEndian, ByteOrder};
use std::alloc::Global;
use tks_text::{Txt, is_text_byte};

/// A byte.
pub fn u8_of(bytes: &[u8]) -> Result<(u8, &[u8]), Unread>
    ensures { Gives (λ x. (x.0, x.1.now)) result (byte_at bytes.now) }
{
    match bytes {
        [] => Err(Unread::Left(0)),
        [byte, rest @ ..] => Ok((*byte, rest)),
    }
}

/// A number of two bytes.
#[tactic(auto, unfolding(crate::specs::Spelling::number_at), using(crate::proofs::HighFirst::two_bytes))]
pub fn u16_of(bytes: &[u8]) -> Result<(u16, &[u8]), Unread>
    ensures { Gives (λ x. (x.0, x.1.now)) result (number_at w16 bytes.now) }
{
    if bytes.len() < 2 {
        return Err(Unread::Left(0));
    }
    let (front, rest) = bytes.split_at(2);
    Ok((BigEndian::read_u16(front), rest))
}

/// A number of four bytes.
#[tactic(auto, unfolding(crate::specs::Spelling::number_at), using(crate::proofs::HighFirst::four_bytes))]
pub fn u32_of(bytes: &[u8]) -> Result<(u32, &[u8]), Unread>
    ensures { Gives (λ x. (x.0, x.1.now)) result (number_at w32 bytes.now) }
{
    if bytes.len() < 4 {
        return Err(Unread::Left(0));
    }
    let (front, rest) = bytes.split_at(4);
    Ok((BigEndian::read_u32(front), rest))
}

/// A number of eight bytes.
#[tactic(auto, unfolding(crate::specs::Spelling::number_at), using(crate::proofs::HighFirst::eight_bytes))]
pub fn u64_of(bytes: &[u8]) -> Result<(u64, &[u8]), Unread>
    ensures { Gives (λ x. (x.0, x.1.now)) result (number_at w64 bytes.now) }
{
    if bytes.len() < 8 {
        return Err(Unread::Left(0));
    }
    let (front, rest) = bytes.split_at(8);
    Ok((BigEndian::read_u64(front), rest))
}

/// An integer of eight bytes.
pub fn i64_of(bytes: &[u8]) -> Result<(i64, &[u8]), Unread>
    ensures { Gives (λ x. (x.0, x.1.now)) result ((signed w64).read bytes.now) }
{
    let (bits, rest) = u64_of(bytes)?;
    Ok((bits.cast_signed(), rest))
}

/// Whether a value that may be there is there: the byte in front of it, 0 or 1.
pub fn presence_of(bytes: &[u8]) -> Result<(bool, &[u8]), Unread>
    ensures { Gives (λ x. (flag_of x.0, x.1.now)) result ((such_that is_flag byte).read bytes.now) }
{
    let (byte, rest) = u8_of(bytes)?;
    match byte {
        0 => Ok((false, rest)),
        1 => Ok((true, rest)),
        _ => Err(Unread::Left(rest.len() + 1)),
    }
}

/// A truth value.
pub fn flag_of(bytes: &[u8]) -> Result<(bool, &[u8]), Unread>
    ensures { Gives (λ x. (x.0, x.1.now)) result (flag.read bytes.now) }
{
    let (value, rest) = presence_of(bytes)?;
    Ok((value, rest))
}

// How many bytes at the front may stand in a text.
fn text_len(bytes: &[u8]) -> usize
    ensures value { result ≡ prefix_len is_text_byte bytes.now }
    ensures bound { result ≤ length bytes.now }
{
    bytes.iter().take_while(|byte| is_text_byte(**byte)).count()
}

// A text of so many bytes. They are looked at up to the first that stands in no text, which mostly is the first
// one behind it, of a number or a tag.
fn text_of_len(alloc: Global, len: usize, bytes: &[u8]) -> Result<(Txt, &[u8]), Unread>
    ensures { Gives (λ x. (x.0, x.1.now)) result (letters_at len bytes.now) }
{
    let good = text_len(bytes);
    if good < len {
        return Err(Unread::Left(bytes.len() - good));
    }
    let (text, rest) = bytes.split_at(len);
    Ok((Txt::from_text(alloc, text)?, rest))
}

/// A text. Room is made for it once all its bytes are there.
#[tactic(auto, unfolding(crate::specs::Spelling::list_at))]
pub fn text_of(alloc: Global, bytes: &[u8]) -> Result<(Txt, &[u8]), Unread>
    ensures { Gives (λ x. (x.0, x.1.now)) result (text.read bytes.now) }
{
    let (len, rest) = u32_of(bytes)?;
    let (text, rest) = text_of_len(alloc, len as usize, rest)?;
    Ok((text, rest))
}
