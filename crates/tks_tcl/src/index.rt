//! Indices of lists and texts: `N`, `end`, `end-N`.
ghost use Rattle.std.specs.Prelude.{◌≡◌, length, min, pos, ◌+ℤ◌};
ghost use Rattle.tks_text.specs.Text.{IsText};
ghost use Rattle.tks_tcl.specs.Cause.{about};
ghost use Rattle.tks_tcl.specs.Index.{number_in, number_behind_end, index_in, place, before, range};
ghost use Rattle.tks_tcl.specs.Meets.{TellsSo, GivesSo};
ghost use Rattle.tks_tcl.specs.View.{index_of};

use crate::interrupt::{Interrupt, error, error_about};
use std::alloc::Global;
use tks_text::{ErrorNumber, Txt, integer_of, is_space};

/// A place in a list or a text.
#[derive(Clone, Copy)]
pub enum Index {
    /// Counted from the first member, 0.
    Start(i64),
    /// Counted back from the last member, 0.
    End(i64),
}

// The error of a text that is no index.
fn bad_index(text: &Txt) -> Interrupt
    ensures { TellsSo (about ErrorNumber.BadIndex text.now) result }
{
    error_about(ErrorNumber::BadIndex, text)
}

// The number in the text of an index.
#[tactic(auto, using(crate::proofs::Causes::tells))]
fn number_in(text: &Txt, numeral: &Txt) -> Result<i64, Interrupt>
    ensures { GivesSo (λ z. z) result (number_in text.now numeral.now) }
{
    match integer_of(numeral) {
        Ok(Some(number)) => Ok(number),
        Ok(None) => Err(bad_index(text)),
        Err(_) => Err(error(ErrorNumber::OutOfRange)),
    }
}

// The number behind `end-`.
#[tactic(auto, using(crate::proofs::Causes::tells))]
fn number_behind_end(alloc: Global, text: &Txt, behind: &[u8]) -> Result<i64, Interrupt>
    requires { IsText behind.now }
    ensures { GivesSo (λ z. z) result (number_behind_end text.now behind.now) }
{
    match behind {
        [] => Err(bad_index(text)),
        [c, ..] => {
            if is_space(*c) {
                return Err(bad_index(text));
            }
            let numeral = Txt::from_text(alloc, behind)?;
            let number = number_in(text, &numeral)?;
            Ok(number)
        }
    }
}

/// The index that a text spells: an integer, `end`, or `end-` and an integer.
#[tactic(auto, using(tks_text::proofs::Texts::text_drop))]
pub fn index_in(alloc: Global, text: &Txt) -> Result<Index, Interrupt>
    ensures { GivesSo index_of result (index_in text.now) }
{
    let bytes = text.as_bytes();
    if bytes == b"end".as_slice() {
        return Ok(Index::End(0));
    }
    if let Some(behind) = bytes.strip_prefix(b"end-".as_slice()) {
        let number = number_behind_end(alloc, text, behind)?;
        return Ok(Index::End(number));
    }
    let number = number_in(text, text)?;
    Ok(Index::Start(number))
}

impl Index {
    // The place, counted from 0, among so many members.
    fn place(self, len: usize) -> i128
        ensures { result ≡ place (index_of self) len }
    {
        match self {
            Index::Start(number) => i128::from(number),
            Index::End(number) => len as i128 - 1 - i128::from(number),
        }
    }
}

// How many members stand before a place, of so many.
fn before(place: i128, len: usize) -> usize
    ensures { result ≡ min (before place) len }
{
    if place < 0 {
        0
    } else if place >= len as i128 {
        len
    } else {
        place as usize
    }
}

/// How many members stand before those from one index to another, and how many up to their end, of so many.
pub fn bounds(len: usize, first: Index, last: Index) -> (usize, usize)
    ensures front { result.0 ≡ min (before (place (index_of first) len)) result.1 }
    ensures behind { result.1 ≡ min (before (place (index_of last) len +ℤ pos 1)) len }
{
    let behind = before(last.place(len) + 1, len);
    (before(first.place(len), behind), behind)
}

/// The members from one index to another, of those that are there.
pub fn range<T>(items: &[T], first: Index, last: Index) -> &[T]
    ensures { result.now ≡ range (index_of first) (index_of last) items.now }
{
    let (front, behind) = bounds(items.len(), first, last);
    items.split_at(behind).0.split_at(front).1
}
