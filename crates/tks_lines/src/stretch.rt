//! A part of a piece that others hold too.
ghost use Rattle.std.specs.Prelude.{◌≡◌, ◌+◌, ◌<◌, ◌≤◌, ◌^◌, ◌++◌, length, take, drop, slice_get, IfOk, OnOk};
ghost use Rattle.std.specs.List.{count_by};
ghost use Rattle.tks_text.specs.Text.{IsText};
ghost use Rattle.tks_text.specs.Short.{IsShort};
ghost use Rattle.tks_lines.specs.Places.{is_newline};
ghost use Rattle.tks_lines.specs.Breaks.{breaks_from, breaks_of};
ghost use Rattle.tks_lines.specs.Stretch.{part};

use crate::breaks::{place_behind, push_breaks, push_moved};
use crate::lined_text::MAX_LEN;
use crate::piece::Piece;
use std::alloc::{AllocError, Global};
use std::marker::Model;
use tks_share::Shared;
use tks_text::Txt;

/// Characters that stand one behind the other in a piece. Others may hold the piece too.
pub(crate) struct Stretch {
    piece: Shared<Piece>,
    /// The place in the piece of its first character.
    first: usize,
    /// The one behind its last.
    last: usize,
}

// Written out, so that to let go of it is one step for whoever owns it.
impl Drop for Stretch {
    fn drop(self) {
        let Stretch {
            piece: _,
            first: _,
            last: _,
        } = self;
    }
}

impl Model for Stretch {
    ghost use Rattle.std.specs.Prelude.{◌≤◌, List, ℕ, length};
    ghost use Rattle.tks_text.specs.Short.{IsShort};
    ghost use Rattle.tks_lines.specs.Stretch.{part};

    ghost Value = { List ℕ };

    ghost view = { λ s. part s.first s.last s.piece };

    ghost invariant = { λ s. (s.first ≤ s.last) × ((s.last ≤ length s.piece) × IsShort s.piece) };
}

// The characters of three stretches, one behind the other. Too many are refused as memory is.
#[tactic(auto, using(tks_text::proofs::Texts::text_append))]
fn joined_bytes(
    alloc: Global,
    front: &Stretch,
    middle: &Stretch,
    behind: &Stretch,
) -> Result<Vec<u8>, AllocError>
    ensures items { IfOk result (λ v. v.items ≡ front.now ++ (middle.now ++ behind.now)) }
    ensures text { OnOk result (IsText (front.now ++ (middle.now ++ behind.now))) }
    ensures short { OnOk result (IsShort (front.now ++ (middle.now ++ behind.now))) }
{
    let len = front.len() + middle.len() + behind.len();
    if len > MAX_LEN {
        return Err(AllocError);
    }
    let mut bytes = Vec::with_capacity(alloc, len)?;
    bytes.extend_from_slice(front.as_bytes())?;
    bytes.extend_from_slice(middle.as_bytes())?;
    bytes.extend_from_slice(behind.as_bytes())?;
    Ok(bytes)
}

// The places of their newlines.
fn joined_breaks(
    alloc: Global,
    front: &Stretch,
    middle: &Stretch,
    behind: &Stretch,
) -> Result<Vec<usize>, AllocError>
    ensures { IfOk result (λ v. v.items ≡ breaks_of (front.now ++ (middle.now ++ behind.now))) }
{
    let begin = front.len();
    let mut breaks = Vec::new(alloc);
    front.push_breaks(&mut breaks, 0)?;
    middle.push_breaks(&mut breaks, begin)?;
    behind.push_breaks(&mut breaks, begin + middle.len())?;
    Ok(breaks)
}

impl Stretch {
    /// All of a piece.
    pub(crate) fn all(alloc: Global, piece: Piece) -> Result<Stretch, AllocError>
        ensures { IfOk result (λ s. s ≡ piece) }
    {
        let last = piece.as_bytes().len();
        Ok(Stretch {
            piece: Shared::new(alloc, piece)?,
            first: 0,
            last,
        })
    }

    /// The characters of a text, in a piece of their own.
    pub(crate) fn of(alloc: Global, text: &Txt) -> Result<Stretch, AllocError>
        ensures { IfOk result (λ s. s ≡ text.now) }
    {
        let text = text.as_bytes();
        let bytes = Vec::from_slice(alloc, text)?;
        let mut breaks = Vec::new(alloc);
        push_breaks(&mut breaks, 0, text)?;
        Stretch::all(alloc, Piece::new(bytes, breaks))
    }

    /// Three of them as one, one behind the other, in a piece of its own. Too many characters are refused as memory is.
    pub(crate) fn joined(
        alloc: Global,
        front: &Stretch,
        middle: &Stretch,
        behind: &Stretch,
    ) -> Result<Stretch, AllocError>
        ensures { IfOk result (λ s. s ≡ front.now ++ (middle.now ++ behind.now)) }
    {
        let bytes = joined_bytes(alloc, front, middle, behind)?;
        let breaks = joined_breaks(alloc, front, middle, behind)?;
        Stretch::all(alloc, Piece::new(bytes, breaks))
    }

    /// How many characters there are.
    pub(crate) fn len(&self) -> usize
        ensures value { result ≡ length self.now }
        ensures bound { result < 2 ^ 32 }
    {
        self.as_bytes().len()
    }

    /// The characters.
    pub(crate) fn as_bytes(&self) -> &[u8]
        ensures value { result.now ≡ self.now }
        ensures text { IsText self.now }
        ensures short { IsShort self.now }
    {
        &self.piece.get().as_bytes()[self.first..self.last]
    }

    /// How many newlines there are.
    pub(crate) fn newlines(&self) -> usize
        ensures { result ≡ count_by is_newline self.now }
    {
        self.piece.get().breaks_between(self.first, self.last).len()
    }

    /// How many newlines stand before a place.
    pub(crate) fn newlines_before(&self, place: usize) -> usize
        ensures { result ≡ count_by is_newline (take place self.now) }
    {
        let last = self.first + place.min(self.len());
        self.piece.get().breaks_between(self.first, last).len()
    }

    /// The place of the newline behind so many others, in a text where the first character stands at a place.
    pub(crate) fn break_at(&self, begin: usize, others: usize) -> Option<usize>
        requires { begin < 2 ^ 33 }
        ensures { result ≡ slice_get (breaks_from begin self.now) others }
    {
        let breaks = self.piece.get().breaks_between(self.first, self.last);
        match place_behind(breaks, others) {
            Some(place) => Some(place.saturating_sub(self.first) + begin),
            None => None,
        }
    }

    // Adds the places of its newlines, in a text where the first character stands at a place.
    fn push_breaks(&self, places: &mut Vec<usize>, begin: usize) -> Result<(), AllocError>
        requires { begin < 2 ^ 33 }
        ensures { OnOk result (places.new.items ≡ places.old.items ++ breaks_from begin self.now) }
    {
        let breaks = self.piece.get().breaks_between(self.first, self.last);
        push_moved(places, breaks, self.first, begin)
    }

    /// The first so many characters, in the same piece.
    pub(crate) fn front(&self, count: usize) -> Result<Stretch, AllocError>
        requires { count ≤ length self.now }
        ensures { IfOk result (λ s. s ≡ take count self.now) }
    {
        Ok(Stretch {
            piece: self.piece.share()?,
            first: self.first,
            last: self.first + count,
        })
    }

    /// What stands behind so many characters, in the same piece.
    pub(crate) fn behind(&self, count: usize) -> Result<Stretch, AllocError>
        requires { count ≤ length self.now }
        ensures { IfOk result (λ s. s ≡ drop count self.now) }
    {
        Ok(Stretch {
            piece: self.piece.share()?,
            first: self.first + count,
            last: self.last,
        })
    }

    /// The same characters, in the same piece.
    pub(crate) fn share(&self) -> Result<Stretch, AllocError>
        ensures { IfOk result (λ s. s ≡ self.now) }
    {
        Ok(Stretch {
            piece: self.piece.share()?,
            first: self.first,
            last: self.last,
        })
    }
}
