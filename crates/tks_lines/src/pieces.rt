//! A text in three stretches, one behind the other.
ghost use Rattle.std.specs.Prelude.{◌≡◌, ◌+◌, ◌≤◌, ◌<◌, ◌++◌, length, IfOk};
ghost use Rattle.tks_lines.specs.Lines.{spliced, cut};
ghost use Rattle.tks_lines.specs.Pieces.{whole, HasGapAt};

use crate::stretch::Stretch;
use std::alloc::{AllocError, Global};
use tks_text::Txt;

/// The most characters that are typed before they go to those in front.
const MAX_TYPED: usize = 512;

/// A text: what stands before the place where it was changed last, the few characters that were typed there, and what
/// stands behind. A change there makes those few anew, and the others stay in the pieces that they share with copies.
pub(crate) struct Pieces {
    pub(crate) front: Stretch,
    pub(crate) typed: Stretch,
    pub(crate) behind: Stretch,
}

// Written out, so that to let go of it is one step for whoever owns it.
impl Drop for Pieces {
    fn drop(self) {
        let Pieces {
            front: _,
            typed: _,
            behind: _,
        } = self;
    }
}

// Two stretches as one.
fn joined(alloc: Global, front: &Stretch, behind: &Stretch) -> Result<Stretch, AllocError>
    ensures { IfOk result (λ s. s ≡ front.now ++ behind.now) }
{
    if front.len() == 0 {
        return behind.share();
    }
    if behind.len() == 0 {
        return front.share();
    }
    Stretch::joined(alloc, front, &front.front(0)?, behind)
}

impl Pieces {
    /// A text of which nothing was changed.
    pub(crate) fn of(alloc: Global, text: &Txt) -> Result<Pieces, AllocError>
        ensures { IfOk result (λ p. whole p ≡ text.now) }
    {
        let front = Stretch::of(alloc, text)?;
        let len = front.len();
        let (typed, behind) = (front.behind(len)?, front.behind(len)?);
        Ok(Pieces {
            front,
            typed,
            behind,
        })
    }

    /// The same text, in the same pieces.
    pub(crate) fn share(&self) -> Result<Pieces, AllocError>
        ensures { IfOk result (λ p. p ≡ self.now) }
    {
        Ok(Pieces {
            front: self.front.share()?,
            typed: self.typed.share()?,
            behind: self.behind.share()?,
        })
    }

    // The same text, where the characters from a place in front on are behind.
    fn moved_back(&self, alloc: Global, place: usize) -> Result<Pieces, AllocError>
        requires { place ≤ length self.now.front }
        ensures same { IfOk result (λ p. whole p ≡ whole self.now) }
        ensures there { IfOk result (λ p. HasGapAt place p) }
    {
        let moved = self.front.behind(place)?;
        Ok(Pieces {
            front: self.front.front(place)?,
            typed: self.typed.front(0)?,
            behind: Stretch::joined(alloc, &moved, &self.typed, &self.behind)?,
        })
    }

    // The same text, where the characters up to a place behind are in front.
    fn moved_on(&self, alloc: Global, place: usize) -> Result<Pieces, AllocError>
        requires behind { length self.now.front + length self.now.typed ≤ place }
        requires inside { place ≤ length (whole self.now) }
        ensures same { IfOk result (λ p. whole p ≡ whole self.now) }
        ensures there { IfOk result (λ p. HasGapAt place p) }
    {
        let count = place - self.front.len() - self.typed.len();
        let moved = self.behind.front(count)?;
        Ok(Pieces {
            front: Stretch::joined(alloc, &self.front, &self.typed, &moved)?,
            typed: self.typed.front(0)?,
            behind: self.behind.behind(count)?,
        })
    }

    /// The same text, where a place is among the characters that were typed or beside them.
    pub(crate) fn moved(&self, alloc: Global, place: usize) -> Result<Pieces, AllocError>
        requires { place ≤ length (whole self.now) }
        ensures same { IfOk result (λ p. whole p ≡ whole self.now) }
        ensures there { IfOk result (λ p. HasGapAt place p) }
    {
        if place < self.front.len() {
            return self.moved_back(alloc, place);
        }
        if self.front.len() + self.typed.len() < place {
            return self.moved_on(alloc, place);
        }
        self.share()
    }

    /// With more at a place among the characters that were typed.
    pub(crate) fn with(
        &self,
        alloc: Global,
        place: usize,
        more: &Stretch,
    ) -> Result<Pieces, AllocError>
        requires { HasGapAt place self.now }
        ensures { IfOk result (λ p. whole p ≡ spliced place more.now (whole self.now)) }
    {
        let count = place - self.front.len();
        let before = self.typed.front(count)?;
        let after = self.typed.behind(count)?;
        if self.typed.len() + more.len() > MAX_TYPED {
            return Ok(Pieces {
                front: Stretch::joined(alloc, &self.front, &before, more)?,
                typed: self.typed.front(0)?,
                behind: joined(alloc, &after, &self.behind)?,
            });
        }
        Ok(Pieces {
            front: self.front.share()?,
            typed: Stretch::joined(alloc, &before, more, &after)?,
            behind: self.behind.share()?,
        })
    }

    /// Without what stands between two places, of which one is among the characters that were typed or both are around
    /// them.
    pub(crate) fn without(
        &self,
        alloc: Global,
        first: usize,
        last: usize,
    ) -> Result<Pieces, AllocError>
        requires order { (first ≤ last) × (last ≤ length (whole self.now)) }
        requires there { (first ≤ length self.now.front + length self.now.typed) × (length self.now.front ≤ last) }
        ensures { IfOk result (λ p. whole p ≡ cut first last (whole self.now)) }
    {
        let (front, typed) = (self.front.len(), self.typed.len());
        let before = self.typed.front(first.saturating_sub(front))?;
        let after = self.typed.behind((last - front).min(typed))?;
        Ok(Pieces {
            front: self.front.front(first.min(front))?,
            typed: joined(alloc, &before, &after)?,
            behind: self.behind.behind((last - front).saturating_sub(typed))?,
        })
    }
}
