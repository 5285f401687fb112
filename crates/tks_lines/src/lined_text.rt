//! Characters that know where their lines end.
ghost use Rattle.std.specs.Prelude.{◌≡◌, ◌+◌, ◌-◌, ◌<◌, ◌≤◌, ◌^◌, ◌++◌, length, take, drop, slice_get, IfOk, OnOk, OnErr};
ghost use Rattle.std.specs.List.{count_by};
ghost use Rattle.tks_text.specs.Text.{IsText};
ghost use Rattle.tks_text.specs.Short.{IsShort};
ghost use Rattle.tks_lines.specs.Places.{is_newline, end_place};
ghost use Rattle.tks_lines.specs.Lines.{spliced, cut};
ghost use Rattle.tks_lines.specs.Breaks.{breaks_of, below, line_begin, line_break};
ghost use Rattle.tks_lines.specs.Stretch.{part};

use crate::pieces::Pieces;
use crate::stretch::Stretch;
use std::alloc::{AllocError, Global};
use std::marker::Model;
use tks_text::Txt;

/// The most characters.
pub(crate) const MAX_LEN: usize = 4_294_967_295;

/// The characters of a text but the last newline, fewer than 2^32, in pieces that know where their lines end and that
/// copies share.
pub(crate) struct LinedText {
    pieces: Pieces,
}

// Written out, so that to let go of it is one step for whoever owns it.
impl Drop for LinedText {
    fn drop(self) {
        let LinedText { pieces: _ } = self;
    }
}

impl Model for LinedText {
    ghost use Rattle.std.specs.Prelude.{List, ℕ};
    ghost use Rattle.tks_text.specs.Short.{IsShort};
    ghost use Rattle.tks_lines.specs.Pieces.{whole};

    ghost Value = { List ℕ };

    ghost view = { λ t. whole t.pieces };

    ghost invariant = { λ t. IsShort (whole t.pieces) };
}

// Adds what a stretch has from one place up to another.
#[tactic(auto, using(crate::proofs::Parted::part_within))]
fn push_part(text: &mut Txt, stretch: &Stretch, first: usize, last: usize) -> Result<(), AllocError>
    requires { first ≤ last }
    ensures { OnOk result (text.new ≡ text.old ++ part first last stretch.now) }
{
    let bytes = stretch.as_bytes();
    let len = bytes.len();
    text.push_bytes(&bytes[first.min(len)..last.min(len)])?;
    Ok(())
}

impl LinedText {
    /// The characters of a text.
    pub(crate) fn of(alloc: Global, text: &Txt) -> Result<LinedText, AllocError>
        ensures { IfOk result (λ t. t ≡ text.now) }
    {
        let _short = text.as_bytes();
        Ok(LinedText {
            pieces: Pieces::of(alloc, text)?,
        })
    }

    /// How many characters there are.
    pub(crate) fn len(&self) -> usize
        ensures value { result ≡ length self.now }
        ensures bound { result < 2 ^ 32 }
    {
        self.pieces.front.len() + self.pieces.typed.len() + self.pieces.behind.len()
    }

    /// The characters, in three pieces, of which each stands behind the one before it.
    pub(crate) fn pieces(&self) -> (&[u8], &[u8], &[u8])
        ensures value { result.0.now ++ (result.1.now ++ result.2.now) ≡ self.now }
        ensures text { IsText result.0.now × (IsText result.1.now × IsText result.2.now) }
        ensures short { IsShort self.now }
    {
        (
            self.pieces.front.as_bytes(),
            self.pieces.typed.as_bytes(),
            self.pieces.behind.as_bytes(),
        )
    }

    /// The characters from one place up to another.
    pub(crate) fn part(&self, alloc: Global, first: usize, last: usize) -> Result<Txt, AllocError>
        requires { (first ≤ last) × (last ≤ length self.now) }
        ensures { IfOk result (λ t. t ≡ take (last - first) (drop first self.now)) }
    {
        let front = self.pieces.front.len();
        let typed = front + self.pieces.typed.len();
        let mut text = Txt::new(alloc);
        push_part(&mut text, &self.pieces.front, first, last)?;
        push_part(
            &mut text,
            &self.pieces.typed,
            first.saturating_sub(front),
            last.saturating_sub(front),
        )?;
        push_part(
            &mut text,
            &self.pieces.behind,
            first.saturating_sub(typed),
            last.saturating_sub(typed),
        )?;
        Ok(text)
    }

    /// How many newlines there are.
    pub(crate) fn newlines(&self) -> usize
        ensures value { result ≡ count_by is_newline self.now }
        ensures bound { result ≤ length self.now }
    {
        let len = self.len();
        self.newlines_before(len)
    }

    /// How many newlines stand before a place.
    pub(crate) fn newlines_before(&self, place: usize) -> usize
        ensures value { result ≡ count_by is_newline (take place self.now) }
        ensures breaks { result ≡ below place (breaks_of self.now) }
        ensures bound { result ≤ length self.now }
    {
        let front = self.pieces.front.len();
        let typed = front + self.pieces.typed.len();
        self.pieces.front.newlines_before(place)
            + self
                .pieces
                .typed
                .newlines_before(place.saturating_sub(front))
            + self
                .pieces
                .behind
                .newlines_before(place.saturating_sub(typed))
    }

    // The place of the newline behind so many others.
    fn break_at(&self, others: usize) -> Option<usize>
        ensures { result ≡ slice_get (breaks_of self.now) others }
    {
        let front = self.pieces.front.newlines();
        if others < front {
            return self.pieces.front.break_at(0, others);
        }
        let begin = self.pieces.front.len();
        let typed = front + self.pieces.typed.newlines();
        if others < typed {
            return self.pieces.typed.break_at(begin, others - front);
        }
        let begin = begin + self.pieces.typed.len();
        self.pieces.behind.break_at(begin, others - typed)
    }

    /// The place at which the line behind so many others begins; behind the last line, the end.
    pub(crate) fn line_begin(&self, lines: usize) -> usize
        ensures value { result ≡ line_begin (length self.now) (breaks_of self.now) lines }
        ensures bound { result ≤ end_place self.now }
    {
        let len = self.len();
        if lines == 0 {
            return 0;
        }
        match self.break_at(lines - 1) {
            Some(place) => place + 1,
            None => len + 1,
        }
    }

    /// The place of the newline that ends it.
    pub(crate) fn line_break(&self, lines: usize) -> usize
        ensures value { result ≡ line_break (length self.now) (breaks_of self.now) lines }
        ensures bound { result ≤ length self.now }
    {
        match self.break_at(lines) {
            Some(place) => place,
            None => self.len(),
        }
    }

    /// Puts more in at a place. Too many characters are refused as memory is.
    pub(crate) fn insert(
        &mut self,
        alloc: Global,
        place: usize,
        more: &Txt,
    ) -> Result<(), AllocError>
        requires { place ≤ length self.old }
        ensures ok { OnOk result (self.new ≡ spliced place more.now self.old) }
        ensures err { OnErr result (self.new ≡ self.old) }
    {
        if more.as_bytes().len() > MAX_LEN - self.len() {
            return Err(AllocError);
        }
        let more = Stretch::of(alloc, more)?;
        let moved = self.pieces.moved(alloc, place)?;
        let pieces = moved.with(alloc, place, &more)?;
        self.pieces = pieces;
        Ok(())
    }

    /// Takes what stands between two places out.
    pub(crate) fn delete(
        &mut self,
        alloc: Global,
        first: usize,
        last: usize,
    ) -> Result<(), AllocError>
        ensures ok { OnOk result (self.new ≡ cut first last self.old) }
        ensures err { OnErr result (self.new ≡ self.old) }
    {
        let len = self.len();
        let last = last.max(first).min(len);
        let first = first.min(len);
        let place = self.pieces.front.len().max(first).min(last);
        let moved = self.pieces.moved(alloc, place)?;
        let pieces = moved.without(alloc, first, last)?;
        self.pieces = pieces;
        Ok(())
    }

    /// An equal text, in the same pieces.
    pub(crate) fn try_clone(&self) -> Result<LinedText, AllocError>
        ensures { IfOk result (λ t. t ≡ self.now) }
    {
        Ok(LinedText {
            pieces: self.pieces.share()?,
        })
    }
}
