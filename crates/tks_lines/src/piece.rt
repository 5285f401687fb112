//! Characters that several texts share, with where their lines end.
ghost use Rattle.std.specs.Prelude.{◌≡◌, ◌≤◌, length, drop};
ghost use Rattle.std.specs.List.Sorted.{IsNonDecreasingBy};
ghost use Rattle.tks_text.specs.Text.{IsText};
ghost use Rattle.tks_text.specs.Short.{IsShort};
ghost use Rattle.tks_lines.specs.Breaks.{breaks_from, breaks_of};
ghost use Rattle.tks_lines.specs.Stretch.{part};

use crate::breaks::below;
use std::marker::Model;

/// Characters and the places of their newlines, made once and never changed.
pub(crate) struct Piece {
    bytes: Vec<u8>,
    breaks: Vec<usize>,
}

// Written out, so that to let go of it is one step for whoever owns it.
impl Drop for Piece {
    fn drop(self) {
        let Piece {
            bytes: _,
            breaks: _,
        } = self;
    }
}

impl Model for Piece {
    ghost use Rattle.std.specs.Prelude.{◌≡◌, List, ℕ};
    ghost use Rattle.tks_text.specs.Text.{IsText};
    ghost use Rattle.tks_text.specs.Short.{IsShort};
    ghost use Rattle.tks_lines.specs.Breaks.{breaks_of};

    ghost Value = { List ℕ };

    ghost view = { λ p. p.bytes.items };

    ghost invariant = { λ p. IsText p.bytes.items × (IsShort p.bytes.items × (p.breaks.items ≡ breaks_of p.bytes.items)) };
}

impl Piece {
    /// Characters with the places of their newlines.
    pub(crate) fn new(bytes: Vec<u8>, breaks: Vec<usize>) -> Piece
        requires text { IsText bytes.items }
        requires short { IsShort bytes.items }
        requires breaks { breaks.items ≡ breaks_of bytes.items }
        ensures { result ≡ bytes.items }
    {
        Piece { bytes, breaks }
    }

    /// The characters.
    pub(crate) fn as_bytes(&self) -> &[u8]
        ensures value { result.now ≡ self.now }
        ensures text { IsText self.now }
        ensures short { IsShort self.now }
    {
        &self.bytes
    }

    // The places of its newlines.
    #[tactic(auto, using(crate::proofs::Breaking::breaks_rise))]
    fn breaks(&self) -> &[usize]
        ensures value { result.now ≡ breaks_of self.now }
        ensures rising { IsNonDecreasingBy (λ b. b) result.now }
    {
        self.breaks.as_slice()
    }

    // The places of the newlines from a place on.
    #[tactic(auto, using(crate::proofs::Breaking::rise_from))]
    fn breaks_behind(&self, first: usize) -> &[usize]
        requires { first ≤ length self.now }
        ensures value { result.now ≡ breaks_from first (drop first self.now) }
        ensures rising { IsNonDecreasingBy (λ b. b) result.now }
    {
        let breaks = self.breaks();
        &breaks[below(breaks, first)..]
    }

    /// The places of the newlines from one place up to another.
    #[tactic(auto, using(crate::proofs::Breaking::up_to_place))]
    pub(crate) fn breaks_between(&self, first: usize, last: usize) -> &[usize]
        requires { (first ≤ last) × (last ≤ length self.now) }
        ensures { result.now ≡ breaks_from first (part first last self.now) }
    {
        let breaks = self.breaks_behind(first);
        &breaks[..below(breaks, last)]
    }
}
