//! The share that a window that expands gets of what is left.
ghost use Rattle.std.specs.Prelude.{◌≡◌, ◌<◌, ◌+◌, ℕ, length, drop, IfOk};
ghost use Rattle.tks_pack.specs.Packer.{first_share};
ghost use Rattle.tks_pack.specs.Requests.{too_long};
ghost use Rattle.tks_pack.specs.Shares.{AreReady, left_behind};

use crate::note::{Note, notes};
use crate::overtaking::{Overtaking, overtakings};
use crate::stretch::Stretch;
use std::alloc::{AllocError, Global};

/// The shares of contents, found from the first to the last.
///
/// A share is the least of the quotients at the notes behind its content. No share is below the one before it, so a
/// note is passed over for good once another asks for more with the present share: one pass over the notes from behind
/// and one from the front find all shares, whatever the cavity's length.
#[derive(Drop)]
pub struct Shares {
    pub notes: Vec<Note>,
    pub overtakings: Vec<Overtaking>,
    // The first note that isn't passed over.
    pub first: usize,
}

impl Shares {
    /// Ready for the first of these contents.
    pub fn new(alloc: Global, stretches: &[Stretch]) -> Result<Shares, AllocError>
        ensures { IfOk result (λ s. (r : ℕ) → AreReady 0 r stretches.now s) }
    {
        let notes = notes(alloc, stretches)?;
        let overtakings = overtakings(alloc, &notes)?;
        Ok(Shares {
            notes,
            overtakings,
            first: 0,
        })
    }

    /// The share of the content at this index, in a cavity of this length, after those before it.
    pub fn next(&mut self, stretches: &[Stretch], index: usize, cavity: u32) -> u64
        requires index { index < length stretches.now }
        requires ready { AreReady index cavity stretches.now self.old }
        ensures share { result ≡ first_share cavity (drop index stretches.now) }
        ensures small { result < too_long }
        ensures ready { AreReady (index + 1) (left_behind cavity (drop index stretches.now)) stretches.now self.new }
    {
        if !stretches[index].takes_share() {
            return 0;
        }
        let note = self.notes[index];
        let mut first = self.first.max(index + 1);
        let share = 'passing: loop {
            let share = note.share(self.notes[first], cavity);
            let overtaking = self.overtakings[first];
            if share < overtaking.from {
                break share;
            }
            first = overtaking.by;
        };
        self.first = first;
        share
    }
}
