//! What contents ask for up to one of them, and how many share up to it.
ghost use Rattle.std.specs.Prelude.{◌≡◌, ◌<◌, ◌≤◌, ◌+◌, ◌-◌, ◌/◌, ◌^◌, ℕ, IfOk};
ghost use Rattle.tks_pack.specs.Requests.{too_long};
ghost use Rattle.tks_pack.specs.Notes.{asked_with, note_at, past, no_note, notes};

use crate::stretch::Stretch;
use std::alloc::{AllocError, Global};

/// More than any cavity has.
pub const TOO_LONG: u64 = 1 << 32;

/// What is asked for up to a place among contents: so many cells, and what a content that shares gets more, so many
/// times.
#[derive(Clone, Copy)]
pub struct Note {
    pub asked: u128,
    pub sharing: u128,
}

impl Note {
    // What is asked for past a content.
    fn past(self, stretch: &Stretch) -> Note
        requires asked { self.asked < 2 ^ 127 }
        requires sharing { self.sharing < 2 ^ 127 }
        ensures value { result ≡ past self stretch.now }
        ensures asked { result.asked < self.asked + 2 ^ 34 }
        ensures sharing { result.sharing ≤ self.sharing + 1 }
    {
        if !stretch.edge.lies_along() {
            return self;
        }
        Note {
            asked: self.asked + u128::from(stretch.outer()),
            sharing: self.sharing + u128::from(stretch.expands),
        }
    }

    // What is noted at a content: itself counts where it takes the whole length. Else nothing is added, and notes behind
    // it ask for as much.
    fn at(self, stretch: &Stretch) -> Note
        requires { self.asked < 2 ^ 127 }
        ensures { result ≡ note_at self stretch.now }
    {
        if stretch.edge.lies_along() {
            return self;
        }
        Note {
            asked: self.asked + u128::from(stretch.outer()),
            sharing: self.sharing,
        }
    }

    /// From how many cells on a later note asks for more than this one.
    pub fn overtaken(self, later: Note) -> u64
        requires { self.sharing ≤ later.sharing }
        ensures small { result ≤ too_long }
        ensures before { (x : ℕ) → x < result → asked_with x later ≤ asked_with x self }
        ensures after { (x : ℕ) → result ≤ x → x < too_long → asked_with x self < asked_with x later }
    {
        if self.asked < later.asked {
            return 0;
        }
        if self.sharing == later.sharing {
            return TOO_LONG;
        }
        let cells = (self.asked - later.asked) / (later.sharing - self.sharing);
        (cells.min(u128::from(TOO_LONG - 1)) + 1) as u64
    }

    /// The most that contents which share from here on to a later note could get more alike, in a cavity of this
    /// length.
    pub fn share(self, later: Note, cavity: u32) -> u64
        requires asked { self.asked ≤ later.asked }
        requires sharing { self.sharing < later.sharing }
        ensures value { result ≡ (cavity - (later.asked - self.asked)) / (later.sharing - self.sharing) }
        ensures small { result ≤ cavity }
    {
        let left = u128::from(cavity).saturating_sub(later.asked - self.asked);
        (left / (later.sharing - self.sharing)) as u64
    }
}

/// What is noted at each content and behind all.
pub fn notes(alloc: Global, stretches: &[Stretch]) -> Result<Vec<Note>, AllocError>
    ensures { IfOk result (λ v. v.items ≡ notes no_note stretches.now) }
{
    let mut notes = Vec::with_capacity(alloc, stretches.len() + 1)?;
    let mut note = Note {
        asked: 0,
        sharing: 0,
    };
    for stretch in stretches {
        notes.push(note.at(stretch))?;
        note = note.past(stretch);
    }
    notes.push(note)?;
    Ok(notes)
}
