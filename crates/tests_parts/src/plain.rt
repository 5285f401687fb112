//! A plain program over one list.
use std::alloc::Global;

/// A script of one letter that waits.
#[derive(Clone, Copy)]
pub struct Kept {
    pub id: u64,
    /// None for an idle script.
    pub due: Option<u64>,
    pub letter: u8,
}

/// What waits, in the order in which it came, and the next id.
#[derive(Drop)]
pub struct Plain {
    pub kept: Vec<Kept>,
    pub next: u64,
}

impl Plain {
    pub fn new(alloc: Global) -> Plain {
        Plain {
            kept: Vec::new(alloc),
            next: 0,
        }
    }

    pub fn keep(&mut self, due: Option<u64>, letter: u8) -> Option<u64> {
        let id = self.next;
        self.kept.push(Kept { id, due, letter }).ok()?;
        self.next = id.wrapping_add(1);
        Some(id)
    }

    pub fn take_out(&mut self, id: u64) {
        self.kept.retain(|kept| kept.id != id);
    }

    pub fn with_letter(&self, letter: u8) -> Option<u64> {
        for kept in &self.kept {
            if kept.letter == letter {
                return Some(kept.id);
            }
        }
        None
    }

    pub fn letter_of(&self, id: u64) -> Option<u8> {
        for kept in &self.kept {
            if kept.id == id {
                return Some(kept.letter);
            }
        }
        None
    }

    pub fn oldest_idle(&self) -> Option<u64> {
        for kept in &self.kept {
            if kept.due.is_none() {
                return Some(kept.id);
            }
        }
        None
    }

    /// The first of those with the earliest due time, where it has come.
    pub fn due(&self, now: u64) -> Option<u64> {
        let mut first = None;
        let mut earliest = now;
        for kept in &self.kept {
            if let Some(due) = kept.due {
                if due < earliest || (due == earliest && first.is_none()) {
                    earliest = due;
                    first = Some(kept.id);
                }
            }
        }
        first
    }
}
