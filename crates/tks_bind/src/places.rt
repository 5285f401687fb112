//! The places of numbers in a row, each found without a walk.
ghost use Rattle.std.specs.Prelude.{◌≡◌, ◌<◌, ◌≤◌, ◌==◌, ℕ, true, not, [], ◌∷◌, ◌++◌, length, slice_get, slice_set, Some, OnOk, OnErr, IfOk};
ghost use Rattle.std.specs.List.{list_all, remove};
ghost use Rattle.tks_bind.specs.Places.{put_at};

use std::alloc::{AllocError, Global};
use std::marker::Model;
use tks_share::{Numbered, SharedList, SharedMap};

/// A number, with a count that rises along the row.
#[derive(Clone, Copy)]
pub(crate) struct Counted {
    pub(crate) count: u64,
    pub(crate) number: u64,
}

impl Numbered for Counted {
    ghost number_of = { λ c. c.count };

    fn number(&self) -> u64 {
        self.count
    }
}

/// Numbers in a row, no two the same. Copies share what they have in common.
#[derive(Drop)]
pub(crate) struct Places {
    numbers: SharedList<Counted>,
    // The count of each number, under its bytes.
    counts: SharedMap<u64>,
    next: u64,
}

impl Model for Places {
    ghost use Rattle.std.specs.Prelude.{List, ℕ, map};

    ghost Value = { List ℕ };

    ghost view = { λ p. map (λ c. c.number) p.numbers };

    ghost use Rattle.tks_bind.specs.Places.{AreCounted};

    ghost invariant = { λ p. AreCounted p.numbers p.counts p.next };
}

impl Places {
    /// None.
    pub(crate) fn new(alloc: Global) -> Places
        ensures { result ≡ [] }
    {
        Places {
            numbers: SharedList::new(alloc),
            counts: SharedMap::new(alloc),
            next: 0,
        }
    }

    /// The same, held once more.
    pub(crate) fn share(&self) -> Result<Places, AllocError>
        ensures { IfOk result (λ places. places ≡ self.now) }
    {
        Ok(Places {
            numbers: self.numbers.share()?,
            counts: self.counts.share()?,
            next: self.next,
        })
    }

    /// The place of a number that is there.
    pub(crate) fn place_of(&self, number: u64) -> Option<usize>
        ensures { (place : ℕ) → slice_get self.now place ≡ Some number → result ≡ Some place }
    {
        match self.counts.get(&number.to_be_bytes()) {
            None => None,
            Some(count) => self.numbers.place_of(*count),
        }
    }

    /// A new number comes in at the end. One too many is refused as memory is.
    pub(crate) fn push(&mut self, number: u64) -> Result<(), AllocError>
        requires { list_all (λ n. not (n == number)) self.old ≡ true }
        ensures ok { OnOk result (self.new ≡ self.old ++ number ∷ []) }
        ensures err { OnErr result (self.new ≡ self.old) }
    {
        let count = self.next;
        let Some(next) = count.checked_add(1) else {
            return Err(AllocError);
        };
        let mut counts = self.counts.share()?;
        counts.insert(&number.to_be_bytes(), count)?;
        self.numbers.push(Counted { count, number })?;
        self.counts = counts;
        self.next = next;
        Ok(())
    }

    // A new number takes the place of the one at an index.
    fn set(&mut self, index: usize, number: u64) -> Result<(), AllocError>
        requires there { index < length self.old }
        requires new { list_all (λ n. not (n == number)) self.old ≡ true }
        ensures ok { OnOk result (self.new ≡ slice_set self.old index number) }
        ensures err { OnErr result (self.new ≡ self.old) }
    {
        let Some(old) = self.numbers.get(index) else {
            unreachable!()
        };
        let old = *old;
        let mut counts = self.counts.share()?;
        counts.remove(&old.number.to_be_bytes())?;
        counts.insert(&number.to_be_bytes(), old.count)?;
        let counted = Counted {
            count: old.count,
            number,
        };
        self.numbers.set(index, counted)?;
        self.counts = counts;
        Ok(())
    }

    /// A new number takes the place of the one at an index, or comes in at the end.
    pub(crate) fn put(&mut self, index: usize, number: u64) -> Result<(), AllocError>
        requires { list_all (λ n. not (n == number)) self.old ≡ true }
        ensures ok { OnOk result (self.new ≡ put_at index number self.old) }
        ensures err { OnErr result (self.new ≡ self.old) }
    {
        if index < self.numbers.len() {
            self.set(index, number)?;
        } else {
            self.push(number)?;
        }
        Ok(())
    }

    /// The number at an index goes out.
    pub(crate) fn remove(&mut self, index: usize) -> Result<(), AllocError>
        requires { index < length self.old }
        ensures ok { OnOk result (self.new ≡ remove self.old index) }
        ensures err { OnErr result (self.new ≡ self.old) }
    {
        let Some(old) = self.numbers.get(index) else {
            unreachable!()
        };
        let old = *old;
        let mut counts = self.counts.share()?;
        counts.remove(&old.number.to_be_bytes())?;
        self.numbers.remove(index)?;
        self.counts = counts;
        Ok(())
    }
}
