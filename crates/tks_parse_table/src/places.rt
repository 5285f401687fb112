//! Texts with what they spell, each of which is found by its text.
ghost use Rattle.std.specs.Prelude.{IfSome};

use std::alloc::Global;
use std::marker::Model;
use tks_text::Txt;

/// A text with what it spells.
pub(crate) trait Known: Drop {
    ghost use Rattle.std.specs.Prelude.{◌≡◌, List, ℕ, IfSome};

    /// What texts spell.
    type Tree: Drop;

    ghost text_of: { Self → List ℕ };

    // that a text spells this
    ghost spells: { List ℕ → Self.Tree → Type 0 };

    /// The text.
    fn text(&self) -> &Txt
        ensures { result.now ≡ text_of self.now };

    /// What it spells, if it is known.
    fn tree(&self) -> Option<Self::Tree>
        ensures { IfSome result (λ tree. spells (text_of self.now) tree) };
}

/// How many places there are.
const PLACES: usize = 32;

/// How long a text may be, in bytes, that is kept for further inputs.
const LONGEST: usize = 4096;

// What is kept in one place, and the place in which the text behind it is looked for first.
#[derive(Drop)]
struct Place<T> {
    known: T,
    next: usize,
}

/// A few texts with what they spell. Where no place is left, the places are used again one after the other. Contracts see nothing
/// of what is kept, and want of memory keeps nothing more.
///
/// What runs again mostly runs in the same order. So each place tells where the text behind it was found the last time, at
/// first in the next place, and there the search begins.
#[derive(Drop)]
pub(crate) struct Places<T> {
    places: Vec<Place<T>>,
    oldest: usize,
    last: usize,
    holds_long: bool,
}

impl<T> Model for Places<T> {
    ghost Value = { Unit {0} };

    ghost view = { λ _. tt };
}

// The place behind another. Behind the last one is the first.
fn behind(index: usize) -> usize {
    if index < PLACES - 1 { index + 1 } else { 0 }
}

impl<T: Known> Places<T> {
    /// Nothing kept. What is kept is seen as nothing at all, as the table is, so no clause could tell of it.
    pub fn new(alloc: Global) -> Places<T> {
        Places {
            places: Vec::new(alloc),
            oldest: 0,
            last: 0,
            holds_long: false,
        }
    }

    // Where the next text is looked for first.
    fn expected(&self) -> usize {
        match self.places.get(self.last) {
            Some(place) => place.next,
            None => 0,
        }
    }

    // Notes that this is the place of the text that was asked for last.
    fn went_to(&mut self, index: usize) {
        if let Some(place) = self.places.get_mut(self.last) {
            place.next = index;
        }
        self.last = index;
    }

    // What a text spells, if it is in this place.
    #[inline(always)]
    fn tree_at(&self, index: usize, text: &Txt) -> Option<T::Tree>
        ensures { IfSome result (λ tree. T.spells text.now tree) }
    {
        let known = &self.places.get(index)?.known;
        if known.text().as_bytes() != text.as_bytes() {
            return None;
        }
        known.tree()
    }

    // What a text spells, if it is in one of these places.
    fn find_among(&mut self, text: &Txt, from: usize, to: usize) -> Option<T::Tree>
        ensures { IfSome result (λ tree. T.spells text.now tree) }
    {
        for index in from..to {
            if let Some(tree) = self.tree_at(index, text) {
                self.went_to(index);
                return Some(tree);
            }
        }
        None
    }

    // What a text spells, if it is in any place. The search begins in this one.
    #[inline(never)]
    fn find_from(&mut self, text: &Txt, first: usize) -> Option<T::Tree>
        ensures { IfSome result (λ tree. T.spells text.now tree) }
    {
        let count = self.places.len();
        let first = first.min(count);
        match self.find_among(text, first, count) {
            Some(tree) => Some(tree),
            None => self.find_among(text, 0, first),
        }
    }

    /// What a text spells, if it is kept.
    pub fn find(&mut self, text: &Txt) -> Option<T::Tree>
        ensures { IfSome result (λ tree. T.spells text.now tree) }
    {
        let expected = self.expected();
        match self.tree_at(expected, text) {
            Some(tree) => {
                self.last = expected;
                Some(tree)
            }
            None => self.find_from(text, expected),
        }
    }

    // Puts something behind the others, or where no place is left in place of the oldest, and tells where.
    fn put(&mut self, known: T) -> usize {
        let index = self.places.len();
        if index < PLACES {
            let next = behind(index);
            let _ = self.places.push(Place { known, next });
            return index;
        }
        let index = self.oldest;
        self.oldest = behind(index);
        if let Some(place) = self.places.get_mut(index) {
            place.known = known;
        }
        index
    }

    /// Keeps this too.
    pub fn keep(&mut self, known: T) {
        if known.text().len() > LONGEST {
            self.holds_long = true;
        }
        let index = self.put(known);
        self.went_to(index);
    }

    /// Lets go of what has a long text.
    pub fn keep_short(&mut self) {
        if self.holds_long {
            self.places
                .retain(|place| place.known.text().len() <= LONGEST);
            self.holds_long = false;
        }
    }
}
