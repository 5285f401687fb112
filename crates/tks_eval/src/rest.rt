//! What is left of a list that is taken from its front.
ghost use Rattle.std.specs.Prelude.{◌≡◌, ◌↔◌, true, List, [], ◌∷◌, reverse, slice_get, option_copied, MatchOption, OnOk, OnErr};

use std::alloc::{AllocError, Global};
use std::marker::Model;

/// What is left of a list that is taken from its front. Its first item lies at the end of the buffer.
#[derive(Drop)]
pub struct Rest<T> {
    reversed: Vec<T>,
}

impl<T> Model for Rest<T> {
    ghost use Rattle.std.specs.Prelude.{List, reverse};

    ghost Value = { List T };

    ghost view = { λ r. reverse r.reversed.items };
}

impl<T: Drop> Rest<T> {
    /// Nothing.
    pub fn new(alloc: Global) -> Rest<T>
        ensures { result ≡ [] }
    {
        Rest {
            reversed: Vec::new(alloc),
        }
    }

    /// All these items.
    pub fn of(items: Vec<T>) -> Rest<T>
        ensures { result ≡ items.items }
    {
        let mut reversed = items;
        reversed.reverse();
        Rest { reversed }
    }

    /// The first item.
    pub fn first(&self) -> Option<&T>
        ensures { option_copied result ≡ slice_get self.now 0 }
    {
        self.reversed.last()
    }

    /// Takes the first item.
    pub fn next(&mut self) -> Option<T>
        ensures { MatchOption result ((self.old ≡ []) × (self.new ≡ [])) (λ x. self.old ≡ x ∷ self.new) }
    {
        self.reversed.pop()
    }

    /// Whether nothing is left.
    pub fn is_empty(&self) -> bool
        ensures { result ≡ true ↔ self.now ≡ [] }
    {
        self.reversed.is_empty()
    }

    /// Puts an item in front.
    pub fn push(&mut self, item: T) -> Result<(), AllocError>
        ensures ok { OnOk result (self.new ≡ item ∷ self.old) }
        ensures err { OnErr result (self.new ≡ self.old) }
    {
        self.reversed.push(item)?;
        Ok(())
    }
}
