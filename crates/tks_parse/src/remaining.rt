//! What is left of a list that others may hold too, from a place on.
ghost use Rattle.std.specs.Prelude.{◌≡◌, drop, slice_get, option_copied};

use std::marker::Model;
use std::rc::Rc;

/// What is left of a list that others may hold too. To go on takes nothing apart, and to hold it once more costs a count.
#[derive(Drop)]
pub struct Remaining<T> {
    items: Rc<Vec<T>>,
    at: usize,
}

impl<T> Model for Remaining<T> {
    ghost use Rattle.std.specs.Prelude.{List, drop, length, ◌≤◌};

    ghost Value = { List T };

    ghost view = { λ l. drop l.at l.items.value.items };

    ghost invariant = { λ l. l.at ≤ length l.items.value.items };
}

impl<T: Drop> Remaining<T> {
    /// All of a list.
    pub fn all(items: Rc<Vec<T>>) -> Remaining<T>
        ensures { result ≡ items.value.items }
    {
        Remaining { items, at: 0 }
    }

    /// The first item.
    pub fn first(&self) -> Option<&T>
        ensures { option_copied result ≡ slice_get self.now 0 }
    {
        self.items.as_ref().as_slice().get(self.at)
    }

    /// Goes on behind the first item, where there is one.
    pub fn skip(&mut self)
        ensures { self.new ≡ drop 1 self.old }
    {
        if self.at < self.items.as_ref().len() {
            self.at += 1;
        }
    }
}
