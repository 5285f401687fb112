//! A list of fewer than 2^32 items, which contracts see as a list.
ghost use Rattle.std.specs.Prelude.{◌≡◌, ◌<◌, ◌==◌, ◌++◌, [], ◌∷◌, length, slice_set, OnOk, OnErr};
ghost use Rattle.std.specs.List.{remove};
ghost use Rattle.tks_text.specs.Short.{IsShort};

use std::alloc::{AllocError, Global};
use std::marker::Model;

/// The most bytes of a text, and the most items of a list.
pub(crate) const MAX_LEN: usize = 4_294_967_295;

/// A list of fewer than 2^32 items inside a value that contracts compare: they see its items alone, and no capacity.
pub struct Seq<T> {
    items: Vec<T>,
}

// Written out, so that to let go of it is one step for whoever owns it.
impl<T: Drop> Drop for Seq<T> {
    fn drop(self) {
        let Seq { items: _ } = self;
    }
}

impl<T> Model for Seq<T> {
    ghost use Rattle.std.specs.Prelude.{List};
    ghost use Rattle.tks_text.specs.Short.{IsShort};

    ghost Value = { List T };

    ghost view = { λ s. s.items.items };

    ghost invariant = { λ s. IsShort s.items.items };
}

impl<T> Seq<T> {
    /// The empty list.
    pub fn new(alloc: Global) -> Seq<T>
        ensures { result ≡ [] }
    {
        Seq {
            items: Vec::new(alloc),
        }
    }

    /// How many items there are.
    pub fn len(&self) -> usize
        ensures value { result ≡ length self.now }
        ensures short { IsShort self.now }
    {
        self.items.len()
    }

    /// Whether there is no item.
    pub fn is_empty(&self) -> bool
        ensures { result ≡ (length self.now == 0) }
    {
        self.len() == 0
    }

    /// The items, in order, as a vector.
    pub fn into_items(self) -> Vec<T>
        ensures { result.items ≡ self }
    {
        let Seq { items } = self;
        items
    }

    /// The items, in order.
    pub fn as_slice(&self) -> &[T]
        ensures value { result.now ≡ self.now }
        ensures short { IsShort self.now }
    {
        self.items.as_slice()
    }
}

impl<T: Drop> Seq<T> {
    /// Adds an item at the end. One too many is refused as memory is.
    pub fn push(&mut self, item: T) -> Result<(), AllocError>
        ensures ok { OnOk result (self.new ≡ self.old ++ item ∷ []) }
        ensures err { OnErr result (self.new ≡ self.old) }
    {
        if self.items.len() >= MAX_LEN {
            return Err(AllocError);
        }
        self.items.push(item)?;
        Ok(())
    }

    /// Puts an item in the place of the one at this index, counted from 0.
    pub fn set(&mut self, index: usize, item: T)
        requires { index < length self.old }
        ensures { self.new ≡ slice_set self.old index item }
    {
        self.items[index] = item;
    }

    /// Takes out the item at an index, counted from 0.
    pub fn remove(&mut self, index: usize)
        requires { index < length self.old }
        ensures { self.new ≡ remove self.old index }
    {
        self.items.remove(index);
    }
}
