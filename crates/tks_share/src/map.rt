//! Maps from names, whose copies share what they have in common.
ghost use Rattle.std.specs.Prelude.{◌≡◌, ◌<◌, ◌^◌, true, IfOk, IfSome, IfNone, None, OnOk, OnErr, option_copied};
ghost use Rattle.std.specs.FinMap as map;
ghost use Rattle.tks_share.specs.Names.{behind};

use crate::change::Change;
use crate::copied::Copied;
use crate::iter::Iter;
use crate::name::Sought;
use crate::names::{self, Entry};
use crate::share::Share;
use crate::shared::Shared;
use crate::tree::Tree;
use std::alloc::{AllocError, Global};
use std::marker::Model;

/// The most names of a map, and the most items of a list.
pub(crate) const MAX_LEN: usize = 4_294_967_295;

/// A finite map from fewer than 2^32 names to values, in the order of the names' bytes. Copies share what they have in common, so to make one
/// costs next to nothing; a change costs as much as the names on one way down a balanced tree.
pub struct SharedMap<V> {
    alloc: Global,
    len: usize,
    tree: Tree<Entry<V>>,
}

// Written out, so that to let go of it is one step for whoever owns it.
impl<V: Drop> Drop for SharedMap<V> {
    fn drop(self) {
        let SharedMap {
            alloc: _,
            len: _,
            tree: _,
        } = self;
    }
}

impl<V> Model for SharedMap<V> {
    ghost use Rattle.std.specs.Prelude.{◌≡◌, T, length};
    ghost use Rattle.std.specs.FinMap as map;
    ghost use Rattle.std.specs.FinMap.Entries.{is_sorted};
    ghost use Rattle.std.specs.Coded.{coded_list, coded_ℕ};
    ghost use Rattle.tks_share.specs.Lists.{Fits};
    ghost use Rattle.tks_share.specs.Names.{order};

    ghost Value = { map.FinMap order V };

    ghost coded = { map.code (coded_list coded_ℕ) V.code };

    ghost view = { λ m. map.from_sorted m.tree };

    ghost invariant = { λ m. T (is_sorted order m.tree) × (m.len ≡ length m.tree) × Fits m.tree };
}

impl<V: Drop> SharedMap<V> {
    /// The empty map.
    pub fn new(alloc: Global) -> SharedMap<V>
        ensures { result ≡ map.empty }
    {
        SharedMap {
            alloc,
            len: 0,
            tree: Tree::new(),
        }
    }

    /// The same map, held once more. It takes no memory, whatever the map holds.
    pub fn share(&self) -> Result<SharedMap<V>, AllocError>
        ensures { IfOk result (λ m. m ≡ self.now) }
    {
        Ok(SharedMap {
            alloc: self.alloc,
            len: self.len,
            tree: self.tree.share()?,
        })
    }

    /// How many names there are.
    pub fn len(&self) -> usize
        ensures value { result ≡ map.len self.now }
        ensures short { map.len self.now < 2 ^ 32 }
    {
        self.len
    }

    /// Whether there is a value under the name.
    pub fn contains(&self, name: &[u8]) -> bool
        ensures { result ≡ map.contains_key self.now name.now }
    {
        self.get(name).is_some()
    }

    /// The value under a name.
    pub fn get(&self, name: &[u8]) -> Option<&V>
        ensures { option_copied result ≡ map.get self.now name.now }
    {
        names::get(&self.tree, &Sought::new(name))
    }

    /// Puts a value under a name, in the place of the one that is there. One name too many is refused as memory is.
    pub fn insert(&mut self, name: &[u8], value: V) -> Result<(), AllocError>
        ensures ok { OnOk result (self.new ≡ map.insert self.old name.now value) }
        ensures err { OnErr result (self.new ≡ self.old) }
    {
        if !self.has_room(name) {
            return Err(AllocError);
        }
        let value = Shared::new(self.alloc, value)?;
        names::insert(&mut self.tree, self.alloc, &Sought::new(name), value)?;
        self.len = self.tree.count();
        Ok(())
    }

    // Whether this name can be put in.
    fn has_room(&self, name: &[u8]) -> bool
        ensures { result ≡ true → (value : V) → map.len (map.insert self.now name.now value) < 2 ^ 32 }
    {
        self.len < MAX_LEN || self.contains(name)
    }

    /// Takes a name out.
    pub fn remove(&mut self, name: &[u8]) -> Result<(), AllocError>
        ensures ok { OnOk result (self.new ≡ map.remove self.old name.now) }
        ensures err { OnErr result (self.new ≡ self.old) }
    {
        if !self.contains(name) {
            return Ok(());
        }
        names::remove(&mut self.tree, &Sought::new(name))?;
        self.len -= 1;
        Ok(())
    }

    /// The names with what is under each, in the names' order.
    pub fn iter(&self) -> Iter<'_, V>
        ensures { result ≡ map.entries self.now }
    {
        Iter::of(&self.tree)
    }

    /// The names that come behind this one, with what is under each, in the names' order.
    pub fn iter_behind<'a>(&'a self, name: &'a [u8]) -> Iter<'a, V>
        ensures { result ≡ behind name.now (map.entries self.now) }
    {
        Iter::behind(&self.tree, name)
    }
}

impl<V: Copied> SharedMap<V> {
    ghost use Rattle.tks_share.specs.Maps.{IsChangedIn};

    /// Changes the value under a name where it stands, if there is one. A value that other maps hold too is copied first, and
    /// they keep theirs.
    pub fn change<C: Change<V>>(
        &mut self,
        name: &[u8],
        change: &mut C,
    ) -> Result<Option<C::Answer>, AllocError>
        ensures some { IfOk result (λ o. IfSome o (λ answer. IsChangedIn (C.gives change.old) name.now self.old self.new answer)) }
        ensures none { IfOk result (λ o. IfNone o ((self.new ≡ self.old) × (map.get self.old name.now ≡ None))) }
        ensures unused { IfOk result (λ o. IfNone o (change.new ≡ change.old)) }
        ensures err { OnErr result (self.new ≡ self.old) }
    {
        names::change(&mut self.tree, self.alloc, &Sought::new(name), change)
    }
}

impl<V: Drop> Share for SharedMap<V> {
    fn share(&self) -> Result<SharedMap<V>, AllocError> {
        SharedMap::share(self)
    }
}

impl<V: Drop> Copied for SharedMap<V> {
    fn copied(&self, _alloc: Global) -> Result<SharedMap<V>, AllocError> {
        self.share()
    }
}
