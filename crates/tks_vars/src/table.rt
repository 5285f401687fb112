//! A map from names whose copies share what they have in common.
ghost use Rattle.std.specs.Prelude.{◌≡◌, ◌<◌, ◌^◌, IfOk, IfSome, IfNone, None, OnOk, OnErr, option_copied};
ghost use Rattle.std.specs.FinMap as map;
ghost use Rattle.std.specs.List.{AllByRecursion};
ghost use Rattle.tks_vars.specs.Table.{IsName, HasName};

use std::alloc::{AllocError, Global};
use std::marker::Model;
use tks_share::{Change, Copied, Iter, Share, SharedMap};
use tks_text::Txt;

/// A finite map from names, which are texts, to values, in the order of the names' bytes. Copies share what they have in common.
#[derive(Drop)]
pub struct Table<V> {
    entries: SharedMap<V>,
}

impl<V> Model for Table<V> {
    ghost use Rattle.std.specs.FinMap as map;
    ghost use Rattle.std.specs.Ordering.{nat_cmp};
    ghost use Rattle.std.specs.Cmp.Lexicographic.{slice_cmp};
    ghost use Rattle.std.specs.Coded.{coded_list, coded_ℕ};

    ghost Value = { map.FinMap (slice_cmp nat_cmp) V };

    ghost coded = { map.code (coded_list coded_ℕ) V.code };

    ghost view = { λ t. t.entries };

    ghost use Rattle.tks_vars.specs.Table.{AreNames};

    ghost invariant = { λ t. AreNames t.entries };
}

impl<V: Drop> Table<V> {
    /// The empty map.
    pub fn new(alloc: Global) -> Table<V>
        ensures { result ≡ map.empty }
    {
        Table {
            entries: SharedMap::new(alloc),
        }
    }

    /// The map of these names and values. Of two with one name the first stays.
    pub fn restore(alloc: Global, entries: Vec<(Txt, V)>) -> Result<Table<V>, AllocError>
        ensures { IfOk result (λ t. t ≡ map.from_entries entries.items) }
    {
        let mut table = Table::new(alloc);
        let mut entries = entries;
        while let Some((name, value)) = entries.pop() {
            table.insert(name.as_bytes(), value)?;
        }
        Ok(table)
    }

    /// The names with what is under each, in the order of the names' bytes.
    pub fn iter(&self) -> Iter<'_, V>
        ensures value { result ≡ map.entries self.now }
        ensures names { AllByRecursion HasName (map.entries self.now) }
    {
        self.entries.iter()
    }

    /// How many names there are.
    pub fn len(&self) -> usize
        ensures value { result ≡ map.len self.now }
        ensures short { map.len self.now < 2 ^ 32 }
    {
        self.entries.len()
    }

    /// Whether there is a value under the name.
    pub fn contains(&self, name: &[u8]) -> bool
        ensures { result ≡ map.contains_key self.now name.now }
    {
        self.entries.contains(name)
    }

    /// The value under a name.
    pub fn get(&self, name: &[u8]) -> Option<&V>
        ensures { option_copied result ≡ map.get self.now name.now }
    {
        self.entries.get(name)
    }

    /// Puts a value under a name, in the place of the one that is there.
    pub fn insert(&mut self, name: &[u8], value: V) -> Result<(), AllocError>
        requires { IsName name.now }
        ensures ok { OnOk result (self.new ≡ map.insert self.old name.now value) }
        ensures err { OnErr result (self.new ≡ self.old) }
    {
        self.entries.insert(name, value)
    }

    /// Takes a name out.
    pub fn remove(&mut self, name: &[u8]) -> Result<(), AllocError>
        ensures ok { OnOk result (self.new ≡ map.remove self.old name.now) }
        ensures err { OnErr result (self.new ≡ self.old) }
    {
        self.entries.remove(name)
    }
}

impl<V: Drop> Share for Table<V> {
    fn share(&self) -> Result<Table<V>, AllocError> {
        Ok(Table {
            entries: self.entries.share()?,
        })
    }
}

impl<V: Copied> Table<V> {
    ghost use Rattle.tks_share.specs.Maps.{IsChangedIn};

    /// Changes the value under a name where it stands, if there is one. A value that other maps hold too is copied first, and
    /// they keep theirs.
    pub fn change<C: Change<V>>(
        &mut self,
        name: &[u8],
        change: &mut C,
    ) -> Result<Option<C::Answer>, AllocError>
        ensures some { IfOk result (λ o. IfSome o (λ answer. IsChangedIn (C.gives change.old) name.now self.old self.new answer)) }
        ensures none { IfOk result (λ o. IfNone o ((self.new ≡ self.old) × (map.get self.old name.now ≡ None))) }
        ensures unused { IfOk result (λ o. IfNone o (change.new ≡ change.old)) }
        ensures err { OnErr result (self.new ≡ self.old) }
    {
        self.entries.change(name, change)
    }
}
