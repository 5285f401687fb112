//! Going over the entries of a map.
ghost use Rattle.std.specs.Prelude.{◌≡◌, T, option_copied};
ghost use Rattle.std.specs.Iterator.{YieldsFirstBy, item_count};
ghost use Rattle.std.specs.FinMap.Entries.{is_sorted};
ghost use Rattle.tks_share.specs.Names.{order, behind};
ghost use Rattle.tks_share.specs.Maps.{entry_seen};
ghost use Rattle.tks_share.specs.Going.{those_ahead};
ghost use Rattle.tks_share.specs.Tree.{front};

use crate::name::Sought;
use crate::names::{self, Entry};
use crate::tree::Tree;
use std::marker::Model;

// Which entries of a map are still to come.
#[derive(Drop)]
enum Ahead<'a> {
    All,
    Behind(Sought<'a>),
}

/// The entries of a map that are still to come, in the names' order. Each is looked up when it is asked for.
#[derive(Drop)]
pub struct Iter<'a, V> {
    tree: &'a Tree<Entry<V>>,
    ahead: Ahead<'a>,
}

impl<'a, V> Model for Iter<'a, V> {
    ghost use Rattle.std.specs.Prelude.{List, ℕ, T};
    ghost use Rattle.std.specs.FinMap.Entries.{is_sorted};
    ghost use Rattle.std.specs.Coded.{coded_list, coded_ℕ, coded×};
    ghost use Rattle.tks_share.specs.Names.{order};
    ghost use Rattle.tks_share.specs.Going.{those_ahead};

    ghost Value = { List (List ℕ × V) };

    ghost coded = { coded_list (coded× (coded_list coded_ℕ) V.code) };

    ghost view = { λ i. those_ahead i.ahead i.tree.now };

    ghost invariant = { λ i. T (is_sorted order i.tree.now) };
}

impl<'a, V: Drop> Iter<'a, V> {
    // The entries of a tree.
    pub(crate) fn of(tree: &'a Tree<Entry<V>>) -> Iter<'a, V>
        requires { T (is_sorted order tree.now) }
        ensures { result ≡ tree.now }
    {
        Iter {
            tree,
            ahead: Ahead::All,
        }
    }

    // Those of them whose names come behind this one.
    pub(crate) fn behind(tree: &'a Tree<Entry<V>>, name: &'a [u8]) -> Iter<'a, V>
        requires { T (is_sorted order tree.now) }
        ensures { result ≡ behind name.now tree.now }
    {
        Iter {
            tree,
            ahead: Ahead::Behind(Sought::new(name)),
        }
    }
}

// The first of a tree's entries that are still to come.
fn next_of<'a, V: Drop>(tree: &'a Tree<Entry<V>>, ahead: &Ahead<'a>) -> Option<&'a Entry<V>>
    requires { T (is_sorted order tree.now) }
    ensures { option_copied result ≡ front (those_ahead ahead.now tree.now) }
{
    match ahead {
        Ahead::All => tree.first(),
        Ahead::Behind(name) => names::after(tree, name),
    }
}

impl<'a, V: Drop> Iterator for Iter<'a, V> {
    type Item = (&'a [u8], &'a V);

    ghost next_gives = { YieldsFirstBy entry_seen (λ i. i) };

    ghost remaining = { item_count (λ i. i) };

    fn next(&mut self) -> Option<(&'a [u8], &'a V)> {
        let Some(entry) = next_of(self.tree, &self.ahead) else {
            return None;
        };
        let name = entry.0.get();
        self.ahead = Ahead::Behind(name.sought());
        Some((name.as_bytes(), entry.1.get()))
    }
}
