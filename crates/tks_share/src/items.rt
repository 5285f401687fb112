//! Going over the items of a list.
ghost use Rattle.std.specs.Iterator.{YieldsFirstRef, item_count};
ghost use Rattle.tks_share.specs.Lines.{line_seen};
ghost use Rattle.tks_share.specs.Lists.{Fits};

use crate::line::{self, Line, Reached};
use crate::places::Part;
use crate::shared::Shared;
use std::marker::Model;

/// The items of a list that are still to come, in order.
#[derive(Drop)]
pub struct Items<'a, T> {
    line: Option<&'a Line<Shared<T>>>,
    next: usize,
    // A part of the tree with the next ones, so that few forks are gone through for each.
    part: Option<Part<'a, Shared<T>>>,
}

impl<'a, T> Model for Items<'a, T> {
    ghost use Rattle.std.specs.Prelude.{List, IfSome, drop};
    ghost use Rattle.std.specs.Coded.{coded_list};
    ghost use Rattle.tks_share.specs.Lines.{line_seen};
    ghost use Rattle.tks_share.specs.Lists.{Fits};

    ghost Value = { List T };

    ghost coded = { coded_list T.code };

    ghost view = { λ i. drop i.next (line_seen i.line) };

    ghost use Rattle.tks_share.specs.Parts.{Follows};

    ghost invariant = { λ i. Fits (line_seen i.line) × IfSome i.part (λ p. Follows p i.next (line_seen i.line)) };
}

impl<'a, T: Drop> Items<'a, T> {
    ghost use Rattle.std.specs.Prelude.{◌≡◌, drop};

    // The items of a line.
    pub(crate) fn of(line: Option<&'a Line<Shared<T>>>) -> Items<'a, T>
        requires { Fits (line_seen line) }
        ensures { result ≡ line_seen line.entry }
    {
        Items::from_index(line, 0)
    }

    /// The same, from here on once more.
    pub fn again(&self) -> Items<'a, T>
        ensures { result ≡ self.now }
    {
        Items::from_index(self.line, self.next)
    }

    // The items of a line from an index on.
    fn from_index(line: Option<&'a Line<Shared<T>>>, next: usize) -> Items<'a, T>
        requires { Fits (line_seen line) }
        ensures { result ≡ drop next (line_seen line.entry) }
    {
        Items {
            line,
            next,
            part: None,
        }
    }
}

impl<'a, T: Drop> Iterator for Items<'a, T> {
    type Item = &'a T;

    ghost next_gives = { YieldsFirstRef (λ i. i) };

    ghost remaining = { item_count (λ i. i) };

    fn next(&mut self) -> Option<&'a T> {
        let line = self.line?;
        let Reached { item, part } = line::reach(&self.part, line, self.next)?;
        self.part = part;
        self.next += 1;
        Some(item.get())
    }
}
