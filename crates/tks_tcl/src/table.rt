//! Lists that were read, so that a script that reads one again and again splits its text once.
ghost use Rattle.std.specs.Prelude.{◌≡◌, IfSome, Ok};
ghost use Rattle.tks_tcl.specs.Meets.{GivesSo};
ghost use Rattle.tks_tcl.specs.View.{elements_of};
ghost use Rattle.tks_tcl.specs.Words.{list_in};

use crate::interrupt::Interrupt;
use crate::lent::Lent;
use crate::words::{elements_in, list_in};
use std::alloc::{AllocError, Global};
use std::marker::Model;
use tks_list::{Elements, LEAST_KEPT};
use tks_share::Shared;
use tks_text::{Seq, Txt};

/// A text with the list that it splits into.
#[derive(Drop)]
struct KeptList {
    text: Txt,
    list: Shared<Elements>,
}

impl Model for KeptList {
    ghost use Rattle.std.specs.Prelude.{List, ℕ, ◌≡◌, Ok};
    ghost use Rattle.tks_tcl.specs.Words.{list_in};

    ghost Value = { List ℕ };

    ghost view = { λ k. k.text };

    ghost invariant = { λ k. list_in k.text ≡ Ok k.list };
}

impl KeptList {
    // The list, where this is its text.
    fn list(&self, text: &Txt) -> Option<Shared<Elements>>
        ensures { IfSome result (λ l. list_in text.now ≡ Ok l) }
    {
        if self.text != *text {
            return None;
        }
        match self.list.share() {
            Ok(list) => Some(list),
            Err(_) => None,
        }
    }
}

/// How many lists a table keeps.
const PLACES: usize = 8;

/// Lists that were read in a run, each with its text. Where no place is left, the oldest goes. Contracts see nothing of what
/// is kept, and want of memory keeps nothing more.
#[derive(Drop)]
pub struct ListTable {
    lists: Vec<KeptList>,
    oldest: usize,
}

impl Model for ListTable {
    ghost Value = { Unit {0} };

    ghost view = { λ _. tt };
}

impl ListTable {
    /// Nothing kept. A table is seen as nothing at all, so there is nothing that a clause could tell of one.
    pub fn new(alloc: Global) -> ListTable {
        ListTable {
            lists: Vec::new(alloc),
            oldest: 0,
        }
    }

    // Puts a list behind the others, or where no place is left in the oldest one.
    fn put(&mut self, kept: KeptList) {
        if self.lists.len() < PLACES {
            let _ = self.lists.push(kept);
            return;
        }
        if let Some(place) = self.lists.get_mut(self.oldest) {
            *place = kept;
        }
        self.oldest = if self.oldest < PLACES - 1 {
            self.oldest + 1
        } else {
            0
        };
    }

    // Keeps a list under its text.
    fn keep(&mut self, text: &Txt, list: &Shared<Elements>) -> Result<(), AllocError>
        requires { list_in text.now ≡ Ok list.now }
    {
        let kept = KeptList {
            text: text.try_clone()?,
            list: list.share()?,
        };
        self.put(kept);
        Ok(())
    }

    // The list that is kept of a text.
    fn kept(&self, text: &Txt) -> Option<Shared<Elements>>
        ensures { IfSome result (λ l. list_in text.now ≡ Ok l) }
    {
        for kept in self.lists.as_slice() {
            if let Some(list) = kept.list(text) {
                return Some(list);
            }
        }
        None
    }

    // The list that a text splits into, read where it isn't kept, and then kept where memory serves.
    fn list_kept(&mut self, alloc: Global, text: &Txt) -> Result<Shared<Elements>, Interrupt>
        ensures { GivesSo (λ l. l) result (list_in text.now) }
    {
        if let Some(list) = self.kept(text) {
            return Ok(list);
        }
        let list = Shared::new(alloc, elements_in(alloc, text)?)?;
        let _ = self.keep(text, &list);
        Ok(list)
    }

    /// The list that a text splits into: kept where the text is long enough, or else read.
    pub(crate) fn list(&mut self, alloc: Global, text: &Txt) -> Result<Lent, Interrupt>
        ensures { GivesSo elements_of result (list_in text.now) }
    {
        if text.len() < LEAST_KEPT {
            Ok(Lent::Read(elements_in(alloc, text)?))
        } else {
            Ok(Lent::Kept(self.list_kept(alloc, text)?))
        }
    }

    /// The list that a text splits into, which no one else holds: a copy of the one that is kept, or else read.
    pub fn own_list(&self, alloc: Global, text: &Txt) -> Result<Seq<Txt>, Interrupt>
        ensures { GivesSo (λ l. l) result (list_in text.now) }
    {
        match self.kept(text) {
            Some(kept) => Ok(kept.get().to_texts(alloc)?),
            None => list_in(alloc, text),
        }
    }
}
