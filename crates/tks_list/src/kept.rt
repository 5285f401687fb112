//! A list that is kept beside its text.
ghost use Rattle.std.specs.Prelude.{◌≡◌, IfSome, OnOk, Some};
ghost use Rattle.tks_list.specs.Keeping.{IsLonger};
ghost use Rattle.tks_list.specs.Reading.{list_of};

use crate::elements::Elements;
use crate::fault::ListFault;
use crate::reading::read;
use std::alloc::Global;
use std::marker::Model;
use tks_share::Shared;
use tks_text::Txt;

/// A list that several may hold, and where memory for more elements comes from. Contracts see the list.
#[derive(Drop)]
pub struct KeptList {
    alloc: Global,
    list: Shared<Elements>,
}

impl Model for KeptList {
    ghost use Rattle.std.specs.Prelude.{List, ℕ};

    ghost Value = { List (List ℕ) };

    ghost view = { λ k. k.list };
}

impl KeptList {
    /// The list that a text splits into, if it splits into one and memory serves.
    pub fn of(alloc: Global, text: &Txt) -> Option<KeptList>
        ensures { IfSome result (λ l. list_of text.now ≡ Some l) }
    {
        let Ok(list) = read(alloc, text) else {
            return None;
        };
        match Shared::new(alloc, list) {
            Ok(list) => Some(KeptList { alloc, list }),
            Err(_) => None,
        }
    }

    /// The list, held once more.
    pub fn share(&self) -> Option<Shared<Elements>>
        ensures { IfSome result (λ l. l ≡ self.now) }
    {
        match self.list.share() {
            Ok(list) => Some(list),
            Err(_) => None,
        }
    }

    /// The same list, kept once more.
    pub fn keep(&self) -> Option<KeptList>
        ensures { IfSome result (λ l. l ≡ self.now) }
    {
        match self.list.share() {
            Ok(list) => Some(KeptList {
                alloc: self.alloc,
                list,
            }),
            Err(_) => None,
        }
    }

    // Adds the elements of a text. Where that fails, some of them may be there.
    fn add(&mut self, text: &Txt) -> Result<(), ListFault>
        ensures { OnOk result (IsLonger self.old text.now self.new) }
    {
        let more = read(self.alloc, text)?;
        self.list.get_mut(self.alloc)?.append(&more)?;
        Ok(())
    }

    /// The list with the elements of a text behind it, if memory serves.
    pub fn with_more(self, text: &Txt) -> Option<KeptList>
        ensures { IfSome result (λ l. IsLonger self text.now l) }
    {
        let mut list = self;
        match list.add(text) {
            Ok(()) => Some(list),
            Err(_) => None,
        }
    }
}
