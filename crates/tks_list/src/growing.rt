//! Texts that grow, and know of what list they are the text.
ghost use Rattle.std.specs.Prelude.{◌≡◌, ◌++◌, length, true, IfOk, IfSome, OnOk, OnErr, Some, nat_le};
ghost use Rattle.tks_text.specs.Text.{IsText};
ghost use Rattle.tks_list.specs.Growing.{TakesElements};
ghost use Rattle.tks_list.specs.Keeping.{GrowsSo};
ghost use Rattle.tks_list.specs.Quoting.{joined, spaced};
ghost use Rattle.tks_list.specs.Reading.{list_of};

use crate::elements::Elements;
use crate::kept::KeptList;
use crate::writing::{join, push_spaced};
use std::alloc::{AllocError, Global};
use std::marker::Model;
use tks_share::{Copied, Shared};
use tks_text::{TextBuilder, Txt};

/// What is put behind a text: it knows whether it is elements of a list, each with a space before it. Contracts see the text.
#[derive(Drop)]
pub struct Suffix {
    text: Txt,
    is_elements: bool,
}

impl Model for Suffix {
    ghost use Rattle.std.specs.Prelude.{List, ℕ, ◌≡◌, true};
    ghost use Rattle.tks_list.specs.Growing.{AreElements};

    ghost Value = { List ℕ };

    ghost view = { λ s. s.text };

    ghost invariant = { λ s. s.is_elements ≡ true → AreElements s.text };
}

impl Suffix {
    /// Any text.
    pub fn of(text: Txt) -> Suffix
        ensures { result ≡ text }
    {
        Suffix {
            text,
            is_elements: false,
        }
    }

    /// Elements of a list.
    pub fn of_elements(alloc: Global, elements: &[Txt]) -> Result<Suffix, AllocError>
        ensures { IfOk result (λ s. s ≡ spaced elements.now) }
    {
        let mut text = TextBuilder::new(alloc);
        push_spaced(&mut text, elements)?;
        Ok(Suffix {
            text: text.into_text()?,
            is_elements: true,
        })
    }

    /// The text.
    pub fn as_text(&self) -> &Txt
        ensures { result.now ≡ self.now }
    {
        &self.text
    }
}

/// From how many bytes on it is worth while to keep the list of a text: a shorter one is read as quickly as its list is found.
pub const LEAST_KEPT: usize = 32;

/// A text that grows: it may know that it is a list with some elements, spelled as `join` spells lists, and then a further
/// element joins it without the others being read. It may keep the list that it splits into, so that this is read once.
/// Contracts see the text.
pub struct ListText {
    text: Txt,
    is_spelled: bool,
    list: Option<KeptList>,
}

// Written out, so that to let go of it is one step for whoever owns it.
impl Drop for ListText {
    fn drop(self) {
        let ListText {
            text: _,
            is_spelled: _,
            list: _,
        } = self;
    }
}

impl Model for ListText {
    ghost use Rattle.std.specs.Prelude.{List, ℕ};

    ghost Value = { List ℕ };

    ghost use Rattle.tks_list.specs.Keeping.{Knows};

    ghost view = { λ t. t.text };

    ghost invariant = { λ t. Knows t.is_spelled t.list t.text };
}

impl ListText {
    /// A text of which nothing is known.
    pub fn of(text: Txt) -> ListText
        ensures { result ≡ text }
    {
        ListText {
            text,
            is_spelled: false,
            list: None,
        }
    }

    /// The text of a list.
    pub fn of_list(alloc: Global, list: &[Txt]) -> Result<ListText, AllocError>
        ensures { IfOk result (λ t. t ≡ joined list.now) }
    {
        let text = join(alloc, list)?;
        let is_spelled = !list.is_empty();
        Ok(ListText {
            text,
            is_spelled,
            list: None,
        })
    }

    /// The text.
    pub fn as_text(&self) -> &Txt
        ensures { result.now ≡ self.now }
    {
        &self.text
    }

    /// The bytes.
    pub fn as_bytes(&self) -> &[u8]
        ensures value { result.now ≡ self.now }
        ensures text { IsText self.now }
    {
        self.text.as_bytes()
    }

    /// How many bytes there are.
    pub fn len(&self) -> usize
        ensures { result ≡ length self.now }
    {
        self.text.len()
    }

    /// Whether elements are known to join the list when they are put behind the text as they are spelled.
    pub fn takes_elements(&self) -> bool
        ensures { result ≡ true → TakesElements self.now }
    {
        self.is_spelled
    }

    /// Puts a text behind it.
    pub fn append(&mut self, more: &Suffix) -> Result<(), AllocError>
        ensures ok { OnOk result (self.new ≡ self.old ++ more.now) }
        ensures err { OnErr result (self.new ≡ self.old) }
    {
        self.text.append(&more.text)?;
        self.is_spelled = self.is_spelled && more.is_elements;
        self.list = longer(self.list.take(), self.is_spelled, &more.text);
        Ok(())
    }

    /// Whether the text has 32 bytes or more, so that it is worth while to keep its list.
    pub fn is_long(&self) -> bool
        ensures { result ≡ nat_le 32 (length self.now) }
    {
        self.text.len() >= LEAST_KEPT
    }

    /// The list that the text splits into, where it is kept.
    pub fn list(&self) -> Option<Shared<Elements>>
        ensures { IfSome result (λ l. list_of self.now ≡ Some l) }
    {
        match &self.list {
            Some(list) => list.share(),
            None => None,
        }
    }

    /// Reads the list that the text splits into, and keeps it, where that isn't done yet, there is one, and memory serves.
    pub fn keep_list(&mut self, alloc: Global)
        ensures { self.new ≡ self.old }
    {
        if self.list.is_none() {
            self.list = KeptList::of(alloc, &self.text);
        }
    }

    /// An equal text, of which as much is known.
    pub fn try_clone(&self) -> Result<ListText, AllocError>
        ensures { IfOk result (λ t. t ≡ self.now) }
    {
        Ok(ListText {
            text: self.text.try_clone()?,
            is_spelled: self.is_spelled,
            list: kept_once_more(&self.list),
        })
    }
}

// The same list, kept once more.
fn kept_once_more(list: &Option<KeptList>) -> Option<KeptList>
    ensures { IfSome result (λ l. list.now ≡ Some l) }
{
    match list {
        Some(list) => list.keep(),
        None => None,
    }
}

// A list that is kept, with the elements of a text behind it, where they join it.
fn longer(list: Option<KeptList>, joins: bool, more: &Txt) -> Option<KeptList>
    ensures { IfSome result (λ l. GrowsSo list joins more.now l) }
{
    match list {
        Some(list) if joins => list.with_more(more),
        _ => None,
    }
}

impl Copied for ListText {
    fn copied(&self, _alloc: Global) -> Result<ListText, AllocError> {
        self.try_clone()
    }
}
