//! An item of a listbox.
ghost use Rattle.std.specs.Prelude.{◌≡◌, IfOk};
ghost use Rattle.tks_listbox.specs.Listbox.{new_item, turned};

use std::alloc::AllocError;
use tks_text::Txt;

/// An item of a listbox.
#[derive(Debug, Drop)]
pub struct Item {
    pub text: Txt,
    pub is_selected: bool,
}

impl Item {
    /// An item that isn't selected.
    pub fn new(text: &Txt) -> Result<Item, AllocError>
        ensures { IfOk result (λ item. item ≡ new_item text.now) }
    {
        Ok(Item {
            text: text.try_clone()?,
            is_selected: false,
        })
    }

    /// The same item, selected or not.
    pub fn turned(&self, on: bool) -> Result<Item, AllocError>
        ensures { IfOk result (λ item. item ≡ turned on self.now) }
    {
        Ok(Item {
            text: self.text.try_clone()?,
            is_selected: on,
        })
    }
}
