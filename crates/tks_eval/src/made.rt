//! The words of a command, as they are made.
ghost use Rattle.std.specs.Prelude.{◌≡◌, ◌++◌, [], ◌∷◌, OnOk};

use std::alloc::{AllocError, Global};
use std::marker::Model;
use tks_text::Txt;

/// The words of a command that are made. Contracts see the list.
#[derive(Drop)]
pub struct MadeWords {
    texts: Vec<Txt>,
}

impl Model for MadeWords {
    ghost use Rattle.std.specs.Prelude.{List, ℕ};

    ghost Value = { List (List ℕ) };

    ghost view = { λ w. w.texts.items };
}

impl MadeWords {
    /// None.
    pub fn new(alloc: Global) -> MadeWords
        ensures { result ≡ [] }
    {
        MadeWords {
            texts: Vec::new(alloc),
        }
    }

    /// Adds one at the end.
    pub fn push(&mut self, word: Txt) -> Result<(), AllocError>
        ensures { OnOk result (self.new ≡ self.old ++ word ∷ []) }
    {
        self.texts.push(word)?;
        Ok(())
    }

    /// The words, in order.
    pub fn as_slice(&self) -> &[Txt]
        ensures { result.now ≡ self.now }
    {
        self.texts.as_slice()
    }

    /// Lets go of all of them. Their room stays.
    pub fn clear(&mut self)
        ensures { self.new ≡ [] }
    {
        self.texts.truncate(0);
    }
}
