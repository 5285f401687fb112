//! The texts of the last errors of scripts that no script was there to see.
ghost use Rattle.std.specs.Prelude.{◌≡◌, ◌≤◌, [], Some, None, if◌then◌else◌, nat_le, length, IfOk, OnOk, OnErr};
ghost use Rattle.tks_state.specs.Events.{max_faults, with_fault};

use std::alloc::{AllocError, Global};
use std::marker::Model;
use tks_share::{Share, SharedList};
use tks_text::Txt;

/// How many faults are kept.
const MAX_FAULTS: usize = 32;

/// The texts of the last errors, at most 32, the oldest first.
#[derive(Drop)]
pub struct Faults {
    texts: SharedList<Txt>,
}

impl Model for Faults {
    ghost use Rattle.std.specs.Prelude.{◌≤◌, List, ℕ, length};
    ghost use Rattle.std.specs.Coded.{coded_list, coded_ℕ};
    ghost use Rattle.tks_state.specs.Events.{max_faults};

    ghost Value = { List (List ℕ) };

    ghost coded = { coded_list (coded_list coded_ℕ) };

    ghost view = { λ f. f.texts };

    ghost invariant = { λ f. length f.texts ≤ max_faults };
}

impl Faults {
    /// None.
    pub fn none(alloc: Global) -> Faults
        ensures { result ≡ [] }
    {
        Faults {
            texts: SharedList::new(alloc),
        }
    }

    /// These, of which there may be 32.
    pub fn restore(alloc: Global, texts: Vec<Txt>) -> Result<Option<Faults>, AllocError>
        ensures { IfOk result (λ made. made ≡ (if nat_le (length texts.items) max_faults then Some texts.items else None)) }
    {
        if texts.len() > MAX_FAULTS {
            return Ok(None);
        }
        Ok(Some(Faults {
            texts: SharedList::of(alloc, texts)?,
        }))
    }

    /// The texts.
    pub fn texts(&self) -> &SharedList<Txt>
        ensures value { result.now ≡ self.now }
        ensures within { length self.now ≤ max_faults }
    {
        &self.texts
    }

    /// Adds an error's text; where there were 32, the oldest goes.
    pub fn add(&mut self, text: Txt) -> Result<(), AllocError>
        ensures ok { OnOk result (self.new ≡ with_fault text self.old) }
        ensures err { OnErr result (self.new ≡ self.old) }
    {
        let mut texts = self.texts.share()?;
        texts.push(text)?;
        if texts.len() > MAX_FAULTS {
            texts.remove(0)?;
        }
        self.texts = texts;
        Ok(())
    }
}

impl Share for Faults {
    fn share(&self) -> Result<Faults, AllocError> {
        Ok(Faults {
            texts: self.texts.share()?,
        })
    }
}
