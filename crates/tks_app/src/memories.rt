//! What commands keep from one call to the next.
ghost use Rattle.std.specs.Prelude.{◌≡◌, IfOk, OnOk, OnErr, option_copied};
ghost use Rattle.std.specs.FinMap as map;
ghost use Rattle.tks_app.specs.Memories.{first_memories, remembering};

use std::alloc::{AllocError, Global};
use std::marker::Model;
use tks_share::Share;
use tks_text::Txt;
use tks_vars::Table;

/// The memories of an application's commands: under each name the text that its command keeps. Copies share what they have in
/// common, so to make one costs next to nothing.
pub struct Memories {
    texts: Table<Txt>,
}

// Written out, so that to let go of it is one step for whoever owns it.
impl Drop for Memories {
    fn drop(self) {
        let Memories { texts: _ } = self;
    }
}

impl Model for Memories {
    ghost use Rattle.std.specs.Prelude.{List, ℕ};
    ghost use Rattle.tks_vars.specs.Table.{Map};
    ghost use Rattle.tks_app.specs.Memories.{memories_code};

    ghost Value = { Map (List ℕ) };

    ghost coded = { memories_code };

    ghost view = { λ m. m.texts };
}

impl Memories {
    /// None.
    pub fn none(alloc: Global) -> Memories
        ensures { result ≡ map.empty }
    {
        Memories {
            texts: Table::new(alloc),
        }
    }

    /// One for each name, empty.
    pub fn first(alloc: Global, names: &[Txt]) -> Result<Memories, AllocError>
        ensures { IfOk result (λ m. m ≡ first_memories names.now) }
    {
        let mut texts = Table::new(alloc);
        let mut index = names.len();
        while 0 < index {
            index -= 1;
            texts.insert(names[index].as_bytes(), Txt::new(alloc))?;
        }
        Ok(Memories { texts })
    }

    /// Those of these names and texts.
    pub fn of(texts: Table<Txt>) -> Memories
        ensures { result ≡ texts }
    {
        Memories { texts }
    }

    /// The text under each name.
    pub fn texts(&self) -> &Table<Txt>
        ensures { result.now ≡ self.now }
    {
        &self.texts
    }

    /// What is kept under a name.
    pub fn get(&self, name: &Txt) -> Option<&Txt>
        ensures { option_copied result ≡ map.get self.now name.now }
    {
        self.texts.get(name.as_bytes())
    }

    /// Puts another text under a name, where one is kept.
    pub fn set(&mut self, name: &Txt, text: Txt) -> Result<(), AllocError>
        ensures ok { OnOk result (self.new ≡ remembering name.now text self.old) }
        ensures err { OnErr result (self.new ≡ self.old) }
    {
        if self.texts.contains(name.as_bytes()) {
            self.texts.insert(name.as_bytes(), text)?;
        }
        Ok(())
    }
}

impl Share for Memories {
    fn share(&self) -> Result<Memories, AllocError> {
        Ok(Memories {
            texts: self.texts.share()?,
        })
    }
}
