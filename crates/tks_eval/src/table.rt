//! What a run keeps at hand: scripts and expressions that were parsed, lists that were read, and room for words.
ghost use Rattle.std.specs.Prelude.{◌≡◌, []};

use crate::made::MadeWords;
use std::alloc::Global;
use std::marker::Model;
use tks_parse_table::ParseTable;
use tks_tcl::ListTable;

/// What was read so far: scripts and expressions that were parsed, in earlier runs too, and the lists of this run; and the
/// room of words that commands are done with, so that further ones take no memory. Contracts see nothing of it.
#[derive(Drop)]
pub struct Tables {
    parsed: ParseTable,
    lists: ListTable,
    spare: Vec<MadeWords>,
}

impl Model for Tables {
    ghost Value = { Unit {0} };

    ghost view = { λ _. tt };
}

impl Tables {
    /// What was parsed before, and no lists. Tables are seen as nothing at all, so there is nothing that a clause could tell of
    /// them.
    pub fn of(alloc: Global, parsed: ParseTable) -> Tables {
        Tables {
            parsed,
            lists: ListTable::new(alloc),
            spare: Vec::new(alloc),
        }
    }

    /// What was parsed so far.
    pub fn into_parsed(self) -> ParseTable {
        let Tables { parsed, .. } = self;
        parsed
    }

    /// The scripts and expressions that were parsed.
    pub fn parsed(&mut self) -> &mut ParseTable {
        &mut self.parsed
    }

    /// The lists that were read.
    pub fn lists(&mut self) -> &mut ListTable {
        &mut self.lists
    }
    /// No words, with the room of others where some is kept.
    pub fn no_words(&mut self, alloc: Global) -> MadeWords
        ensures { result ≡ [] }
    {
        match self.spare.pop() {
            Some(words) => {
                let mut words = words;
                words.clear();
                words
            }
            None => MadeWords::new(alloc),
        }
    }

    /// Lets go of words, and keeps their room where memory serves. Tables are seen as nothing at all, so there is nothing that
    /// a clause could tell.
    pub fn keep_room(&mut self, words: MadeWords) {
        let mut words = words;
        words.clear();
        let _ = self.spare.push(words);
    }
}
