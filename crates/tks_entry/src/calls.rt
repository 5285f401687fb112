//! The subcommands of an entry.
ghost use Rattle.std.specs.Prelude.{◌≡◌, OnErr, []};
ghost use Rattle.tks_opt.specs.declared.said.Said.TheVariants as said;
ghost use Rattle.tks_text.specs.Fault.{Gives};
ghost use Rattle.tks_entry.specs.Commands.{get_does, insert_does, delete_does, icursor_does, index_does, shared_does, entry_does, called};

use crate::entry::EntryWidget;
use tks_opt::{Said, too_few_words, wrong_words};
use tks_text::{Failure, Txt, decimal_of};

impl EntryWidget {
    // The answer of what changes something.
    fn nothing(&self) -> Said
        ensures { result ≡ said.Text [] }
    {
        Said::Text(Txt::new(self.alloc))
    }

    // `get`.
    fn get_words(&self, path: &Txt, words: &[Txt]) -> Result<Said, Failure>
        ensures { Gives (λ said. (said, self.now)) result (get_does path.now words.now self.now) }
    {
        match words {
            [] => Ok(Said::Text(self.text.try_clone()?)),
            _ => Err(wrong_words(path)),
        }
    }

    // `insert index text`.
    fn insert_words(&mut self, path: &Txt, words: &[Txt]) -> Result<Said, Failure>
        ensures value { Gives (λ said. (said, self.new)) result (insert_does path.now words.now self.old) }
        ensures err { OnErr result (self.new ≡ self.old) }
        ensures class { self.new.options.class ≡ self.old.options.class }
    {
        match words {
            [index, more] => {
                let place = self.place_in(index)?;
                self.insert(place, more)?;
                Ok(self.nothing())
            }
            _ => Err(wrong_words(path)),
        }
    }

    // `delete index ?index?`.
    fn delete_words(&mut self, path: &Txt, words: &[Txt]) -> Result<Said, Failure>
        ensures value { Gives (λ said. (said, self.new)) result (delete_does path.now words.now self.old) }
        ensures err { OnErr result (self.new ≡ self.old) }
        ensures class { self.new.options.class ≡ self.old.options.class }
    {
        match words {
            [index] => {
                let first = self.place_in(index)?;
                self.delete(first, first + 1)?;
                Ok(self.nothing())
            }
            [index, behind] => {
                let first = self.place_in(index)?;
                let last = self.place_in(behind)?;
                self.delete(first, last)?;
                Ok(self.nothing())
            }
            _ => Err(wrong_words(path)),
        }
    }

    // `icursor index`.
    fn icursor_words(&mut self, path: &Txt, words: &[Txt]) -> Result<Said, Failure>
        ensures value { Gives (λ said. (said, self.new)) result (icursor_does path.now words.now self.old) }
        ensures err { OnErr result (self.new ≡ self.old) }
        ensures class { self.new.options.class ≡ self.old.options.class }
    {
        match words {
            [index] => {
                let place = self.place_in(index)?;
                self.set_cursor(place);
                Ok(self.nothing())
            }
            _ => Err(wrong_words(path)),
        }
    }

    // `index index`.
    fn index_words(&self, path: &Txt, words: &[Txt]) -> Result<Said, Failure>
        ensures { Gives (λ said. (said, self.now)) result (index_does path.now words.now self.now) }
    {
        match words {
            [index] => {
                let place = self.place_in(index)?;
                Ok(Said::Text(decimal_of(self.alloc, place as i64)?))
            }
            _ => Err(wrong_words(path)),
        }
    }

    // A subcommand with the words behind it.
    fn subcommand(&mut self, path: &Txt, name: &Txt, words: &[Txt]) -> Result<Said, Failure>
        ensures value { Gives (λ said. (said, self.new)) result (entry_does path.now name.now words.now self.old) }
        ensures err { OnErr result (self.new ≡ self.old) }
        ensures class { self.new.options.class ≡ self.old.options.class }
    {
        let subcommand = name.as_bytes();
        let said = if subcommand == b"get".as_slice() {
            self.get_words(path, words)?
        } else if subcommand == b"insert".as_slice() {
            self.insert_words(path, words)?
        } else if subcommand == b"delete".as_slice() {
            self.delete_words(path, words)?
        } else if subcommand == b"icursor".as_slice() {
            self.icursor_words(path, words)?
        } else if subcommand == b"index".as_slice() {
            self.index_words(path, words)?
        } else {
            self.options.subcommand(path, name, words)?
        };
        Ok(said)
    }

    /// What the words of a whole command come to, the entry's path first: `get`, `insert`, `delete`, `icursor`, `index`,
    /// `configure` or `cget`. Another subcommand, and a wrong number of words, are errors about the path; a word that is
    /// no index is one about the word. An entry that isn't in the state `normal` passes over `insert` and `delete`.
    pub fn call(&mut self, words: &[Txt]) -> Result<Said, Failure>
        ensures value { Gives (λ said. (said, self.new)) result (called self.old words.now) }
        ensures err { OnErr result (self.new ≡ self.old) }
        ensures class { self.new.options.class ≡ self.old.options.class }
    {
        let [path, name, rest @ ..] = words else {
            return Err(too_few_words(words));
        };
        let said = self.subcommand(path, name, rest)?;
        Ok(said)
    }
}
