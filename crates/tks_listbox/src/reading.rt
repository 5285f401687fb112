//! Reading the words of a listbox's commands.
ghost use Rattle.std.specs.Prelude.{◌≡◌};
ghost use Rattle.tks_text.specs.Fault.{Gives};
ghost use Rattle.tks_text.specs.Integer.{integer_of};
ghost use Rattle.tks_listbox.specs.Commands.{row_read, insert_does, delete_does, get_does, size_does, index_does, activate_does, nearest_does, select_does, includes_does, selection_does, curselection_does, shared_does, other_does, listbox_does, called};
ghost use Rattle.tks_listbox.specs.View.{ReadsSo};

use crate::listbox::ListWidget;
use crate::subcommand::{Change, Question, Subcommand};
use tks_opt::{are_pairs, too_few_words, wrong_words};
use tks_text::{ErrorNumber, Failure, ScriptFault, Txt, integer_of};

// A number of a row.
fn row_read(word: &Txt) -> Result<i64, Failure>
    ensures { Gives (λ z. z) result (row_read word.now (integer_of word.now)) }
{
    match integer_of(word) {
        Ok(Some(number)) => Ok(number),
        Ok(None) => Err(Failure::about(ErrorNumber::NotAnInteger, word)),
        Err(_) => Err(Failure::Script(ScriptFault {
            number: ErrorNumber::OutOfRange,
            subject: None,
        })),
    }
}

impl ListWidget {
    // `insert index text ..`.
    fn read_insert<'w>(&self, path: &Txt, words: &'w [Txt]) -> Result<Subcommand<'w>, Failure>
        ensures { ReadsSo result (insert_does path.now words.now self.now) self.now }
    {
        match words {
            [index, texts @ ..] if !texts.is_empty() => {
                let place = self.behind_index(index)?;
                Ok(Subcommand::Changes(Change::Insert(place, texts)))
            }
            _ => Err(wrong_words(path)),
        }
    }

    // `delete index ?index?`.
    fn read_delete<'w>(&self, path: &Txt, words: &'w [Txt]) -> Result<Subcommand<'w>, Failure>
        ensures { ReadsSo result (delete_does path.now words.now self.now) self.now }
    {
        match words {
            [index] => {
                let place = self.item_index(index)?;
                Ok(Subcommand::Changes(Change::Delete(place, place)))
            }
            [index, last] => {
                let first = self.item_index(index)?;
                let last = self.item_index(last)?;
                Ok(Subcommand::Changes(Change::Delete(first, last)))
            }
            _ => Err(wrong_words(path)),
        }
    }

    // `get index ?index?`.
    fn read_get<'w>(&self, path: &Txt, words: &'w [Txt]) -> Result<Subcommand<'w>, Failure>
        ensures { ReadsSo result (get_does path.now words.now self.now) self.now }
    {
        match words {
            [index] => {
                let place = self.item_index(index)?;
                Ok(Subcommand::Asks(Question::Item(place)))
            }
            [index, last] => {
                let first = self.item_index(index)?;
                let last = self.item_index(last)?;
                Ok(Subcommand::Asks(Question::Items(first, last)))
            }
            _ => Err(wrong_words(path)),
        }
    }

    // `size`.
    fn read_size<'w>(&self, path: &Txt, words: &'w [Txt]) -> Result<Subcommand<'w>, Failure>
        ensures { ReadsSo result (size_does path.now words.now self.now) self.now }
    {
        match words {
            [] => Ok(Subcommand::Asks(Question::Size)),
            _ => Err(wrong_words(path)),
        }
    }

    // `index index`.
    fn read_index<'w>(&self, path: &Txt, words: &'w [Txt]) -> Result<Subcommand<'w>, Failure>
        ensures { ReadsSo result (index_does path.now words.now self.now) self.now }
    {
        match words {
            [index] => {
                let number = self.behind_index(index)?;
                Ok(Subcommand::Asks(Question::Index(number)))
            }
            _ => Err(wrong_words(path)),
        }
    }

    // `activate index`.
    fn read_activate<'w>(&self, path: &Txt, words: &'w [Txt]) -> Result<Subcommand<'w>, Failure>
        ensures { ReadsSo result (activate_does path.now words.now self.now) self.now }
    {
        match words {
            [index] => {
                let place = self.item_index(index)?;
                Ok(Subcommand::Changes(Change::Activate(place)))
            }
            _ => Err(wrong_words(path)),
        }
    }

    // `nearest row`.
    fn read_nearest<'w>(&self, path: &Txt, words: &'w [Txt]) -> Result<Subcommand<'w>, Failure>
        ensures { ReadsSo result (nearest_does path.now words.now self.now) self.now }
    {
        match words {
            [row] => {
                let row = row_read(row)?;
                Ok(Subcommand::Asks(Question::Nearest(row)))
            }
            _ => Err(wrong_words(path)),
        }
    }

    // `selection set index ?index?`, `selection clear index ?index?`.
    fn read_select<'w>(
        &self,
        on: bool,
        path: &Txt,
        words: &'w [Txt],
    ) -> Result<Subcommand<'w>, Failure>
        ensures { ReadsSo result (select_does on path.now words.now self.now) self.now }
    {
        match words {
            [index] => {
                let place = self.item_index(index)?;
                Ok(Subcommand::Changes(Change::Select(on, place, place)))
            }
            [index, last] => {
                let first = self.item_index(index)?;
                let last = self.item_index(last)?;
                Ok(Subcommand::Changes(Change::Select(on, first, last)))
            }
            _ => Err(wrong_words(path)),
        }
    }

    // `selection includes index`.
    fn read_includes<'w>(&self, path: &Txt, words: &'w [Txt]) -> Result<Subcommand<'w>, Failure>
        ensures { ReadsSo result (includes_does path.now words.now self.now) self.now }
    {
        match words {
            [index] => {
                let place = self.item_index(index)?;
                Ok(Subcommand::Asks(Question::Includes(place)))
            }
            _ => Err(wrong_words(path)),
        }
    }

    // `selection`, with the words behind it.
    fn read_selection<'w>(&self, path: &Txt, words: &'w [Txt]) -> Result<Subcommand<'w>, Failure>
        ensures { ReadsSo result (selection_does path.now words.now self.now) self.now }
    {
        let Some((name, rest)) = words.split_first() else {
            return Err(wrong_words(path));
        };
        let name = name.as_bytes();
        if name == b"set".as_slice() {
            self.read_select(true, path, rest)
        } else if name == b"clear".as_slice() {
            self.read_select(false, path, rest)
        } else if name == b"includes".as_slice() {
            self.read_includes(path, rest)
        } else {
            Err(wrong_words(path))
        }
    }

    // `curselection`.
    fn read_curselection<'w>(&self, path: &Txt, words: &'w [Txt]) -> Result<Subcommand<'w>, Failure>
        ensures { ReadsSo result (curselection_does path.now words.now self.now) self.now }
    {
        match words {
            [] => Ok(Subcommand::Asks(Question::Selected)),
            _ => Err(wrong_words(path)),
        }
    }

    // `configure option value ..` or `cget option`, which all widgets have.
    #[tactic(auto, using(crate::proofs::Called::value_told, crate::proofs::Called::all_configured))]
    fn read_shared<'w>(
        &self,
        path: &Txt,
        name: &Txt,
        words: &'w [Txt],
    ) -> Result<Subcommand<'w>, Failure>
        ensures { ReadsSo result (shared_does path.now name.now words.now self.now) self.now }
    {
        let name = name.as_bytes();
        if name == b"configure".as_slice() {
            if !are_pairs(words) {
                return Err(wrong_words(path));
            }
            Ok(Subcommand::Changes(Change::Configure(words)))
        } else if name == b"cget".as_slice() {
            match words {
                [option] => Ok(Subcommand::Asks(Question::Value(option))),
                _ => Err(wrong_words(path)),
            }
        } else {
            Err(wrong_words(path))
        }
    }

    // `nearest`, one on the selection, or one that all widgets have.
    fn read_other<'w>(
        &self,
        path: &Txt,
        name: &Txt,
        words: &'w [Txt],
    ) -> Result<Subcommand<'w>, Failure>
        ensures { ReadsSo result (other_does path.now name.now words.now self.now) self.now }
    {
        let subcommand = name.as_bytes();
        if subcommand == b"nearest".as_slice() {
            self.read_nearest(path, words)
        } else if subcommand == b"selection".as_slice() {
            self.read_selection(path, words)
        } else if subcommand == b"curselection".as_slice() {
            self.read_curselection(path, words)
        } else {
            self.read_shared(path, name, words)
        }
    }

    // A subcommand, by its name and the words behind it.
    fn read_named<'w>(
        &self,
        path: &Txt,
        name: &Txt,
        words: &'w [Txt],
    ) -> Result<Subcommand<'w>, Failure>
        ensures { ReadsSo result (listbox_does path.now name.now words.now self.now) self.now }
    {
        let subcommand = name.as_bytes();
        if subcommand == b"insert".as_slice() {
            self.read_insert(path, words)
        } else if subcommand == b"delete".as_slice() {
            self.read_delete(path, words)
        } else if subcommand == b"get".as_slice() {
            self.read_get(path, words)
        } else if subcommand == b"size".as_slice() {
            self.read_size(path, words)
        } else if subcommand == b"index".as_slice() {
            self.read_index(path, words)
        } else if subcommand == b"activate".as_slice() {
            self.read_activate(path, words)
        } else {
            self.read_other(path, name, words)
        }
    }

    /// The subcommand that the words of a whole command say, the listbox's path first, with its indices read as the listbox
    /// stands. Another subcommand, and a wrong number of words, are errors about the path; a word that is no index is one
    /// about the word.
    pub fn read<'w>(&self, words: &'w [Txt]) -> Result<Subcommand<'w>, Failure>
        ensures { ReadsSo result (called self.now words.now) self.now }
    {
        let [path, name, rest @ ..] = words else {
            return Err(too_few_words(words));
        };
        self.read_named(path, name, rest)
    }
}
