//! Reading the words of a text widget's commands.
ghost use Rattle.std.specs.Prelude.{◌≡◌, Ok};
ghost use Rattle.tks_text.specs.Fault.{Gives};
ghost use Rattle.tks_opt.specs.Options.{after};
ghost use Rattle.tks_lines.specs.Lines.{mark_named};
ghost use Rattle.tks_lines.specs.Commands.{get_does, index_does, insert_does, delete_does, mark_set_does, mark_unset_does, mark_names_does, or_no_mark, is_left, gravity_becomes, mark_gravity_does, mark_does, tag_put_does, tag_names_does, tag_ranges_does, tag_delete_does, tag_does, shared_does, lines_does, called};
ghost use Rattle.tks_lines.specs.View.{ReadsSo};

use crate::lines::TextWidget;
use crate::marks::mark_named;
use crate::subcommand::{Change, Question, Subcommand};
use tks_opt::{are_pairs, too_few_words, wrong_words};
use tks_text::{ErrorNumber, Failure, Txt};

// Whether a word is `left`, where it is `left` or `right`.
fn is_left(word: &Txt) -> Option<bool>
    ensures { result ≡ is_left word.now }
{
    let word = word.as_bytes();
    if word == b"left".as_slice() {
        Some(true)
    } else if word == b"right".as_slice() {
        Some(false)
    } else {
        None
    }
}

impl TextWidget {
    // `get index ?index?`.
    fn read_get<'w>(&self, path: &Txt, words: &'w [Txt]) -> Result<Subcommand<'w>, Failure>
        ensures { ReadsSo result (get_does path.now words.now self.now) self.now }
    {
        match words {
            [index] => {
                let first = self.place_in(index)?;
                Ok(Subcommand::Asks(Question::Characters(first, first + 1)))
            }
            [index, behind] => {
                let first = self.place_in(index)?;
                let last = self.place_in(behind)?;
                Ok(Subcommand::Asks(Question::Characters(first, last)))
            }
            _ => Err(wrong_words(path)),
        }
    }

    // `index index`.
    fn read_index<'w>(&self, path: &Txt, words: &'w [Txt]) -> Result<Subcommand<'w>, Failure>
        ensures { ReadsSo result (index_does path.now words.now self.now) self.now }
    {
        match words {
            [index] => {
                let place = self.place_in(index)?;
                Ok(Subcommand::Asks(Question::Index(place)))
            }
            _ => Err(wrong_words(path)),
        }
    }

    // `insert index text ?tags?`.
    #[tactic(auto, using(crate::proofs::Called::with_tags_read))]
    fn read_insert<'w>(&self, path: &Txt, words: &'w [Txt]) -> Result<Subcommand<'w>, Failure>
        ensures { ReadsSo result (insert_does path.now words.now self.now) self.now }
    {
        match words {
            [index, more] => {
                let place = self.place_in(index)?;
                Ok(Subcommand::Changes(Change::Insert(place, more)))
            }
            [index, more, tags] => {
                let place = self.place_in(index)?;
                Ok(Subcommand::Changes(Change::InsertWith(place, more, tags)))
            }
            _ => Err(wrong_words(path)),
        }
    }

    // `delete index ?index?`.
    fn read_delete<'w>(&self, path: &Txt, words: &'w [Txt]) -> Result<Subcommand<'w>, Failure>
        ensures { ReadsSo result (delete_does path.now words.now self.now) self.now }
    {
        match words {
            [index] => {
                let first = self.place_in(index)?;
                Ok(Subcommand::Changes(Change::Delete(first, first + 1)))
            }
            [index, behind] => {
                let first = self.place_in(index)?;
                let last = self.place_in(behind)?;
                Ok(Subcommand::Changes(Change::Delete(first, last)))
            }
            _ => Err(wrong_words(path)),
        }
    }

    // `mark set name index`.
    fn read_mark_set<'w>(&self, path: &Txt, words: &'w [Txt]) -> Result<Subcommand<'w>, Failure>
        ensures { ReadsSo result (mark_set_does path.now words.now self.now) self.now }
    {
        match words {
            [name, index] => {
                let place = self.place_in(index)?;
                Ok(Subcommand::Changes(Change::SetMark(name, place)))
            }
            _ => Err(wrong_words(path)),
        }
    }

    // `mark unset name ..`.
    fn read_mark_unset<'w>(&self, path: &Txt, words: &'w [Txt]) -> Result<Subcommand<'w>, Failure>
        ensures { ReadsSo result (mark_unset_does path.now words.now self.now) self.now }
    {
        match words {
            [] => Err(wrong_words(path)),
            names => Ok(Subcommand::Changes(Change::UnsetMarks(names))),
        }
    }

    // `mark names`.
    fn read_mark_names<'w>(&self, path: &Txt, words: &'w [Txt]) -> Result<Subcommand<'w>, Failure>
        ensures { ReadsSo result (mark_names_does path.now words.now self.now) self.now }
    {
        match words {
            [] => Ok(Subcommand::Asks(Question::Marks)),
            _ => Err(wrong_words(path)),
        }
    }

    // Whether the mark of a name has left gravity.
    fn gravity(&self, name: &Txt) -> Result<bool, Failure>
        ensures { Gives (λ b. b) result (after (or_no_mark name.now (mark_named name.now self.now.marks)) (λ m. Ok m.left)) }
    {
        match mark_named(name.as_bytes(), self.marks.as_slice()) {
            Some(mark) => Ok(mark.left),
            None => Err(Failure::about(ErrorNumber::NoSuchMark, name)),
        }
    }

    // `mark gravity name left` or `right`.
    fn read_turn<'w>(
        &self,
        path: &Txt,
        name: &'w Txt,
        word: &Txt,
    ) -> Result<Subcommand<'w>, Failure>
        ensures { ReadsSo result (gravity_becomes path.now name.now (is_left word.now) self.now) self.now }
    {
        let Some(left) = is_left(word) else {
            return Err(wrong_words(path));
        };
        let _before = self.gravity(name)?;
        Ok(Subcommand::Changes(Change::TurnMark(name, left)))
    }

    // `mark gravity name ?left or right?`.
    fn read_mark_gravity<'w>(&self, path: &Txt, words: &'w [Txt]) -> Result<Subcommand<'w>, Failure>
        ensures { ReadsSo result (mark_gravity_does path.now words.now self.now) self.now }
    {
        match words {
            [name] => {
                let left = self.gravity(name)?;
                Ok(Subcommand::Asks(Question::Gravity(left)))
            }
            [name, word] => self.read_turn(path, name, word),
            _ => Err(wrong_words(path)),
        }
    }

    // `mark` with the words behind it.
    fn read_mark<'w>(&self, path: &Txt, words: &'w [Txt]) -> Result<Subcommand<'w>, Failure>
        ensures { ReadsSo result (mark_does path.now words.now self.now) self.now }
    {
        let Some((name, rest)) = words.split_first() else {
            return Err(wrong_words(path));
        };
        let subcommand = name.as_bytes();
        if subcommand == b"set".as_slice() {
            self.read_mark_set(path, rest)
        } else if subcommand == b"unset".as_slice() {
            self.read_mark_unset(path, rest)
        } else if subcommand == b"names".as_slice() {
            self.read_mark_names(path, rest)
        } else if subcommand == b"gravity".as_slice() {
            self.read_mark_gravity(path, rest)
        } else {
            Err(wrong_words(path))
        }
    }

    // `tag add name index ?index?`, or `tag remove`.
    fn read_tag_put<'w>(
        &self,
        on: bool,
        path: &Txt,
        words: &'w [Txt],
    ) -> Result<Subcommand<'w>, Failure>
        ensures { ReadsSo result (tag_put_does on path.now words.now self.now) self.now }
    {
        match words {
            [name, index] => {
                let first = self.place_in(index)?;
                Ok(Subcommand::Changes(Change::SetTag(on, name, first, first + 1)))
            }
            [name, index, behind] => {
                let first = self.place_in(index)?;
                let last = self.place_in(behind)?;
                Ok(Subcommand::Changes(Change::SetTag(on, name, first, last)))
            }
            _ => Err(wrong_words(path)),
        }
    }

    // `tag names ?index?`.
    fn read_tag_names<'w>(&self, path: &Txt, words: &'w [Txt]) -> Result<Subcommand<'w>, Failure>
        ensures { ReadsSo result (tag_names_does path.now words.now self.now) self.now }
    {
        match words {
            [] => Ok(Subcommand::Asks(Question::Tags)),
            [index] => {
                let place = self.place_in(index)?;
                Ok(Subcommand::Asks(Question::TagsOn(place)))
            }
            _ => Err(wrong_words(path)),
        }
    }

    // `tag ranges name`.
    fn read_tag_ranges<'w>(&self, path: &Txt, words: &'w [Txt]) -> Result<Subcommand<'w>, Failure>
        ensures { ReadsSo result (tag_ranges_does path.now words.now self.now) self.now }
    {
        match words {
            [name] => Ok(Subcommand::Asks(Question::Ranges(name))),
            _ => Err(wrong_words(path)),
        }
    }

    // `tag delete name ..`.
    fn read_tag_delete<'w>(&self, path: &Txt, words: &'w [Txt]) -> Result<Subcommand<'w>, Failure>
        ensures { ReadsSo result (tag_delete_does path.now words.now self.now) self.now }
    {
        match words {
            [] => Err(wrong_words(path)),
            names => Ok(Subcommand::Changes(Change::DeleteTags(names))),
        }
    }

    // `tag` with the words behind it.
    fn read_tag<'w>(&self, path: &Txt, words: &'w [Txt]) -> Result<Subcommand<'w>, Failure>
        ensures { ReadsSo result (tag_does path.now words.now self.now) self.now }
    {
        let Some((name, rest)) = words.split_first() else {
            return Err(wrong_words(path));
        };
        let subcommand = name.as_bytes();
        if subcommand == b"add".as_slice() {
            self.read_tag_put(true, path, rest)
        } else if subcommand == b"remove".as_slice() {
            self.read_tag_put(false, path, rest)
        } else if subcommand == b"names".as_slice() {
            self.read_tag_names(path, rest)
        } else if subcommand == b"ranges".as_slice() {
            self.read_tag_ranges(path, rest)
        } else if subcommand == b"delete".as_slice() {
            self.read_tag_delete(path, rest)
        } else {
            Err(wrong_words(path))
        }
    }

    // `configure option value ..` or `cget option`, which all widgets have.
    #[tactic(auto, using(crate::proofs::Called::value_told, crate::proofs::Called::all_configured))]
    fn read_shared<'w>(
        &self,
        path: &Txt,
        name: &Txt,
        words: &'w [Txt],
    ) -> Result<Subcommand<'w>, Failure>
        ensures { ReadsSo result (shared_does path.now name.now words.now self.now) self.now }
    {
        let name = name.as_bytes();
        if name == b"configure".as_slice() {
            if !are_pairs(words) {
                return Err(wrong_words(path));
            }
            Ok(Subcommand::Changes(Change::Configure(words)))
        } else if name == b"cget".as_slice() {
            match words {
                [option] => Ok(Subcommand::Asks(Question::Value(option))),
                _ => Err(wrong_words(path)),
            }
        } else {
            Err(wrong_words(path))
        }
    }

    // A subcommand, by its name and the words behind it.
    fn read_named<'w>(
        &self,
        path: &Txt,
        name: &Txt,
        words: &'w [Txt],
    ) -> Result<Subcommand<'w>, Failure>
        ensures { ReadsSo result (lines_does path.now name.now words.now self.now) self.now }
    {
        let subcommand = name.as_bytes();
        if subcommand == b"get".as_slice() {
            self.read_get(path, words)
        } else if subcommand == b"insert".as_slice() {
            self.read_insert(path, words)
        } else if subcommand == b"delete".as_slice() {
            self.read_delete(path, words)
        } else if subcommand == b"index".as_slice() {
            self.read_index(path, words)
        } else if subcommand == b"mark".as_slice() {
            self.read_mark(path, words)
        } else if subcommand == b"tag".as_slice() {
            self.read_tag(path, words)
        } else {
            self.read_shared(path, name, words)
        }
    }

    /// The subcommand that the words of a whole command say, the text widget's path first, with its indices and its mark read
    /// as the widget stands. Another subcommand, and a wrong number of words, are errors about the path; a word that is no
    /// index or names no mark is one about the word.
    pub fn read<'w>(&self, words: &'w [Txt]) -> Result<Subcommand<'w>, Failure>
        ensures { ReadsSo result (called self.now words.now) self.now }
    {
        let [path, name, rest @ ..] = words else {
            return Err(too_few_words(words));
        };
        self.read_named(path, name, rest)
    }
}
