//! What a text widget tells, and what changes it.
ghost use Rattle.std.specs.Prelude.{◌≡◌, map, false, IfOk, OnErr};
ghost use Rattle.tks_text.specs.Fault.{Gives};
ghost use Rattle.tks_list.specs.Quoting.{joined};
ghost use Rattle.tks_list.specs.Reading.{list_of};
ghost use Rattle.tks_opt.specs.Options.{after};
ghost use Rattle.tks_lines.specs.Commands.{answers, spelled, names_on, edges, flags_of, or_no_list, called};
ghost use Rattle.tks_lines.specs.View.{told, changed};

use crate::answers::{
    all_spelled, between, edges, gravity_name, mark_names, spelled, tag_names, tags_on,
};
use crate::lines::TextWidget;
use crate::subcommand::{Change, Question, Subcommand};
use std::alloc::AllocError;
use tks_list::{ListFault, join, split};
use tks_opt::Said;
use tks_text::{ErrorNumber, Failure, ScriptFault, Seq, Txt};

impl TextWidget {
    // The list of the names of all marks.
    fn told_marks(&self) -> Result<Txt, AllocError>
        ensures { IfOk result (λ t. t ≡ joined (map (λ m. m.name) self.now.marks)) }
    {
        let names = mark_names(self.alloc, self.marks.as_slice())?;
        let text = join(self.alloc, names.as_slice())?;
        Ok(text)
    }

    // The list of the names of all tags.
    fn told_tags(&self) -> Result<Txt, AllocError>
        ensures { IfOk result (λ t. t ≡ joined (map (λ g. g.name) self.now.tags)) }
    {
        let names = tag_names(self.alloc, self.tags.as_slice())?;
        let text = join(self.alloc, names.as_slice())?;
        Ok(text)
    }

    // The list of the names of those on the character behind a place.
    fn told_tags_on(&self, place: usize) -> Result<Txt, AllocError>
        ensures { IfOk result (λ t. t ≡ joined (names_on place self.now.tags)) }
    {
        let names = tags_on(self.alloc, self.tags.as_slice(), place)?;
        let text = join(self.alloc, names.as_slice())?;
        Ok(text)
    }

    // The list of the indices at which the tag of a name begins and ends, in turn.
    fn told_ranges(&self, name: &Txt) -> Result<Txt, AllocError>
        ensures { IfOk result (λ t. t ≡ joined (map (spelled self.now.text) (edges false 0 (flags_of name.now self.now.tags)))) }
    {
        let places = edges(self.alloc, name, self.tags.as_slice())?;
        let all = all_spelled(self.alloc, &self.text, places.as_slice())?;
        let text = join(self.alloc, all.as_slice())?;
        Ok(text)
    }

    // The text that answers a question.
    fn told(&self, question: Question<'_>) -> Result<Txt, Failure>
        ensures { Gives (λ t. t) result (told question.entry self.now) }
    {
        match question {
            Question::Characters(first, last) => {
                Ok(between(self.alloc, &self.text, first, last)?)
            }
            Question::Index(place) => Ok(spelled(self.alloc, &self.text, place)?),
            Question::Marks => Ok(self.told_marks()?),
            Question::Gravity(left) => Ok(gravity_name(self.alloc, left)?),
            Question::Tags => Ok(self.told_tags()?),
            Question::TagsOn(place) => Ok(self.told_tags_on(place)?),
            Question::Ranges(name) => Ok(self.told_ranges(name)?),
            Question::Value(name) => Ok(self.options.cget(name)?.try_clone()?),
        }
    }

    // The list that a word splits into.
    fn list_in(&self, word: &Txt) -> Result<Seq<Txt>, Failure>
        ensures { Gives (λ l. l) result (or_no_list (list_of word.now)) }
    {
        match split(self.alloc, word) {
            Ok(list) => Ok(list),
            Err(ListFault::NotAList) => Err(Failure::Script(ScriptFault {
                number: ErrorNumber::NotAList,
                subject: None,
            })),
            Err(ListFault::NoMemory) => Err(Failure::NoMemory),
        }
    }

    /// Makes a change. A disabled text widget passes over `insert` and `delete`.
    pub fn change(&mut self, change: Change<'_>) -> Result<(), Failure>
        ensures value { Gives (λ _. self.new) result (changed change.entry self.old) }
        ensures err { OnErr result (self.new ≡ self.old) }
        ensures class { self.new.options.class ≡ self.old.options.class }
    {
        match change {
            Change::Insert(place, more) => {
                self.insert(place, more)?;
                Ok(())
            }
            Change::InsertWith(place, more, tags) => {
                let names = self.list_in(tags)?;
                self.insert_with(place, more, names.as_slice())?;
                Ok(())
            }
            Change::Delete(first, last) => {
                self.delete(first, last)?;
                Ok(())
            }
            Change::SetMark(name, place) => {
                self.set_mark(name, place)?;
                Ok(())
            }
            Change::UnsetMarks(names) => {
                self.unset_marks(names)?;
                Ok(())
            }
            Change::TurnMark(name, left) => {
                self.turn_mark(name, left);
                Ok(())
            }
            Change::SetTag(true, name, first, last) => {
                self.put_tag_on(name, first, last)?;
                Ok(())
            }
            Change::SetTag(false, name, first, last) => {
                self.take_tag_off(name, first, last)?;
                Ok(())
            }
            Change::DeleteTags(names) => {
                self.delete_tags(names)?;
                Ok(())
            }
            Change::Configure(pairs) => {
                self.configure(pairs)?;
                Ok(())
            }
        }
    }

    /// The answer to a question.
    pub fn answer(&self, question: Question<'_>) -> Result<Said, Failure>
        ensures { Gives (λ said. (said, self.now)) result (after (told question.entry self.now) (λ text. answers text self.now)) }
    {
        let text = self.told(question)?;
        Ok(Said::Text(text))
    }

    /// What the words of a whole command come to, the text widget's path first: `get`, `insert`, `delete`, `index`,
    /// `mark`, `tag`, `configure` or `cget`. Another subcommand, and a wrong number of words, are errors about the path; a
    /// word that is no index is one about the word. A disabled text widget passes over `insert` and `delete`.
    pub fn call(&mut self, words: &[Txt]) -> Result<Said, Failure>
        ensures value { Gives (λ said. (said, self.new)) result (called self.old words.now) }
        ensures err { OnErr result (self.new ≡ self.old) }
        ensures class { self.new.options.class ≡ self.old.options.class }
    {
        match self.read(words) {
            Ok(Subcommand::Asks(question)) => {
                let said = self.answer(question)?;
                Ok(said)
            }
            Ok(Subcommand::Changes(change)) => {
                self.change(change)?;
                Ok(Said::Text(Txt::new(self.alloc)))
            }
            Err(failure) => Err(failure),
        }
    }
}
