//! What a listbox tells, and what changes it.
ghost use Rattle.std.specs.Prelude.{◌≡◌, ◌<◌, ◌^◌, map, option_map, IfOk, OnOk, OnErr};
ghost use Rattle.std.specs.Fmt.{decimal};
ghost use Rattle.tks_list.specs.Quoting.{joined};
ghost use Rattle.tks_listbox.specs.Shown.{text_of};
ghost use Rattle.tks_opt.specs.Options.{after};
ghost use Rattle.tks_text.specs.Fault.{Gives};
ghost use Rattle.tks_listbox.specs.Listbox.{item_at, selected_from};
ghost use Rattle.tks_listbox.specs.Commands.{deleted_between, texts_between, nearest_to, selected_between, is_selected, truth, answers, called};
ghost use Rattle.tks_listbox.specs.View.{told, changed};

use crate::item::Item;
use crate::items::{joined, selected_texts, texts_among};
use crate::listbox::{ListWidget, behind_of, front_of, rounded};
use crate::subcommand::{Change, Question, Subcommand};
use std::alloc::AllocError;
use tks_opt::Said;
use tks_share::SharedList;
use tks_text::{Failure, Txt, decimal_of};

// The item in a place, if there is one.
fn item_at(number: i64, items: &SharedList<Item>) -> Option<&Item>
    ensures { option_map (λ i. i.now) result ≡ item_at number items.now }
{
    if number < 0 {
        return None;
    }
    items.get(number as usize)
}

// `1` or `0`.
fn truth(on: bool) -> &'static [u8]
    ensures { result.now ≡ truth on }
{
    if on { b"1" } else { b"0" }
}

impl ListWidget {
    // The text of the item in a place, or nothing.
    fn text_at(&self, place: i64) -> Result<Txt, AllocError>
        ensures { IfOk result (λ t. t ≡ text_of (item_at place self.now.items)) }
    {
        match item_at(place, &self.items) {
            Some(item) => item.text.try_clone(),
            None => Ok(Txt::new(self.alloc)),
        }
    }

    // The list of the texts from one place to another.
    fn texts_between(&self, first: i64, last: i64) -> Result<Txt, AllocError>
        ensures { IfOk result (λ t. t ≡ joined (texts_between first last self.now.items)) }
    {
        let behind = behind_of(last, self.len());
        let texts = texts_among(self.alloc, &self.items, front_of(first), behind)?;
        let text = joined(self.alloc, &texts)?;
        Ok(text)
    }

    // The item in a row of those that are seen, or the nearest one.
    fn nearest_to(&self, row: i64) -> usize
        ensures value { result ≡ nearest_to row self.now }
        ensures bound { result < 2 ^ 63 }
    {
        let most = self.len().saturating_sub(1);
        if row < 0 {
            let back = row.unsigned_abs() as usize;
            self.top().saturating_sub(back).min(most)
        } else {
            self.top().saturating_add(row as usize).min(most)
        }
    }

    // Whether the item in a place is selected.
    fn includes(&self, place: i64) -> bool
        ensures { result ≡ is_selected (item_at place self.now.items) }
    {
        match item_at(place, &self.items) {
            Some(item) => item.is_selected,
            None => false,
        }
    }

    // The list of the places of selected items.
    fn selection(&self) -> Result<Txt, AllocError>
        ensures { IfOk result (λ t. t ≡ joined (map decimal (selected_from 0 self.now.items))) }
    {
        let places = selected_texts(self.alloc, &self.items, self.bounds)?;
        let text = joined(self.alloc, &places)?;
        Ok(text)
    }

    // The text that answers a question.
    fn told(&self, question: Question<'_>) -> Result<Txt, Failure>
        ensures { Gives (λ t. t) result (told question.entry self.now) }
    {
        match question {
            Question::Item(place) => Ok(self.text_at(place)?),
            Question::Items(first, last) => Ok(self.texts_between(first, last)?),
            Question::Size => Ok(decimal_of(self.alloc, self.len() as i64)?),
            Question::Index(number) => Ok(decimal_of(self.alloc, number)?),
            Question::Nearest(row) => Ok(decimal_of(self.alloc, self.nearest_to(row) as i64)?),
            Question::Includes(place) => {
                Ok(Txt::from_text(self.alloc, truth(self.includes(place)))?)
            }
            Question::Selected => Ok(self.selection()?),
            Question::Value(name) => Ok(self.options.cget(name)?.try_clone()?),
        }
    }

    // The items from one place to another taken out.
    fn delete_between(&mut self, first: i64, last: i64) -> Result<(), AllocError>
        ensures ok { OnOk result (self.new ≡ deleted_between first last self.old) }
        ensures err { OnErr result (self.new ≡ self.old) }
        ensures class { self.new.options.class ≡ self.old.options.class }
    {
        let behind = behind_of(last, self.len());
        self.delete(front_of(first), behind)?;
        Ok(())
    }

    // The items between two places selected, or not.
    fn select_between(&mut self, on: bool, first: i64, last: i64) -> Result<(), AllocError>
        ensures ok { OnOk result (self.new ≡ selected_between on first last self.old) }
        ensures err { OnErr result (self.new ≡ self.old) }
        ensures class { self.new.options.class ≡ self.old.options.class }
    {
        let len = self.len();
        let front = front_of(first).min(front_of(last));
        let behind = behind_of(first, len).max(behind_of(last, len));
        self.select(on, front, behind)?;
        Ok(())
    }

    /// Makes a change. A listbox that isn't in the state `normal` passes over all but `activate` and `configure`.
    pub fn change(&mut self, change: Change<'_>) -> Result<(), Failure>
        ensures value { Gives (λ _. self.new) result (changed change.entry self.old) }
        ensures err { OnErr result (self.new ≡ self.old) }
        ensures class { self.new.options.class ≡ self.old.options.class }
    {
        match change {
            Change::Insert(place, texts) => {
                let place = rounded(place, self.len());
                self.insert(place, texts)?;
                Ok(())
            }
            Change::Delete(first, last) => {
                self.delete_between(first, last)?;
                Ok(())
            }
            Change::Activate(place) => {
                self.activate(place);
                Ok(())
            }
            Change::Select(on, first, last) => {
                self.select_between(on, first, last)?;
                Ok(())
            }
            Change::Configure(pairs) => {
                self.configure(pairs)?;
                Ok(())
            }
        }
    }

    /// The answer to a question.
    pub fn answer(&self, question: Question<'_>) -> Result<Said, Failure>
        ensures { Gives (λ said. (said, self.now)) result (after (told question.entry self.now) (answers self.now)) }
    {
        let text = self.told(question)?;
        Ok(Said::Text(text))
    }

    /// What the words of a whole command come to, the listbox's path first: `insert`, `delete`, `get`, `size`, `index`,
    /// `activate`, `nearest`, `selection set`, `selection clear`, `selection includes`, `curselection`, `configure` or
    /// `cget`. Another subcommand, and a wrong number of words, are errors about the path; a word that is no index is one
    /// about the word. A listbox that isn't in the state `normal` passes over `insert`, `delete` and changes of the
    /// selection.
    pub fn call(&mut self, words: &[Txt]) -> Result<Said, Failure>
        ensures value { Gives (λ said. (said, self.new)) result (called self.old words.now) }
        ensures err { OnErr result (self.new ≡ self.old) }
        ensures class { self.new.options.class ≡ self.old.options.class }
    {
        match self.read(words) {
            Ok(Subcommand::Asks(question)) => {
                let said = self.answer(question)?;
                Ok(said)
            }
            Ok(Subcommand::Changes(change)) => {
                self.change(change)?;
                Ok(Said::Text(Txt::new(self.alloc)))
            }
            Err(failure) => Err(failure),
        }
    }
}
