//! The entry: a text, and a cursor in it (entry(n)).
ghost use Rattle.std.specs.Prelude.{◌≡◌, ◌+◌, ◌≤◌, ◌<◌, ◌^◌, length, IfOk, OnOk, OnErr};
ghost use Rattle.tks_text.specs.Fault.{Gives};
ghost use Rattle.tks_text.specs.declared.class.Class.TheVariants as class;
ghost use Rattle.tks_opt.specs.Options.{configured};
ghost use Rattle.tks_entry.specs.Entry.{first_entry, restored, cursor_place, rounded, place_in, kept_place, moved_on, moved_back, inserted, deleted, with_cursor};

use std::alloc::{AllocError, Global};
use std::marker::Model;
use tks_opt::Options;
use tks_text::{Class, ErrorNumber, Failure, ScriptFault, Txt, integer_of};

/// An entry (entry(n)): a line of text that is edited at a cursor.
pub struct EntryWidget {
    pub(crate) alloc: Global,
    pub(crate) options: Options,
    pub(crate) text: Txt,
    cursor: u32,
}

// Written out, so that to let go of it is one step for whoever owns it.
impl Drop for EntryWidget {
    fn drop(self) {
        let EntryWidget {
            alloc: _,
            options: _,
            text: _,
            cursor: _,
        } = self;
    }
}

impl Model for EntryWidget {
    ghost use Rattle.std.specs.Prelude.{◌≡◌};
    ghost use Rattle.tks_text.specs.declared.class.Class.TheVariants as class;
    ghost use Rattle.tks_entry.specs.Entry.{Entry};

    ghost Value = { Entry };

    ghost view = { λ e. record { options = e.options; text = e.text; cursor = e.cursor } };

    ghost invariant = { λ e. e.options.class ≡ class.Entry };
}

// The place that is nearest to a number.
fn rounded(number: i64, len: usize) -> usize
    ensures { result ≡ rounded number len }
{
    if number < 0 {
        0
    } else {
        (number as usize).min(len)
    }
}

// As a place is kept.
fn kept_place(place: usize) -> u32
    ensures { result ≡ kept_place place }
{
    place.min(u32::MAX as usize) as u32
}

// The cursor to keep when so many characters come in at a place.
fn moved_on(place: usize, count: usize, cursor: usize) -> u32
    ensures { result ≡ kept_place (moved_on place count cursor) }
{
    if place <= cursor {
        kept_place(cursor.saturating_add(count))
    } else {
        kept_place(cursor)
    }
}

// Where the cursor goes when the characters between two places are taken out.
fn moved_back(first: usize, last: usize, cursor: usize) -> usize
    requires { first < last }
    ensures value { result ≡ moved_back first last cursor }
    ensures small { result ≤ cursor }
{
    if cursor <= first {
        cursor
    } else {
        cursor - (cursor.min(last) - first)
    }
}

impl EntryWidget {
    /// The entry that is made under a path: without text.
    pub fn new(alloc: Global, path: &Txt) -> Result<EntryWidget, AllocError>
        ensures { IfOk result (λ e. e ≡ first_entry path.now) }
    {
        let options = Options::new(alloc, Class::Entry, path)?;
        Ok(EntryWidget {
            alloc,
            options,
            text: Txt::new(alloc),
            cursor: 0,
        })
    }

    /// The entry that has these options, this text, and the cursor where it was put last, so that one is made again
    /// from what it had: none where the options aren't those of an entry.
    pub fn restore(alloc: Global, options: Options, text: Txt, cursor: u32) -> Option<EntryWidget>
        ensures { result ≡ restored options text cursor }
    {
        match options.class() {
            Class::Entry => Some(EntryWidget {
                alloc,
                options,
                text,
                cursor,
            }),
            _ => None,
        }
    }

    /// Its options.
    pub fn options(&self) -> &Options
        ensures value { result.now ≡ self.now.options }
        ensures class { self.now.options.class ≡ class.Entry }
    {
        &self.options
    }

    /// Its text.
    pub fn text(&self) -> &Txt
        ensures { result.now ≡ self.now.text }
    {
        &self.text
    }

    // How many characters its text has.
    pub(crate) fn len(&self) -> usize
        ensures value { result ≡ length self.now.text }
        ensures bound { result < 2 ^ 63 }
    {
        self.text.as_bytes().len()
    }

    /// The place at which the cursor was put last: before so many characters. The text may have become shorter.
    pub fn cursor(&self) -> u32
        ensures { result ≡ self.now.cursor }
    {
        self.cursor
    }

    /// The place at which the cursor stands: before so many characters of the text.
    pub fn cursor_place(&self) -> usize
        ensures value { result ≡ cursor_place self.now }
        ensures inside { result ≤ length self.now.text }
    {
        (self.cursor as usize).min(self.len())
    }

    // The place that an index names.
    #[tactic(auto, unfolding(crate::specs::Entry::place_in))]
    pub(crate) fn place_in(&self, word: &Txt) -> Result<usize, Failure>
        ensures value { Gives (λ p. p) result (place_in self.now word.now) }
        ensures inside { IfOk result (λ p. p ≤ length self.now.text) }
        ensures bound { IfOk result (λ p. p < 2 ^ 63) }
    {
        let len = self.len();
        let name = word.as_bytes();
        if name == b"insert".as_slice() {
            return Ok(self.cursor_place());
        }
        if name == b"end".as_slice() {
            return Ok(len);
        }
        match integer_of(word) {
            Ok(Some(number)) => Ok(rounded(number, len)),
            Ok(None) => Err(Failure::about(ErrorNumber::BadIndex, word)),
            Err(_) => Err(Failure::Script(ScriptFault {
                number: ErrorNumber::OutOfRange,
                subject: None,
            })),
        }
    }

    // Puts characters in at a place.
    pub(crate) fn insert(&mut self, place: usize, more: &Txt) -> Result<(), AllocError>
        requires { place ≤ length self.old.text }
        ensures ok { OnOk result (self.new ≡ inserted place more.now self.old) }
        ensures err { OnErr result (self.new ≡ self.old) }
        ensures class { self.new.options.class ≡ self.old.options.class }
    {
        if more.is_empty() || !self.options.is_editable() {
            return Ok(());
        }
        let mut text = Txt::new(self.alloc);
        text.append_front(&self.text, place)?;
        text.append(more)?;
        text.append_behind(&self.text, place)?;
        self.cursor = moved_on(place, more.len(), self.cursor_place());
        self.text = text;
        Ok(())
    }

    // Takes the characters between two places out.
    pub(crate) fn delete(&mut self, first: usize, last: usize) -> Result<(), AllocError>
        requires { first ≤ length self.old.text }
        ensures ok { OnOk result (self.new ≡ deleted first last self.old) }
        ensures err { OnErr result (self.new ≡ self.old) }
        ensures class { self.new.options.class ≡ self.old.options.class }
    {
        let last = last.min(self.len());
        if last <= first || !self.options.is_editable() {
            return Ok(());
        }
        let mut text = Txt::new(self.alloc);
        text.append_front(&self.text, first)?;
        text.append_behind(&self.text, last)?;
        let cursor = moved_back(first, last, self.cursor_place());
        self.cursor = cursor as u32;
        self.text = text;
        Ok(())
    }

    // Puts the cursor before a character.
    pub(crate) fn set_cursor(&mut self, place: usize)
        ensures { self.new ≡ with_cursor place self.old }
    {
        self.cursor = kept_place(place);
    }

    /// Gives options values: words that are names and values in turn, from left to right. An option that an entry
    /// lacks, and a value that it may not have, are errors about the name, and leave all as it was.
    pub fn configure(&mut self, pairs: &[Txt]) -> Result<(), Failure>
        ensures value { Gives (λ _. self.new.options) result (configured self.old.options pairs.now) }
        ensures others { self.new ≡ record self.old { options = self.new.options } }
        ensures err { OnErr result (self.new ≡ self.old) }
        ensures class { self.new.options.class ≡ self.old.options.class }
    {
        self.options.configure(pairs)?;
        Ok(())
    }

    /// The same entry with another text; the cursor is kept as it was put.
    pub fn with_text(&self, text: &Txt) -> Result<EntryWidget, AllocError>
        ensures { IfOk result (λ e. e ≡ record self.now { text = text.now }) }
    {
        Ok(EntryWidget {
            alloc: self.alloc,
            options: self.options.try_clone()?,
            text: text.try_clone()?,
            cursor: self.cursor,
        })
    }

    /// An equal entry.
    pub fn try_clone(&self) -> Result<EntryWidget, AllocError>
        ensures { IfOk result (λ e. e ≡ self.now) }
    {
        let copy = self.with_text(&self.text)?;
        Ok(copy)
    }
}
