//! A few names with what stands under them, looked through one by one.
ghost use Rattle.std.specs.Prelude.{◌≡◌, ◌<◌, ◌++◌, [], ◌∷◌, true, length, take, get_or, slice_set, position, filter, not, IfOk, IfSome, IfNone, OnOk, OnErr};
ghost use Rattle.tks_text.specs.Text.{same_text};
ghost use Rattle.tks_vars.specs.Few.{IsChangedAt, AreApart};

use crate::content::Local;
use std::alloc::{AllocError, Global};
use std::marker::Model;
use tks_share::{Change, Copied};
use tks_text::Txt;

/// The most names that are looked through one by one.
pub(crate) const FEW: usize = 8;

/// A few names, each with what stands under it, which are looked through one by one. Contracts see the list.
pub struct Few {
    entries: Vec<(Txt, Local)>,
}

// Written out, so that to let go of it is one step for whoever owns it.
impl Drop for Few {
    fn drop(self) {
        let Few { entries: _ } = self;
    }
}

impl Model for Few {
    ghost use Rattle.std.specs.Prelude.{List, ℕ};
    ghost use Rattle.tks_vars.specs.Few.{Entry, entries_code};

    ghost Value = { List Entry };

    ghost coded = { entries_code };

    ghost view = { λ f. f.entries.items };
}

impl Few {
    /// None, with room for so many.
    pub fn with_room(alloc: Global, room: usize) -> Result<Few, AllocError>
        ensures { IfOk result (λ f. f ≡ []) }
    {
        Ok(Few {
            entries: Vec::with_capacity(alloc, room)?,
        })
    }

    /// How many there are.
    pub fn len(&self) -> usize
        ensures { result ≡ length self.now }
    {
        self.entries.len()
    }

    /// The place of the first one with this name.
    #[inline(always)]
    pub fn place(&self, name: &[u8]) -> Option<usize>
        ensures bound { IfSome result (λ place. place < length self.now) }
        ensures value { result ≡ position (λ e. same_text e.0 name.now) self.now }
    {
        place_in(self.entries.as_slice(), name)
    }

    /// The name at a place, with what stands under it.
    pub fn at(&self, place: usize) -> &(Txt, Local)
        requires { place < length self.now }
        ensures { result.now ≡ get_or self.now place result.now }
    {
        &self.entries[place]
    }

    /// Puts a name, and what stands under it, into the place of another.
    pub fn set(&mut self, place: usize, name: Txt, value: Local)
        requires { place < length self.old }
        ensures { self.new ≡ slice_set self.old place (name, value) }
    {
        self.entries[place] = (name, value);
    }

    /// Adds a name, and what stands under it.
    pub fn push(&mut self, name: Txt, value: Local) -> Result<(), AllocError>
        ensures ok { OnOk result (self.new ≡ self.old ++ (name, value) ∷ []) }
        ensures err { OnErr result (self.new ≡ self.old) }
    {
        self.entries.push((name, value))?;
        Ok(())
    }

    /// Takes the last one out.
    pub fn pop(&mut self) -> Option<(Txt, Local)>
        ensures some { IfSome result (λ e. self.old ≡ self.new ++ e ∷ []) }
        ensures none { IfNone result ((self.old ≡ []) × (self.new ≡ [])) }
    {
        self.entries.pop()
    }

    /// Leaves the first so many.
    pub fn truncate(&mut self, len: usize)
        ensures { self.new ≡ take len self.old }
    {
        self.entries.truncate(len);
    }

    /// The entries.
    pub fn as_slice(&self) -> &[(Txt, Local)]
        ensures { result.now ≡ self.now }
    {
        self.entries.as_slice()
    }

    /// Whether they are few, and no two have one name.
    pub fn are_few_apart(&self) -> bool
        ensures { result ≡ true → AreApart self.now }
    {
        self.entries.len() <= FEW && are_apart(self.entries.as_slice())
    }

    /// Takes a name out, wherever it is.
    pub fn remove(&mut self, name: &[u8])
        ensures { self.new ≡ filter (λ e. not (same_text e.0 name.now)) self.old }
    {
        self.entries.retain(|entry| entry.0.as_bytes() != name);
    }

    /// Changes what stands at a place.
    pub fn change<C: Change<Local>>(&mut self, place: usize, change: &mut C) -> C::Answer
        requires { place < length self.old }
        ensures { IsChangedAt (C.gives change.old) place self.old self.new result }
    {
        let entry = &mut self.entries[place];
        change.change(&mut entry.1)
    }
}

// The place of the first entry with this name.
fn place_in(entries: &[(Txt, Local)], name: &[u8]) -> Option<usize>
    ensures bound { IfSome result (λ place. place < length entries.now) }
    ensures value { result ≡ position (λ e. same_text e.0 name.now) entries.now }
{
    entries.iter().position(|entry| entry.0.as_bytes() == name)
}

// Whether no two entries have one name.
fn are_apart(entries: &[(Txt, Local)]) -> bool
    ensures { result ≡ true → AreApart entries.now }
{
    let mut rest = entries;
    while let Some((entry, behind)) = rest.split_first() {
        if place_in(behind, entry.0.as_bytes()).is_some() {
            return false;
        }
        rest = behind;
    }
    true
}

impl Copied for Few {
    fn copied(&self, alloc: Global) -> Result<Few, AllocError> {
        Ok(Few {
            entries: copies_of(alloc, &self.entries)?,
        })
    }
}

// Equal entries.
fn copies_of(alloc: Global, entries: &[(Txt, Local)]) -> Result<Vec<(Txt, Local)>, AllocError>
    ensures { IfOk result (λ copies. copies.items ≡ entries.now) }
{
    let mut copies = Vec::with_capacity(alloc, entries.len())?;
    for entry in entries {
        copies.push((entry.0.try_clone()?, entry.1.copied(alloc)?))?;
    }
    Ok(copies)
}
