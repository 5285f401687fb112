//! The variables of a procedure's call.
ghost use Rattle.std.specs.Prelude.{◌≡◌, ◌+◌, [], if◌then◌else◌, true, false, IfOk, IfSome, IfNone, None, OnOk, OnErr, option_copied};
ghost use Rattle.std.specs.FinMap as map;
ghost use Rattle.tks_share.specs.Maps.{IsChangedIn};
ghost use Rattle.tks_vars.specs.Few.{put_behind, AreApart, Lacks};
ghost use Rattle.tks_vars.specs.Links.{IsLinked};
ghost use Rattle.tks_vars.specs.Table.{IsName};

use crate::content::Local;
use crate::few::{FEW, Few};
use crate::links::add_links;
use crate::table::Table;
use std::alloc::{AllocError, Global};
use std::marker::Model;
use tks_share::{Change, Copied, Share};
use tks_text::Txt;

/// What stands under the names of a procedure's call. The first few names are looked through one by one, so that a call with
/// few variables takes little memory; the others are in a table. Of a name that is in both, the first ones' counts. Contracts
/// see the map.
pub struct Frame {
    alloc: Global,
    len: usize,
    first: Few,
    rest: Table<Local>,
}

// Written out, so that to let go of it is one step for whoever owns it.
impl Drop for Frame {
    fn drop(self) {
        let Frame {
            alloc: _,
            len: _,
            first: _,
            rest: _,
        } = self;
    }
}

impl Model for Frame {
    ghost use Rattle.std.specs.Prelude.{◌≡◌};
    ghost use Rattle.std.specs.FinMap as map;
    ghost use Rattle.tks_vars.specs.Variables as variables;
    ghost use Rattle.tks_vars.specs.contracts.content.Local as local;
    ghost use Rattle.tks_vars.specs.Few.{put_behind};

    ghost Value = { variables.Frame };

    ghost coded = { variables.map_code local.the_row.coded };

    ghost view = { λ f. put_behind f.rest f.first };

    ghost invariant = { λ f. f.len ≡ map.len (put_behind f.rest f.first) };
}

impl Frame {
    /// No names.
    pub fn new(alloc: Global) -> Result<Frame, AllocError>
        ensures { IfOk result (λ f. f ≡ map.empty) }
    {
        let few = Few::with_room(alloc, FEW)?;
        Frame::of(alloc, few)
    }

    /// Just these names, no two of which are the same.
    pub fn of(alloc: Global, few: Few) -> Result<Frame, AllocError>
        requires { AreApart few }
        ensures { IfOk result (λ f. f ≡ put_behind map.empty few) }
    {
        Ok(Frame {
            alloc,
            len: few.len(),
            first: few,
            rest: Table::new(alloc),
        })
    }

    /// The room of the first few names, without them.
    pub fn into_room(self) -> Few
        ensures { result ≡ [] }
    {
        let Frame {
            alloc: _,
            len: _,
            first,
            rest: _,
        } = self;
        let mut room = first;
        room.truncate(0);
        room
    }

    /// How many names there are.
    pub fn len(&self) -> usize
        ensures { result ≡ map.len self.now }
    {
        self.len
    }

    /// Whether something stands under a name.
    pub fn contains(&self, name: &[u8]) -> bool
        ensures { result ≡ map.contains_key self.now name.now }
    {
        self.get(name).is_some()
    }

    /// What stands under a name.
    #[inline(always)]
    pub fn get(&self, name: &[u8]) -> Option<&Local>
        ensures { option_copied result ≡ map.get self.now name.now }
    {
        match self.first.place(name) {
            Some(place) => Some(&self.first.at(place).1),
            None => self.rest.get(name),
        }
    }

    /// Puts a value under a name, in the place of the one that is there.
    pub fn insert(&mut self, name: &[u8], value: Local) -> Result<(), AllocError>
        requires { IsName name.now }
        ensures ok { OnOk result (self.new ≡ map.insert self.old name.now value) }
        ensures err { OnErr result (self.new ≡ self.old) }
    {
        let name = Txt::from_text(self.alloc, name)?;
        self.insert_named(name, value)?;
        Ok(())
    }

    /// The same as `insert`, with a name that needs no copy.
    pub fn insert_named(&mut self, name: Txt, value: Local) -> Result<(), AllocError>
        ensures ok { OnOk result (self.new ≡ map.insert self.old name value) }
        ensures err { OnErr result (self.new ≡ self.old) }
    {
        match self.first.place(name.as_bytes()) {
            Some(place) => {
                self.first.set(place, name, value);
                Ok(())
            }
            None => {
                let len = len_with(self.len, &self.rest, name.as_bytes())?;
                add(&mut self.first, &mut self.rest, name, value)?;
                self.len = len;
                Ok(())
            }
        }
    }

    /// Makes these names links, where all are new, there are no more than so many names then, and these are few. Tells whether it
    /// did; otherwise nothing changes.
    pub fn link_new(&mut self, names: &[Txt], most: usize) -> Result<bool, AllocError>
        ensures made { IfOk result (λ made. made ≡ true → IsLinked most names.now self.old self.new) }
        ensures unmade { IfOk result (λ made. made ≡ false → self.new ≡ self.old) }
        ensures err { OnErr result (self.new ≡ self.old) }
    {
        match add_links(&mut self.first, &self.rest, self.len, names, most)? {
            Some(len) => {
                self.len = len;
                Ok(true)
            }
            None => Ok(false),
        }
    }

    /// Takes a name out.
    pub fn remove(&mut self, name: &[u8]) -> Result<(), AllocError>
        ensures ok { OnOk result (self.new ≡ map.remove self.old name.now) }
        ensures err { OnErr result (self.new ≡ self.old) }
    {
        if !self.contains(name) {
            return Ok(());
        }
        take(&mut self.first, &mut self.rest, name)?;
        self.len = self.len.saturating_sub(1);
        Ok(())
    }

    /// Changes the value under a name where it stands, if there is one.
    pub fn change<C: Change<Local>>(
        &mut self,
        name: &[u8],
        change: &mut C,
    ) -> Result<Option<C::Answer>, AllocError>
        ensures some { IfOk result (λ o. IfSome o (λ answer. IsChangedIn (C.gives change.old) name.now self.old self.new answer)) }
        ensures none { IfOk result (λ o. IfNone o ((self.new ≡ self.old) × (map.get self.old name.now ≡ None))) }
        ensures unused { IfOk result (λ o. IfNone o (change.new ≡ change.old)) }
        ensures err { OnErr result (self.new ≡ self.old) }
    {
        match self.first.place(name) {
            Some(place) => {
                let answer = self.first.change(place, change);
                Ok(Some(answer))
            }
            None => {
                let answer = self.rest.change(name, change)?;
                Ok(answer)
            }
        }
    }
}

impl Share for Frame {
    fn share(&self) -> Result<Frame, AllocError> {
        Ok(Frame {
            alloc: self.alloc,
            len: self.len,
            first: self.first.copied(self.alloc)?,
            rest: self.rest.share()?,
        })
    }
}

// So many names, and one more where this one, which isn't among the first ones, isn't in the rest either.
fn len_with(len: usize, rest: &Table<Local>, name: &[u8]) -> Result<usize, AllocError>
    ensures { IfOk result (λ more. more ≡ (if map.contains_key rest.now name.now then len else len + 1)) }
{
    if rest.contains(name) {
        return Ok(len);
    }
    match len.checked_add(1) {
        Some(len) => Ok(len),
        None => Err(AllocError),
    }
}

// Puts a value under a name that isn't among the first ones: behind these, or into the rest.
fn add(first: &mut Few, rest: &mut Table<Local>, name: Txt, value: Local) -> Result<(), AllocError>
    requires { Lacks name first.old }
    ensures ok { OnOk result (put_behind rest.new first.new ≡ map.insert (put_behind rest.old first.old) name value) }
    ensures err { OnErr result ((first.new ≡ first.old) × (rest.new ≡ rest.old)) }
{
    if first.len() < FEW {
        first.push(name, value)?;
        return Ok(());
    }
    rest.insert(name.as_bytes(), value)?;
    Ok(())
}

// Takes a name out of the first and the rest.
fn take(first: &mut Few, rest: &mut Table<Local>, name: &[u8]) -> Result<(), AllocError>
    ensures ok { OnOk result (put_behind rest.new first.new ≡ map.remove (put_behind rest.old first.old) name.now) }
    ensures err { OnErr result ((first.new ≡ first.old) × (rest.new ≡ rest.old)) }
{
    rest.remove(name)?;
    first.remove(name);
    Ok(())
}
