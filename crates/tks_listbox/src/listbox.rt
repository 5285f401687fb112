//! The listbox: items, the active one, and which are selected (listbox(n)).
ghost use Rattle.std.specs.Prelude.{◌≡◌, ◌≤◌, ◌<◌, ◌^◌, length, IfOk, OnOk, OnErr};
ghost use Rattle.tks_text.specs.Fault.{Gives};
ghost use Rattle.tks_text.specs.Short.{IsShort};
ghost use Rattle.tks_text.specs.declared.class.Class.TheVariants as class;
ghost use Rattle.tks_opt.specs.Options.{configured};
ghost use Rattle.tks_listbox.specs.Listbox.{first_listbox, HasActive, has_active, restored, index_in, last_of, rounded, front_of, behind_of, moved_on, moved_back, inserted, deleted, activated, selected};
ghost use Rattle.tks_listbox.specs.Commands.{behind_index, item_index};

use crate::bounds::Bounds;
use crate::item::Item;
use crate::items::{insert_new, remove_among, turn_among};
use std::alloc::{AllocError, Global};
use std::marker::Model;
use tks_opt::Options;
use tks_share::SharedList;
use tks_text::{Class, ErrorNumber, Failure, ScriptFault, Txt, integer_of};

/// A listbox (listbox(n)): items, one of which is active, and each of which is selected or not.
pub struct ListWidget {
    pub(crate) alloc: Global,
    pub(crate) options: Options,
    pub(crate) items: SharedList<Item>,
    active: usize,
    /// Between which places the selected items stand.
    pub(crate) bounds: Bounds,
}

// Written out, so that to let go of it is one step for whoever owns it.
impl Drop for ListWidget {
    fn drop(self) {
        let ListWidget {
            alloc: _,
            options: _,
            items: _,
            active: _,
            bounds: _,
        } = self;
    }
}

impl Model for ListWidget {
    ghost use Rattle.std.specs.Prelude.{◌≡◌};
    ghost use Rattle.tks_text.specs.declared.class.Class.TheVariants as class;
    ghost use Rattle.tks_listbox.specs.Listbox.{Listbox, HasActive};
    ghost use Rattle.tks_listbox.specs.Bounds.{Encloses};

    ghost Value = { Listbox };

    ghost view = { λ l. record { options = l.options; items = l.items; active = l.active } };

    ghost invariant = { λ l. (l.options.class ≡ class.Listbox) × HasActive l.items l.active × Encloses l.bounds l.items };
}

// Whether the active item may be the one in a place.
fn has_active(items: &SharedList<Item>, active: usize) -> bool
    ensures { result ≡ has_active items.now active }
{
    active < items.len().max(1)
}

// The nearest place from 0 up to another.
pub(crate) fn rounded(number: i64, most: usize) -> usize
    ensures value { result ≡ rounded number most }
    ensures within { result ≤ most }
{
    if number < 0 {
        0
    } else {
        (number as usize).min(most)
    }
}

// The first place of a range.
pub(crate) fn front_of(number: i64) -> usize
    ensures { result ≡ front_of number }
{
    if number < 0 { 0 } else { number as usize }
}

// The place behind a range, among so many.
pub(crate) fn behind_of(number: i64, len: usize) -> usize
    ensures value { result ≡ behind_of number len }
    ensures within { result ≤ len }
{
    if number < 0 {
        0
    } else {
        (number as usize).saturating_add(1).min(len)
    }
}

// The last of so many places.
fn last_of(len: usize) -> i64
    requires { len < 2 ^ 63 }
    ensures { result ≡ last_of len }
{
    len as i64 - 1
}

// Where the active place goes when so many items come in at a place before so many others.
fn moved_on(len: usize, place: usize, count: usize, active: usize) -> usize
    requires { (active < 2 ^ 63) × (count < 2 ^ 63) }
    ensures { result ≡ moved_on len place count active }
{
    if len == 0 || active < place {
        active
    } else {
        active + count
    }
}

// Where it goes when a range is taken out of so many items.
fn moved_back(front: usize, behind: usize, len: usize, active: usize) -> usize
    requires { (front < behind) × (behind ≤ len) }
    ensures { result ≡ moved_back front behind len active }
{
    let left = len - (behind - front);
    if active < front {
        active
    } else if behind <= active {
        active - (behind - front)
    } else {
        front.min(left.saturating_sub(1))
    }
}

impl ListWidget {
    /// The listbox that is made under a path: without items.
    pub fn new(alloc: Global, path: &Txt) -> Result<ListWidget, AllocError>
        ensures { IfOk result (λ l. l ≡ first_listbox path.now) }
    {
        let options = Options::new(alloc, Class::Listbox, path)?;
        Ok(ListWidget {
            alloc,
            options,
            items: SharedList::new(alloc),
            active: 0,
            bounds: Bounds::nowhere(),
        })
    }

    /// The listbox that has these options, these items and the active one in this place, so that one is made again from
    /// what it had: none where the options aren't those of a listbox, or there is no item in the place. Where there is
    /// no item at all, the place is 0.
    pub fn restore(
        alloc: Global,
        options: Options,
        items: SharedList<Item>,
        active: usize,
    ) -> Option<ListWidget>
        ensures { result ≡ restored options items active }
    {
        if !has_active(&items, active) {
            return None;
        }
        let bounds = Bounds::around(&items);
        match options.class() {
            Class::Listbox => Some(ListWidget {
                alloc,
                options,
                items,
                active,
                bounds,
            }),
            _ => None,
        }
    }

    /// Its options.
    pub fn options(&self) -> &Options
        ensures value { result.now ≡ self.now.options }
        ensures class { self.now.options.class ≡ class.Listbox }
    {
        &self.options
    }

    /// Its items.
    pub fn items(&self) -> &SharedList<Item>
        ensures value { result.now ≡ self.now.items }
        ensures short { IsShort self.now.items }
    {
        let _len = self.items.len();
        &self.items
    }

    /// The place of the active item, one of them; 0 where there is none.
    pub fn active(&self) -> usize
        ensures value { result ≡ self.now.active }
        ensures bound { result < 2 ^ 63 }
        ensures one { HasActive self.now.items self.now.active }
    {
        self.active.min(self.len())
    }

    // How many items there are.
    pub(crate) fn len(&self) -> usize
        ensures value { result ≡ length self.now.items }
        ensures bound { result < 2 ^ 63 }
    {
        self.items.len()
    }

    // What an index says, where `end` is this.
    #[tactic(auto, unfolding(crate::specs::Listbox::index_in))]
    fn index_in(&self, end: i64, word: &Txt) -> Result<i64, Failure>
        ensures { Gives (λ z. z) result (index_in self.now.active end word.now) }
    {
        let name = word.as_bytes();
        if name == b"active".as_slice() {
            return Ok(self.active() as i64);
        }
        if name == b"end".as_slice() {
            return Ok(end);
        }
        match integer_of(word) {
            Ok(Some(number)) => Ok(number),
            Ok(None) => Err(Failure::about(ErrorNumber::BadIndex, word)),
            Err(_) => Err(Failure::Script(ScriptFault {
                number: ErrorNumber::OutOfRange,
                subject: None,
            })),
        }
    }

    // An index whose `end` is behind the last item.
    pub(crate) fn behind_index(&self, word: &Txt) -> Result<i64, Failure>
        ensures { Gives (λ z. z) result (behind_index self.now word.now) }
    {
        let number = self.index_in(self.len() as i64, word)?;
        Ok(number)
    }

    // One whose `end` is the last item.
    pub(crate) fn item_index(&self, word: &Txt) -> Result<i64, Failure>
        ensures { Gives (λ z. z) result (item_index self.now word.now) }
    {
        let number = self.index_in(last_of(self.len()), word)?;
        Ok(number)
    }

    // Puts items with these texts in at a place.
    pub(crate) fn insert(&mut self, place: usize, texts: &[Txt]) -> Result<(), AllocError>
        requires { place ≤ length self.old.items }
        ensures ok { OnOk result (self.new ≡ inserted place texts.now self.old) }
        ensures err { OnErr result (self.new ≡ self.old) }
        ensures class { self.new.options.class ≡ self.old.options.class }
    {
        if !self.options.is_editable() {
            return Ok(());
        }
        let len = self.len();
        let mut items = self.items.share()?;
        insert_new(&mut items, place, texts)?;
        self.active = moved_on(len, place, texts.len(), self.active());
        self.bounds = self.bounds.come_in(place, texts.len());
        self.items = items;
        Ok(())
    }

    // Takes the items from one place up to another out.
    pub(crate) fn delete(&mut self, front: usize, behind: usize) -> Result<(), AllocError>
        requires { behind ≤ length self.old.items }
        ensures ok { OnOk result (self.new ≡ deleted front behind self.old) }
        ensures err { OnErr result (self.new ≡ self.old) }
        ensures class { self.new.options.class ≡ self.old.options.class }
    {
        if front >= behind || !self.options.is_editable() {
            return Ok(());
        }
        let len = self.len();
        let mut items = self.items.share()?;
        remove_among(self.alloc, &mut items, front, behind)?;
        self.active = moved_back(front, behind, len, self.active);
        self.bounds = self.bounds.go_out(front, behind);
        self.items = items;
        Ok(())
    }

    // Makes the item of a place, or the nearest one, active.
    pub(crate) fn activate(&mut self, number: i64)
        ensures { self.new ≡ activated number self.old }
    {
        self.active = rounded(number, self.len().saturating_sub(1));
    }

    // Selects the items from one place up to another, or takes them out of the selection.
    pub(crate) fn select(&mut self, on: bool, front: usize, behind: usize) -> Result<(), AllocError>
        requires { behind ≤ length self.old.items }
        ensures ok { OnOk result (self.new ≡ selected on front behind self.old) }
        ensures err { OnErr result (self.new ≡ self.old) }
        ensures class { self.new.options.class ≡ self.old.options.class }
    {
        if !self.options.is_editable() {
            return Ok(());
        }
        let mut items = self.items.share()?;
        turn_among(&mut items, on, front, behind, self.bounds)?;
        self.bounds = self.bounds.turned_range(on, front, behind);
        self.items = items;
        Ok(())
    }

    /// Gives options values: words that are names and values in turn, from left to right. An option that a listbox
    /// lacks, and a value that it may not have, are errors about the name, and leave all as it was.
    pub fn configure(&mut self, pairs: &[Txt]) -> Result<(), Failure>
        ensures value { Gives (λ _. self.new.options) result (configured self.old.options pairs.now) }
        ensures others { self.new ≡ record self.old { options = self.new.options } }
        ensures err { OnErr result (self.new ≡ self.old) }
        ensures class { self.new.options.class ≡ self.old.options.class }
    {
        self.options.configure(pairs)?;
        Ok(())
    }

    /// An equal listbox.
    pub fn try_clone(&self) -> Result<ListWidget, AllocError>
        ensures { IfOk result (λ l. l ≡ self.now) }
    {
        Ok(ListWidget {
            alloc: self.alloc,
            options: self.options.try_clone()?,
            items: self.items.share()?,
            active: self.active,
            bounds: self.bounds,
        })
    }
}
