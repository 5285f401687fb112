//! Lists by their places, whose copies share what they have in common.
ghost use Rattle.std.specs.Prelude.{◌≡◌, ◌++◌, [], ◌∷◌, ◌==◌, ◌<◌, ◌≤◌, not, Bool, Some, length, slice_get, slice_set, position, None, IfOk, IfSome, IfNone, OnOk, OnErr, option_copied};
ghost use Rattle.std.specs.List.{filter, insert, remove};
ghost use Rattle.tks_share.specs.Lines.{line_seen};
ghost use Rattle.tks_share.specs.Lists.{Fits, Rises, Says, IsParted, leading};

use crate::change::Change;
use crate::copied::Copied;
use crate::items::Items;
use crate::line::{self, Line};
use crate::map::MAX_LEN;
use crate::numbered::Numbered;
use crate::share::Share;
use crate::shared::Shared;
use std::alloc::{AllocError, Global};
use std::marker::Model;
use std::rc::Rc;

/// A list of fewer than 2^32 items by their places. Copies share what they have in common, so to make one costs next to nothing; a change of
/// one of the few items at either end costs as much as these, however many others there are, and any other as much as the items on
/// one way down a balanced tree.
pub struct SharedList<T> {
    alloc: Global,
    // None where there was never an item.
    line: Option<Rc<Line<Shared<T>>>>,
}

// Written out, so that to let go of it is one step for whoever owns it.
impl<T: Drop> Drop for SharedList<T> {
    fn drop(self) {
        let SharedList { alloc: _, line: _ } = self;
    }
}

impl<T> Model for SharedList<T> {
    ghost use Rattle.std.specs.Prelude.{List};
    ghost use Rattle.std.specs.Coded.{coded_list};
    ghost use Rattle.tks_share.specs.Lines.{line_held};
    ghost use Rattle.tks_share.specs.Lists.{Fits};

    ghost Value = { List T };

    ghost coded = { coded_list T.code };

    ghost view = { λ l. line_held l.line };

    ghost invariant = { λ l. Fits (line_held l.line) };
}

impl<T: Drop> SharedList<T> {
    /// The empty list.
    pub fn new(alloc: Global) -> SharedList<T>
        ensures { result ≡ [] }
    {
        SharedList { alloc, line: None }
    }

    /// The list of these items. One too many is refused as memory is.
    pub fn of(alloc: Global, items: Vec<T>) -> Result<SharedList<T>, AllocError>
        ensures { IfOk result (λ list. list ≡ items.items) }
    {
        let mut list = SharedList::new(alloc);
        for item in items {
            list.push(item)?;
        }
        Ok(list)
    }

    /// The same list, held once more. It takes no memory, whatever the list holds.
    pub fn share(&self) -> Result<SharedList<T>, AllocError>
        ensures { IfOk result (λ l. l ≡ self.now) }
    {
        let line = match &self.line {
            None => None,
            Some(line) => Some(line.clone()?),
        };
        Ok(SharedList {
            alloc: self.alloc,
            line,
        })
    }

    // The line of the items, if there ever was one.
    fn line(&self) -> Option<&Line<Shared<T>>>
        ensures items { line_seen result ≡ self.now }
        ensures short { Fits self.now }
    {
        match &self.line {
            None => None,
            Some(line) => Some(line.as_ref()),
        }
    }

    /// How many items there are.
    pub fn len(&self) -> usize
        ensures value { result ≡ length self.now }
        ensures short { Fits self.now }
    {
        match self.line() {
            None => 0,
            Some(line) => line.count(),
        }
    }

    /// The item at an index.
    pub fn get(&self, index: usize) -> Option<&T>
        ensures { option_copied result ≡ slice_get self.now index }
    {
        let item = self.line()?.at(index)?;
        Some(item.get())
    }

    /// Adds an item at the end. One too many is refused as memory is.
    pub fn push(&mut self, item: T) -> Result<(), AllocError>
        ensures ok { OnOk result (self.new ≡ self.old ++ item ∷ []) }
        ensures err { OnErr result (self.new ≡ self.old) }
    {
        let end = self.len();
        self.insert(end, item)
    }

    /// Puts an item into the place of the one at an index.
    pub fn set(&mut self, index: usize, item: T) -> Result<(), AllocError>
        requires { index < length self.old }
        ensures ok { OnOk result (self.new ≡ slice_set self.old index item) }
        ensures err { OnErr result (self.new ≡ self.old) }
    {
        let Some(line) = &mut self.line else {
            unreachable!()
        };
        let item = Shared::new(self.alloc, item)?;
        Rc::make_mut(line)?.set(index, item)
    }

    /// Puts an item before the one at an index, or at the end. One too many is refused as memory is.
    pub fn insert(&mut self, index: usize, item: T) -> Result<(), AllocError>
        requires { index ≤ length self.old }
        ensures ok { OnOk result (self.new ≡ insert self.old index item) }
        ensures err { OnErr result (self.new ≡ self.old) }
    {
        if self.len() >= MAX_LEN {
            return Err(AllocError);
        }
        let item = Shared::new(self.alloc, item)?;
        match &mut self.line {
            None => {
                self.line = Some(line::lone(self.alloc, item)?);
                Ok(())
            }
            Some(line) => Rc::make_mut(line)?.insert(self.alloc, index, item),
        }
    }

    /// Takes out the item at an index, and hands it out. It is held on to and not copied, since other lists may hold it too.
    pub fn remove(&mut self, index: usize) -> Result<Shared<T>, AllocError>
        requires { index < length self.old }
        ensures taken { IfOk result (λ item. slice_get self.old index ≡ Some item) }
        ensures ok { OnOk result (self.new ≡ remove self.old index) }
        ensures err { OnErr result (self.new ≡ self.old) }
    {
        let Some(line) = &mut self.line else {
            unreachable!()
        };
        let line = Rc::make_mut(line)?;
        let Some(item) = line.at(index) else {
            unreachable!()
        };
        let item = item.share()?;
        line.remove(self.alloc, index)?;
        Ok(item)
    }

    /// The list of those items that the closure accepts. They are held on to and not copied.
    pub fn kept<F: Fn(&T) -> bool>(&self, keep: F) -> Result<SharedList<T>, AllocError>
        requires { F.IsAlwaysCallable keep }
        ensures { IfOk result (λ l. (p : T → Bool) → Says (F.post keep) p → l ≡ filter p self.now) }
    {
        let Some(line) = self.line() else {
            return Ok(SharedList::new(self.alloc));
        };
        let left = line::kept(line, self.alloc, &keep)?;
        Ok(SharedList {
            alloc: self.alloc,
            line: Some(line::held(self.alloc, left)?),
        })
    }

    /// Takes out the items that the closure doesn't accept. The others are held on to and not copied.
    pub fn retain<F: Fn(&T) -> bool>(&mut self, keep: F) -> Result<(), AllocError>
        requires { F.IsAlwaysCallable keep }
        ensures ok { OnOk result ((p : T → Bool) → Says (F.post keep) p → self.new ≡ filter p self.old) }
        ensures err { OnErr result (self.new ≡ self.old) }
    {
        *self = self.kept(keep)?;
        Ok(())
    }

    /// How many at the front a closure accepts, which accepts none behind one that it doesn't accept: the index from which
    /// on it accepts none.
    pub fn partition_point<F: Fn(&T) -> bool>(&self, accepts: F) -> usize
        requires { F.IsAlwaysCallable accepts }
        ensures place { (p : T → Bool) → Says (F.post accepts) p → IsParted p self.now → result ≡ leading p self.now }
        ensures within { result ≤ length self.now }
    {
        match self.line() {
            None => 0,
            Some(line) => line::partition_point(line, &accepts),
        }
    }

    /// The items in order.
    pub fn iter(&self) -> Items<'_, T>
        ensures { result ≡ self.now }
    {
        Items::of(self.line())
    }
}

impl<T: Copied> SharedList<T> {
    ghost use Rattle.tks_share.specs.Lists.{IsChangedAt};

    /// Changes the item at an index where it stands, if there is one. One that other lists hold too is copied first, and they
    /// keep theirs.
    pub fn change<C: Change<T>>(
        &mut self,
        index: usize,
        change: &mut C,
    ) -> Result<Option<C::Answer>, AllocError>
        ensures some { IfOk result (λ o. IfSome o (λ answer. IsChangedAt (C.gives change.old) index self.old self.new answer)) }
        ensures none { IfOk result (λ o. IfNone o ((self.new ≡ self.old) × (slice_get self.old index ≡ None))) }
        ensures err { OnErr result (self.new ≡ self.old) }
    {
        let Some(line) = &mut self.line else {
            return Ok(None);
        };
        line::change(Rc::make_mut(line)?, self.alloc, index, change)
    }
}

impl<T: Numbered> SharedList<T> {
    /// The place of the item of a number. Numbers must rise.
    pub fn place_of(&self, number: u64) -> Option<usize>
        requires { Rises T.number_of 0 self.now }
        ensures { result ≡ position (λ x. T.number_of x == number) self.now }
    {
        line::place_of(self.line()?, number)
    }

    /// Takes out the item of a number, if there is one. Numbers must rise.
    pub fn remove_number(&mut self, number: u64) -> Result<(), AllocError>
        requires { Rises T.number_of 0 self.old }
        ensures ok { OnOk result (self.new ≡ filter (λ x. not (T.number_of x == number)) self.old) }
        ensures err { OnErr result (self.new ≡ self.old) }
    {
        let Some(index) = self.place_of(number) else {
            return Ok(());
        };
        let _gone = self.remove(index)?;
        Ok(())
    }
}

impl<T: Drop> Share for SharedList<T> {
    fn share(&self) -> Result<SharedList<T>, AllocError> {
        SharedList::share(self)
    }
}

impl<T: Drop> Copied for SharedList<T> {
    fn copied(&self, _alloc: Global) -> Result<SharedList<T>, AllocError> {
        self.share()
    }
}
