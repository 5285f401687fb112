//! A few items in order, of which copies have all in common until one is changed.
ghost use Rattle.std.specs.Prelude.{◌≡◌, true, ◌==◌, ◌<◌, ◌≤◌, ◌-◌, ℕ, Bool, [], length, slice_get, slice_set, position, Some, None, IfOk, IfSome, IfNone, OnOk, OnErr, option_copied};
ghost use Rattle.std.specs.List.{filter, insert, remove};
ghost use Rattle.tks_share.specs.Lists.{Rises, Says, IsParted, leading, IsChangedAt};

use crate::change::Change;
use crate::copied::Copied;
use crate::numbered::Numbered;
use crate::share::Share;
use crate::shared::Shared;
use std::alloc::{AllocError, Global};
use std::marker::Model;
use std::rc::Rc;

/// So many items a row has room for: a change of one copies them all.
pub(crate) const ROOM: usize = 16;

/// A few items in order.
#[derive(Drop)]
pub(crate) struct Few<E> {
    pub(crate) items: Vec<E>,
}

/// A few items in order, which several may hold. A change copies them first where others hold them too.
#[derive(Drop)]
pub(crate) struct Row<E> {
    pub(crate) held: Option<Rc<Few<E>>>,
}

impl<E> Model for Row<E> {
    ghost use Rattle.std.specs.Prelude.{List};
    ghost use Rattle.std.specs.Coded.{coded_list};
    ghost use Rattle.tks_share.specs.Rows.{items_held};

    ghost Value = { List E };

    ghost coded = { coded_list E.code };

    ghost view = { λ r. items_held r.held };
}

impl<E> Row<E> {
    /// No items.
    pub(crate) fn new() -> Row<E>
        ensures { result ≡ [] }
    {
        Row { held: None }
    }

    /// How many items there are.
    pub(crate) fn count(&self) -> usize
        ensures { result ≡ length self.now }
    {
        match &self.held {
            None => 0,
            Some(few) => few.as_ref().items.len(),
        }
    }

    /// The item at an index.
    pub(crate) fn at(&self, index: usize) -> Option<&E>
        ensures { option_copied result ≡ slice_get self.now index }
    {
        match &self.held {
            None => None,
            Some(few) => few.as_ref().items.get(index),
        }
    }
}

impl<E: Share> Clone for Few<E> {
    ghost is_clone = { λ few copy. copy.items.items ≡ few.items.items };

    // The items are held once more, and nothing of them is copied.
    fn clone(&self) -> Result<Few<E>, AllocError> {
        let mut items = Vec::with_capacity(*self.items.allocator(), ROOM)?;
        for item in self.items.as_slice() {
            items.push(item.share()?)?;
        }
        Ok(Few { items })
    }
}

impl<E: Share> Row<E> {
    /// The same items, held once more. Nothing of them is copied.
    pub(crate) fn share(&self) -> Result<Row<E>, AllocError>
        ensures { IfOk result (λ r. r ≡ self.now) }
    {
        match &self.held {
            None => Ok(Row { held: None }),
            Some(few) => Ok(Row {
                held: Some(few.clone()?),
            }),
        }
    }

    /// Puts an item into the place of the one at an index.
    pub(crate) fn set(&mut self, index: usize, item: E) -> Result<(), AllocError>
        ensures ok { OnOk result (self.new ≡ slice_set self.old index item) }
        ensures err { OnErr result (self.new ≡ self.old) }
    {
        let Some(held) = &mut self.held else {
            return Ok(());
        };
        let few = Rc::make_mut(held)?;
        if index < few.items.len() {
            few.items[index] = item;
        }
        Ok(())
    }

    /// Puts an item before the one at an index, or at the end.
    pub(crate) fn insert(&mut self, alloc: Global, index: usize, item: E) -> Result<(), AllocError>
        requires { index ≤ length self.old }
        ensures ok { OnOk result (self.new ≡ insert self.old index item) }
        ensures err { OnErr result (self.new ≡ self.old) }
    {
        match &mut self.held {
            None => {
                *self = lone(alloc, item)?;
                Ok(())
            }
            Some(held) => {
                let few = Rc::make_mut(held)?;
                few.items.insert(index, item)?;
                Ok(())
            }
        }
    }

    /// Takes out the item at an index.
    pub(crate) fn remove(&mut self, index: usize) -> Result<(), AllocError>
        requires { index < length self.old }
        ensures ok { OnOk result (self.new ≡ remove self.old index) }
        ensures err { OnErr result (self.new ≡ self.old) }
    {
        let Some(held) = &mut self.held else {
            return Ok(());
        };
        let few = Rc::make_mut(held)?;
        let _gone = few.items.remove(index);
        Ok(())
    }
}

// A row of one item.
fn lone<E: Share>(alloc: Global, item: E) -> Result<Row<E>, AllocError>
    ensures { IfOk result (λ r. r ≡ insert [] 0 item) }
{
    let mut items = Vec::with_capacity(alloc, ROOM)?;
    items.push(item)?;
    match Rc::new(alloc, Few { items }) {
        Ok(held) => Ok(Row { held: Some(held) }),
        Err(_) => Err(AllocError),
    }
}

/// Changes the item at an index where it stands. One that others hold too is copied first.
pub(crate) fn change<T: Copied, C: Change<T>>(
    row: &mut Row<Shared<T>>,
    alloc: Global,
    index: usize,
    change: &mut C,
) -> Result<Option<C::Answer>, AllocError>
    ensures some { IfOk result (λ o. IfSome o (λ answer. IsChangedAt (C.gives change.old) index row.old row.new answer)) }
    ensures none { IfOk result (λ o. IfNone o ((row.new ≡ row.old) × (slice_get row.old index ≡ None))) }
    ensures err { OnErr result (row.new ≡ row.old) }
    ensures count { length row.new ≡ length row.old }
{
    let Some(held) = &mut row.held else {
        return Ok(None);
    };
    let few = Rc::make_mut(held)?;
    if index >= few.items.len() {
        return Ok(None);
    }
    let item = few.items[index].get_mut(alloc)?;
    let answer = change.change(item);
    Ok(Some(answer))
}

/// Those that a closure accepts.
pub(crate) fn kept<T: Drop, F: Fn(&T) -> bool>(
    row: &Row<Shared<T>>,
    alloc: Global,
    keep: &F,
) -> Result<Row<Shared<T>>, AllocError>
    requires { F.IsAlwaysCallable keep.now }
    ensures filtered { IfOk result (λ r. (p : T → Bool) → Says (F.post keep.now) p → r ≡ filter p row.now) }
    ensures fewer { IfOk result (λ r. length r ≤ length row.now) }
{
    let mut left = Row::new();
    for index in 0..row.count() {
        let Some(item) = row.at(index) else {
            unreachable!()
        };
        if keep(item.get()) {
            let end = left.count();
            left.insert(alloc, end, item.share()?)?;
        }
    }
    Ok(left)
}

/// The place of the item of a number, where numbers rise.
pub(crate) fn place_of<T: Numbered>(row: &Row<Shared<T>>, number: u64) -> Option<usize>
    ensures place { (low : ℕ) → Rises T.number_of low row.now → result ≡ position (λ x. T.number_of x == number) row.now }
    ensures within { IfSome result (λ i. i < length row.now) }
{
    if is_beyond(row, number) {
        return None;
    }
    // The item that came last is asked for most often.
    if is_last(row, number) {
        return Some(row.count() - 1);
    }
    for index in 0..row.count() {
        let Some(item) = row.at(index) else {
            unreachable!()
        };
        if item.get().number() == number {
            return Some(index);
        }
    }
    None
}

// Whether the numbers of all items are above this one, or below it, as their ends tell where numbers rise.
fn is_beyond<T: Numbered>(row: &Row<Shared<T>>, number: u64) -> bool
    ensures { (low : ℕ) → Rises T.number_of low row.now → result ≡ true → position (λ x. T.number_of x == number) row.now ≡ None }
{
    let count = row.count();
    let (Some(first), Some(last)) = (row.at(0), row.at(count.saturating_sub(1))) else {
        return true;
    };
    number < first.get().number() || last.get().number() < number
}

// Whether the last item has this number.
fn is_last<T: Numbered>(row: &Row<Shared<T>>, number: u64) -> bool
    ensures within { result ≡ true → 0 < length row.now }
    ensures place { (low : ℕ) → Rises T.number_of low row.now → result ≡ true → position (λ x. T.number_of x == number) row.now ≡ Some (length row.now - 1) }
{
    match row.at(row.count().saturating_sub(1)) {
        None => false,
        Some(last) => last.get().number() == number,
    }
}

/// How many at the front a closure accepts.
pub(crate) fn accepted<T: Drop, F: Fn(&T) -> bool>(row: &Row<Shared<T>>, accepts: &F) -> usize
    requires { F.IsAlwaysCallable accepts.now }
    ensures place { (p : T → Bool) → Says (F.post accepts.now) p → result ≡ leading p row.now }
    ensures within { result ≤ length row.now }
{
    for index in 0..row.count() {
        let Some(item) = row.at(index) else {
            unreachable!()
        };
        if !accepts(item.get()) {
            return index;
        }
    }
    row.count()
}
