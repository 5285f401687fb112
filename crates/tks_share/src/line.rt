//! Items in a line: a few at the front and a few at the back lie in rows, those between them in a tree. What comes and goes soon
//! does so at an end, where a change copies a row and no way down the tree.
ghost use Rattle.std.specs.Prelude.{◌≡◌, ◌==◌, ◌<◌, ◌≤◌, ◌+◌, ◌++◌, ℕ, Bool, [], ◌∷◌, length, slice_get, slice_set, position, Some, None, IfOk, IfSome, IfNone, OnOk, OnErr, option_copied};
ghost use Rattle.std.specs.List.{filter, insert, remove};
ghost use Rattle.tks_share.specs.Lists.{Fits, Rises, Says, IsParted, leading, IsChangedAt};
ghost use Rattle.tks_share.specs.Parts.{Follows};

use crate::change::Change;
use crate::copied::Copied;
use crate::numbered::Numbered;
use crate::places::{self, Part};
use crate::row::{self, ROOM, Row};
use crate::share::Share;
use crate::shared::Shared;
use crate::tree::Tree;
use std::alloc::{AllocError, Global};
use std::marker::Model;
use std::rc::Rc;

/// Items in order, of which copies share what they have in common.
#[derive(Drop)]
pub(crate) struct Line<E> {
    pub(crate) front: Row<E>,
    pub(crate) middle: Tree<E>,
    pub(crate) back: Row<E>,
}

impl<E> Model for Line<E> {
    ghost use Rattle.std.specs.Prelude.{List, ◌++◌};
    ghost use Rattle.std.specs.Coded.{coded_list};

    ghost Value = { List E };

    ghost coded = { coded_list E.code };

    ghost view = { λ l. l.front ++ (l.middle ++ l.back) };
}

impl<E> Line<E> {
    /// No items.
    pub(crate) fn new() -> Line<E>
        ensures { result ≡ [] }
    {
        Line {
            front: Row::new(),
            middle: Tree::new(),
            back: Row::new(),
        }
    }

    /// How many items there are.
    pub(crate) fn count(&self) -> usize
        requires { Fits self.now }
        ensures { result ≡ length self.now }
    {
        self.front.count() + self.middle.count() + self.back.count()
    }

    /// The item at an index.
    pub(crate) fn at(&self, index: usize) -> Option<&E>
        requires { Fits self.now }
        ensures { option_copied result ≡ slice_get self.now index }
    {
        let ahead = self.front.count();
        if index < ahead {
            return self.front.at(index);
        }
        let between = self.middle.count();
        if index - ahead < between {
            return places::at(&self.middle, index - ahead);
        }
        self.back.at(index - ahead - between)
    }
}

impl<E: Share> Clone for Line<E> {
    ghost is_clone = { λ line copy. copy ≡ line };

    // Its parts are held once more, and nothing of them is copied.
    fn clone(&self) -> Result<Line<E>, AllocError> {
        Ok(Line {
            front: self.front.share()?,
            middle: self.middle.share()?,
            back: self.back.share()?,
        })
    }
}

impl<E: Share> Line<E> {
    /// Puts an item into the place of the one at an index.
    #[tactic(auto, using(crate::proofs::InLine::sets_ahead, crate::proofs::InLine::sets_between, crate::proofs::InLine::sets_behind, crate::proofs::InLine::between, crate::proofs::InLine::many))]
    pub(crate) fn set(&mut self, index: usize, item: E) -> Result<(), AllocError>
        requires fits { Fits self.old }
        requires within { index < length self.old }
        ensures ok { OnOk result (self.new ≡ slice_set self.old index item) }
        ensures err { OnErr result (self.new ≡ self.old) }
    {
        let ahead = self.front.count();
        if index < ahead {
            return self.front.set(index, item);
        }
        let between = self.middle.count();
        if index - ahead < between {
            return places::set(&mut self.middle, index - ahead, item);
        }
        self.back.set(index - ahead - between, item)
    }

    /// Puts an item before the one at an index, or at the end.
    pub(crate) fn insert(&mut self, alloc: Global, index: usize, item: E) -> Result<(), AllocError>
        requires fits { Fits self.old }
        requires within { index ≤ length self.old }
        ensures ok { OnOk result (self.new ≡ insert self.old index item) }
        ensures err { OnErr result (self.new ≡ self.old) }
    {
        self.make_room(alloc, index)?;
        self.put_in(alloc, index, item)
    }

    // Where an item is to come into a row that is full, those of the row come into the tree.
    fn make_room(&mut self, alloc: Global, index: usize) -> Result<(), AllocError>
        ensures { self.new ≡ self.old }
    {
        let ahead = self.front.count();
        if ahead >= ROOM && index < ahead {
            self.settle_front(alloc)?;
        }
        if self.back.count() >= ROOM {
            self.settle_back(alloc)?;
        }
        Ok(())
    }

    // Those of the front row come into the tree.
    fn settle_front(&mut self, alloc: Global) -> Result<(), AllocError>
        ensures { self.new ≡ self.old }
    {
        let ahead = tree_of(alloc, &self.front)?;
        self.middle = places::appended(alloc, ahead, self.middle.share()?)?;
        self.front = Row::new();
        Ok(())
    }

    // Those of the back row come into the tree.
    fn settle_back(&mut self, alloc: Global) -> Result<(), AllocError>
        ensures { self.new ≡ self.old }
    {
        let behind = tree_of(alloc, &self.back)?;
        self.middle = places::appended(alloc, self.middle.share()?, behind)?;
        self.back = Row::new();
        Ok(())
    }

    // Whether there are no items but those of the front row, which has room for one more.
    fn is_short(&self) -> bool {
        self.front.count() < ROOM && self.middle.count() == 0 && self.back.count() == 0
    }

    // Puts an item in at its place: into the front row what comes before the others or among those of the row, or behind
    // them while there are no others; into the tree what comes between others; else into the back row.
    #[tactic(auto, using(crate::proofs::InLine::inserts_ahead, crate::proofs::InLine::inserts_between, crate::proofs::InLine::inserts_behind, crate::proofs::InLine::between, crate::proofs::InLine::many))]
    fn put_in(&mut self, alloc: Global, index: usize, item: E) -> Result<(), AllocError>
        requires fits { Fits self.old }
        requires within { index ≤ length self.old }
        ensures ok { OnOk result (self.new ≡ insert self.old index item) }
        ensures err { OnErr result (self.new ≡ self.old) }
    {
        let ahead = self.front.count();
        let is_short = self.is_short();
        if index < ahead || index == 0 || (is_short && index == ahead) {
            return self.front.insert(alloc, index, item);
        }
        let between = self.middle.count();
        if index - ahead < between {
            return places::insert(&mut self.middle, alloc, index - ahead, item);
        }
        self.back.insert(alloc, index - ahead - between, item)
    }

    /// Takes out the item at an index.
    pub(crate) fn remove(&mut self, alloc: Global, index: usize) -> Result<(), AllocError>
        requires fits { Fits self.old }
        requires within { index < length self.old }
        ensures ok { OnOk result (self.new ≡ remove self.old index) }
        ensures err { OnErr result (self.new ≡ self.old) }
    {
        if index == 0 && self.front.count() == 0 {
            self.refill_front(alloc)?;
        }
        self.take_out(index)
    }

    // Where the front row is empty, the first items of the tree come into it: where one of them goes, they mostly go next.
    fn refill_front(&mut self, alloc: Global) -> Result<(), AllocError>
        ensures { self.new ≡ self.old }
    {
        if self.front.count() > 0 {
            return Ok(());
        }
        let mut middle = self.middle.share()?;
        let front = first_of(alloc, &mut middle)?;
        self.front = front;
        self.middle = middle;
        Ok(())
    }

    // Takes the item at an index out of the row or the tree that it is in.
    #[tactic(auto, using(crate::proofs::InLine::removes_ahead, crate::proofs::InLine::removes_between, crate::proofs::InLine::removes_behind, crate::proofs::InLine::between, crate::proofs::InLine::many))]
    fn take_out(&mut self, index: usize) -> Result<(), AllocError>
        requires fits { Fits self.old }
        requires within { index < length self.old }
        ensures ok { OnOk result (self.new ≡ remove self.old index) }
        ensures err { OnErr result (self.new ≡ self.old) }
    {
        let ahead = self.front.count();
        if index < ahead {
            return self.front.remove(index);
        }
        let between = self.middle.count();
        if index - ahead < between {
            return places::remove(&mut self.middle, index - ahead);
        }
        self.back.remove(index - ahead - between)
    }
}

// Takes the first items out of a tree, as many as a row has room for.
fn first_of<E: Share>(alloc: Global, tree: &mut Tree<E>) -> Result<Row<E>, AllocError>
    ensures { IfOk result (λ row. tree.old ≡ row ++ tree.new) }
{
    let mut row = Row::new();
    for _turn in 0..ROOM {
        let Some(item) = tree.pop_first()? else {
            return Ok(row);
        };
        let end = row.count();
        row.insert(alloc, end, item)?;
    }
    Ok(row)
}

// The tree of a row's items.
fn tree_of<E: Share>(alloc: Global, row: &Row<E>) -> Result<Tree<E>, AllocError>
    ensures { IfOk result (λ t. t ≡ row.now) }
{
    let mut tree = Tree::new();
    for index in 0..row.count() {
        let Some(item) = row.at(index) else {
            unreachable!()
        };
        places::put_behind(&mut tree, alloc, item.share()?, Tree::new())?;
    }
    Ok(tree)
}

/// A line of one item.
pub(crate) fn lone<E: Share>(alloc: Global, item: E) -> Result<Rc<Line<E>>, AllocError>
    ensures { IfOk result (λ line. line.value ≡ item ∷ []) }
{
    let mut line = Line::new();
    line.insert(alloc, 0, item)?;
    held(alloc, line)
}

/// A line that several can hold.
pub(crate) fn held<E: Drop>(alloc: Global, line: Line<E>) -> Result<Rc<Line<E>>, AllocError>
    ensures { IfOk result (λ held. held.value ≡ line) }
{
    match Rc::new(alloc, line) {
        Ok(held) => Ok(held),
        Err(_) => Err(AllocError),
    }
}

/// An item that was reached, and a part of the tree from the next one on, if it was found by one.
#[derive(Drop)]
pub(crate) struct Reached<'a, E> {
    pub(crate) item: &'a E,
    pub(crate) part: Option<Part<'a, E>>,
}

/// The item at an index, if there is one, by a part that has it where one does.
pub(crate) fn reach<'a, E>(
    part: &Option<Part<'a, E>>,
    line: &'a Line<E>,
    index: usize,
) -> Option<Reached<'a, E>>
    requires fits { Fits line.now }
    requires follows { IfSome part.now (λ p. Follows p index line.now) }
    ensures some { IfSome result (λ r. (slice_get line.now index ≡ Some r.item.now) × IfSome r.part (λ p. Follows p (index + 1) line.now)) }
    ensures none { IfNone result (slice_get line.now index ≡ None) }
{
    if let Some(part) = part {
        if part.left > 0 {
            return step(part, line, index);
        }
    }
    let ahead = line.front.count();
    if index >= ahead && index - ahead < line.middle.count() {
        let part = places::part_at(&line.middle, index - ahead)?;
        return step(&part, line, index);
    }
    let item = line.at(index)?;
    Some(Reached { item, part: None })
}

// The first item of a part, and the part from the next one on.
fn step<'a, E>(part: &Part<'a, E>, line: &'a Line<E>, index: usize) -> Option<Reached<'a, E>>
    requires more { 0 < part.now.left }
    requires follows { Follows part.now index line.now }
    ensures some { IfSome result (λ r. (slice_get line.now index ≡ Some r.item.now) × IfSome r.part (λ p. Follows p (index + 1) line.now)) }
    ensures none { IfNone result (slice_get line.now index ≡ None) }
{
    let item = places::at(part.tree, part.place)?;
    Some(Reached {
        item,
        part: Some(Part {
            tree: part.tree,
            place: part.place + 1,
            left: part.left - 1,
        }),
    })
}

/// Changes the item at an index where it stands. One that others hold too is copied first.
pub(crate) fn change<T: Copied, C: Change<T>>(
    line: &mut Line<Shared<T>>,
    alloc: Global,
    index: usize,
    change: &mut C,
) -> Result<Option<C::Answer>, AllocError>
    requires { Fits line.old }
    ensures some { IfOk result (λ o. IfSome o (λ answer. IsChangedAt (C.gives change.old) index line.old line.new answer)) }
    ensures none { IfOk result (λ o. IfNone o ((line.new ≡ line.old) × (slice_get line.old index ≡ None))) }
    ensures err { OnErr result (line.new ≡ line.old) }
    ensures count { length line.new ≡ length line.old }
{
    let ahead = line.front.count();
    if index < ahead {
        return row::change(&mut line.front, alloc, index, change);
    }
    let between = line.middle.count();
    if index - ahead < between {
        return places::change(&mut line.middle, alloc, index - ahead, change);
    }
    row::change(&mut line.back, alloc, index - ahead - between, change)
}

/// Those that a closure accepts.
#[tactic(auto, using(crate::proofs::InLine::filters, crate::proofs::InLine::fits_between, crate::proofs::InLine::many))]
pub(crate) fn kept<T: Drop, F: Fn(&T) -> bool>(
    line: &Line<Shared<T>>,
    alloc: Global,
    keep: &F,
) -> Result<Line<Shared<T>>, AllocError>
    requires { F.IsAlwaysCallable keep.now }
    ensures filtered { IfOk result (λ l. Fits line.now → (p : T → Bool) → Says (F.post keep.now) p → l ≡ filter p line.now) }
    ensures fewer { IfOk result (λ l. length l ≤ length line.now) }
{
    Ok(Line {
        front: row::kept(&line.front, alloc, keep)?,
        middle: places::kept(&line.middle, alloc, keep)?,
        back: row::kept(&line.back, alloc, keep)?,
    })
}

/// The place of the item of a number, where numbers rise.
pub(crate) fn place_of<T: Numbered>(line: &Line<Shared<T>>, number: u64) -> Option<usize>
    requires { Fits line.now }
    ensures place { (low : ℕ) → Rises T.number_of low line.now → result ≡ position (λ x. T.number_of x == number) line.now }
    ensures within { IfSome result (λ i. i < length line.now) }
{
    if let Some(place) = row::place_of(&line.front, number) {
        return Some(place);
    }
    let ahead = line.front.count();
    if let Some(place) = row::place_of(&line.back, number) {
        return Some(ahead + line.middle.count() + place);
    }
    let between = places::place_of(&line.middle, number)?;
    Some(ahead + between)
}

/// How many at the front a closure accepts, which accepts none behind one that it doesn't accept.
pub(crate) fn partition_point<T: Drop, F: Fn(&T) -> bool>(
    line: &Line<Shared<T>>,
    accepts: &F,
) -> usize
    requires fits { Fits line.now }
    requires callable { F.IsAlwaysCallable accepts.now }
    ensures place { (p : T → Bool) → Says (F.post accepts.now) p → IsParted p line.now → result ≡ leading p line.now }
    ensures within { result ≤ length line.now }
{
    let ahead = row::accepted(&line.front, accepts);
    if ahead < line.front.count() {
        return ahead;
    }
    let behind = row::accepted(&line.back, accepts);
    if behind > 0 {
        return ahead + line.middle.count() + behind;
    }
    ahead + places::partition_point(&line.middle, accepts)
}
