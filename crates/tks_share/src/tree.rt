//! Balanced trees of items in order, of which several may have parts in common.
ghost use Rattle.std.specs.Prelude.{◌≡◌, [], ◌∷◌, ◌++◌, IfOk, IfSome, IfNone, OnOk, OnErr, option_copied};
ghost use Rattle.tks_share.specs.Tree.{items_at, front, counted, Weighed};

use crate::share::Share;
use std::alloc::{AllocError, Global};
use std::marker::Model;
use std::mem;
use std::rc::Rc;

/// A balanced tree of items in order. Trees may have parts in common.
#[cycle(tree)]
#[derive(Drop)]
pub(crate) struct Tree<E> {
    pub(crate) root: Option<Rc<Fork<E>>>,
}

/// An item, with those before it and those behind it.
#[cycle(tree)]
#[derive(Drop)]
pub(crate) struct Fork<E> {
    pub(crate) item: E,
    /// How many items there are.
    pub(crate) count: usize,
    pub(crate) left: Tree<E>,
    pub(crate) right: Tree<E>,
}

impl<E> Model for Tree<E> {
    ghost use Rattle.std.specs.Prelude.{List, length};
    ghost use Rattle.std.specs.Coded.{coded_list};

    ghost Value = { List E };

    ghost coded = { coded_list E.code };

    ghost use Rattle.tks_share.specs.Tree.{items_of, RootWeighed};

    ghost view = { λ t. items_of t.root };

    ghost invariant = { λ t. RootWeighed t.root };

    ghost size = { length };

    ghost use Rattle.tks_share.specs.Falls.{depth_falls};

    ghost size_decreases = { λ t h. depth_falls t };
}

impl<E> Tree<E> {
    /// No items.
    pub(crate) fn new() -> Tree<E>
        ensures { result ≡ [] }
    {
        Tree { root: None }
    }

    /// How many items there are.
    pub(crate) fn count(&self) -> usize
        ensures { result ≡ counted self.now }
    {
        match &self.root {
            None => 0,
            Some(root) => root.as_ref().count,
        }
    }
}

impl<E: Share> Tree<E> {
    /// The same items, held once more. Nothing of them is copied.
    pub(crate) fn share(&self) -> Result<Tree<E>, AllocError>
        ensures { IfOk result (λ t. t ≡ self.now) }
    {
        match &self.root {
            None => Ok(Tree { root: None }),
            Some(root) => Ok(Tree {
                root: Some(root.clone()?),
            }),
        }
    }

    /// The first item.
    pub(crate) fn first(&self) -> Option<&E>
        ensures { option_copied result ≡ front self.now }
    {
        match &self.root {
            None => None,
            Some(root) => {
                let fork = root.as_ref();
                match fork.left.first() {
                    None => Some(&fork.item),
                    Some(item) => Some(item),
                }
            }
        }
    }

    /// Takes the first item out.
    pub(crate) fn pop_first(&mut self) -> Result<Option<E>, AllocError>
        ensures some { IfOk result (λ o. IfSome o (λ item. self.old ≡ item ∷ self.new)) }
        ensures none { IfOk result (λ o. IfNone o ((self.old ≡ []) × (self.new ≡ []))) }
        ensures err { OnErr result (self.new ≡ self.old) }
    {
        match &mut self.root {
            None => Ok(None),
            Some(root) => {
                let fork = Rc::make_mut(root)?;
                match fork.left.pop_first()? {
                    Some(item) => {
                        balance(fork);
                        Ok(Some(item))
                    }
                    None => {
                        let item = fork.item.share()?;
                        let right = mem::replace(&mut fork.right, Tree::new());
                        weigh(fork);
                        *self = right;
                        Ok(Some(item))
                    }
                }
            }
        }
    }
}

impl<E: Share> Clone for Fork<E> {
    ghost is_clone = { λ fork copy. copy ≡ fork };

    // Its parts are held once more, and nothing of them is copied.
    fn clone(&self) -> Result<Fork<E>, AllocError> {
        Ok(Fork {
            item: self.item.share()?,
            count: self.count,
            left: self.left.share()?,
            right: self.right.share()?,
        })
    }
}

/// Takes a fork's item out. Where nothing stands behind it, those before it are handed out, to take the fork's place.
pub(crate) fn close<E: Share>(fork: &mut Fork<E>) -> Result<Option<Tree<E>>, AllocError>
    requires { Weighed fork.old }
    ensures some { IfOk result (λ o. IfSome o (λ left. left ≡ fork.old.left ++ fork.old.right)) }
    ensures none { IfOk result (λ o. IfNone o (items_at fork.new ≡ fork.old.left ++ fork.old.right)) }
    ensures err { OnErr result (items_at fork.new ≡ items_at fork.old) }
    ensures count { Weighed fork.new }
{
    match fork.right.pop_first()? {
        None => {
            let left = mem::replace(&mut fork.left, Tree::new());
            weigh(fork);
            Ok(Some(left))
        }
        Some(item) => {
            fork.item = item;
            balance(fork);
            Ok(None)
        }
    }
}

/// A tree with one item.
pub(crate) fn lone<E: Share>(alloc: Global, item: E) -> Result<Tree<E>, AllocError>
    ensures { IfOk result (λ t. t ≡ item ∷ []) }
{
    forked(alloc, Tree::new(), item, Tree::new())
}

/// Those of a tree, an item, and those of another tree, neither of which outweighs the other.
pub(crate) fn forked<E: Share>(
    alloc: Global,
    left: Tree<E>,
    item: E,
    right: Tree<E>,
) -> Result<Tree<E>, AllocError>
    ensures { IfOk result (λ t. t ≡ left ++ item ∷ right) }
{
    let mut fork = Fork {
        item,
        count: 0,
        left,
        right,
    };
    weigh(&mut fork);
    match Rc::new(alloc, fork) {
        Ok(root) => Ok(Tree { root: Some(root) }),
        Err(_) => Err(AllocError),
    }
}

/// Whether a tree is too heavy to stand beside another.
pub(crate) fn outweighs<E>(tree: &Tree<E>, other: &Tree<E>) -> bool {
    let other = other.count().saturating_add(1);
    tree.count().saturating_add(1) > other.saturating_mul(3)
}

// Whether each side has a quarter of a fork's items: then neither outweighs the other, which costs less to find so.
fn is_even<E>(fork: &Fork<E>) -> bool {
    let quarter = fork.count / 4;
    fork.left.count() >= quarter && fork.right.count() >= quarter
}

// Counts a fork's items anew.
fn weigh<E: Share>(fork: &mut Fork<E>)
    ensures items { items_at fork.new ≡ items_at fork.old }
    ensures count { Weighed fork.new }
{
    let sides = fork.left.count().saturating_add(fork.right.count());
    fork.count = sides.saturating_add(1);
}

/// Counts a fork's items anew, and keeps neither side much heavier than the other. Where that takes memory that is refused, it
/// isn't turned.
pub(crate) fn balance<E: Share>(fork: &mut Fork<E>)
    ensures items { items_at fork.new ≡ items_at fork.old }
    ensures count { Weighed fork.new }
{
    weigh(fork);
    if is_even(fork) {
        return;
    }
    if outweighs(&fork.right, &fork.left) {
        lean_left(fork);
    } else if outweighs(&fork.left, &fork.right) {
        lean_right(fork);
    }
}

// A fork whose right side is too heavy gets its root from there.
fn lean_left<E: Share>(fork: &mut Fork<E>)
    requires { Weighed fork.old }
    ensures items { items_at fork.new ≡ items_at fork.old }
    ensures count { Weighed fork.new }
{
    if let Some(root) = &mut fork.right.root {
        if let Ok(lower) = Rc::make_mut(root) {
            if lower.left.count() >= lower.right.count().saturating_mul(2) {
                turn_right(lower);
            }
        }
    }
    turn_left(fork);
}

// A fork whose left side is too heavy gets its root from there.
fn lean_right<E: Share>(fork: &mut Fork<E>)
    requires { Weighed fork.old }
    ensures items { items_at fork.new ≡ items_at fork.old }
    ensures count { Weighed fork.new }
{
    if let Some(root) = &mut fork.left.root {
        if let Ok(lower) = Rc::make_mut(root) {
            if lower.right.count() >= lower.left.count().saturating_mul(2) {
                turn_left(lower);
            }
        }
    }
    turn_right(fork);
}

// The right side's root becomes the fork's.
fn turn_left<E: Share>(fork: &mut Fork<E>)
    requires { Weighed fork.old }
    ensures items { items_at fork.new ≡ items_at fork.old }
    ensures count { Weighed fork.new }
{
    let mut right = mem::replace(&mut fork.right, Tree::new());
    match &mut right.root {
        None => {}
        Some(root) => match Rc::make_mut(root) {
            Err(_) => {}
            Ok(lower) => {
                fork.right = mem::replace(&mut lower.left, Tree::new());
                weigh(fork);
                mem::swap(fork, lower);
                fork.left = right;
                weigh(fork);
                return;
            }
        },
    }
    fork.right = right;
}

// The left side's root becomes the fork's.
fn turn_right<E: Share>(fork: &mut Fork<E>)
    requires { Weighed fork.old }
    ensures items { items_at fork.new ≡ items_at fork.old }
    ensures count { Weighed fork.new }
{
    let mut left = mem::replace(&mut fork.left, Tree::new());
    match &mut left.root {
        None => {}
        Some(root) => match Rc::make_mut(root) {
            Err(_) => {}
            Ok(lower) => {
                fork.left = mem::replace(&mut lower.right, Tree::new());
                weigh(fork);
                mem::swap(fork, lower);
                fork.right = left;
                weigh(fork);
                return;
            }
        },
    }
    fork.left = left;
}
