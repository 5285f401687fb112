//! Items by their places, in a tree.
ghost use Rattle.std.specs.Prelude.{◌≡◌, ◌+◌, ◌∷◌, ◌++◌, ◌==◌, ◌<◌, ◌≤◌, ℕ, Bool, length, slice_get, slice_set, position, None, IfOk, IfSome, IfNone, OnOk, OnErr, option_copied};
ghost use Rattle.std.specs.List.{filter, insert, remove};
ghost use Rattle.tks_share.specs.Lists.{Fits, Rises, Says, IsParted, leading, IsChangedAt};
ghost use Rattle.tks_share.specs.Parts.{Follows};

use crate::change::Change;
use crate::copied::Copied;
use crate::numbered::Numbered;
use crate::share::Share;
use crate::shared::Shared;
use crate::tree::{Tree, balance, close, forked, lone, outweighs};
use std::alloc::{AllocError, Global};
use std::rc::Rc;

/// The item at an index.
pub(crate) fn at<E>(tree: &Tree<E>, index: usize) -> Option<&E>
    ensures { Fits tree.now → option_copied result ≡ slice_get tree.now index }
{
    match &tree.root {
        None => None,
        Some(root) => {
            let fork = root.as_ref();
            let place = fork.left.count();
            if index < place {
                at(&fork.left, index)
            } else if index == place {
                Some(&fork.item)
            } else {
                at(&fork.right, index - place - 1)
            }
        }
    }
}

/// A part of a tree, and the place in it of an item of the tree, from which on so many follow as in the tree.
#[derive(Drop)]
pub(crate) struct Part<'a, E> {
    pub(crate) tree: &'a Tree<E>,
    pub(crate) place: usize,
    pub(crate) left: usize,
}

/// How many items a part has that is gone over as one.
const FEW: usize = 16;

/// A part that has the item at an index: with few others, if the item isn't the root of many.
pub(crate) fn part_at<E>(tree: &Tree<E>, index: usize) -> Option<Part<'_, E>>
    ensures some { IfSome result (λ p. Fits tree.now → Follows p index tree.now × (0 < p.left) × (index + p.left ≤ length tree.now)) }
    ensures none { IfNone result (Fits tree.now → slice_get tree.now index ≡ None) }
{
    let Some(root) = &tree.root else {
        return None;
    };
    let fork = root.as_ref();
    let count = fork.count;
    if count <= FEW {
        if index < count {
            return Some(Part {
                tree,
                place: index,
                left: count - index,
            });
        }
        return None;
    }
    let place = fork.left.count();
    if index < place {
        part_at(&fork.left, index)
    } else if index == place {
        Some(Part {
            tree,
            place,
            left: 1,
        })
    } else {
        part_at(&fork.right, index - place - 1)
    }
}

/// Puts an item into the place of the one at an index.
pub(crate) fn set<E: Share>(tree: &mut Tree<E>, index: usize, item: E) -> Result<(), AllocError>
    ensures ok { OnOk result (Fits tree.old → tree.new ≡ slice_set tree.old index item) }
    ensures err { OnErr result (tree.new ≡ tree.old) }
    ensures count { length tree.new ≡ length tree.old }
{
    let Some(root) = &mut tree.root else {
        return Ok(());
    };
    let fork = Rc::make_mut(root)?;
    let place = fork.left.count();
    if index < place {
        set(&mut fork.left, index, item)
    } else if index == place {
        fork.item = item;
        Ok(())
    } else {
        set(&mut fork.right, index - place - 1, item)
    }
}

/// Puts an item before the one at an index, or at the end.
pub(crate) fn insert<E: Share>(
    tree: &mut Tree<E>,
    alloc: Global,
    index: usize,
    item: E,
) -> Result<(), AllocError>
    ensures ok { OnOk result (Fits tree.old → tree.new ≡ insert tree.old index item) }
    ensures err { OnErr result (tree.new ≡ tree.old) }
{
    match &mut tree.root {
        None => {
            *tree = lone(alloc, item)?;
            Ok(())
        }
        Some(root) => {
            let fork = Rc::make_mut(root)?;
            let place = fork.left.count();
            if index <= place {
                insert(&mut fork.left, alloc, index, item)?;
                balance(fork);
                Ok(())
            } else {
                insert(&mut fork.right, alloc, index - place - 1, item)?;
                balance(fork);
                Ok(())
            }
        }
    }
}

/// Takes out the item at an index.
pub(crate) fn remove<E: Share>(tree: &mut Tree<E>, index: usize) -> Result<(), AllocError>
    ensures ok { OnOk result (Fits tree.old → tree.new ≡ remove tree.old index) }
    ensures err { OnErr result (tree.new ≡ tree.old) }
{
    match &mut tree.root {
        None => Ok(()),
        Some(root) => {
            let fork = Rc::make_mut(root)?;
            let place = fork.left.count();
            if index < place {
                remove(&mut fork.left, index)?;
                balance(fork);
                Ok(())
            } else if index == place {
                if let Some(left) = close(fork)? {
                    *tree = left;
                }
                Ok(())
            } else {
                remove(&mut fork.right, index - place - 1)?;
                balance(fork);
                Ok(())
            }
        }
    }
}

/// Changes the item at an index where it stands. One that others hold too is copied first.
pub(crate) fn change<T: Copied, C: Change<T>>(
    tree: &mut Tree<Shared<T>>,
    alloc: Global,
    index: usize,
    change: &mut C,
) -> Result<Option<C::Answer>, AllocError>
    ensures some { IfOk result (λ o. IfSome o (λ answer. Fits tree.old → IsChangedAt (C.gives change.old) index tree.old tree.new answer)) }
    ensures none { IfOk result (λ o. IfNone o ((tree.new ≡ tree.old) × (Fits tree.old → slice_get tree.old index ≡ None))) }
    ensures err { OnErr result (tree.new ≡ tree.old) }
    ensures count { length tree.new ≡ length tree.old }
{
    let Some(root) = &mut tree.root else {
        return Ok(None);
    };
    let fork = Rc::make_mut(root)?;
    let place = fork.left.count();
    if index < place {
        self::change(&mut fork.left, alloc, index, change)
    } else if index == place {
        let item = fork.item.get_mut(alloc)?;
        let answer = change.change(item);
        Ok(Some(answer))
    } else {
        self::change(&mut fork.right, alloc, index - place - 1, change)
    }
}

/// Adds an item at the end, and those of another tree behind it.
pub(crate) fn put_behind<E: Share>(
    tree: &mut Tree<E>,
    alloc: Global,
    item: E,
    behind: Tree<E>,
) -> Result<(), AllocError>
    ensures ok { OnOk result (tree.new ≡ tree.old ++ item ∷ behind) }
    ensures err { OnErr result (tree.new ≡ tree.old) }
{
    let is_heavy = outweighs(tree, &behind);
    if let Some(root) = &mut tree.root {
        if is_heavy {
            let fork = Rc::make_mut(root)?;
            put_behind(&mut fork.right, alloc, item, behind)?;
            balance(fork);
            return Ok(());
        }
    }
    *tree = forked(alloc, tree.share()?, item, behind)?;
    Ok(())
}

// Adds an item at the front, and those of another tree before it.
fn put_before<E: Share>(
    tree: &mut Tree<E>,
    alloc: Global,
    before: Tree<E>,
    item: E,
) -> Result<(), AllocError>
    ensures ok { OnOk result (tree.new ≡ before ++ item ∷ tree.old) }
    ensures err { OnErr result (tree.new ≡ tree.old) }
{
    let is_heavy = outweighs(tree, &before);
    if let Some(root) = &mut tree.root {
        if is_heavy {
            let fork = Rc::make_mut(root)?;
            put_before(&mut fork.left, alloc, before, item)?;
            balance(fork);
            return Ok(());
        }
    }
    *tree = forked(alloc, before, item, tree.share()?)?;
    Ok(())
}

// Those of a tree, an item, and those of another tree.
fn joined<E: Share>(
    alloc: Global,
    mut left: Tree<E>,
    item: E,
    mut right: Tree<E>,
) -> Result<Tree<E>, AllocError>
    ensures { IfOk result (λ t. t ≡ left ++ item ∷ right) }
{
    if outweighs(&left, &right) {
        put_behind(&mut left, alloc, item, right)?;
        Ok(left)
    } else {
        put_before(&mut right, alloc, left, item)?;
        Ok(right)
    }
}

/// Those of a tree, and those of another.
pub(crate) fn appended<E: Share>(
    alloc: Global,
    left: Tree<E>,
    mut right: Tree<E>,
) -> Result<Tree<E>, AllocError>
    ensures { IfOk result (λ t. t ≡ left ++ right) }
{
    match right.pop_first()? {
        None => Ok(left),
        Some(item) => joined(alloc, left, item, right),
    }
}

/// Those that a closure accepts. Where it accepts all, nothing is made.
pub(crate) fn kept<T: Drop, F: Fn(&T) -> bool>(
    tree: &Tree<Shared<T>>,
    alloc: Global,
    keep: &F,
) -> Result<Tree<Shared<T>>, AllocError>
    requires { F.IsAlwaysCallable keep.now }
    ensures filtered { IfOk result (λ t. Fits tree.now → (p : T → Bool) → Says (F.post keep.now) p → t ≡ filter p tree.now) }
    ensures fewer { IfOk result (λ t. length t ≤ length tree.now) }
{
    let Some(root) = &tree.root else {
        return Ok(Tree::new());
    };
    let fork = root.as_ref();
    let left = kept(&fork.left, alloc, keep)?;
    let right = kept(&fork.right, alloc, keep)?;
    if !keep(fork.item.get()) {
        return appended(alloc, left, right);
    }
    if left.count() == fork.left.count() && right.count() == fork.right.count() {
        return tree.share();
    }
    joined(alloc, left, fork.item.share()?, right)
}

/// The place of the item of a number, where numbers rise.
pub(crate) fn place_of<T: Numbered>(tree: &Tree<Shared<T>>, number: u64) -> Option<usize>
    requires { Fits tree.now }
    ensures place { (low : ℕ) → Rises T.number_of low tree.now → result ≡ position (λ x. T.number_of x == number) tree.now }
    ensures within { IfSome result (λ i. i < length tree.now) }
{
    match &tree.root {
        None => None,
        Some(root) => {
            let fork = root.as_ref();
            let here = fork.item.get().number();
            if number < here {
                place_of(&fork.left, number)
            } else if number == here {
                Some(fork.left.count())
            } else {
                let behind = place_of(&fork.right, number)?;
                Some(fork.left.count() + 1 + behind)
            }
        }
    }
}

/// How many at the front a closure accepts, which accepts none behind one that it doesn't accept.
pub(crate) fn partition_point<T: Drop, F: Fn(&T) -> bool>(
    tree: &Tree<Shared<T>>,
    accepts: &F,
) -> usize
    requires fits { Fits tree.now }
    requires callable { F.IsAlwaysCallable accepts.now }
    ensures place { (p : T → Bool) → Says (F.post accepts.now) p → IsParted p tree.now → result ≡ leading p tree.now }
    ensures within { result ≤ length tree.now }
{
    let Some(root) = &tree.root else {
        return 0;
    };
    let fork = root.as_ref();
    if !accepts(fork.item.get()) {
        return partition_point(&fork.left, accepts);
    }
    let behind = partition_point(&fork.right, accepts);
    fork.left.count() + 1 + behind
}
