//! Entries in the order of their names, in a tree.
ghost use Rattle.std.specs.Prelude.{◌≡◌, T, length, IfOk, IfSome, IfNone, None, OnOk, OnErr, option_copied};
ghost use Rattle.std.specs.FinMap.Entries.{find, put, is_sorted};
ghost use Rattle.tks_share.specs.Names.{order, without, behind, IsChanged};
ghost use Rattle.tks_share.specs.Tree.{front};

use crate::change::Change;
use crate::copied::Copied;
use crate::name::{Name, Sought};
use crate::share::Share;
use crate::shared::Shared;
use crate::tree::{Tree, balance, close, lone};
use std::alloc::{AllocError, Global};
use std::cmp::Ordering;
use std::rc::Rc;

/// A name with the value under it.
pub(crate) type Entry<V> = (Shared<Name>, Shared<V>);

impl<V: Drop> Share for (Shared<Name>, Shared<V>) {
    fn share(&self) -> Result<(Shared<Name>, Shared<V>), AllocError> {
        Ok((self.0.share()?, self.1.share()?))
    }
}

// A name with a value.
fn entry<V: Drop>(alloc: Global, name: &Sought, value: Shared<V>) -> Result<Entry<V>, AllocError>
    ensures { IfOk result (λ e. e ≡ (name.now, value)) }
{
    Ok((Shared::new(alloc, Name::new(alloc, name)?)?, value))
}

/// The value under a name.
pub(crate) fn get<'a, V: Drop>(tree: &'a Tree<Entry<V>>, name: &Sought) -> Option<&'a V>
    ensures { T (is_sorted order tree.now) → option_copied result ≡ find order name.now tree.now }
{
    let mut part = tree;
    while let Some(root) = &part.root {
        let fork = root.as_ref();
        match fork.item.0.get().stands(name) {
            Ordering::Less => part = &fork.left,
            Ordering::Equal => return Some(fork.item.1.get()),
            Ordering::Greater => part = &fork.right,
        }
    }
    None
}

/// Puts a value under a name, in the place of the one that is there.
pub(crate) fn insert<V: Drop>(
    tree: &mut Tree<Entry<V>>,
    alloc: Global,
    name: &Sought,
    value: Shared<V>,
) -> Result<(), AllocError>
    ensures ok { OnOk result (T (is_sorted order tree.old) → tree.new ≡ put order name.now value tree.old) }
    ensures err { OnErr result (tree.new ≡ tree.old) }
{
    match &mut tree.root {
        None => {
            *tree = lone(alloc, entry(alloc, name, value)?)?;
            Ok(())
        }
        Some(root) => {
            let fork = Rc::make_mut(root)?;
            match fork.item.0.get().stands(name) {
                Ordering::Less => {
                    insert(&mut fork.left, alloc, name, value)?;
                    balance(fork);
                    Ok(())
                }
                Ordering::Equal => {
                    fork.item.1 = value;
                    Ok(())
                }
                Ordering::Greater => {
                    insert(&mut fork.right, alloc, name, value)?;
                    balance(fork);
                    Ok(())
                }
            }
        }
    }
}

/// Takes a name out.
pub(crate) fn remove<V: Drop>(tree: &mut Tree<Entry<V>>, name: &Sought) -> Result<(), AllocError>
    ensures ok { OnOk result (T (is_sorted order tree.old) → tree.new ≡ without name.now tree.old) }
    ensures err { OnErr result (tree.new ≡ tree.old) }
{
    match &mut tree.root {
        None => Ok(()),
        Some(root) => {
            let fork = Rc::make_mut(root)?;
            match fork.item.0.get().stands(name) {
                Ordering::Less => {
                    remove(&mut fork.left, name)?;
                    balance(fork);
                    Ok(())
                }
                Ordering::Equal => {
                    if let Some(left) = close(fork)? {
                        *tree = left;
                    }
                    Ok(())
                }
                Ordering::Greater => {
                    remove(&mut fork.right, name)?;
                    balance(fork);
                    Ok(())
                }
            }
        }
    }
}

/// The first entry behind a name.
pub(crate) fn after<'a, V: Drop>(tree: &'a Tree<Entry<V>>, name: &Sought) -> Option<&'a Entry<V>>
    ensures { T (is_sorted order tree.now) → option_copied result ≡ front (behind name.now tree.now) }
{
    let mut part = tree;
    let mut nearest = None;
    while let Some(root) = &part.root {
        let fork = root.as_ref();
        match fork.item.0.get().stands(name) {
            Ordering::Less => {
                nearest = Some(&fork.item);
                part = &fork.left;
            }
            _ => part = &fork.right,
        }
    }
    nearest
}

/// Changes the value under a name where it stands. A value that others hold too is copied first.
pub(crate) fn change<V: Copied, C: Change<V>>(
    tree: &mut Tree<Entry<V>>,
    alloc: Global,
    name: &Sought,
    change: &mut C,
) -> Result<Option<C::Answer>, AllocError>
    ensures some { IfOk result (λ o. IfSome o (λ answer. T (is_sorted order tree.old) → IsChanged (C.gives change.old) name.now tree.old tree.new answer)) }
    ensures none { IfOk result (λ o. IfNone o ((tree.new ≡ tree.old) × (T (is_sorted order tree.old) → find order name.now tree.old ≡ None))) }
    ensures unused { IfOk result (λ o. IfNone o (change.new ≡ change.old)) }
    ensures err { OnErr result (tree.new ≡ tree.old) }
    ensures count { length tree.new ≡ length tree.old }
{
    let Some(root) = &mut tree.root else {
        return Ok(None);
    };
    let fork = Rc::make_mut(root)?;
    match fork.item.0.get().stands(name) {
        Ordering::Less => self::change(&mut fork.left, alloc, name, change),
        Ordering::Equal => {
            let value = fork.item.1.get_mut(alloc)?;
            let answer = change.change(value);
            Ok(Some(answer))
        }
        Ordering::Greater => self::change(&mut fork.right, alloc, name, change),
    }
}
