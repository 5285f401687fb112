//! Shared lists, of which each member is spelled by itself.
ghost use Rattle.std.specs.Prelude.{◌≡◌, length, None, OnOk};
ghost use Rattle.std.specs.List.{AllByRecursion};
ghost use Rattle.tks_text.specs.Short.{IsShort};
ghost use Rattle.tks_spelling.specs.Spelling as spellings;
ghost use Rattle.tks_spelling.specs.Spelling.{list};
ghost use Rattle.tks_spelling.specs.Writing.{PutsSo};
ghost use Rattle.tks_spelling.specs.Lengths.{counted};

use crate::member::Members;
use crate::writing::put_u32;
use std::alloc::AllocError;
use tks_share::Items;

// Adds each of the items of a shared list.
fn put_each_item<T: Drop, M: Members<T>>(
    out: &mut Vec<u8>,
    members: &M,
    items: Items<'_, T>,
) -> Result<(), AllocError>
    requires { AllByRecursion (M.IsSound members.now) items }
    ensures puts { PutsSo result out.old.items out.new.items (spellings.members (λ before. M.spelling members.now) None items.entry) }
    ensures legal { OnOk result (AllByRecursion (M.spelling members.now).Legal items.entry) }
{
    for x in items {
        members.put(out, x)?;
    }
    Ok(())
}

/// Adds the items of a shared list, so many, fewer than 2^32.
pub fn put_items<T: Drop, M: Members<T>>(
    out: &mut Vec<u8>,
    members: M,
    items: Items<'_, T>,
    count: usize,
) -> Result<(), AllocError>
    requires all { count ≡ length items }
    requires short { IsShort items }
    requires sound { AllByRecursion (M.IsSound members) items }
    ensures puts { PutsSo result out.old.items out.new.items ((list (M.spelling members)).write items.entry) }
    ensures legal { OnOk result ((list (M.spelling members)).Legal items.entry) }
{
    put_u32(out, count as u32)?;
    put_each_item(out, &members, items)
}

// The length of the items of a shared list, one behind the other.
fn each_length<T: Drop, M: Members<T>>(members: &M, items: Items<'_, T>) -> u64
    ensures { result ≡ counted (length (spellings.members (λ before. M.spelling members.now) None items.entry)) }
{
    let mut sum: u64 = 0;
    for x in items {
        sum = sum.saturating_add(members.spelled_length(x));
    }
    sum
}

/// The length of the spelling of a shared list's items, in bytes.
pub fn items_length<T: Drop, M: Members<T>>(members: &M, items: Items<'_, T>) -> u64
    ensures { result ≡ counted (length ((list (M.spelling members.now)).write items.entry)) }
{
    each_length(members, items).saturating_add(4)
}
