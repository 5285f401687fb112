//! Maps from names.
ghost use Rattle.std.specs.Prelude.{◌≡◌, length, None, OnOk};
ghost use Rattle.std.specs.List.{AllByRecursion};
ghost use Rattle.tks_vars.specs.Table.{HasName, IsName};
ghost use Rattle.tks_spelling.specs.Spelling.{text, members};
ghost use Rattle.tks_spelling.specs.Reading.{Gives};
ghost use Rattle.tks_spelling.specs.Writing.{PutsSo};
ghost use Rattle.tks_spelling.specs.Lengths.{counted};
ghost use Rattle.tks_codec_variables.specs.Table as kinds;
ghost use Rattle.tks_codec_variables.specs.Table.{entry, table_at};

use std::alloc::{AllocError, Global};
use tks_spelling::writing::put_u32;
use tks_spelling::{Entries, Members, Texts, Unread, list_by};
use tks_text::Txt;
use tks_vars::{Iter, Table};

/// What may stand under the names of a map: each is read and written by itself, and has a spelling.
pub trait Named<X>: Members<X> {
    ghost all_are_sound: { (values : Self) (x : X) → Self.IsSound values x };
}

impl Named<Txt> for Texts {
    ghost all_are_sound = { λ texts t. tt };
}

/// A map to such values.
#[tactic(auto, unfolding(crate::specs::Table::table_at))]
pub fn table_of<X: Drop, M: Named<X>>(
    alloc: Global,
    values: M,
    bytes: &[u8],
) -> Result<(Table<X>, &[u8]), Unread>
    ensures { Gives (λ x. (x.0, x.1.now)) result (table_at (M.spelling values) bytes.now) }
{
    let (entries, rest) = list_by(alloc, &Entries { values }, bytes)?;
    let table = Table::restore(alloc, entries.into_items())?;
    Ok((table, rest))
}

// Adds bytes.
#[tactic(auto, using(tks_spelling::proofs::Puts::still, tks_spelling::proofs::Puts::all_there))]
fn put_bytes(out: &mut Vec<u8>, bytes: &[u8]) -> Result<(), AllocError>
    ensures { PutsSo result out.old.items out.new.items bytes.now }
{
    out.extend_from_slice(bytes)?;
    Ok(())
}

// Adds a name.
#[tactic(auto, using(tks_spelling::proofs::Puts::still, tks_spelling::proofs::Puts::put_behind))]
fn put_name(out: &mut Vec<u8>, name: &[u8]) -> Result<(), AllocError>
    requires { IsName name.now }
    ensures { PutsSo result out.old.items out.new.items (text.write name.now) }
{
    put_u32(out, name.len() as u32)?;
    put_bytes(out, name)?;
    Ok(())
}

// Adds a name, and what is under it.
fn put_entry<X: Drop, M: Named<X>>(
    out: &mut Vec<u8>,
    values: &M,
    name: &[u8],
    value: &X,
) -> Result<(), AllocError>
    requires { IsName name.now }
    ensures puts { PutsSo result out.old.items out.new.items ((entry (M.spelling values.now)).write (name.now, value.now)) }
    ensures legal { OnOk result ((entry (M.spelling values.now)).Legal (name.now, value.now)) }
{
    put_name(out, name)?;
    values.put(out, value)
}

// Adds each of the entries.
fn put_each<X: Drop, M: Named<X>>(
    out: &mut Vec<u8>,
    values: &M,
    entries: Iter<'_, X>,
) -> Result<(), AllocError>
    requires { AllByRecursion HasName entries }
    ensures puts { PutsSo result out.old.items out.new.items (members (λ before. entry (M.spelling values.now)) None entries.entry) }
    ensures legal { OnOk result (AllByRecursion (entry (M.spelling values.now)).Legal entries.entry) }
{
    for (name, value) in entries {
        put_entry(out, values, name, value)?;
    }
    Ok(())
}

/// Adds a map.
pub fn put_table<X: Drop, M: Named<X>>(
    out: &mut Vec<u8>,
    values: M,
    table: &Table<X>,
) -> Result<(), AllocError>
    ensures puts { PutsSo result out.old.items out.new.items ((kinds.table (M.spelling values)).write table.now) }
    ensures legal { OnOk result ((kinds.table (M.spelling values)).Legal table.now) }
{
    put_u32(out, table.len() as u32)?;
    put_each(out, &values, table.iter())
}

// The length of a name, and of what is under it.
#[tactic(auto, using(tks_spelling::proofs::Counting::lengths))]
fn entry_length<X: Drop, M: Named<X>>(values: &M, name: &[u8], value: &X) -> u64
    ensures { result ≡ counted (length ((entry (M.spelling values.now)).write (name.now, value.now))) }
{
    values
        .spelled_length(value)
        .saturating_add(name.len() as u64 + 4)
}

// The length of the entries.
fn each_length<X: Drop, M: Named<X>>(values: &M, entries: Iter<'_, X>) -> u64
    ensures { result ≡ counted (length (members (λ before. entry (M.spelling values.now)) None entries.entry)) }
{
    let mut sum: u64 = 0;
    for (name, value) in entries {
        sum = sum.saturating_add(entry_length(values, name, value));
    }
    sum
}

/// The length of a map's spelling, in bytes.
pub fn table_length<X: Drop, M: Named<X>>(values: &M, table: &Table<X>) -> u64
    ensures { result ≡ counted (length ((kinds.table (M.spelling values.now)).write table.now)) }
{
    each_length(values, table.iter()).saturating_add(4)
}
