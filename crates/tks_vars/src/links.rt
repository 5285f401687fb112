//! Names of a procedure's frame that are made links all at once.
ghost use Rattle.std.specs.Prelude.{◌≡◌, true, take, length, IfOk, IfSome, IfNone, OnErr};
ghost use Rattle.std.specs.FinMap as map;
ghost use Rattle.tks_vars.specs.Few.{put_behind};
ghost use Rattle.tks_vars.specs.Links.{IsNew, IsLinked};

use crate::content::Local;
use crate::few::{FEW, Few};
use crate::name::names_whole;
use crate::table::Table;
use std::alloc::AllocError;
use tks_text::Txt;

/// Makes these names links behind the first ones, where all are new and there is room for them: how many names there are then.
/// Otherwise nothing changes.
pub fn add_links(
    first: &mut Few,
    rest: &Table<Local>,
    len: usize,
    names: &[Txt],
    most: usize,
) -> Result<Option<usize>, AllocError>
    requires { len ≡ map.len (put_behind rest.now first.old) }
    ensures made { IfOk result (λ o. IfSome o (λ _. IsLinked most names.now (put_behind rest.now first.old) (put_behind rest.now first.new))) }
    ensures count { IfOk result (λ o. IfSome o (λ n. n ≡ map.len (put_behind rest.now first.new))) }
    ensures none { IfOk result (λ o. IfNone o (first.new ≡ first.old)) }
    ensures err { OnErr result (first.new ≡ first.old) }
{
    let before = first.len();
    match add_each(first, rest, len, names, most) {
        Ok(Some(len)) => Ok(Some(len)),
        other => {
            first.truncate(before);
            other
        }
    }
}

// Makes names links behind the first ones, up to one that isn't new or for which there is no room.
fn add_each(
    first: &mut Few,
    rest: &Table<Local>,
    len: usize,
    names: &[Txt],
    most: usize,
) -> Result<Option<usize>, AllocError>
    requires { len ≡ map.len (put_behind rest.now first.old) }
    ensures made { IfOk result (λ o. IfSome o (λ _. IsLinked most names.now (put_behind rest.now first.old) (put_behind rest.now first.new))) }
    ensures count { IfOk result (λ o. IfSome o (λ n. n ≡ map.len (put_behind rest.now first.new))) }
    ensures front { take (length first.old) first.new ≡ first.old }
{
    let mut count = len;
    for name in names {
        if count >= most || first.len() >= FEW || !is_new(name, first, rest) {
            return Ok(None);
        }
        first.push(name.try_clone()?, Local::Link)?;
        count += 1;
    }
    Ok(Some(count))
}

// Whether a name is that of a whole variable, and stands neither among the first ones nor in the rest.
fn is_new(name: &Txt, first: &Few, rest: &Table<Local>) -> bool
    ensures { result ≡ true → IsNew name.now first.now rest.now }
{
    names_whole(name) && first.place(name.as_bytes()).is_none() && !rest.contains(name.as_bytes())
}
