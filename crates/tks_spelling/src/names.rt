//! Names that rise by their bytes.

ghost use Rattle.std.specs.Prelude.{◌≡◌, ◌↔◌, true, None, OnOk};
ghost use Rattle.tks_spelling.specs.Spelling.{last_of, is_behind};
ghost use Rattle.tks_spelling.specs.Header as headers;
ghost use Rattle.tks_spelling.specs.Header.{may_follow, AreNames};
ghost use Rattle.tks_spelling.specs.Reading.{Gives};
ghost use Rattle.tks_spelling.specs.Writing.{PutsSo};

use crate::member::{Following, Members, list_by, put_list};
use crate::reading::text_of;
use crate::texts::Texts;
use crate::unread::Unread;
use std::alloc::{AllocError, Global};
use tks_text::{Seq, Txt};

// Whether a name may stand behind these.
fn is_behind(names: &[Txt], name: &Txt) -> bool
    ensures { result ≡ may_follow (last_of None names.now) name.now }
{
    match names {
        [] => true,
        [.., last] => last.as_bytes().cmp(name.as_bytes()).is_lt(),
    }
}

// Names, each behind the one before it, by their bytes.
struct NamesRise;

impl Following<Txt> for NamesRise {
    ghost use Rattle.tks_spelling.specs.Header.{name};

    ghost member = { λ rise. name };

    fn read_next<'a>(
        &self,
        alloc: Global,
        before: &[Txt],
        bytes: &'a [u8],
    ) -> Result<(Txt, &'a [u8]), Unread> {
        let (name, rest) = text_of(alloc, bytes)?;
        if !is_behind(before, &name) {
            return Err(Unread::Left(rest.len() + 1));
        }
        Ok((name, rest))
    }
}

// Whether the name of an entry is behind those of these.
fn entry_is_behind<X>(entries: &[(Txt, X)], entry: &(Txt, X)) -> bool
    ensures { result ≡ is_behind (λ e. e.0) (last_of None entries.now) entry.now }
{
    match entries {
        [] => true,
        [.., last] => last.0.as_bytes().cmp(entry.0.as_bytes()).is_lt(),
    }
}

/// Entries of a map, each a name and a value, in which each name is behind the one before it.
#[derive(Drop)]
pub struct Entries<M> {
    pub values: M,
}

impl<X: Drop, M: Members<X>> Following<(Txt, X)> for Entries<M> {
    ghost use Rattle.tks_spelling.specs.Spelling.{pair, text, such_that, is_behind};

    ghost member = { λ entries before. such_that (is_behind (λ e. e.0) before) (pair text (M.spelling entries.values)) };

    fn read_next<'a>(
        &self,
        alloc: Global,
        before: &[(Txt, X)],
        bytes: &'a [u8],
    ) -> Result<((Txt, X), &'a [u8]), Unread> {
        let (name, rest) = text_of(alloc, bytes)?;
        let (value, rest) = self.values.read(alloc, rest)?;
        let entry = (name, value);
        if !entry_is_behind(before, &entry) {
            return Err(Unread::Left(rest.len() + 1));
        }
        Ok((entry, rest))
    }
}

/// The names.
pub fn names_of(alloc: Global, bytes: &[u8]) -> Result<(Seq<Txt>, &[u8]), Unread>
    ensures { Gives (λ x. (x.0, x.1.now)) result (headers.names.read bytes.now) }
{
    list_by(alloc, &NamesRise, bytes)
}

/// Adds the names, which have to rise.
pub fn put_names(out: &mut Vec<u8>, names: &Seq<Txt>) -> Result<(), AllocError>
    requires { AreNames names.now }
    ensures puts { PutsSo result out.old.items out.new.items (headers.names.write names.now) }
    ensures legal { OnOk result (headers.names.Legal names.now) }
{
    put_list(out, Texts, names.as_slice())
}

/// Whether each is behind the one before it.
pub fn are_names(names: &[Txt]) -> bool
    ensures { (result ≡ true) ↔ AreNames names.now }
{
    for index in 0..names.len() {
        let (before, _) = names.split_at(index);
        if !is_behind(before, &names[index]) {
            return false;
        }
    }
    true
}
