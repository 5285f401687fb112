//! Lists: how their members are read and written.
ghost use Rattle.std.specs.Prelude.{◌≡◌, length, None, OnOk};
ghost use Rattle.std.specs.List.{AllByRecursion};
ghost use Rattle.tks_text.specs.Short.{IsShort};
ghost use Rattle.tks_spelling.specs.Spelling as spellings;
ghost use Rattle.tks_spelling.specs.Spelling.{list, list_by, members_at};
ghost use Rattle.tks_spelling.specs.Reading.{Gives};
ghost use Rattle.tks_spelling.specs.Writing.{PutsSo};
ghost use Rattle.tks_spelling.specs.Lengths.{counted};

use crate::reading::u32_of;
use crate::unread::Unread;
use crate::writing::put_u32;
use std::alloc::{AllocError, Global};
use tks_text::Seq;

/// What may be the members of a list: each is read and written by itself.
pub trait Members<T>: Drop {
    ghost use Rattle.std.specs.Prelude.{◌≡◌, length, OnOk};
    ghost use Rattle.tks_spelling.specs.Spelling.{Spelling};
    ghost use Rattle.tks_spelling.specs.Reading.{Gives};
    ghost use Rattle.tks_spelling.specs.Writing.{PutsSo};
    ghost use Rattle.tks_spelling.specs.Lengths.{counted};

    ghost spelling: { Self → Spelling T };

    // what has to hold of one for it to have a spelling, besides what its type tells
    ghost IsSound: { Self → T → Type 0 };

    /// The one at the front of bytes, and the bytes behind it.
    fn read<'a>(&self, alloc: Global, bytes: &'a [u8]) -> Result<(T, &'a [u8]), Unread>
        ensures { Gives (λ x. (x.0, x.1.now)) result ((spelling self.now).read bytes.now) };

    /// Adds one.
    fn put(&self, out: &mut Vec<u8>, member: &T) -> Result<(), AllocError>
        requires { IsSound self.now member.now }
        ensures puts { PutsSo result out.old.items out.new.items ((spelling self.now).write member.now) }
        ensures legal { OnOk result ((spelling self.now).Legal member.now) };

    /// The length of one's spelling, in bytes.
    fn spelled_length(&self, member: &T) -> u64
        ensures { result ≡ counted (length ((spelling self.now).write member.now)) };
}

/// What may be the members of a list in which the spelling of one may depend on the one before it.
pub trait Following<T> {
    ghost use Rattle.std.specs.Prelude.{◌≡◌, Option, None};
    ghost use Rattle.tks_spelling.specs.Spelling.{Spelling, last_of};
    ghost use Rattle.tks_spelling.specs.Reading.{Gives};

    ghost member: { Self → Option T → Spelling T };

    /// The next one at the front of bytes, behind these members, and the bytes behind it.
    fn read_next<'a>(
        &self,
        alloc: Global,
        before: &[T],
        bytes: &'a [u8],
    ) -> Result<(T, &'a [u8]), Unread>
        ensures { Gives (λ x. (x.0, x.1.now)) result ((member self.now (last_of None before.now)).read bytes.now) };
}

/// Members that are read each by itself.
#[derive(Drop)]
struct Each<M> {
    members: M,
}

impl<T, M: Members<T>> Following<T> for Each<M> {
    ghost member = { λ each before. M.spelling each.members };

    fn read_next<'a>(
        &self,
        alloc: Global,
        _before: &[T],
        bytes: &'a [u8],
    ) -> Result<(T, &'a [u8]), Unread> {
        self.members.read(alloc, bytes)
    }
}

// So many members. Room is made for each as it is read.
fn members_of<'a, T: Drop, F: Following<T>>(
    alloc: Global,
    following: &F,
    count: u32,
    bytes: &'a [u8],
) -> Result<(Seq<T>, &'a [u8]), Unread>
    ensures { Gives (λ x. (x.0, x.1.now)) result (members_at (F.member following.now) None count bytes.now) }
{
    let mut members = Seq::new(alloc);
    let mut rest = bytes;
    for _ in 0..count {
        let (member, after) = following.read_next(alloc, members.as_slice(), rest)?;
        members.push(member)?;
        rest = after;
    }
    Ok((members, rest))
}

/// A list of members, each of which follows the one before it.
#[tactic(auto, unfolding(crate::specs::Spelling::list_at))]
pub fn list_by<'a, T: Drop, F: Following<T>>(
    alloc: Global,
    following: &F,
    bytes: &'a [u8],
) -> Result<(Seq<T>, &'a [u8]), Unread>
    ensures { Gives (λ x. (x.0, x.1.now)) result ((list_by (F.member following.now)).read bytes.now) }
{
    let (count, rest) = u32_of(bytes)?;
    let (members, rest) = members_of(alloc, following, count, rest)?;
    Ok((members, rest))
}

/// A list of such members.
pub fn list_of<T: Drop, M: Members<T>>(
    alloc: Global,
    members: M,
    bytes: &[u8],
) -> Result<(Seq<T>, &[u8]), Unread>
    ensures { Gives (λ x. (x.0, x.1.now)) result ((list (M.spelling members)).read bytes.now) }
{
    list_by(alloc, &Each { members }, bytes)
}

// Adds each of these.
fn put_each<T, M: Members<T>>(out: &mut Vec<u8>, members: &M, xs: &[T]) -> Result<(), AllocError>
    requires { AllByRecursion (M.IsSound members.now) xs.now }
    ensures puts { PutsSo result out.old.items out.new.items (spellings.members (λ before. M.spelling members.now) None xs.now) }
    ensures legal { OnOk result (AllByRecursion (M.spelling members.now).Legal xs.now) }
{
    for x in xs {
        members.put(out, x)?;
    }
    Ok(())
}

/// Adds a list of such members, fewer than 2^32.
pub fn put_list<T, M: Members<T>>(out: &mut Vec<u8>, members: M, xs: &[T]) -> Result<(), AllocError>
    requires short { IsShort xs.now }
    requires sound { AllByRecursion (M.IsSound members) xs.now }
    ensures puts { PutsSo result out.old.items out.new.items ((list (M.spelling members)).write xs.now) }
    ensures legal { OnOk result ((list (M.spelling members)).Legal xs.now) }
{
    put_u32(out, xs.len() as u32)?;
    put_each(out, &members, xs)
}

// The length of these, one behind the other.
fn each_length<T, M: Members<T>>(members: &M, xs: &[T]) -> u64
    ensures { result ≡ counted (length (spellings.members (λ before. M.spelling members.now) None xs.now)) }
{
    let mut sum: u64 = 0;
    for x in xs {
        sum = sum.saturating_add(members.spelled_length(x));
    }
    sum
}

/// The length of the spelling of a list of such members, in bytes.
pub fn list_length<T, M: Members<T>>(members: &M, xs: &[T]) -> u64
    ensures { result ≡ counted (length ((list (M.spelling members.now)).write xs.now)) }
{
    each_length(members, xs).saturating_add(4)
}
