//! Ranges of characters.
ghost use Rattle.std.specs.Prelude.{◌≡◌, ◌<◌, ◌^◌, length, None};
ghost use Rattle.tks_lines.specs.Ranges.{ranges_of, is_behind};
ghost use Rattle.tks_spelling.specs.Spelling.{last_of};
ghost use Rattle.tks_spelling.specs.Writing.{PutsSo};
ghost use Rattle.tks_spelling.specs.Lengths.{counted};
ghost use Rattle.tks_codec_windows.specs.Lines as kinds;
ghost use Rattle.tks_codec_windows.specs.Lines.{may_follow};

use std::alloc::{AllocError, Global};
use tks_lines::{Flags, Range};
use tks_spelling::reading::u32_of;
use tks_spelling::writing::put_u32;
use tks_spelling::{Following, Members, Unread, put_list};

/// Two places each.
#[derive(Clone, Copy)]
struct Places;

impl Members<Range> for Places {
    ghost use Rattle.tks_codec_windows.specs.Lines.{places, IsSmall};

    ghost spelling = { λ two. places };

    ghost IsSound = { λ two r. IsSmall r };

    fn read<'a>(&self, _alloc: Global, bytes: &'a [u8]) -> Result<(Range, &'a [u8]), Unread> {
        let (first, rest) = u32_of(bytes)?;
        let (last, rest) = u32_of(rest)?;
        let range = Range {
            first: first as usize,
            last: last as usize,
        };
        Ok((range, rest))
    }

    fn put(&self, out: &mut Vec<u8>, range: &Range) -> Result<(), AllocError> {
        put_u32(out, range.first as u32)?;
        put_u32(out, range.last as u32)
    }

    fn spelled_length(&self, _range: &Range) -> u64 {
        8
    }
}

// Whether a range may begin in a place behind these.
fn may_begin(ranges: &[Range], first: usize) -> bool
    ensures { result ≡ is_behind (last_of None ranges.now) first }
{
    match ranges {
        [] => true,
        [.., before] => before.last < first,
    }
}

// Whether a range of so many characters may come behind these.
fn may_follow(len: usize, ranges: &[Range], range: &Range) -> bool
    ensures { result ≡ may_follow len (last_of None ranges.now) range.now }
{
    may_begin(ranges, range.first) && range.first < range.last && range.last <= len
}

/// Ranges of so many characters: they rise, none is empty, and none touches another.
#[derive(Clone, Copy)]
pub struct RangesWithin {
    pub len: usize,
}

impl Following<Range> for RangesWithin {
    ghost use Rattle.tks_codec_windows.specs.Lines.{range};

    ghost member = { λ within. range within.len };

    fn read_next<'a>(
        &self,
        alloc: Global,
        before: &[Range],
        bytes: &'a [u8],
    ) -> Result<(Range, &'a [u8]), Unread> {
        let (range, rest) = Places.read(alloc, bytes)?;
        if !may_follow(self.len, before, &range) {
            return Err(Unread::Left(rest.len() + 1));
        }
        Ok((range, rest))
    }
}

/// Adds the ranges of flags.
pub fn put_flags(out: &mut Vec<u8>, flags: &Flags) -> Result<(), AllocError>
    requires { length flags.now < 2 ^ 32 }
    ensures { PutsSo result out.old.items out.new.items ((kinds.ranges (length flags.now)).write (ranges_of flags.now)) }
{
    put_list(out, Places, flags.ranges())
}

/// The length of the spelling of the ranges of flags, in bytes.
pub fn flags_length(flags: &Flags) -> u64
    ensures { result ≡ counted (length ((kinds.ranges (length flags.now)).write (ranges_of flags.now))) }
{
    8 * flags.ranges().len() as u64 + 4
}
