//! Which characters of a text have a tag.
ghost use Rattle.std.specs.Prelude.{◌≡◌, ◌+◌, ◌-◌, ◌++◌, ◌<◌, ◌≤◌, ◌^◌, length, take, drop, replicate, false, None, IfOk, OnOk, OnErr, IsOk, slice_get};
ghost use Rattle.tks_text.specs.Short.{IsShort};
ghost use Rattle.tks_lines.specs.Lines.{spliced, cut, painted, is_true};
ghost use Rattle.tks_lines.specs.Ranges.{ranges_of, flags_of, untagged, AreRanges};

use crate::lined_text::MAX_LEN;
use crate::range::Range;
use crate::range_list::{begin_between, beginning_up_to, end_between, ending_before, put_and_move};
use std::alloc::{AllocError, Global};
use std::marker::Model;
use tks_text::Seq;

/// Which of the characters of a text have a tag, in order: contracts see a flag for each character, and what is kept is the
/// ranges of those that have it. They are changed where they stand.
#[derive(Drop)]
pub struct Flags {
    len: usize,
    ranges: Vec<Range>,
}

impl Model for Flags {
    ghost use Rattle.std.specs.Prelude.{List, Bool, ◌≤◌, None};
    ghost use Rattle.tks_lines.specs.Ranges.{flags_of, AreRanges};

    ghost Value = { List Bool };

    ghost view = { λ f. flags_of f.len f.ranges.items };

    ghost invariant = { λ f. AreRanges f.len None f.ranges.items × (f.len ≤ 4294967295) };
}

// Which of the characters that come in between two places lack the tag: those from one place up to another, or none, told at
// the end of the range that they come into.
fn untagged(first: usize, behind: usize, end: usize, value: bool) -> (usize, usize)
    ensures { result ≡ untagged first behind end value }
{
    if value || first == behind {
        return (end, end);
    }
    (first, behind)
}

impl Flags {
    /// None of so many characters. Too many are refused as memory is.
    pub(crate) fn none(alloc: Global, len: usize) -> Result<Flags, AllocError>
        ensures { IfOk result (λ f. f ≡ replicate len false) }
    {
        if len > MAX_LEN {
            return Err(AllocError);
        }
        Ok(Flags {
            len,
            ranges: Vec::new(alloc),
        })
    }

    /// Those of so many characters, where these ranges have the tag. Too many are refused as memory is.
    pub fn of_ranges(alloc: Global, len: usize, ranges: &[Range]) -> Result<Flags, AllocError>
        requires { (len < 2 ^ 63) × AreRanges len None ranges.now }
        ensures { IfOk result (λ f. f ≡ flags_of len ranges.now) }
    {
        if len > MAX_LEN {
            return Err(AllocError);
        }
        Ok(Flags {
            len,
            ranges: Vec::from_slice(alloc, ranges)?,
        })
    }

    /// The ranges of the characters that have the tag: they rise, none is empty, and none touches another.
    pub fn ranges(&self) -> &[Range]
        ensures value { result.now ≡ ranges_of self.now }
        ensures short { IsShort result.now }
    {
        self.ranges.as_slice()
    }

    /// How many characters there are.
    pub fn len(&self) -> usize
        ensures value { result ≡ length self.now }
        ensures bound { result < 2 ^ 63 }
    {
        self.len
    }

    /// Whether the character behind a place has the tag; where there is none, it hasn't.
    pub fn is_on(&self, place: usize) -> bool
        ensures { result ≡ is_true (slice_get self.now place) }
    {
        let ranges = self.ranges.as_slice();
        let begun = beginning_up_to(ranges, place);
        begun != 0 && place < ranges[begun - 1].last
    }

    // Puts so many characters, which have the tag or don't, in the place of those between two places: the ranges that these
    // touch become one or two, and those behind them move. It takes memory where there is one range more.
    fn replace(
        &mut self,
        first: usize,
        last: usize,
        count: usize,
        value: bool,
    ) -> Result<(), AllocError>
        requires inside { (first ≤ last) × (last ≤ length self.old) }
        requires short { count ≤ last - first + (4294967295 - length self.old) }
        ensures ok { OnOk result (self.new ≡ take first self.old ++ (replicate count value ++ drop last self.old)) }
        ensures err { OnErr result (self.new ≡ self.old) }
        ensures fits { count ≡ 0 → IsOk result }
    {
        let ranges = self.ranges.as_slice();
        let from = ending_before(ranges, first);
        let to = beginning_up_to(ranges, last);
        let behind = first + count;
        let begin = begin_between(ranges, from, to, first);
        let end = end_between(ranges, from, to, last) - last + behind;
        let (head, tail) = untagged(first, behind, end, value);
        let two = [
            Range {
                first: begin,
                last: head,
            },
            Range {
                first: tail,
                last: end,
            },
        ];
        put_and_move(&mut self.ranges, from, to, &two, last, behind)?;
        self.len = self.len - last + behind;
        Ok(())
    }

    /// Puts so many characters in at a place, which have the tag or don't. Too many are refused as memory is.
    pub(crate) fn splice(
        &mut self,
        place: usize,
        count: usize,
        value: bool,
    ) -> Result<(), AllocError>
        ensures ok { OnOk result (self.new ≡ spliced place (replicate count value) self.old) }
        ensures err { OnErr result (self.new ≡ self.old) }
    {
        let len = self.len();
        if count > MAX_LEN.saturating_sub(len) {
            return Err(AllocError);
        }
        let place = place.min(len);
        self.replace(place, place, count, value)
    }

    /// Takes the characters between two places out.
    pub(crate) fn cut(&mut self, first: usize, last: usize)
        ensures { self.new ≡ cut first last self.old }
    {
        let len = self.len();
        let last = last.max(first).min(len);
        let first = first.min(len);
        match self.replace(first, last, 0, false) {
            Ok(()) => (),
            Err(_) => unreachable!(),
        }
    }

    /// Gives the tag to the characters between two places, or takes it from them.
    pub(crate) fn paint(&mut self, first: usize, last: usize, value: bool) -> Result<(), AllocError>
        ensures ok { OnOk result (self.new ≡ painted value first last self.old) }
        ensures err { OnErr result (self.new ≡ self.old) }
    {
        let len = self.len();
        let last = last.max(first).min(len);
        let first = first.min(len);
        self.replace(first, last, last - first, value)
    }

    /// Equal flags.
    pub(crate) fn try_clone(&self) -> Result<Flags, AllocError>
        ensures { IfOk result (λ f. f ≡ self.now) }
    {
        Ok(Flags {
            len: self.len,
            ranges: self.ranges.clone()?,
        })
    }
}
