//! Ranges that are changed where they stand.
ghost use Rattle.std.specs.Prelude.{◌≡◌, ◌+◌, ◌-◌, ◌<◌, ◌≤◌, ◌^◌, ◌++◌, ◌∷◌, [], length, map, take, drop, OnOk, OnErr, IsOk};
ghost use Rattle.std.specs.List.{AllByRecursion};
ghost use Rattle.std.specs.List.Sorted.{IsNonDecreasingBy};
ghost use Rattle.tks_lines.specs.Ranges.{ending_before, beginning_up_to, begin_of, end_of, moved, unless_empty, MayMove};

use crate::range::Range;
use std::alloc::AllocError;

/// How many ranges end before a place.
pub(crate) fn ending_before(ranges: &[Range], place: usize) -> usize
    requires { IsNonDecreasingBy (λ r. r.last) ranges.now }
    ensures value { result ≡ ending_before place ranges.now }
    ensures bound { result ≤ length ranges.now }
{
    ranges.partition_point(|range| range.last < place)
}

/// How many begin up to a place.
pub(crate) fn beginning_up_to(ranges: &[Range], place: usize) -> usize
    requires { IsNonDecreasingBy (λ r. r.first) ranges.now }
    ensures value { result ≡ beginning_up_to place ranges.now }
    ensures bound { result ≤ length ranges.now }
{
    ranges.partition_point(|range| range.first <= place)
}

// Where the first of ranges begins, or a place before it.
fn begin_of(ranges: &[Range], place: usize) -> usize
    ensures { result ≡ begin_of ranges.now place }
{
    match ranges {
        [] => place,
        [range, ..] => range.first.min(place),
    }
}

// Where the last of ranges ends, or a place behind it.
fn end_of(ranges: &[Range], place: usize) -> usize
    ensures { result ≡ end_of ranges.now place }
{
    match ranges.last() {
        None => place,
        Some(range) => range.last.max(place),
    }
}

/// Where the first of those between two indices begins, or a place before it.
pub(crate) fn begin_between(ranges: &[Range], from: usize, to: usize, place: usize) -> usize
    requires { (from ≤ to) × (to ≤ length ranges.now) }
    ensures { result ≡ begin_of (take (to - from) (drop from ranges.now)) place }
{
    begin_of(&ranges[from..to], place)
}

/// Where the last of those between two indices ends, or a place behind it.
pub(crate) fn end_between(ranges: &[Range], from: usize, to: usize, place: usize) -> usize
    requires { (from ≤ to) × (to ≤ length ranges.now) }
    ensures { result ≡ end_of (take (to - from) (drop from ranges.now)) place }
{
    end_of(&ranges[from..to], place)
}

// Those of two ranges that aren't empty.
fn unless_empty(two: &[Range; 2]) -> &[Range]
    ensures { result.now ≡ unless_empty two.now }
{
    let from = usize::from(two[0].last <= two[0].first);
    let to = 1 + usize::from(two[1].first < two[1].last);
    &two[from..to]
}

// Puts ranges over as many from an index on.
fn overwrite(ranges: &mut Vec<Range>, from: usize, more: &[Range])
    requires { from + length more.now ≤ length ranges.old.items }
    ensures { ranges.new.items ≡ take from ranges.old.items ++ (more.now ++ drop (from + length more.now) ranges.old.items) }
{
    ranges[from..from + more.len()].copy_from_slice(more);
}

// Takes out those between two indices.
fn remove_between(ranges: &mut Vec<Range>, from: usize, to: usize)
    requires { (from ≤ to) × (to ≤ length ranges.old.items) }
    ensures { ranges.new.items ≡ take from ranges.old.items ++ drop to ranges.old.items }
{
    drop(ranges.drain(from..to));
}

// Puts as many ranges or fewer in the place of those between two indices.
fn put_over(ranges: &mut Vec<Range>, from: usize, to: usize, more: &[Range])
    requires inside { to ≤ length ranges.old.items }
    requires fewer { from + length more.now ≤ to }
    ensures { ranges.new.items ≡ take from ranges.old.items ++ (more.now ++ drop to ranges.old.items) }
{
    overwrite(ranges, from, more);
    remove_between(ranges, from + more.len(), to);
}

// Puts ranges in the place of those between two indices, no more than one more. It takes memory for that one alone.
fn put(ranges: &mut Vec<Range>, from: usize, to: usize, more: &[Range]) -> Result<(), AllocError>
    requires inside { (from ≤ to) × (to ≤ length ranges.old.items) }
    requires fewer { from + length more.now ≤ to + 1 }
    ensures ok { OnOk result (ranges.new.items ≡ take from ranges.old.items ++ (more.now ++ drop to ranges.old.items)) }
    ensures err { OnErr result (ranges.new.items ≡ ranges.old.items) }
    ensures fits { from + length more.now ≤ to → IsOk result }
{
    if let Some((last, others)) = more.split_last() {
        if to < from + more.len() {
            ranges.insert(to, *last)?;
            ranges[from..to].copy_from_slice(others);
            return Ok(());
        }
    }
    put_over(ranges, from, to, more);
    Ok(())
}

// Moves a range as one place goes to another.
fn move_one(range: &mut Range, from: usize, to: usize)
    requires { MayMove from to range.old }
    ensures { range.new ≡ moved from to range.old }
{
    range.first = range.first - from + to;
    range.last = range.last - from + to;
}

// Moves each range as one place goes to another.
fn move_each(ranges: &mut [Range], from: usize, to: usize)
    requires { AllByRecursion (MayMove from to) ranges.old }
    ensures { ranges.new ≡ map (moved from to) ranges.old }
{
    if from == to {
        return;
    }
    for range in ranges.iter_mut() {
        move_one(range, from, to);
    }
}

// Moves those from an index on as one place goes to another.
fn move_behind(ranges: &mut Vec<Range>, index: usize, from: usize, to: usize)
    requires inside { index ≤ length ranges.old.items }
    requires small { AllByRecursion (MayMove from to) (drop index ranges.old.items) }
    ensures { ranges.new.items ≡ take index ranges.old.items ++ map (moved from to) (drop index ranges.old.items) }
{
    move_each(&mut ranges[index..], from, to);
}

/// Puts those of two ranges that aren't empty in the place of those between two indices, no more than one more, and moves
/// those behind them as one place goes to another. It takes memory where there is one more.
pub(crate) fn put_and_move(
    ranges: &mut Vec<Range>,
    from: usize,
    to: usize,
    two: &[Range; 2],
    place: usize,
    behind: usize,
) -> Result<(), AllocError>
    requires inside { (from ≤ to) × (to ≤ length ranges.old.items) }
    requires fewer { from + length (unless_empty two.now) ≤ to + 1 }
    requires small { AllByRecursion (MayMove place behind) (drop to ranges.old.items) }
    ensures ok { OnOk result (ranges.new.items ≡ take from ranges.old.items ++ (unless_empty two.now ++ map (moved place behind) (drop to ranges.old.items))) }
    ensures err { OnErr result (ranges.new.items ≡ ranges.old.items) }
    ensures fits { from + length (unless_empty two.now) ≤ to → IsOk result }
{
    let more = unless_empty(two);
    put(ranges, from, to, more)?;
    move_behind(ranges, from + more.len(), place, behind);
    Ok(())
}
