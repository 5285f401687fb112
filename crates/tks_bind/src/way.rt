//! Which way to meet a binding beats which.
ghost use Rattle.std.specs.Prelude.{◌≡◌, ◌&&◌, ◌==◌, bit_and, if◌then◌else◌, length, [], List, Some, None};
ghost use Rattle.tks_bind.specs.Occurs.{turned};
ghost use Rattle.tks_bind.specs.Choice.{last_has_detail};
ghost use Rattle.tks_bind.specs.Beating.{overrides, beats, beats_alike};
ghost use Rattle.tks_bind.specs.Ways.{way_of, overrides_to};

use crate::matching::has_detail;
use tks_event::{Pattern, Sequence, are_equal};

/// A way by which an event meets a binding: by its own sequence, or by one of the virtual event that it is for.
#[derive(Clone, Copy)]
pub struct Way<'a> {
    pub sequence: &'a Sequence,
    pub is_virtual: bool,
}

// Whether the last of the patterns has a detail.
fn last_has_detail(patterns: &[Pattern]) -> bool
    ensures { result ≡ last_has_detail patterns.now }
{
    match patterns.last() {
        Some(pattern) => has_detail(pattern),
        None => false,
    }
}

// Whether, from the last pattern backwards, the first set of modifiers that differs has all of the other's.
fn overrides(patterns: &[Pattern], others: &[Pattern]) -> bool
    requires { length patterns.now ≡ length others.now }
    ensures { result ≡ overrides (turned patterns.now []) (turned others.now []) }
{
    let mut answer = false;
    for (place, pattern) in patterns.iter().enumerate() {
        answer = overrides_to(pattern, &others[place], answer);
    }
    answer
}

// The same, where it is known of those before.
fn overrides_to(pattern: &Pattern, other: &Pattern, before: bool) -> bool
    ensures { result ≡ overrides_to pattern.now other.now before }
{
    if pattern.modifiers.bits() == other.modifiers.bits() {
        before
    } else {
        pattern.modifiers.holds(other.modifiers)
    }
}

// Where the last patterns of both have a detail, or neither.
fn beats_alike(way: Way<'_>, other: Way<'_>) -> bool
    ensures { result ≡ beats_alike (way_of way.entry) (way_of other.entry) }
{
    let (patterns, others) = (way.sequence.as_slice(), other.sequence.as_slice());
    if patterns.len() != others.len() {
        return patterns.len() > others.len();
    }
    overrides(patterns, others)
        || (are_equal(patterns, others) && !way.is_virtual && other.is_virtual)
}

/// Whether a way is more specific than another.
pub fn beats(way: Way<'_>, other: Way<'_>) -> bool
    ensures { result ≡ beats (way_of way.entry) (way_of other.entry) }
{
    match (
        last_has_detail(way.sequence.as_slice()),
        last_has_detail(other.sequence.as_slice()),
    ) {
        (true, false) => true,
        (false, true) => false,
        _ => beats_alike(way, other),
    }
}
