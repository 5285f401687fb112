//! Whether a sequence occurs in a history.
ghost use Rattle.std.specs.Prelude.{ℕ, ◌≡◌, ◌&&◌, ◌≤◌, ◌<◌, ◌-◌, ◌+◌, true, false, [], length, drop, get_or, slice_get, Some};
ghost use Rattle.std.specs.Bool.{Decides};
ghost use Rattle.tks_bind.specs.Occurs.{turned, Occurs};
ghost use Rattle.tks_bind.specs.Matching.{fits, may_follow};
ghost use Rattle.tks_bind.specs.Search.{ends_at, Precedes, Joins, Tells};

use crate::history::History;
use crate::matching::{fits, may_follow, may_lie_before};
use crate::ring::MAX_HISTORY;
use tks_event::{Event, Pattern};

/// For each event of a history, whether it may be chosen for a pattern, with events behind it for those that follow.
type Row = [bool; MAX_HISTORY];

// Whether an event may be chosen for a pattern, where this one is chosen for the pattern behind it, if what lies between
// may lie there.
fn is_chosen(earlier: &Pattern, later: &Pattern, before: &Event, event: &Event) -> bool
    ensures { result ≡ (fits earlier.now before.now && may_follow later.now before.now event.now) }
{
    fits(earlier, before) && may_follow(later, before, event)
}

// Goes back from an event that is chosen for a pattern, and notes those that may be chosen for the pattern before it.
fn note_before(earlier: &Pattern, later: &Pattern, history: &History, place: usize, row: &mut Row)
    requires place { place < length history.now }
    requires small { length history.now ≤ 32 }
    ensures { Joins row.old row.new (λ n. Precedes earlier.now later.now history.now n place) }
{
    let event = history.at(place);
    let mut from = place;
    while from > 0 {
        from -= 1;
        let before = history.at(from);
        row[from] = row[from] | is_chosen(earlier, later, before, event);
        if !may_lie_before(event, before) {
            return;
        }
    }
}

// The row of a pattern, from that of the pattern behind it.
fn row_before(earlier: &Pattern, later: &Pattern, history: &History, behind: &Row) -> Row
    ensures { (n : ℕ) → Decides (get_or result n false) ((place : ℕ) × (place < length history.now) × (get_or behind.now place false ≡ true) × Precedes earlier.now later.now history.now n place) }
{
    let mut row = [false; MAX_HISTORY];
    for place in 0..history.len() {
        if behind[place] {
            note_before(earlier, later, history, place, &mut row);
        }
    }
    row
}

// The row of the last pattern, which has the last event.
fn last_row(pattern: &Pattern, history: &History) -> Row
    requires { 0 < length history.now }
    ensures { Tells result pattern.now [] history.now }
{
    let mut row = [false; MAX_HISTORY];
    let last = history.len() - 1;
    row[last] = fits(pattern, history.at(last));
    row
}

// Whether some event may be chosen.
fn is_any(row: &Row) -> bool
    ensures { Decides result ((n : ℕ) × (get_or row.now n false ≡ true)) }
{
    for is_chosen in row {
        if *is_chosen {
            return true;
        }
    }
    false
}

// Whether events may be chosen for all patterns: for each of them, from the last one back, it is found which may be chosen
// with those behind it.
fn are_chosen(sequence: &[Pattern], history: &History) -> bool
    requires patterns { 0 < length sequence.now }
    requires some { 0 < length history.now }
    ensures { Decides result (Occurs sequence.now history.now) }
{
    let mut at = sequence.len() - 1;
    let mut row = last_row(&sequence[at], history);
    while at > 0 {
        let later = &sequence[at];
        at -= 1;
        row = row_before(&sequence[at], later, history, &row);
    }
    is_any(&row)
}

/// Whether a sequence occurs in a history.
pub fn occurs(sequence: &[Pattern], history: &History) -> bool
    ensures { Decides result (Occurs sequence.now history.now) }
{
    let Some(last) = history.last() else {
        return false;
    };
    match sequence {
        [] => false,
        [pattern] => fits(pattern, last),
        _ => are_chosen(sequence, history),
    }
}
