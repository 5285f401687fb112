//! Which events a pattern fits, and what may lie between.
ghost use Rattle.std.specs.Prelude.{◌≡◌};
ghost use Rattle.tks_event.specs.Sequences.{is_some_text};
ghost use Rattle.tks_bind.specs.Matching.{fits, is_close, may_follow, may_lie_before};

use tks_event::{Event, Kind, Pattern, is_modifier_key, is_of_button};

/// How many milliseconds may lie between a near event and the one before it.
const NEAR_MILLISECONDS: u64 = 500;

/// Whether a pattern wants a detail.
pub fn has_detail(pattern: &Pattern) -> bool
    ensures { result ≡ is_some_text pattern.now.detail }
{
    !matches!(pattern.detail.as_bytes(), [])
}

/// Whether an event has a pattern's kind, its detail, if it has one, and at least its modifiers.
pub fn fits(pattern: &Pattern, event: &Event) -> bool
    ensures { result ≡ fits pattern.now event.now }
{
    pattern.kind.is(event.kind)
        && (!has_detail(pattern) || pattern.detail == event.detail)
        && event.state.holds(pattern.modifiers)
}

// Whether an event comes close behind another.
fn is_close(before: &Event, later: &Event) -> bool
    ensures { result ≡ is_close before.now later.now }
{
    before.time <= later.time
        && later.time - before.time <= NEAR_MILLISECONDS
        && (!is_of_button(later.kind)
            || (before.root_x == later.root_x && before.root_y == later.root_y))
}

/// Whether an event may be chosen for a pattern where the other one is chosen before it.
pub fn may_follow(pattern: &Pattern, before: &Event, later: &Event) -> bool
    ensures { result ≡ may_follow pattern.now before.now later.now }
{
    before.window == later.window && (!pattern.near || is_close(before, later))
}

/// Whether an event may lie before a chosen one.
pub fn may_lie_before(chosen: &Event, event: &Event) -> bool
    ensures { result ≡ may_lie_before chosen.now event.now }
{
    match event.kind {
        Kind::KeyPress => is_modifier_key(event.detail.as_bytes())
            && chosen.kind.is(Kind::KeyPress),
        kind => !kind.is(Kind::ButtonPress),
    }
}
