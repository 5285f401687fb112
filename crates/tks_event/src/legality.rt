//! Which events there are.
ghost use Rattle.std.specs.Prelude.{◌≡◌};
ghost use Rattle.tks_event.specs.Legality.{is_event, is_empty, is_place, is_zero, is_somewhere, is_nowhere, goes_with, suits_key, suits_button, suits_focus, suits_name};

use crate::event::EventFields;
use crate::keysym::is_keysym;
use crate::kind::{Kind, is_button};
use crate::validity::is_name;
use tks_text::{MAX_NUMBER, MAX_TIME};

/// How far from 0 a column or a row may lie.
const MAX_PLACE: i64 = 100_000;

fn is_empty(text: &[u8]) -> bool
    ensures { result ≡ is_empty text.now }
{
    match text {
        [] => true,
        _ => false,
    }
}

// Whether a number is a column or a row.
fn is_place(place: i64) -> bool
    ensures { result ≡ is_place place }
{
    -MAX_PLACE <= place && place <= MAX_PLACE
}

fn is_zero(place: i64) -> bool
    ensures { result ≡ is_zero place }
{
    place == 0
}

// Whether an event has places.
fn is_somewhere(event: &EventFields) -> bool
    ensures { result ≡ is_somewhere event.now }
{
    is_place(event.x) && is_place(event.y) && is_place(event.root_x) && is_place(event.root_y)
}

// Whether an event has no place.
fn is_nowhere(event: &EventFields) -> bool
    ensures { result ≡ is_nowhere event.now }
{
    is_zero(event.x) && is_zero(event.y) && is_zero(event.root_x) && is_zero(event.root_y)
}

fn suits_key(event: &EventFields) -> bool
    ensures { result ≡ suits_key event.now }
{
    is_keysym(event.detail.as_bytes()) && is_nowhere(event) && is_empty(event.payload.as_bytes())
}

fn suits_button(event: &EventFields) -> bool
    ensures { result ≡ suits_button event.now }
{
    is_button(event.detail.as_bytes()) && is_somewhere(event) && is_empty(event.payload.as_bytes())
}

fn suits_focus(event: &EventFields) -> bool
    ensures { result ≡ suits_focus event.now }
{
    is_empty(event.detail.as_bytes())
        && event.state.bits() == 0
        && event.time == 0
        && is_nowhere(event)
        && is_empty(event.payload.as_bytes())
}

fn suits_name(event: &EventFields) -> bool
    ensures { result ≡ suits_name event.now }
{
    is_name(event.detail.as_bytes()) && is_somewhere(event)
}

// Whether an event's fields go with its kind.
fn goes_with_kind(event: &EventFields) -> bool
    ensures { result ≡ goes_with event.now.kind event.now }
{
    match event.kind {
        Kind::KeyPress | Kind::KeyRelease => suits_key(event),
        Kind::ButtonPress | Kind::ButtonRelease => suits_button(event),
        Kind::FocusIn | Kind::FocusOut => suits_focus(event),
        Kind::Virtual => suits_name(event),
    }
}

/// Whether these are the fields of an event that there is: they go with its kind, those that the kind lacks are 0 or empty, and its
/// numbers are in their ranges.
#[tactic(auto, unfolding(crate::specs::Legality::is_event))]
pub fn is_event(event: &EventFields) -> bool
    ensures { result ≡ is_event event.now }
{
    event.window <= MAX_NUMBER && event.time <= MAX_TIME && goes_with_kind(event)
}
