//! Events.
ghost use Rattle.std.specs.Prelude.{◌≡◌, ◌<◌, ◌^◌, length, OnOk};
ghost use Rattle.tks_spelling.specs.Spelling as spellings;
ghost use Rattle.tks_spelling.specs.Reading.{Gives};
ghost use Rattle.tks_spelling.specs.Writing.{PutsSo, flattened};
ghost use Rattle.tks_spelling.specs.Lengths.{counted};
ghost use Rattle.tks_codec_events.specs.Event as events;
ghost use Rattle.tks_codec_events.specs.Event.{fields_at, subject_parts, moment_parts, place_parts, event_parts, event_at, HasPlaces};

use crate::kind::{kind_of, put_kind};
use std::alloc::{AllocError, Global};
use tks_event::{Event, EventFields, Modifiers};
use tks_spelling::reading::{i64_of, text_of, u16_of, u64_of};
use tks_spelling::writing::{put_i64, put_text, put_u16, put_u64};
use tks_spelling::{Members, Unread, text_length};

// The fields of an event.
#[tactic(auto, unfolding(crate::specs::Event::fields_at))]
fn fields_of(alloc: Global, bytes: &[u8]) -> Result<(EventFields, &[u8]), Unread>
    ensures { Gives (λ x. (x.0, x.1.now)) result (fields_at bytes.now) }
{
    let (window, rest) = u64_of(bytes)?;
    let (kind, rest) = kind_of(rest)?;
    let (detail, rest) = text_of(alloc, rest)?;
    let (bits, rest) = u16_of(rest)?;
    let Some(state) = Modifiers::from_bits(bits) else {
        return Err(Unread::Left(rest.len() + 1));
    };
    let (time, rest) = u64_of(rest)?;
    let (x, rest) = i64_of(rest)?;
    let (y, rest) = i64_of(rest)?;
    let (root_x, rest) = i64_of(rest)?;
    let (root_y, rest) = i64_of(rest)?;
    let (payload, rest) = text_of(alloc, rest)?;
    let fields = EventFields {
        window,
        kind,
        detail,
        state,
        time,
        x,
        y,
        root_x,
        root_y,
        payload,
    };
    Ok((fields, rest))
}

/// An event.
#[tactic(auto, unfolding(crate::specs::Event::event_at, crate::specs::Event::fields_at))]
pub fn event_of(alloc: Global, bytes: &[u8]) -> Result<(Event, &[u8]), Unread>
    ensures { Gives (λ x. (x.0, x.1.now)) result (event_at bytes.now) }
{
    let (fields, rest) = fields_of(alloc, bytes)?;
    match Event::restore(fields) {
        Some(event) => Ok((event, rest)),
        None => Err(Unread::Left(rest.len() + 1)),
    }
}

// Adds the window, the kind and the detail of an event.
#[tactic(auto, using(tks_spelling::proofs::Puts::flattened_puts))]
fn put_subject(out: &mut Vec<u8>, event: &EventFields) -> Result<(), AllocError>
    ensures puts { PutsSo result out.old.items out.new.items (flattened (subject_parts event.now)) }
    ensures fits { OnOk result ((event.now.window < 2 ^ 64) × spellings.text.Legal event.now.detail) }
{
    put_u64(out, event.window)?;
    put_kind(out, event.kind)?;
    put_text(out, &event.detail)
}

// Adds the state and the time of an event.
#[tactic(auto, using(tks_spelling::proofs::Puts::flattened_puts))]
fn put_moment(out: &mut Vec<u8>, event: &EventFields) -> Result<(), AllocError>
    ensures puts { PutsSo result out.old.items out.new.items (flattened (moment_parts event.now)) }
    ensures fits { OnOk result ((event.now.state < 8_192) × (event.now.time < 2 ^ 64)) }
{
    put_u16(out, event.state.bits())?;
    put_u64(out, event.time)
}

// Adds the places of an event.
#[tactic(auto, using(tks_spelling::proofs::Puts::flattened_puts))]
fn put_places(out: &mut Vec<u8>, event: &EventFields) -> Result<(), AllocError>
    ensures puts { PutsSo result out.old.items out.new.items (flattened (place_parts event.now)) }
    ensures fits { OnOk result (HasPlaces event.now) }
{
    put_i64(out, event.x)?;
    put_i64(out, event.y)?;
    put_i64(out, event.root_x)?;
    put_i64(out, event.root_y)
}

// Adds the parts of an event.
#[tactic(auto, using(tks_spelling::proofs::Puts::flattened_puts))]
fn put_parts(out: &mut Vec<u8>, event: &EventFields) -> Result<(), AllocError>
    ensures puts { PutsSo result out.old.items out.new.items (flattened (event_parts event.now)) }
    ensures legal { OnOk result (events.fields.Legal event.now) }
{
    put_subject(out, event)?;
    put_moment(out, event)?;
    put_places(out, event)?;
    put_text(out, &event.payload)
}

/// Adds an event.
#[tactic(auto, unfolding(tks_spelling::specs::Writing::flattened))]
pub fn put_event(out: &mut Vec<u8>, event: &Event) -> Result<(), AllocError>
    ensures puts { PutsSo result out.old.items out.new.items (events.event.write event.now) }
    ensures legal { OnOk result (events.event.Legal event.now) }
{
    event.stands();
    put_parts(out, event)
}

/// The length of an event's spelling, in bytes.
#[tactic(auto, using(tks_spelling::proofs::Counting::lengths))]
pub(crate) fn event_length(event: &Event) -> u64
    ensures { result ≡ counted (length (events.event.write event.now)) }
{
    text_length(&event.detail)
        .saturating_add(text_length(&event.payload))
        .saturating_add(51)
}

/// Events.
#[derive(Clone, Copy)]
pub struct Events;

impl Members<Event> for Events {
    ghost use Rattle.tks_codec_events.specs.Event.{event};

    ghost spelling = { λ events. event };

    ghost IsSound = { λ events e. Unit {0} };

    #[tactic(auto, unfolding(crate::specs::Event::event_at))]
    fn read<'a>(&self, alloc: Global, bytes: &'a [u8]) -> Result<(Event, &'a [u8]), Unread> {
        event_of(alloc, bytes)
    }

    fn put(&self, out: &mut Vec<u8>, event: &Event) -> Result<(), AllocError> {
        put_event(out, event)
    }

    fn spelled_length(&self, event: &Event) -> u64 {
        event_length(event)
    }
}
