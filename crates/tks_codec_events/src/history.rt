//! Histories of events.
ghost use Rattle.std.specs.Prelude.{◌≡◌, length, None, IfOk, OnOk};
ghost use Rattle.std.specs.List.{AllByRecursion};
ghost use Rattle.tks_spelling.specs.Reading.{Gives};
ghost use Rattle.tks_spelling.specs.Spelling.{members};
ghost use Rattle.tks_spelling.specs.Writing.{PutsSo};
ghost use Rattle.tks_spelling.specs.Lengths.{counted};
ghost use Rattle.tks_codec_events.specs.Event as events;
ghost use Rattle.tks_codec_events.specs.History as histories;
ghost use Rattle.tks_codec_events.specs.History.{history_at};

use crate::event::{Events, event_length, put_event};
use std::alloc::{AllocError, Global};
use tks_bind::{History, MAX_HISTORY, PastEvents, are_physical};
use tks_spelling::writing::put_u32;
use tks_spelling::{Unread, list_of};

/// A history.
#[tactic(auto, unfolding(crate::specs::History::history_at), using(tks_bind::proofs::Latest::all_latest))]
pub fn history_of(alloc: Global, bytes: &[u8]) -> Result<(History, &[u8]), Unread>
    ensures { Gives (λ x. (x.0, x.1.now)) result (history_at bytes.now) }
{
    let (events, rest) = list_of(alloc, Events, bytes)?;
    if events.len() > MAX_HISTORY || !are_physical(events.as_slice()) {
        return Err(Unread::Left(rest.len() + 1));
    }
    let history = History::restore(alloc, events.into_items())?;
    Ok((history, rest))
}

// Adds each of these events.
fn put_each(out: &mut Vec<u8>, past: PastEvents<'_>) -> Result<(), AllocError>
    ensures puts { PutsSo result out.old.items out.new.items (members (λ before. events.event) None past.entry) }
    ensures legal { OnOk result (AllByRecursion events.event.Legal past.entry) }
{
    for event in past {
        put_event(out, event)?;
    }
    Ok(())
}

/// Adds a history.
pub fn put_history(out: &mut Vec<u8>, history: &History) -> Result<(), AllocError>
    ensures puts { PutsSo result out.old.items out.new.items (histories.history.write history.now) }
    ensures legal { OnOk result (histories.history.Legal history.now) }
{
    put_u32(out, history.len() as u32)?;
    put_each(out, history.events())
}

// The length of these events, one behind the other.
fn each_length(past: PastEvents<'_>) -> u64
    ensures { result ≡ counted (length (members (λ before. events.event) None past.entry)) }
{
    let mut sum: u64 = 0;
    for event in past {
        sum = sum.saturating_add(event_length(event));
    }
    sum
}

/// The length of a history's spelling, in bytes.
pub fn history_length(history: &History) -> u64
    ensures { result ≡ counted (length (histories.history.write history.now)) }
{
    each_length(history.events()).saturating_add(4)
}
