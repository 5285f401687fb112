//! Events, bindings and what waits, read and written again, with the bytes behind what was read.
ghost use Rattle.std.specs.Prelude.{◌≤◌, ◌^◌};

use std::alloc::Global;
use tks_codec_events::{
    bindings_of, event_of, held_of, history_of, put_bindings, put_event, put_held, put_history,
    put_queue, put_sequence, put_virtuals, put_waiting, queue_of, sequence_of, virtuals_of,
    waiting_of,
};
use tks_codec_variables::{put_table, table_of};
use tks_spelling::Texts;

// What was written, and the bytes behind what was read.
fn with_rest(mut out: Vec<u8>, rest: &[u8]) -> Option<Vec<u8>> {
    out.extend_from_slice(rest).ok()?;
    Some(out)
}

/// An event.
pub fn event_again(alloc: Global, bytes: &[u8]) -> Option<Vec<u8>> {
    let mut out = Vec::new(alloc);
    let Ok((event, rest)) = event_of(alloc, bytes) else {
        return None;
    };
    put_event(&mut out, &event).ok()?;
    with_rest(out, rest)
}

/// A sequence.
pub fn sequence_again(alloc: Global, bytes: &[u8]) -> Option<Vec<u8>> {
    let mut out = Vec::new(alloc);
    let Ok((sequence, rest)) = sequence_of(alloc, bytes) else {
        return None;
    };
    put_sequence(&mut out, &sequence).ok()?;
    with_rest(out, rest)
}

/// Bindings with this next number.
pub fn bindings_again(alloc: Global, next: u64, bytes: &[u8]) -> Option<Vec<u8>>
    requires { next ≤ 2 ^ 62 }
{
    let mut out = Vec::new(alloc);
    let Ok((bindings, rest)) = bindings_of(alloc, next, bytes) else {
        return None;
    };
    put_bindings(&mut out, &bindings).ok()?;
    with_rest(out, rest)
}

/// Virtual events.
pub fn virtuals_again(alloc: Global, bytes: &[u8]) -> Option<Vec<u8>> {
    let mut out = Vec::new(alloc);
    let Ok((virtuals, rest)) = virtuals_of(alloc, bytes) else {
        return None;
    };
    put_virtuals(&mut out, &virtuals).ok()?;
    with_rest(out, rest)
}

/// A history.
pub fn history_again(alloc: Global, bytes: &[u8]) -> Option<Vec<u8>> {
    let mut out = Vec::new(alloc);
    let Ok((history, rest)) = history_of(alloc, bytes) else {
        return None;
    };
    put_history(&mut out, &history).ok()?;
    with_rest(out, rest)
}

/// A queue.
pub fn queue_again(alloc: Global, bytes: &[u8]) -> Option<Vec<u8>> {
    let mut out = Vec::new(alloc);
    let Ok((queue, rest)) = queue_of(alloc, bytes) else {
        return None;
    };
    put_queue(&mut out, &queue).ok()?;
    with_rest(out, rest)
}

/// Timers and idle scripts with this next id.
pub fn waiting_again(alloc: Global, next: u64, bytes: &[u8]) -> Option<Vec<u8>>
    requires { next ≤ 2 ^ 62 }
{
    let mut out = Vec::new(alloc);
    let Ok((timers, rest)) = waiting_of(alloc, next, bytes) else {
        return None;
    };
    put_waiting(&mut out, &timers).ok()?;
    with_rest(out, rest)
}

/// What is held.
pub fn held_again(alloc: Global, bytes: &[u8]) -> Option<Vec<u8>> {
    let mut out = Vec::new(alloc);
    let Ok((held, rest)) = held_of(bytes) else {
        return None;
    };
    put_held(&mut out, &held).ok()?;
    with_rest(out, rest)
}

/// Texts under names, as the memories of an application.
pub fn memories_again(alloc: Global, bytes: &[u8]) -> Option<Vec<u8>> {
    let mut out = Vec::new(alloc);
    let Ok((memories, rest)) = table_of(alloc, Texts, bytes) else {
        return None;
    };
    put_table(&mut out, Texts, &memories).ok()?;
    with_rest(out, rest)
}
