//! The queue of events.
ghost use Rattle.std.specs.Prelude.{◌≡◌, length, true, OnOk};
ghost use Rattle.tks_spelling.specs.Reading.{Gives};
ghost use Rattle.tks_spelling.specs.Writing.{PutsSo};
ghost use Rattle.tks_spelling.specs.Lengths.{counted};
ghost use Rattle.tks_queue.specs.Legal.{may_wait};
ghost use Rattle.tks_codec_events.specs.Queue as queues;
ghost use Rattle.tks_codec_events.specs.Queue.{queued_at};

use crate::event::{event_length, event_of, put_event};
use std::alloc::{AllocError, Global};
use tks_queue::{Queue, Queued, may_wait};
use tks_spelling::reading::flag_of;
use tks_spelling::writing::put_flag;
use tks_spelling::{Members, Unread, items_length, list_of, put_items};

// An event that waits.
#[tactic(auto, unfolding(crate::specs::Queue::queued_at, crate::specs::Event::event_at))]
fn queued_of(alloc: Global, bytes: &[u8]) -> Result<(Queued, &[u8]), Unread>
    ensures { Gives (λ x. (x.0, x.1.now)) result (queued_at bytes.now) }
{
    let (event, rest) = event_of(alloc, bytes)?;
    let (with_mark, rest) = flag_of(rest)?;
    if !may_wait(&event) {
        return Err(Unread::Left(rest.len() + 1));
    }
    Ok((Queued { event, with_mark }, rest))
}

// Adds an event that waits.
fn put_queued(out: &mut Vec<u8>, queued: &Queued) -> Result<(), AllocError>
    requires { may_wait queued.now.event ≡ true }
    ensures puts { PutsSo result out.old.items out.new.items (queues.queued.write queued.now) }
    ensures legal { OnOk result (queues.queued.Legal queued.now) }
{
    put_event(out, &queued.event)?;
    put_flag(out, queued.with_mark)
}

/// Events that wait.
#[derive(Clone, Copy)]
pub struct QueuedEvents;

impl Members<Queued> for QueuedEvents {
    ghost use Rattle.tks_queue.specs.Legal.{IsLegal};
    ghost use Rattle.tks_codec_events.specs.Queue.{queued};

    ghost spelling = { λ events. queued };

    ghost IsSound = { λ events q. IsLegal q };

    #[tactic(auto, unfolding(crate::specs::Queue::queued_at))]
    fn read<'a>(&self, alloc: Global, bytes: &'a [u8]) -> Result<(Queued, &'a [u8]), Unread> {
        queued_of(alloc, bytes)
    }

    fn put(&self, out: &mut Vec<u8>, queued: &Queued) -> Result<(), AllocError> {
        put_queued(out, queued)
    }

    #[tactic(auto, using(tks_spelling::proofs::Counting::lengths))]
    fn spelled_length(&self, queued: &Queued) -> u64 {
        event_length(&queued.event).saturating_add(1)
    }
}

/// A queue.
pub fn queue_of(alloc: Global, bytes: &[u8]) -> Result<(Queue, &[u8]), Unread>
    ensures { Gives (λ x. (x.0, x.1.now)) result (queues.queue.read bytes.now) }
{
    let (events, rest) = list_of(alloc, QueuedEvents, bytes)?;
    let queue = Queue::restore(alloc, events.into_items())?;
    Ok((queue, rest))
}

/// Adds a queue.
pub fn put_queue(out: &mut Vec<u8>, queue: &Queue) -> Result<(), AllocError>
    ensures puts { PutsSo result out.old.items out.new.items (queues.queue.write queue.now) }
    ensures legal { OnOk result (queues.queue.Legal queue.now) }
{
    put_items(out, QueuedEvents, queue.events(), queue.len())
}

/// The length of a queue's spelling, in bytes.
pub fn queue_length(queue: &Queue) -> u64
    ensures { result ≡ counted (length (queues.queue.write queue.now)) }
{
    items_length(&QueuedEvents, queue.events())
}
