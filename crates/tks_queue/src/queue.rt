//! The queue: events that wait, and what is done to them.
ghost use Rattle.std.specs.Prelude.{◌≡◌, ◌==◌, not, ◌<◌, ◌^◌, Bool, length, [], IfOk, IfErr, OnOk, OnErr};
ghost use Rattle.std.specs.List.{filter};
ghost use Rattle.tks_share.specs.Lists.{Says, Decides};
ghost use Rattle.tks_queue.specs.declared.queued.Queued.{Queued};
ghost use Rattle.tks_queue.specs.Legal.{AreLegal};
ghost use Rattle.tks_queue.specs.EventQueue.{put, first, without_first, without_window};
ghost use Rattle.tks_queue.specs.Index.{up_to_mark, is_mark, index_for};

use crate::place::Place;
use crate::queued::{Queued, waiting};
use std::alloc::{AllocError, AllocFailed, Global};
use std::marker::Model;
use tks_event::Event;
use tks_share::{Items, Share, SharedList};

/// The events that wait to be delivered, the next one first; one of a key waits under `.`. Copies share what they have in common.
pub struct Queue {
    events: SharedList<Queued>,
}

// Written out, so that to let go of it is one step for whoever owns it.
impl Drop for Queue {
    fn drop(self) {
        let Queue { events: _ } = self;
    }
}

impl Model for Queue {
    ghost use Rattle.std.specs.Prelude.{List};
    ghost use Rattle.tks_queue.specs.declared.queued.Queued.{Queued};

    ghost Value = { List Queued };

    ghost view = { λ q. q.events };

    ghost use Rattle.tks_queue.specs.Legal.{AreLegal};

    ghost invariant = { λ q. AreLegal q.events };
}

impl Queue {
    /// No event.
    pub fn new(alloc: Global) -> Queue
        ensures { result ≡ [] }
    {
        Queue {
            events: SharedList::new(alloc),
        }
    }

    /// The queue of these events, the next one first, so that one is made again from what it had.
    pub fn restore(alloc: Global, events: Vec<Queued>) -> Result<Queue, AllocError>
        requires { AreLegal events.items }
        ensures { IfOk result (λ made. made ≡ events.items) }
    {
        Ok(Queue {
            events: SharedList::of(alloc, events)?,
        })
    }

    /// The events that wait, the next one first.
    pub fn events(&self) -> Items<'_, Queued>
        ensures value { result ≡ self.now }
        ensures legal { AreLegal self.now }
    {
        self.events.iter()
    }

    /// How many events wait.
    pub fn len(&self) -> usize
        ensures value { result ≡ length self.now }
        ensures short { length self.now < 2 ^ 32 }
    {
        self.events.len()
    }

    /// Puts an event into its place; one of a key waits under `.`. Where memory is refused, or it is one too many, it hands the
    /// event back.
    pub fn put(&mut self, place: Place, event: Event) -> Result<(), AllocFailed<Event>>
        ensures ok { OnOk result (self.new ≡ put place event self.old) }
        ensures err { OnErr result (self.new ≡ self.old) }
        ensures handed_back { IfErr result (λ refused. refused.value ≡ event) }
    {
        match self.put_copy(place, &event) {
            Ok(()) => Ok(()),
            Err(_) => Err(AllocFailed { value: event }),
        }
    }

    // Puts a copy of an event into its place, since what the list has taken can't be had back.
    #[tactic(auto, using(crate::proofs::Putting::put_at_index, crate::proofs::Putting::index_within))]
    fn put_copy(&mut self, place: Place, event: &Event) -> Result<(), AllocError>
        ensures ok { OnOk result (self.new ≡ put place event.now self.old) }
        ensures err { OnErr result (self.new ≡ self.old) }
    {
        let event = waiting(event.try_clone()?);
        event.stands();
        let queued = Queued {
            event,
            with_mark: is_mark(place),
        };
        let index = index_for(place, &self.events);
        self.events.insert(index, queued)
    }

    /// Takes out the first event, and hands out a copy of it.
    pub fn take(&mut self) -> Result<Option<Event>, AllocError>
        ensures value { IfOk result (λ event. event ≡ first self.old) }
        ensures ok { OnOk result (self.new ≡ without_first self.old) }
        ensures err { OnErr result (self.new ≡ self.old) }
    {
        let event = match self.events.get(0) {
            Some(queued) => queued.event.try_clone()?,
            None => return Ok(None),
        };
        let _taken = self.events.remove(0)?;
        Ok(Some(event))
    }

    /// Takes out the events that the closure doesn't accept. Where it accepts all, nothing is made.
    pub fn retain<F: Fn(&Queued) -> bool>(&mut self, keep: F) -> Result<(), AllocError>
        requires callable { F.IsAlwaysCallable keep }
        requires decided { Decides (F.post keep) }
        ensures ok { OnOk result ((p : Queued → Bool) → Says (F.post keep) p → self.new ≡ filter p self.old) }
        ensures err { OnErr result (self.new ≡ self.old) }
    {
        self.events.retain(keep)
    }

    /// Takes out all events of a window.
    pub fn drop_window(&mut self, window: u64) -> Result<(), AllocError>
        ensures ok { OnOk result (self.new ≡ without_window window self.old) }
        ensures err { OnErr result (self.new ≡ self.old) }
    {
        self.retain(
            |queued: &Queued| -> bool
                ensures { result ≡ not (queued.now.event.window == window) }
            { queued.event.window != window },
        )
    }
}

impl Share for Queue {
    fn share(&self) -> Result<Queue, AllocError> {
        Ok(Queue {
            events: self.events.share()?,
        })
    }
}

// Whether an event is put behind the last one of its kind.
fn is_mark(place: Place) -> bool
    ensures { result ≡ is_mark place }
{
    matches!(place, Place::Mark)
}

// Before which event one is put into a place.
fn index_for(place: Place, events: &SharedList<Queued>) -> usize
    ensures { result ≡ index_for place events.now }
{
    match place {
        Place::Tail => events.len(),
        Place::Head => 0,
        Place::Mark => up_to_mark(events),
    }
}

// How many events stand up to the last one that was put at `Place::Mark`.
fn up_to_mark(events: &SharedList<Queued>) -> usize
    ensures { result ≡ up_to_mark events.now }
{
    let len = events.len();
    let mut behind = len;
    let mut count = 0;
    for queued in events.iter() {
        behind -= 1;
        if queued.with_mark {
            count = len - behind;
        }
    }
    count
}
