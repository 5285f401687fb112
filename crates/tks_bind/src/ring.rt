//! The last events, in a ring.
ghost use Rattle.std.specs.Prelude.{◌≡◌, ◌≤◌, ◌<◌, ◌-◌, [], ◌∷◌, ◌++◌, length, slice_get, Some, option_copied, IfOk};
ghost use Rattle.tks_bind.specs.History.{latest};

use circular_buffer::HeapCircularBuffer;
use std::alloc::{AllocError, Global};
use std::marker::Model;
use tks_event::Event;
use tks_share::{Copied, Shared};

/// How many events a ring holds at most.
pub const MAX_HISTORY: usize = 32;

/// The last events of those that were added, at most 32. A copy holds the same events once more.
#[derive(Drop)]
pub struct Ring {
    events: HeapCircularBuffer<Shared<Event>>,
}

impl Model for Ring {
    ghost use Rattle.std.specs.Prelude.{List};
    ghost use Rattle.tks_event.specs.Event.{Event};

    ghost Value = { List Event };

    ghost view = { λ r. r.events.items };

    ghost use Rattle.std.specs.Prelude.{◌≡◌};

    ghost invariant = { λ r. r.events.capacity ≡ 32 };
}

impl Ring {
    /// No event.
    pub fn new(alloc: Global) -> Result<Ring, AllocError>
        ensures { IfOk result (λ ring. ring ≡ []) }
    {
        Ok(Ring {
            events: HeapCircularBuffer::with_capacity(alloc, MAX_HISTORY)?,
        })
    }

    /// The last ones of these events.
    pub fn of(alloc: Global, events: Vec<Event>) -> Result<Ring, AllocError>
        ensures { IfOk result (λ ring. ring ≡ latest events.items) }
    {
        let mut ring = Ring::new(alloc)?;
        for event in events {
            ring.push(Shared::new(alloc, event)?);
        }
        let _ = ring.len();
        Ok(ring)
    }

    /// How many events there are.
    pub fn len(&self) -> usize
        ensures value { result ≡ length self.now }
        ensures within { length self.now ≤ 32 }
    {
        self.events.len()
    }

    /// The event at a place.
    pub fn at(&self, place: usize) -> &Event
        requires { place < length self.now }
        ensures { slice_get self.now place ≡ Some result.now }
    {
        let Some(event) = self.events.get(place) else {
            unreachable!()
        };
        event.get()
    }

    /// The last event.
    pub fn last(&self) -> Option<&Event>
        ensures { option_copied result ≡ slice_get self.now (length self.now - 1) }
    {
        match self.events.back() {
            Some(event) => Some(event.get()),
            None => None,
        }
    }

    /// Adds an event; where there were 32, the oldest goes.
    pub fn push(&mut self, event: Shared<Event>)
        ensures { self.new ≡ latest (self.old ++ event ∷ []) }
    {
        let _oldest = self.events.push_back(event);
    }
}

impl Copied for Ring {
    fn copied(&self, alloc: Global) -> Result<Ring, AllocError> {
        let _ = self.len();
        let mut copy = Ring::new(alloc)?;
        for event in self.events.iter() {
            copy.push(event.share()?);
        }
        Ok(copy)
    }
}
