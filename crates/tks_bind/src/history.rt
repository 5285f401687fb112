//! The history of events.
ghost use Rattle.std.specs.Prelude.{◌≡◌, true, false, Some, [], ◌++◌, ◌∷◌, length, slice_get, ◌-◌, ◌<◌, ◌≤◌, option_copied, IfOk, IfErr, OnOk, OnErr};
ghost use Rattle.tks_event.specs.Kinds.{is_virtual};
ghost use Rattle.tks_event.specs.Legality.{AreEvents};
ghost use Rattle.tks_bind.specs.History.{are_physical, latest, with_event};

use crate::past::PastEvents;
use crate::ring::Ring;
use std::alloc::{AllocError, AllocFailed, Global};
use std::marker::Model;
use tks_event::{Event, is_virtual};
use tks_share::{Share, Shared};

/// The last physical events that were delivered, at most 32. Copies share what they have in common: where one of them changes,
/// it holds the events once more, and copies none.
pub struct History {
    alloc: Global,
    ring: Shared<Ring>,
}

// Written out, so that to let go of it is one step for whoever owns it.
impl Drop for History {
    fn drop(self) {
        let History { alloc: _, ring: _ } = self;
    }
}

impl Model for History {
    ghost use Rattle.std.specs.Prelude.{List};
    ghost use Rattle.tks_event.specs.Event.{Event};

    ghost Value = { List Event };

    ghost view = { λ h. h.ring };

    ghost use Rattle.std.specs.Prelude.{◌≡◌, true};
    ghost use Rattle.tks_event.specs.Legality.{AreEvents};
    ghost use Rattle.tks_bind.specs.History.{are_physical};

    ghost invariant = { λ h. AreEvents h.ring × (are_physical h.ring ≡ true) };
}

impl History {
    /// No event.
    pub fn new(alloc: Global) -> Result<History, AllocError>
        ensures { IfOk result (λ history. history ≡ []) }
    {
        Ok(History {
            alloc,
            ring: Shared::new(alloc, Ring::new(alloc)?)?,
        })
    }

    /// The history of these events, the latest last, so that one is made again from what it had. Of more than 32 events it
    /// holds the last.
    pub fn restore(alloc: Global, events: Vec<Event>) -> Result<History, AllocError>
        requires legal { AreEvents events.items }
        requires physical { are_physical events.items ≡ true }
        ensures { IfOk result (λ made. made ≡ latest events.items) }
    {
        Ok(History {
            alloc,
            ring: Shared::new(alloc, Ring::of(alloc, events)?)?,
        })
    }

    /// How many events there are.
    pub fn len(&self) -> usize
        ensures value { result ≡ length self.now }
        ensures within { length self.now ≤ 32 }
    {
        self.ring.get().len()
    }

    /// The event at a place, counted from the oldest.
    pub fn at(&self, place: usize) -> &Event
        requires { place < length self.now }
        ensures { slice_get self.now place ≡ Some result.now }
    {
        self.ring.get().at(place)
    }

    /// The latest event.
    pub fn last(&self) -> Option<&Event>
        ensures { option_copied result ≡ slice_get self.now (length self.now - 1) }
    {
        self.ring.get().last()
    }

    /// The events, the latest last.
    pub fn events(&self) -> PastEvents<'_>
        ensures value { result ≡ self.now }
        ensures within { length self.now ≤ 32 }
        ensures legal { AreEvents self.now }
        ensures physical { are_physical self.now ≡ true }
    {
        let _ = self.ring.get().len();
        PastEvents::of(self)
    }

    /// Adds a physical event that is delivered; where there were 32, the oldest goes. A virtual one is passed over. Where
    /// memory is refused, it hands the event back.
    pub fn add(&mut self, event: Event) -> Result<(), AllocFailed<Event>>
        ensures ok { OnOk result (self.new ≡ with_event event self.old) }
        ensures err { OnErr result (self.new ≡ self.old) }
        ensures handed_back { IfErr result (λ refused. refused.value ≡ event) }
    {
        match self.add_copy(&event) {
            Ok(()) => Ok(()),
            Err(_) => Err(AllocFailed { value: event }),
        }
    }

    /// Adds a copy of an event that is delivered, as `add` does.
    pub fn add_copy(&mut self, event: &Event) -> Result<(), AllocError>
        ensures ok { OnOk result (self.new ≡ with_event event.now self.old) }
        ensures err { OnErr result (self.new ≡ self.old) }
    {
        if is_virtual(event.kind) {
            return Ok(());
        }
        event.stands();
        let event = Shared::new(self.alloc, event.try_clone()?)?;
        self.ring.get_mut(self.alloc)?.push(event);
        Ok(())
    }
}

impl Share for History {
    fn share(&self) -> Result<History, AllocError> {
        Ok(History {
            alloc: self.alloc,
            ring: self.ring.share()?,
        })
    }
}

/// Whether none of these events is virtual.
pub fn are_physical(events: &[Event]) -> bool
    ensures { result ≡ are_physical events.now }
{
    events.iter().all(|event| !is_virtual(event.kind))
}
