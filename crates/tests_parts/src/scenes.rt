//! A history of keys, and bindings.
use std::alloc::Global;
use tks_bind::{Bindings, History, PhysicalSequence, Virtuals};
use tks_event::{
    Event, EventFields, Kind, Modifiers, Sequence, VirtualName, is_name, parse_sequence,
};
use tks_text::Txt;

/// The sequence that a text spells.
pub fn sequence(alloc: Global, text: &[u8]) -> Option<Sequence> {
    parse_sequence(alloc, &Txt::from_bytes(alloc, text).ok()?).ok()
}

/// Bindings of one tag, and the keys that were pressed.
#[derive(Drop)]
pub struct Keys {
    pub alloc: Global,
    pub tag: Txt,
    pub bindings: Bindings,
    pub virtuals: Virtuals,
    pub history: History,
}

impl Keys {
    pub fn new(alloc: Global) -> Option<Keys> {
        Some(Keys {
            alloc,
            tag: Txt::from_bytes(alloc, b"all").ok()?,
            bindings: Bindings::new(alloc),
            virtuals: Virtuals::new(alloc),
            history: History::new(alloc).ok()?,
        })
    }

    /// Binds a script to a sequence.
    pub fn bind(&mut self, text: &[u8], script: &[u8]) -> Option<()> {
        let sequence = sequence(self.alloc, text)?;
        let script = Txt::from_bytes(self.alloc, script).ok()?;
        let tag = self.tag.try_clone().ok()?;
        self.bindings.bind(tag, sequence, &script).ok()
    }

    /// Adds a sequence to a virtual event.
    pub fn add(&mut self, name: &Txt, text: &[u8]) -> Option<()> {
        let sequence = PhysicalSequence::of(sequence(self.alloc, text)?)?;
        if !is_name(name.as_bytes()) {
            return None;
        }
        let name = VirtualName::new(name.try_clone().ok()?);
        self.virtuals.event_add(&name, &sequence).ok()
    }

    /// A key that goes down, with these modifiers held.
    pub fn event(&self, keysym: &[u8], state: u16) -> Option<Event> {
        Event::restore(EventFields {
            window: 0,
            kind: Kind::KeyPress,
            detail: Txt::from_bytes(self.alloc, keysym).ok()?,
            state: Modifiers::from_bits(state)?,
            time: 0,
            x: 0,
            y: 0,
            root_x: 0,
            root_y: 0,
            payload: Txt::new(self.alloc),
        })
    }

    /// Presses a key, and tells whether the binding with this script fires; none where it is empty.
    pub fn fires(&mut self, keysym: &[u8], state: u16, script: &[u8]) -> Option<bool> {
        let event = self.event(keysym, state)?;
        self.history.add(event.try_clone().ok()?).ok()?;
        let chosen = self
            .bindings
            .chosen(&self.tag, &event, &self.history, &self.virtuals);
        Some(match chosen {
            Some(binding) => binding.script.as_bytes() == script,
            None => script.is_empty(),
        })
    }
}
