//! Events.
ghost use Rattle.std.specs.Prelude.{◌≡◌, ◌≤◌, ◌^◌, true, Some, None, if◌then◌else◌, IfOk};
ghost use Rattle.tks_event.specs.Legality.{is_event};

use crate::kind::Kind;
use crate::legality::is_event;
use crate::modifiers::Modifiers;
use std::alloc::AllocError;
use std::marker::Model;
use std::ops::Deref;
use tks_text::Txt;

/// What an event has. A field that its kind lacks is 0 or empty.
#[derive(Debug, Drop)]
pub struct EventFields {
    /// The number of the window.
    pub window: u64,
    pub kind: Kind,
    /// The keysym, the button's number, or the virtual event's name.
    pub detail: Txt,
    /// The modifiers that were held just before.
    pub state: Modifiers,
    /// In milliseconds.
    pub time: u64,
    /// The column in the window, in cells.
    pub x: i64,
    /// The row in the window, in cells.
    pub y: i64,
    /// The column on the screen, in cells.
    pub root_x: i64,
    /// The row on the screen, in cells.
    pub root_y: i64,
    /// What a virtual event carries, its data.
    pub payload: Txt,
}

impl EventFields {
    /// Equal fields.
    pub fn try_clone(&self) -> Result<EventFields, AllocError>
        ensures { IfOk result (λ f. f ≡ self.now) }
    {
        Ok(EventFields {
            window: self.window,
            kind: self.kind,
            detail: self.detail.try_clone()?,
            state: self.state,
            time: self.time,
            x: self.x,
            y: self.y,
            root_x: self.root_x,
            root_y: self.root_y,
            payload: self.payload.try_clone()?,
        })
    }
}

/// Something that happens in a window: its fields go with its kind, those that the kind lacks are 0 or empty, and its
/// numbers are in their ranges. Contracts see its fields.
#[derive(Debug, Drop)]
pub struct Event {
    fields: EventFields,
}

impl Model for Event {
    ghost use Rattle.std.specs.Prelude.{◌≡◌, true};
    ghost use Rattle.tks_event.specs.Legality.{is_event};
    ghost use Rattle.tks_event.specs.declared.event.EventFields.{EventFields};

    ghost Value = { EventFields };

    ghost view = { λ e. e.fields };

    ghost invariant = { λ e. is_event e.fields ≡ true };
}

impl Event {
    /// The event of these fields.
    pub fn new(fields: EventFields) -> Event
        requires { is_event fields ≡ true }
        ensures { result ≡ fields }
    {
        Event { fields }
    }

    /// The event of these fields, so that one is made again from what it had; `None` where there is none.
    pub fn restore(fields: EventFields) -> Option<Event>
        ensures { result ≡ (if is_event fields then Some fields else None) }
    {
        if !is_event(&fields) {
            return None;
        }
        Some(Event { fields })
    }

    /// What holds of all events.
    pub fn stands(&self)
        ensures { is_event self.now ≡ true }
    {
        let _ = &self.fields;
    }

    /// The same in the window of this number.
    #[tactic(auto, using(crate::proofs::Moved::in_window))]
    pub fn in_window(self, window: u64) -> Event
        requires { window ≤ 2 ^ 62 }
        ensures { result ≡ record self { window = window } }
    {
        let Event { fields } = self;
        let mut fields = fields;
        fields.window = window;
        Event { fields }
    }

    /// An equal event.
    pub fn try_clone(&self) -> Result<Event, AllocError>
        ensures { IfOk result (λ e. e ≡ self.now) }
    {
        let fields = self.fields.try_clone()?;
        Ok(Event { fields })
    }
}

impl Deref for Event {
    type Target = EventFields;

    ghost use Rattle.std.specs.Prelude.{◌≡◌};

    ghost deref_gives = { λ e f. f ≡ e };

    fn deref(&self) -> &EventFields
        ensures { result.now ≡ self.now }
    {
        &self.fields
    }
}
