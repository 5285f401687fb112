//! What is looked at where a binding is chosen.
ghost use Rattle.std.specs.Prelude.{◌≡◌, option_copied};
ghost use Rattle.tks_bind.specs.Choosing.{scene_of, is_this, meets};

use crate::bindings::Bindings;
use crate::ending::name_of;
use crate::history::History;
use crate::search::occurs;
use crate::virtuals::Virtuals;
use tks_event::{Event, Sequence, is_virtual};
use tks_text::Txt;

/// What is looked at where a binding is chosen.
#[derive(Clone, Copy)]
pub struct Scene<'a> {
    pub bindings: &'a Bindings,
    pub tag: &'a Txt,
    pub event: &'a Event,
    pub history: &'a History,
    pub virtuals: &'a Virtuals,
}

impl<'a> Scene<'a> {
    /// Whether the event meets a sequence.
    pub fn meets(&self, sequence: &Sequence) -> bool
        ensures { result ≡ meets (scene_of self.now) sequence.now }
    {
        if is_virtual(self.event.kind) {
            is_this(name_of(sequence), &self.event.detail)
        } else {
            occurs(sequence.as_slice(), self.history)
        }
    }
}

fn is_this(name: Option<&Txt>, other: &Txt) -> bool
    ensures { result ≡ is_this (option_copied name.entry) other.now }
{
    match name {
        Some(name) => *name == *other,
        None => false,
    }
}
