//! Sequences of physical events.
ghost use Rattle.std.specs.Prelude.{◌≡◌, false, Some, None, if◌then◌else◌};
ghost use Rattle.tks_bind.specs.VirtualEvents.{is_of_name};

use crate::virtual_event::is_of_name;
use std::marker::Model;
use tks_event::Sequence;

/// A sequence of physical events, by which a virtual event may be met. Contracts see it as the list of its patterns.
#[derive(Drop)]
pub struct PhysicalSequence {
    sequence: Sequence,
}

impl Model for PhysicalSequence {
    ghost use Rattle.std.specs.Prelude.{◌≡◌, List, false};
    ghost use Rattle.tks_event.specs.declared.pattern.Pattern.{Pattern};
    ghost use Rattle.tks_bind.specs.VirtualEvents.{is_of_name};

    ghost Value = { List Pattern };

    ghost view = { λ s. s.sequence };

    ghost invariant = { λ s. is_of_name s.sequence ≡ false };
}

impl PhysicalSequence {
    /// A sequence, where it is one of physical events; `None` where it is the one of a virtual event.
    pub fn of(sequence: Sequence) -> Option<PhysicalSequence>
        ensures { result ≡ (if is_of_name sequence then None else Some sequence) }
    {
        if is_of_name(&sequence) {
            return None;
        }
        Some(PhysicalSequence { sequence })
    }

    /// The sequence.
    pub fn sequence(&self) -> &Sequence
        ensures value { result.now ≡ self.now }
        ensures physical { is_of_name self.now ≡ false }
    {
        &self.sequence
    }
}
