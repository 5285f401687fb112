//! Going over the events of a history.
ghost use Rattle.std.specs.Iterator.{YieldsFirstRef, item_count};

use crate::history::History;
use std::marker::Model;
use tks_event::Event;

/// The events of a history that are still to come, the latest last.
#[derive(Drop)]
pub struct PastEvents<'a> {
    history: &'a History,
    next: usize,
}

impl<'a> Model for PastEvents<'a> {
    ghost use Rattle.std.specs.Prelude.{List, drop};
    ghost use Rattle.tks_event.specs.Event.{Event};

    ghost Value = { List Event };

    ghost view = { λ p. drop p.next p.history.now };
}

impl<'a> PastEvents<'a> {
    ghost use Rattle.std.specs.Prelude.{◌≡◌};

    // The events of a history.
    pub(crate) fn of(history: &'a History) -> PastEvents<'a>
        ensures { result ≡ history.now }
    {
        PastEvents { history, next: 0 }
    }
}

impl<'a> Iterator for PastEvents<'a> {
    type Item = &'a Event;

    ghost next_gives = { YieldsFirstRef (λ p. p) };

    ghost remaining = { item_count (λ p. p) };

    fn next(&mut self) -> Option<&'a Event> {
        if self.next >= self.history.len() {
            return None;
        }
        let event = self.history.at(self.next);
        self.next += 1;
        Some(event)
    }
}
