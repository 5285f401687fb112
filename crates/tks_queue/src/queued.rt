//! What waits in the queue.
ghost use Rattle.std.specs.Prelude.{◌≡◌};
ghost use Rattle.tks_queue.specs.EventQueue.{waiting};
ghost use Rattle.tks_queue.specs.Legal.{may_wait};

use tks_event::{Event, is_of_key};

/// An event that waits to be delivered.
#[derive(Debug, Drop)]
pub struct Queued {
    pub event: Event,
    /// Whether it was put at [`Place::Mark`](crate::Place::Mark).
    pub with_mark: bool,
}

// Makes of an event what it is while it waits: one of a key is of no window of its own.
pub(crate) fn waiting(event: Event) -> Event
    ensures { result ≡ waiting event }
{
    if is_of_key(event.kind) {
        event.in_window(0)
    } else {
        event
    }
}

/// Whether an event may wait as it is: one of a key waits under `.`.
pub fn may_wait(event: &Event) -> bool
    ensures { result ≡ may_wait event.now }
{
    !is_of_key(event.kind) || event.window == 0
}
