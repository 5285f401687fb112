//! Events, bindings, what waits to be delivered or run, and what is held down, as bytes.
#![tactic(auto)]

mod bindings;
mod distinct;
mod event;
mod held;
mod history;
mod kind;
mod laws;
mod queue;
mod sequence;
mod timers;
mod virtuals;

pub use bindings::{bindings_length, bindings_of, put_bindings};
pub use event::{event_of, put_event};
pub use held::{held_of, put_held};
pub use history::{history_length, history_of, put_history};
pub use kind::{kind_of, put_kind};
pub use laws::{all_are_spelled, spellings_are_lawful};
pub use queue::{put_queue, queue_length, queue_of};
pub use sequence::{put_sequence, sequence_of};
pub use timers::{put_waiting, waiting_length, waiting_of};
pub use virtuals::{put_virtuals, virtuals_length, virtuals_of};
