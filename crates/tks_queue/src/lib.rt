//! The queue of events that wait to be delivered.
#![tactic(auto)]

mod laws;
mod place;
mod queue;
mod queued;

pub use laws::mark_goes_behind_the_last;
pub use place::Place;
pub use queue::Queue;
pub use queued::{Queued, may_wait};
