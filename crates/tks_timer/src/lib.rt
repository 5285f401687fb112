//! Timers and idle scripts: what `after` leaves to be run later.
#![tactic(auto)]

mod entry;
mod fault;
mod laws;
mod order;
mod timers;

pub use entry::{Idle, Timer};
pub use fault::AfterFault;
pub use laws::ids_are_given_out_once;
pub use timers::{Timers, Waiting};
