//! Frames on a disk of two sides that may lose power at any moment.
#![tactic(auto)]

mod blank;
mod error;
mod fault;
mod frame;
mod frames;
mod front;
mod gate;
mod journal;
mod laws;
mod loading;
mod opening;
mod pieces;
mod reading;
mod side;
mod stored;

pub use blank::Blank;
pub use error::OpenError;
pub use fault::SideFault;
pub use frames::Frames;
pub use journal::Journal;
pub use laws::{frames_stand, written_is_held};
pub use side::spell;
pub use stored::{OpenFault, Opened, Stored, open};
