//! That steps keep a world within the limits.
#![tactic(auto)]

mod laws;

pub use laws::steps_keep_worlds;
