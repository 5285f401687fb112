//! A machine that is durable on a disk: what a power cut leaves.
#![tactic(auto)]

mod calls;
mod draining;
mod durable;
mod fault;
mod first;
mod frame;
mod laws;
mod machine;
mod open;
mod replay;
mod restore;

pub use calls::{Call, make_calls};
pub use draining::Drained;
pub use durable::Durable;
pub use fault::SessionFault;
pub use laws::{
    a_crash_keeps_what_was_acknowledged, a_crash_leaves_a_prefix, formats_open_alike, runs_join,
};
pub use machine::Machine;
pub use open::OpenFault;
