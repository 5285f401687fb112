//! A session: the world of scripts within limits, with an application's commands, made durable on a disk.
#![tactic(auto)]

mod calls;
mod fault;
mod laws;
mod session;
mod stepper;

pub use calls::make_calls;
pub use fault::OpenFault;
pub use laws::{
    a_crash_keeps_what_was_acknowledged, a_crash_leaves_whole_inputs,
    any_calls_keep_what_is_acknowledged, formats_open_alike, wider_limits_open,
};
pub use session::Session;
pub use tks_durable::{Call, Drained, SessionFault};
pub use tks_input::{Input, Refused, Reply};
