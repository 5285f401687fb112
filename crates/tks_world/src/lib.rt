//! The world, and what an input does to it.
#![tactic(auto)]

mod applications;
mod buttons;
mod counting;
mod gestures;
mod host;
mod keys;
mod laws;
mod refusal;
mod scripts;
mod steps;
mod telling;
mod things;
mod turns;

pub use laws::{
    a_turn_is_quiet_where_nothing_waits, accepted_inputs_are_counted,
    no_frame_stands_between_inputs, refused_inputs_leave_runs, runs_join,
    updates_leave_nothing_waiting, values_are_words, wider_limits_keep_runs,
    wider_limits_keep_steps,
};
pub use steps::step;
pub use tks_input::{Input, Refused, Reply};
pub use tks_state::World;
