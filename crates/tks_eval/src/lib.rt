//! What scripts do.
#![tactic(auto)]

mod at_once;
mod boxed;
mod branches;
mod commands;
mod control;
mod ended;
mod expressions;
mod frame;
mod halt;
mod host;
mod laws;
mod loops;
mod machine;
mod made;
mod plans;
mod procedures;
mod rest;
mod table;
mod words;

pub use ended::Ended;
pub use host::{Due, Host, Plan};
pub use laws::{
    loops_unroll, parameters_are_lists_of_names, script_runs_as_its_halves, scripts_leave_frames,
    updates_leave_nothing, updates_unroll, wider_limits_keep_ends, words_of_if_follow_its_grammar,
};
pub use machine::{Machine, eval, eval_plan};
