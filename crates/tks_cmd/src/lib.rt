//! The commands on windows, events, the focus and scripts that wait.
#![tactic(auto)]

mod after;
mod bindings;
mod calls;
mod commands;
mod contents;
mod dispatch;
mod event_commands;
mod events;
mod focus;
mod laws;
mod links;
mod packing;
mod queue;
mod update;
mod virtual_events;
mod widgets;
mod windows;

pub use calls::command;
pub use dispatch::begin;
pub use event_commands::is_built_in_by;
pub use laws::{commands_leave_frames, errors_change_nothing, wider_limits_keep_commands};
