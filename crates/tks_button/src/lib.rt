//! Frames, labels, buttons and checkbuttons: how large they ask to be, what they show, and their subcommands.
#![tactic(auto)]

mod action;
mod block;
mod button;
mod caption;
mod checkbutton;
mod frame;
mod label;
mod laws;
mod mark;

pub use caption::{Assignment, Caption};
pub use frame::Frame;
pub use laws::{
    lines_are_shown_whole, turning_is_no_error, two_toggles_give_back, values_tell_on_from_off,
};
