//! A session's lines: they are read, the scripts in them are given to the session, and the answers
//! are written.
#![tactic(auto)]

mod answer;
mod arguments;
mod ending;
mod faults;
mod input;
mod loading;
mod output;
mod own;
mod request;
mod running;
mod words;

pub use arguments::{CommandLine, command_line};
pub use ending::{RunEnd, RunFault};
pub use faults::{name_of, put_fault, status_of};
pub use own::{Own, next_number, own_apps, swap_word};
pub use running::run;
