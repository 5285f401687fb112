//! Commands that an application adds to the language: stored closures, each beside the fact that it answers as stated.
#![tactic(auto)]

mod answer;
mod apps;
mod body;
mod command;
mod memories;

pub use answer::{AppAnswer, AppCode};
pub use apps::{AddFault, AddRefusal, Apps, is_name};
pub use body::{AppBody, AppClosure};
pub use command::{AppCommand, AppMeaning};
pub use memories::Memories;
