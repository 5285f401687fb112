//! What happens to a world: the inputs of a session, and what is answered.
#![tactic(auto)]

mod input;
mod reply;

pub use input::Input;
pub use reply::{Refused, Reply};
