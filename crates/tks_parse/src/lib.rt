//! Scripts: their tree, and the tree that a text spells.
#![tactic(auto)]

mod braces;
mod builder;
mod class;
mod commands;
mod fault;
mod laws;
mod mode;
mod reading;
mod ready;
mod remaining;
mod remaining_script;
mod syntax;
mod tree;
mod words;

pub use braces::read_braced;
pub use builder::Piece;
pub use class::is_name_char;
pub use laws::one_script;
pub use reading::{MAX_DEPTH, parse, read_nested, read_quoted, read_variable};
pub use remaining::Remaining;
pub use remaining_script::RemainingScript;
pub use syntax::Syntax;
pub use tree::{Command, Part, Parts, Script, Word};
