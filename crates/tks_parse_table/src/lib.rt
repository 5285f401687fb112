//! Scripts and expressions that were parsed, kept by their texts, so that what runs again and again is parsed once.
#![tactic(auto)]

mod known;
mod places;
mod table;

pub use known::{KnownExpr, KnownScript};
pub use table::ParseTable;
