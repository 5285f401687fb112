//! The screen: the characters that the windows show, cell by cell.
#![tactic(auto)]

mod grid;
mod pane;
mod screen;

pub use grid::Grid;
pub use screen::{dump, window_at};
