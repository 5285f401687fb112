//! Entries: a line of text that is edited at a cursor.
#![tactic(auto)]

mod calls;
mod entry;
mod laws;
mod shown;

pub use entry::EntryWidget;
pub use laws::{cursor_is_shown, deletion_undoes_insertion};
