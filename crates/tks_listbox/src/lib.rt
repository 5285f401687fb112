//! Listboxes: items, one of which is active, and each of which is selected or not.
#![tactic(auto)]

mod bounds;
mod calls;
mod item;
mod items;
mod laws;
mod listbox;
mod reading;
mod shown;
mod subcommand;

pub use item::Item;
pub use laws::{
    active_stays_by_deletion, active_stays_by_insertion, deletion_keeps_the_others,
    deletion_undoes_insertion, listboxes_are_restored, selected_places_rise,
};
pub use listbox::ListWidget;
pub use subcommand::{Change, Question, Subcommand};
