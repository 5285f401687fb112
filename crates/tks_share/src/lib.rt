//! A map and a list whose copies share what they have in common: a copy costs next to nothing, and a change copies one path.
#![tactic(auto)]

mod change;
mod copied;
mod items;
mod iter;
mod line;
mod list;
mod map;
mod mark;
mod name;
mod names;
mod numbered;
mod places;
mod row;
mod share;
mod shared;
mod tree;

pub use change::Change;
pub use copied::{Copied, copies_of};
pub use items::Items;
pub use iter::Iter;
pub use list::SharedList;
pub use map::SharedMap;
pub use mark::{Mark, Marked};
pub use name::Name;
pub use numbered::Numbered;
pub use share::Share;
pub use shared::Shared;
