//! The world: what is kept between inputs, and where its windows lie on the grid.
#![tactic(auto)]

mod asking;
mod by_window;
mod calling;
mod class_bindings;
mod event_loop;
mod events;
mod faults;
mod kept;
mod laid;
mod laws;
mod layout;
mod links;
mod restoring;
mod rules;
mod widget;
mod windows;
mod world;

pub use kept::Kept;
pub use laws::{
    linked_widget_shows_its_variable, tags_are_of_one_window, the_first_bindings_are_the_table,
    widgets_of_one_variable_show_one_text, windows_are_shown_where_they_stand,
};
pub use layout::Placed;
pub use restoring::{WindowParts, WorldParts};
pub use rules::Rules;
pub use widget::Widget;
pub use world::World;
