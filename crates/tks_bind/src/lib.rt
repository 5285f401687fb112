//! Which binding an event fires: the history of events, the bindings, and the choice among them.
#![tactic(auto)]

mod binding;
mod bindings;
mod ending;
mod ends;
mod fault;
mod field;
mod groups;
mod history;
mod laws;
mod matching;
mod name_places;
mod passes;
mod past;
mod physical;
mod places;
mod ring;
mod scene;
mod search;
mod substitution;
mod tag_groups;
mod through;
mod trial;
mod virtual_event;
mod virtuals;
mod way;

pub use binding::Binding;
pub use bindings::Bindings;
pub use fault::BindFault;
pub use field::Field;
pub use history::{History, are_physical};
pub use laws::{
    beating_is_an_order, chosen_is_the_choice, forms_are_found_from_left_to_right,
    other_bindings_stay, other_virtual_events_stay, some_way_is_unbeaten,
    values_stand_for_themselves,
};
pub use past::PastEvents;
pub use physical::PhysicalSequence;
pub use ring::MAX_HISTORY;
pub use search::occurs;
pub use substitution::{percents, percents_within};
pub use virtual_event::{VirtualEvent, is_of_name};
pub use virtuals::Virtuals;
