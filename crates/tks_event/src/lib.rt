//! Events, and the patterns and sequences of events that bindings are made for.
#![tactic(auto)]

mod collected;
mod equality;
mod event;
mod held;
mod keysym;
mod kind;
mod laws;
mod lead;
mod legality;
mod modifiers;
mod parsing;
mod pattern;
mod reading;
mod sequence;
mod spelling;
mod validity;
mod virtual_name;
mod words;

pub use collected::MAX_EVENTS;
pub use equality::are_equal;
pub use event::{Event, EventFields};
pub use held::Held;
pub use keysym::{is_keysym, is_modifier_key, keysym_char};
pub use kind::{Kind, is_button, is_of_button, is_of_key, is_virtual};
pub use laws::{
    canonical_reads_back, canonical_spells, kinds_have_numbers, one_pattern, one_sequence,
};
pub use legality::is_event;
pub use modifiers::{Modifier, Modifiers};
pub use parsing::{parse_pattern, parse_sequence};
pub use pattern::{Pattern, Repeated};
pub use sequence::Sequence;
pub use validity::{is_name, is_sequence};
pub use virtual_name::VirtualName;
