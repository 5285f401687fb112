//! The options of windows: which ones a class has, what their values may be, and the values of one window.
#![tactic(auto)]

mod alignment;
mod anchor;
mod calls;
mod cells;
mod classes;
mod laws;
mod name;
mod number;
mod options;
mod said;
mod state;
mod table;

pub use alignment::Alignment;
pub use anchor::Anchor;
pub use calls::{are_pairs, too_few_words, wrong_words};
pub use cells::{blank_row, blank_rows, line_row};
pub use classes::{class_number, class_numbered};
pub use laws::{
    anchors_have_numbers, classes_have_numbers, options_are_restored, the_last_value_is_told,
};
pub use name::OptionName;
pub use number::{boolean_of, number_within};
pub use options::Options;
pub use said::Said;
pub use state::State;
