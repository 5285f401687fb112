//! Texts and the small types that every other crate speaks of: lists, limits, the grid's size and
//! the faults of scripts.
#![tactic(auto)]

mod backslash;
mod builder;
mod bytes;
mod class;
mod fault;
mod integer;
mod laws;
mod limits;
mod list;
mod size;
mod text;
mod truth;

pub use backslash::{blank_len, escape, is_blank};
pub use builder::TextBuilder;
pub use class::Class;
pub use fault::{ErrorNumber, Failure, ScriptFault};
pub use integer::{
    Range, decimal_in, decimal_of, digits_len, integer_of, is_space, space_len, value_of,
};
pub use laws::{decimal_reads_back, one_escape, one_integer, wider_with_format2};
pub use limits::{Limits, MAX_NUMBER, MAX_TIME, fits};
pub use list::Seq;
pub use size::Size;
pub use text::{Txt, TxtFault, begins_dot, is_text, is_text_byte, texts_again};
pub use truth::truth_of_word;
