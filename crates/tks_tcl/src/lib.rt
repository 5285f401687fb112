//! The commands of scripts that run no script.
#![tactic(auto)]

mod answers;
mod calls;
mod codes;
mod command;
mod elements;
mod growing;
mod index;
mod interrupt;
mod laws;
mod lent;
mod lists;
mod making;
mod quiet;
mod room;
mod stop;
mod strings;
mod table;
mod variables;
mod words;

pub use answers::{lindex_answer, llength_answer, lrange_answer, return_answer};
pub use calls::plain;
pub use command::{is_built_in, is_word};
pub use interrupt::{Interrupt, error_about, within, wrong_words};
pub use laws::{
    a_range_goes_place_by_place, a_search_finds_the_first, commands_leave_frames,
    errors_change_nothing, fields_join_back, wider_limits_keep_answers,
};
pub use lent::Lent;
pub use lists::{concatenated_within, joined_within};
pub use quiet::{Quiet, plain_quietly};
pub use stop::Stop;
pub use table::ListTable;
pub use variables::{is_missing, store, store_global};
pub use words::{integer_in, list_in};
