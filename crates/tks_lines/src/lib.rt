//! Text widgets: characters in lines, with tags on them and marks between them.
#![tactic(auto)]

mod answers;
mod breaks;
mod calls;
mod edits;
mod flag_list;
mod index;
mod laws;
mod lined_text;
mod lines;
mod marks;
mod modifier;
mod numbers;
mod parts;
mod piece;
mod pieces;
mod places;
mod range;
mod range_list;
mod reading;
mod restoring;
mod shown;
mod stretch;
mod subcommand;
mod tags;

pub use flag_list::Flags;
pub use laws::{
    deletion_keeps_the_others, deletion_undoes_insertion, insertion_keeps_the_others,
    last_newline_stays, marks_stay_in_order, one_index, ranges_are_the_tagged, ranges_say_flags,
    texts_are_restored, told_index_names_its_place,
};
pub use lines::TextWidget;
pub use parts::{Mark, Tag};
pub use range::Range;
pub use subcommand::{Change, Question, Subcommand};
