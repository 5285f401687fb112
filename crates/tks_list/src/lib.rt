//! Lists as texts: what a text splits into, and how elements are written.
#![tactic(auto)]

mod braces;
mod buffer;
mod cutting;
mod elements;
mod ends;
mod fault;
mod growing;
mod kept;
mod laws;
mod reading;
mod writing;

pub use elements::Elements;
pub use fault::ListFault;
pub use growing::{LEAST_KEPT, ListText, Suffix};
pub use laws::{backslash_form_splits_back, join_splits_back, one_list};
pub use reading::{read, split};
pub use writing::{backslash_form, join, quote};
