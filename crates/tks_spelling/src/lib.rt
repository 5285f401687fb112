//! Inputs and headers as bytes, read back exactly, and nothing else read.
#![tactic(auto)]

mod fault;
mod format;
mod header;
mod input;
mod items;
mod laws;
mod lengths;
mod member;
mod names;
pub mod reading;
mod texts;
mod unread;
pub mod writing;

pub use fault::CodecFault;
pub use format::Format;
pub use header::{Header, read_header, write_header};
pub use input::{read_input, write_input};
pub use items::{items_length, put_items};
pub use laws::{one_header, one_input, two_inputs};
pub use lengths::{MAX_SIDE, text_length, within_side};
pub use member::{Following, Members, list_by, list_length, list_of, put_list};
pub use names::Entries;
pub use texts::{Numbers, Texts};
pub use unread::Unread;
