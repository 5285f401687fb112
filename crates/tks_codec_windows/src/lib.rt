//! What is kept of windows, as bytes: options, how windows are packed, what widgets hold.
#![tactic(auto)]

mod bindtags;
mod contents;
mod entry;
mod laws;
mod lines;
mod list_item;
mod listing;
mod mark;
mod options;
mod packed;
mod packing;
mod place;
mod placing;
mod range_list;
mod settings;
mod tag;

pub use bindtags::{put_tags, tags_length, tags_of};
pub use contents::{contents_length, put_contents};
pub use entry::{entry_length, entry_of, put_entry};
pub use laws::{places_are_exact, spellings_are_lawful};
pub use lines::{lines_length, lines_of, put_lines};
pub use listing::{listbox_length, listbox_of, put_listbox};
pub use options::{options_length, options_of, put_options};
pub use packed::add_contents;
pub use packing::{packing_length, packing_of, put_packing};
pub use place::Place;
pub use placing::placed;
