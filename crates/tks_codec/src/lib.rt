//! Worlds as bytes, read back exactly, and nothing else read.
#![tactic(auto)]

mod class;
mod content;
mod counts;
mod ends;
mod happenings;
mod laws;
mod line;
mod windows;
mod world;

pub use laws::{one_world, second_format_reads_the_first};
pub use tks_spelling::{
    CodecFault, Format, Header, read_header, read_input, write_header, write_input,
};
pub use world::{read_world, world_length, write_world};
