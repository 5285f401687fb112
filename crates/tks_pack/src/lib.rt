//! The packer: which cells each packed window gets, and how large its container asks to be.
#![tactic(auto)]

mod area;
mod laws;
mod line;
mod note;
mod options;
mod overtaking;
mod packing;
mod padding;
mod settings;
mod share;
mod stretch;

pub use area::{Area, Extent};
pub use laws::{
    fills_have_numbers, request_is_the_least_that_fits, share_is_the_most_that_fits,
    sides_have_numbers, untold_cells_show_nowhere, windows_have_their_sizes, windows_lie_inside,
    windows_stand_in_order,
};
pub use options::with_options;
pub use packing::{Content, Packing, Requests};
pub use padding::Padding;
pub use settings::{Fill, Settings, Side};
