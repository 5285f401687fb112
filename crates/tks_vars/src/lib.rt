//! The variables and procedures of scripts.
#![tactic(auto)]

mod call;
mod changing;
mod content;
mod few;
mod frame;
mod laws;
mod links;
mod name;
mod procedure;
mod table;
mod vars;
mod writing;

pub use call::Arguments;
pub use content::Content;
pub use laws::{
    a_frame_leaves_nothing, a_link_is_the_global, an_element_has_an_index, frames_stay,
    what_is_set_is_got, what_is_unset_is_gone,
};
pub use name::names_whole;
pub use procedure::{Argument, Parameter, Procedure};
pub use table::Table;
pub use tks_share::Iter;
pub use vars::Vars;
