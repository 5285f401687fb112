//! The tree of windows: their numbers, paths and classes, and the order of the focus.
#![tactic(auto)]

mod fault;
mod focus;
mod gone;
mod laws;
mod path;
mod tree;
mod window;

pub use fault::CreateFault;
pub use gone::without_windows;
pub use laws::{
    preorder_goes_down_the_tree, preorder_holds_each_once, windows_were_made_after_their_parents,
};
pub use path::is_path;
pub use tree::Tree;
pub use window::{Window, WindowId, is_widget_class};
