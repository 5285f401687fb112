//! Whether a world keeps within limits.
#![tactic(auto)]

mod events;
mod laws;
mod texts;
mod variables;
mod windows;
mod world;

pub use events::patterns_fit;
pub use laws::wider_limits_admit;
pub use windows::widget_fits;
pub use world::is_within;
