//! A disk of two sides: what a read returns now, and what a crash may leave.
#![tactic(auto)]

mod disk;
mod failing;
mod file;
mod file_disk;
mod fuse;
mod left;
mod memory;
mod memory_side;
mod once;
mod sides;
mod span;
mod trail;

pub use disk::{DeviceFault, Disk, Side};
pub use failing::{Failing, Schedule};
pub use file_disk::{FileDisk, FileDiskFault};
pub use fuse::{EachAfter, Fuse};
pub use left::Left;
pub use memory::MemoryDisk;
pub use once::{Once, OneAfter};
