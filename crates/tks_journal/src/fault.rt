//! Why two sides can't be read.

use thiserror::Error;

/// What is wrong with the bytes of two sides.
#[derive(Clone, Copy, Debug, PartialEq, Eq, Error)]
pub enum SideFault {
    /// An open side is of a format that isn't known.
    #[error("a side is of an unknown format")]
    UnknownFormat,
    /// Something stands behind an open gate that was never written whole.
    #[error("a side is damaged")]
    Damaged,
}
