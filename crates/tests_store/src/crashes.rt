//! The ways in which a crash leaves a side.

use tks_disk::Left;

/// What a crash leaves of a side, one of five kinds.
pub fn left(kind: usize) -> Left {
    match kind {
        0 => Left::Old,
        1 => Left::New,
        2 => Left::Fill(0),
        3 => Left::Fill(1),
        _ => Left::Fill(255),
    }
}
