//! What a crash leaves of what wasn't synced.

/// What a crash leaves of a side, out of all that it may leave.
#[derive(Clone, Copy, Debug, PartialEq, Eq)]
pub enum Left {
    /// The side as it was synced last.
    Old,
    /// The side as it was written.
    New,
    /// The side as it was written, but with this byte in each place that was written and not synced.
    Fill(u8),
}
