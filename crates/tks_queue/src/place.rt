//! Where an event is put.
/// Where an event is put into the queue.
#[derive(Clone, Copy, Debug, PartialEq, Eq)]
pub enum Place {
    /// Behind all events.
    Tail,
    /// Before all events.
    Head,
    /// Right behind the last event that was put so, or before all where there is none.
    Mark,
}
