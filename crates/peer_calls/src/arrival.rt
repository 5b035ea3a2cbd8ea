//! What the number of a call says.

/// What the number of a call says to the peer at which it arrives.
#[derive(Clone, Copy, Debug, PartialEq, Eq)]
pub enum Arrival {
    /// It is the next one of its device.
    Next,
    /// It was accepted before.
    Repeat,
    /// Calls before it have not come: the number of the last one that was accepted, or 0.
    Ahead(u64),
}
