//! What writes come to.

/// What the write of a step comes to.
#[derive(Clone, Copy, Debug, PartialEq, Eq)]
pub enum Commit {
    /// It was made: the version of the row.
    Committed(u64),
    /// It was not made, since the row has another version than the one that was read.
    Stale {
        /// The version that was read.
        read: u64,
        /// The version of the row.
        current: u64,
    },
}
