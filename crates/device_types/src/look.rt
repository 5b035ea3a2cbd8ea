//! What a row says to an input.

use crate::event::Lane;

/// What the row of a device says to an input, before any step is made of it.
#[derive(Clone, Copy, Debug, PartialEq, Eq)]
pub enum Look {
    /// It is the next input.
    Ready,
    /// This message was taken, and its reply is kept.
    Repeat(u64),
    /// This message was taken, and its reply is no longer kept.
    Settled(u64),
    /// Messages before it were not taken: so many were.
    Ahead(u64),
    /// The answer to this call of a lane is awaited first.
    Waiting(Lane, u64),
    /// The answer to this call of a lane was taken, or no step waits for it.
    Old(Lane, u64),
    /// The call was not made: so many of its lane were.
    NotAwaited(u64),
}
