//! What arrivals come to.

/// What the reply to a message comes to.
#[derive(Clone, Copy, Debug, PartialEq, Eq)]
pub enum Taken {
    /// No message of its number was sent: the greatest number that was, or 0.
    Stranger(u64),
    /// Its message was acknowledged before: the number of the last one that is.
    Old(u64),
    /// The messages up to this one are acknowledged.
    Acked(u64),
}

/// What a message to the device comes to.
#[derive(Clone, Copy, Debug, PartialEq, Eq)]
pub enum DownTaken {
    /// It is the next one, and is accepted.
    Accepted(u64),
    /// It was accepted before.
    Repeat(u64),
    /// Messages before it have not come: the number of the last one that was accepted, or 0.
    Ahead(u64),
}
