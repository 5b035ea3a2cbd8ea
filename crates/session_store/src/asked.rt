//! What a store is asked about a row, and what it tells.

use device_types::{Lane, Look, Reply, Session, Shared, TryCopy};

/// An input, by its number, about which a row is asked.
#[derive(Clone, Copy, Debug, PartialEq, Eq)]
pub enum Asked {
    /// The message of that number, from 1.
    Message(u64),
    /// The answer to that call of a lane, from 1. The lane is not `Down`.
    Answer(Lane, u64),
}

/// What is seen of a row.
#[derive(Clone, Debug, Drop)]
pub struct Seen {
    /// How many steps were committed.
    pub version: u64,
    /// The session of the last step, or the opening one.
    pub session: Shared<Session>,
    /// What the row says to the input.
    pub look: Look,
    /// The kept reply to the message, where the look says that it is a repeat.
    pub reply: Option<Reply>,
}

impl TryCopy for Seen {
    ghost use Rattle.std.proofs.Common.{rules};

    ghost same = { Prim.search rules };
}

/// What is seen of a row without its session.
#[derive(Clone, Debug, Drop)]
pub struct Peeked {
    /// How many steps were committed.
    pub version: u64,
    /// What the row says to the input.
    pub look: Look,
    /// The kept reply to the message, where the look says that it is a repeat.
    pub reply: Option<Reply>,
}

impl TryCopy for Peeked {
    ghost use Rattle.std.proofs.Common.{rules};

    ghost same = { Prim.search rules };
}
