//! What a step is made of.

use crate::event::Lane;
use crate::list_of::Octets;
use crate::message::Message;
use crate::try_copy::TryCopy;

/// What a peer answers to a call.
#[derive(Clone, Debug, Drop)]
pub enum Answer {
    /// The subscriber server's to `SubCall::Vectors`: RAND and AUTN, 16 octets each, the response that is expected, 4 to 16
    /// octets, and the key, 32 octets (3GPP TS 29.272, 5.2.3.1).
    Vectors(Octets, Octets, Octets, Octets),
    /// The subscriber server's to `SubCall::Location`: the aggregate maximum bit rates down and up, in bit/s (TS 29.272,
    /// 5.2.1.1).
    Located(u64, u64),
    /// The subscriber server's to `SubCall::Purge` (TS 29.272, 5.2.1.3).
    Purged,
    /// The gateway's to `GwCall::Create`: its IPv4 address, its tunnel endpoint identifier, and the IPv4 address of the
    /// device (TS 29.274, 7.2.2).
    Created(u32, u32, u32),
    /// The gateway's to `GwCall::Modify` (TS 29.274, 7.2.8).
    Modified,
    /// The gateway's to `GwCall::Release` (TS 29.274, 7.2.22).
    Freed,
    /// The gateway's to `GwCall::Delete` (TS 29.274, 7.2.10.1).
    Deleted,
    /// The gateway's to `GwCall::SecondCreate`: its IPv4 address, its tunnel endpoint identifier, and the IPv4 address of the
    /// device on the second connection (TS 29.274, 7.2.2).
    SecondCreated(u32, u32, u32),
    /// The gateway's to `GwCall::SecondModify` (TS 29.274, 7.2.8).
    SecondModified,
}

impl TryCopy for Answer {
    ghost use Rattle.std.proofs.Common.{rules};

    ghost same = { Prim.search rules };
}

/// What a peer says to a call that arrives.
#[derive(Clone, Debug, Drop)]
pub enum Offer {
    /// It is the next call of its device: the peer has done it, and this is its answer.
    Accepted(Answer),
    /// It was accepted before: this is the answer that was given then.
    Repeat(Answer),
    /// Calls before it have not come: the number of the last one that was accepted.
    Ahead(u64),
}

impl TryCopy for Offer {
    ghost use Rattle.std.proofs.Common.{rules};

    ghost same = { Prim.search rules };
}

/// What a step is made of.
#[derive(Clone, Debug, Drop)]
pub enum Input {
    /// A message of the device.
    Message(Message),
    /// The answer to a call.
    Answer {
        /// The lane of the call, which is not `Down`.
        lane: Lane,
        /// The number of the call on its lane, from 1.
        k: u64,
        /// The answer.
        answer: Answer,
    },
}

impl TryCopy for Input {
    ghost use Rattle.std.proofs.Common.{rules};

    ghost same = { Prim.search rules };
}
