//! The reply to a message, made before its step is committed.
ghost use Rattle.std.specs.Prelude.{◌≡◌, IfOk};
ghost use Rattle.replica_worker.specs.Replies.{told_of, told_in, reply_when};

use crate::hand::Hand;
use device_types::{Effects, Entry, Input, Reply};
use session_row::{Commit, downs_of};
use std::alloc::AllocError;

/// What a device is told of a message, but for the version: the message's number, and the messages to the device.
#[derive(Debug, Drop)]
pub(crate) struct Told {
    number: u64,
    downs: Effects,
}

/// What the device is told of the entry, if it is one of a message.
fn told_of(entry: &Entry) -> Result<Option<Told>, AllocError>
    ensures { IfOk result (λ told. told ≡ told_of entry.now) }
{
    let effects = &entry.step.effects;
    match entry.input.get() {
        Input::Message(message) => Ok(Some(Told {
            number: message.number,
            downs: downs_of(effects.alloc(), effects.items())?,
        })),
        Input::Answer { .. } => Ok(None),
    }
}

/// What the device is told of what a hand is to write.
pub(crate) fn told_in(hand: &Hand) -> Result<Option<Told>, AllocError>
    ensures { IfOk result (λ told. told ≡ told_in hand.now) }
{
    match hand {
        Hand::Ready { entry, .. } => told_of(entry),
        _ => Ok(None),
    }
}

/// The reply, where the step was committed.
pub(crate) fn reply_when(told: Option<Told>, commit: Commit) -> Option<Reply>
    ensures { result ≡ reply_when told commit }
{
    match (told, commit) {
        (Some(Told { number, downs }), Commit::Committed(version)) => Some(Reply {
            number,
            version,
            downs,
        }),
        _ => None,
    }
}
