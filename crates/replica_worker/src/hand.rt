//! What a replica holds.
ghost use Rattle.std.specs.Prelude.{◌≡◌, IfOk};
ghost use Rattle.replica_worker.specs.Cache.{written_session};
ghost use Rattle.replica_worker.specs.Hands.{held_in, lent_held, hand_of};
ghost use Rattle.session_store.specs.Seen.{asked_of};

use device_types::{DeviceId, Entry, Input, Session, Shared, Step, TryCopy};
use session_store::Asked;
use std::alloc::AllocError;

/// What a replica holds.
#[derive(Debug, Drop)]
pub enum Hand {
    /// Nothing.
    Empty,
    /// An input of a device, of which no step is made yet.
    Taken {
        /// The device.
        d: DeviceId,
        /// The message, or the answer to a call.
        input: Shared<Input>,
    },
    /// An input of a device with its step, to be written for the version that was read.
    Ready {
        /// The device.
        d: DeviceId,
        /// The version of the row that was read.
        version: u64,
        /// The input and its step.
        entry: Entry,
    },
}

impl Hand {
    /// The input that is held, with its device. It takes no memory.
    pub fn held(&self) -> Option<(DeviceId, &Input)>
        ensures { lent_held result ≡ held_in self.now }
    {
        match self {
            Hand::Empty => None,
            Hand::Taken { d, input } => Some((*d, input.get())),
            Hand::Ready { d, entry, .. } => Some((*d, entry.input.get())),
        }
    }
}

/// The input of a hand, with its device.
pub(crate) fn into_held(hand: Hand) -> Option<(DeviceId, Shared<Input>)>
    ensures { result ≡ held_in hand }
{
    match hand {
        Hand::Empty => None,
        Hand::Taken { d, input } => Some((d, input)),
        Hand::Ready { d, entry, .. } => Some((d, entry.input)),
    }
}

/// The hand with an input of a device, and with its step for that version, if one was made.
pub(crate) fn hand_of(d: DeviceId, input: Shared<Input>, version: u64, step: Option<Step>) -> Hand
    ensures { result ≡ hand_of d input version step }
{
    match step {
        Some(step) => Hand::Ready {
            d,
            version,
            entry: Entry { input, step },
        },
        None => Hand::Taken { d, input },
    }
}

/// What is asked of an input.
pub(crate) fn asked_of(input: &Input) -> Asked
    ensures { result ≡ asked_of input.now }
{
    match input {
        Input::Message(message) => Asked::Message(message.number),
        Input::Answer { lane, k, .. } => Asked::Answer(*lane, *k),
    }
}

/// The session of the step that a hand is to write.
pub(crate) fn written_session(hand: &Hand) -> Result<Option<Shared<Session>>, AllocError>
    ensures { IfOk result (λ session. session ≡ written_session hand.now) }
{
    match hand {
        Hand::Ready { entry, .. } => Ok(Some(entry.step.session.copy()?)),
        _ => Ok(None),
    }
}
