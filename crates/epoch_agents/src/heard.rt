//! What comes back to the agent of a stream.
ghost use Rattle.std.specs.Prelude.{◌≡◌, reverse};
ghost use Rattle.epoch_agents.specs.Counts.{heard_of, heard};

use crate::event::{EpochAnswer, EpochEvent};

/// An event, and what it came to.
pub(crate) type Turn = (EpochEvent, EpochAnswer);

/// The answer to a message that arrived.
#[derive(Clone, Copy)]
pub(crate) struct Heard {
    /// The stream.
    pub(crate) a: u32,
    /// The stamp of the name that it was sent under.
    pub(crate) stamp: u64,
    /// The message.
    pub(crate) n: u64,
    /// The answer.
    pub(crate) answer: EpochAnswer,
}

/// What a turn has for the agent of a stream: the answer to an arrival, where the message was on the link.
fn heard_of(turn: Turn) -> Option<Heard>
    ensures { result ≡ heard_of turn }
{
    let (EpochEvent::Arrive { a, stamp, n }, answer) = turn else {
        return None;
    };
    if let EpochAnswer::VoidLink = answer {
        return None;
    }
    Some(Heard {
        a,
        stamp,
        n,
        answer,
    })
}

/// What event `i` of these has for an agent, from 1.
pub(crate) fn heard_at(turns: &[Turn], i: u64) -> Option<Heard>
    ensures { result ≡ heard i (reverse turns.now) }
{
    let index = i.checked_sub(1)?;
    let turn = turns.get(index as usize)?;
    heard_of(*turn)
}
