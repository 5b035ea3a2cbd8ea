//! One accepted call.
ghost use Rattle.std.specs.Prelude.{◌≡◌, ◌<◌, ◌+◌, ◌^◌, length, map};
ghost use Rattle.device_types.specs.PeerAnswer.{create_count, gateway_answer};
ghost use Rattle.peer_gateway.specs.Counted.{effect_in, IsCounted};

use device_types::{Answer, GwCall, Subscriber};

/// An accepted call.
#[derive(Clone, Copy, Debug)]
pub(crate) struct Counted {
    pub(crate) call: GwCall,
    // How many calls before it create a session.
    pub(crate) creates: u32,
}

impl Counted {
    ghost use Rattle.peer_gateway.specs.Counted.{creates_with};

    /// How many of the calls up to this one create a session.
    pub(crate) fn creates_with(self) -> u32
        requires { self.creates + 1 < 2 ^ 32 }
        ensures { result ≡ creates_with self }
    {
        match self.call {
            GwCall::Create | GwCall::SecondCreate => self.creates + 1,
            GwCall::Modify(_, _) | GwCall::Release | GwCall::Delete | GwCall::SecondModify(_, _) =>
                self.creates,
        }
    }
}

/// The answer to a call behind so many that create: each new session has a tunnel of its own.
pub(crate) fn answer(row: &Subscriber, creates: u32, call: GwCall) -> Answer
    requires { row.now.teid + creates < 2 ^ 32 }
    ensures { result ≡ gateway_answer row.now creates call }
{
    match call {
        GwCall::Create => Answer::Created(row.sgw, row.teid + creates, row.ip),
        GwCall::Modify(_, _) => Answer::Modified,
        GwCall::Release => Answer::Freed,
        GwCall::Delete => Answer::Deleted,
        GwCall::SecondCreate => {
            Answer::SecondCreated(row.sgw, row.teid + creates, row.ip2.unwrap_or(0))
        }
        GwCall::SecondModify(_, _) => Answer::SecondModified,
    }
}

/// How many of these calls create a session.
pub(crate) fn creates_in(calls: &[Counted]) -> u32
    requires counted { IsCounted calls.now }
    requires count { length calls.now < 268435456 }
    ensures { result ≡ create_count (map effect_in calls.now) }
{
    match calls.last() {
        None => 0,
        Some(last) => last.creates_with(),
    }
}
