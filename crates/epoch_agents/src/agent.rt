//! The agent of a stream.
ghost use Rattle.std.specs.Prelude.{◌≡◌, ◌<◌, ◌+◌, ◌^◌, ℕ};
ghost use Rattle.epoch_agents.specs.declared.event.EpochAnswer.TheVariants as told;

use crate::event::EpochAnswer;
use crate::heard::Heard;

/// How far an agent sends ahead of the last acknowledged message.
const WINDOW: u64 = 4;

/// What the agent of a stream knows.
#[derive(Clone, Copy)]
pub(crate) struct Agent {
    /// The stamp of the stream's name, from 1.
    pub(crate) stamp: u64,
    /// The number of the last message that is acknowledged, or 0.
    pub(crate) acked: u64,
    /// No more of it will be sent.
    pub(crate) is_over: bool,
}

impl Agent {
    ghost use Rattle.epoch_agents.specs.Answer.{may_send, hears};
    ghost use Rattle.epoch_agents.specs.Counts.{fresh_agent, learnt};

    /// The agent before any event.
    pub(crate) fn new() -> Agent
        ensures { result ≡ fresh_agent }
    {
        Agent {
            stamp: 1,
            acked: 0,
            is_over: false,
        }
    }

    /// May it send message `n` of so many?
    pub(crate) fn may_send(self, long: u64, n: u64) -> bool
        ensures { result ≡ may_send self long n }
    {
        !self.is_over && self.acked < n && n - self.acked <= WINDOW && n <= long
    }

    /// What it makes of the answer to an arrival.
    pub(crate) fn hears(self, heard: Heard) -> EpochAnswer
        requires { (stamp : ℕ) → heard.answer ≡ told.Low stamp → stamp + 1 < 2 ^ 64 }
        ensures { result ≡ hears self heard }
    {
        if self.stamp != heard.stamp {
            return EpochAnswer::Old;
        }
        match heard.answer {
            EpochAnswer::Committed(_) | EpochAnswer::Repeat(_) => {
                if self.acked < heard.n {
                    EpochAnswer::Acked(heard.n)
                } else {
                    EpochAnswer::Old
                }
            }
            EpochAnswer::Low(stamp) => EpochAnswer::Renamed(stamp + 1),
            EpochAnswer::OverAt(_) => EpochAnswer::Over,
            _ => EpochAnswer::Old,
        }
    }

    /// What it knows after that.
    pub(crate) fn learnt(self, answer: EpochAnswer) -> Agent
        ensures { result ≡ learnt answer self }
    {
        match answer {
            EpochAnswer::Acked(acked) => Agent { acked, ..self },
            EpochAnswer::Renamed(stamp) => Agent { stamp, ..self },
            EpochAnswer::Over => Agent {
                is_over: true,
                ..self
            },
            _ => self,
        }
    }
}
