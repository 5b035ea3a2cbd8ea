//! The reply to a message arrives at the agent.
ghost use Rattle.std.specs.Prelude.{◌≡◌, IfOk, OnErr};
ghost use Rattle.device_types.specs.declared.event.Event.{Event};
ghost use Rattle.schedule_laws.specs.Answer.{IsEvent};
ghost use Rattle.link_schedule.specs.Told.{reply_answer};
ghost use Rattle.link_schedule.specs.World.{Answers};

use crate::world::World;
use agent_resend::Taken;
use device_types::{DeviceId, Event, EventAnswer, Look};
use session_store::{Asked, Peeked};
use std::alloc::AllocError;

/// What the agent says to the reply to message `n`, as the answer to the event.
fn reply_answer(n: u64, taken: Taken) -> EventAnswer
    ensures { result ≡ reply_answer n taken }
{
    match taken {
        Taken::Acked(acked) => EventAnswer::Acked(acked),
        Taken::Old(_) => EventAnswer::Old(n),
        Taken::Stranger(_) => EventAnswer::VoidLink,
    }
}

impl World {
    /// The reply to message `n` arrives at the agent of the device. It is on its link once the message was taken; where the row does
    /// not keep it any more, the agent has learnt of that message before. For want of memory the world is as before.
    pub(crate) fn reply(&mut self, d: DeviceId, n: u64) -> Result<EventAnswer, AllocError>
        requires { IsEvent self.old.setting (Event.Reply d n) }
        ensures ok { IfOk result (Answers self.old self.new (Event.Reply d n)) }
        ensures err { OnErr result (self.new ≡ self.old) }
    {
        let event = Event::Reply { d, n };
        let Peeked { look, reply, .. } = self.store.peek(d, Asked::Message(n))?;
        if let Look::Settled(_) = look {
            return Ok(self.log.noted(event, EventAnswer::Old(n)));
        }
        let Some(reply) = reply else {
            return Ok(self.log.noted(event, EventAnswer::VoidLink));
        };
        let index = d.index();
        let taken = self.agents[index].take_reply(&reply);
        Ok(self.log.noted(event, reply_answer(n, taken)))
    }
}
