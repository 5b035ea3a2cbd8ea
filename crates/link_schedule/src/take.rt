//! A message arrives at a replica.
ghost use Rattle.std.specs.Prelude.{◌≡◌, ◌≤◌, ◌-◌, length, slice_index_or, IfOk, OnErr};
ghost use Rattle.device_types.specs.declared.event.Event.{Event};
ghost use Rattle.schedule_laws.specs.Answer.{IsEvent};
ghost use Rattle.schedule_laws.specs.Input.{no_message};
ghost use Rattle.link_schedule.specs.World.{Answers};

use crate::world::{Agent, World, row_at};
use device_types::{DeviceId, Event, EventAnswer, Input, Message, Shared, TryCopy};
use std::alloc::AllocError;

/// Message `n` of the line of a device, copied.
fn message_at(agent: &Agent, n: u64) -> Result<Message, AllocError>
    requires number { 1 ≤ n }
    requires within { n ≤ length agent.now.line.messages }
    ensures { IfOk result (λ message. message ≡ slice_index_or agent.now.line.messages (n - 1) no_message) }
{
    let Some(message) = agent.line().message(n) else {
        unreachable!();
    };
    message.copy()
}

impl World {
    /// Message `n` of the device arrives at a replica. For want of memory the world is as before.
    pub(crate) fn take(&mut self, r: u32, d: DeviceId, n: u64) -> Result<EventAnswer, AllocError>
        requires { IsEvent self.old.setting (Event.Take r d n) }
        ensures ok { IfOk result (Answers self.old self.new (Event.Take r d n)) }
        ensures err { OnErr result (self.new ≡ self.old) }
    {
        let event = Event::Take { r, d, n };
        if r > self.count {
            return Ok(self.log.noted(event, EventAnswer::VoidReplica));
        }
        let index = d.index();
        if !self.sent[index].has(n) {
            return Ok(self.log.noted(event, EventAnswer::VoidLink));
        }
        let message = message_at(&self.agents[index], n)?;
        let alloc = row_at(&self.law, d).rand.alloc();
        let input = Shared::new(alloc, Input::Message(message))?;
        self.replicas[r as usize - 1].take(d, input);
        Ok(self.log.noted(event, EventAnswer::Taken))
    }
}
