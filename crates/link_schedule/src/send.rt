//! The agent of a device puts a message on the link.
ghost use Rattle.std.specs.Prelude.{◌≡◌, IfOk, OnErr};
ghost use Rattle.device_types.specs.declared.event.Event.{Event};
ghost use Rattle.schedule_laws.specs.Answer.{IsEvent};
ghost use Rattle.link_schedule.specs.World.{Answers};

use crate::world::World;
use device_types::{DeviceId, Event, EventAnswer};
use std::alloc::AllocError;

impl World {
    /// The agent of the device puts message `n` on the link. For want of memory the world is as before.
    pub(crate) fn send(&mut self, d: DeviceId, n: u64) -> Result<EventAnswer, AllocError>
        requires { IsEvent self.old.setting (Event.Send d n) }
        ensures ok { IfOk result (Answers self.old self.new (Event.Send d n)) }
        ensures err { OnErr result (self.new ≡ self.old) }
    {
        let event = Event::Send { d, n };
        let index = d.index();
        if !self.agents[index].may_send(n) {
            return Ok(self.log.noted(event, EventAnswer::VoidWindow));
        }
        self.sent[index].mark(n)?;
        self.agents[index].sent(n);
        Ok(self.log.noted(event, EventAnswer::Sent))
    }
}
