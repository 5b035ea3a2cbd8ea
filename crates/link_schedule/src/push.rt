//! The row puts an effect on the link.
ghost use Rattle.std.specs.Prelude.{◌≡◌, IfOk, OnErr};
ghost use Rattle.device_types.specs.declared.event.Event.TheVariants as happens;
ghost use Rattle.schedule_laws.specs.Answer.{IsEvent};
ghost use Rattle.link_schedule.specs.World.{Answers};

use crate::world::World;
use device_types::{DeviceId, Event, EventAnswer, Lane};
use std::alloc::AllocError;

impl World {
    /// The row of the device puts effect `k` of a lane on the link, if it was made and is not settled.
    pub(crate) fn push(
        &mut self,
        d: DeviceId,
        lane: Lane,
        k: u64,
    ) -> Result<EventAnswer, AllocError>
        requires { IsEvent self.old.setting (happens.Push d lane k) }
        ensures ok { IfOk result (Answers self.old self.new (happens.Push d lane k)) }
        ensures err { OnErr result (self.new ≡ self.old) }
    {
        let event = Event::Push { d, lane, k };
        if !self.store.is_unsettled(d, lane, k) {
            return Ok(self.log.noted(event, EventAnswer::VoidOutbox));
        }
        let index = d.index();
        self.pushed[index].mark(lane, k)?;
        Ok(self.log.noted(event, EventAnswer::Pushed))
    }
}
