//! A replica stops.
ghost use Rattle.device_types.specs.declared.event.Event.{Event};
ghost use Rattle.schedule_laws.specs.Answer.{IsEvent};
ghost use Rattle.link_schedule.specs.World.{Answers};

use crate::world::World;
use device_types::{Event, EventAnswer};

impl World {
    /// The replica stops, and loses what it holds and remembers. It takes no memory.
    pub(crate) fn stop(&mut self, r: u32) -> EventAnswer
        requires { IsEvent self.old.setting (Event.Stop r) }
        ensures { Answers self.old self.new (Event.Stop r) result }
    {
        let event = Event::Stop { r };
        if r > self.count {
            return self.log.noted(event, EventAnswer::VoidReplica);
        }
        self.replicas[r as usize - 1].stop();
        self.log.noted(event, EventAnswer::Stopped)
    }
}
