//! Any event.
ghost use Rattle.std.specs.Prelude.{◌≡◌, IfOk, OnErr};
ghost use Rattle.schedule_laws.specs.Answer.{IsEvent};
ghost use Rattle.link_schedule.specs.World.{Answers, IsWorld};

use crate::world::World;
use device_types::{Event, EventAnswer};
use std::alloc::AllocError;

impl World {
    /// The world takes an event, and tells what it comes to. For want of memory the world is as before, but that its store may count
    /// a read more.
    pub fn apply(&mut self, event: Event) -> Result<EventAnswer, AllocError>
        requires { IsEvent self.old.setting event }
        ensures ok { IfOk result (Answers self.old self.new event) }
        ensures err { OnErr result (self.new ≡ self.old) }
        ensures world { IsWorld self.new }
    {
        let answer = match event {
            Event::Send { d, n } => self.send(d, n),
            Event::Take { r, d, n } => self.take(r, d, n),
            Event::Answer { r, d, lane, k } => self.answer(r, d, lane, k),
            Event::Read { r } => self.read(r),
            Event::Write { r } => self.write(r),
            Event::Stop { r } => Ok(self.stop(r)),
            Event::Reply { d, n } => self.reply(d, n),
            Event::Push { d, lane, k } => self.push(d, lane, k),
            Event::Effect { d, lane, k } => self.effect(d, lane, k),
            Event::Settle { d, lane, k } => Ok(self.settle(d, lane, k)),
        };
        self.recall();
        answer
    }
}
