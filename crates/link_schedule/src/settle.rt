//! The acknowledgement of an effect arrives.
ghost use Rattle.std.specs.Prelude.{◌≡◌, length};
ghost use Rattle.device_types.specs.Numbers.{IsWithin};
ghost use Rattle.schedule_laws.specs.Answer.{IsEvent, history};
ghost use Rattle.schedule_laws.specs.Counts.{accepted};
ghost use Rattle.link_schedule.specs.Told.{settle_answer};
ghost use Rattle.link_schedule.specs.World.{Answers};

use crate::world::World;
use device_types::{DeviceId, Event, EventAnswer, Lane};
use effect_outbox::Settled;

/// What the row says to the acknowledgement of effect `k`, as the answer to the event.
fn settle_answer(k: u64, settled: Settled) -> EventAnswer
    ensures { result ≡ settle_answer k settled }
{
    match settled {
        Settled::Upto(last) => EventAnswer::Settled(last),
        Settled::Old(_) => EventAnswer::Old(k),
    }
}

impl World {
    /// How many effects of a lane of the device its receiver has accepted. It takes no memory.
    pub(crate) fn accepted(&self, d: DeviceId, lane: Lane) -> u64
        requires { IsWithin (length self.now.setting.rows) d.0 }
        ensures { result ≡ accepted d.0 lane (history self.now.setting self.now.events) }
    {
        let index = d.index();
        match lane {
            Lane::Down => self.agents[index].downs().len() as u64,
            Lane::Gateway => self.gateway.accepted(d),
            Lane::Subscriber => self.server.accepted(d),
        }
    }

    /// The acknowledgement of effect `k` of a lane of the device arrives: the effects up to it are settled. It takes no
    /// memory.
    pub(crate) fn settle(&mut self, d: DeviceId, lane: Lane, k: u64) -> EventAnswer
        requires { IsEvent self.old.setting (Event.Settle d lane k) }
        ensures { Answers self.old self.new (Event.Settle d lane k) result }
    {
        let accepted = self.accepted(d, lane);
        let event = Event::Settle { d, lane, k };
        if accepted < k {
            return self.log.noted(event, EventAnswer::VoidLink);
        }
        let settled = self.store.settle(d, lane, k);
        let answer = settle_answer(k, settled);
        self.log.noted(event, answer)
    }
}
