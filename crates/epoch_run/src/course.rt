//! A world of streams, and the events that are drawn of it.

ghost use Rattle.std.specs.Prelude.{◌≡◌, ◌≤◌, ◌+◌, ◌<◌, ◌^◌, length, All, IfOk};
ghost use Rattle.epoch_agents.specs.Answer.{IsEvent};
ghost use Rattle.epoch_run.specs.State.{AreDrawable, IsCourse, Takes, Steps};

use crate::drawn::{arrival_of, draw_event};
use echo_base::OutOfMemory;
use epoch_agents::{EpochAnswer, EpochEvent, EpochWorld, Stream};
use std::alloc::Global;
use trace_gen::Draws;

/// A world of a device's streams, the draws of its events, and the arrivals that may be drawn.
#[derive(Drop)]
pub(crate) struct Course {
    /// The world.
    pub(crate) world: EpochWorld,
    /// The draws.
    pub(crate) draws: Draws,
    /// An arrival for each send that was answered Sent, in order.
    pub(crate) arrivals: Vec<EpochEvent>,
}

impl Course {
    /// These streams before any event. Events will be drawn from that number.
    pub(crate) fn new(alloc: Global, streams: Vec<Stream>, number: u32) -> Course
        requires { AreDrawable streams.items }
        ensures { IsCourse streams.items number 0 result.world result.draws.state result.arrivals.items }
    {
        Course {
            world: EpochWorld::new(alloc, streams),
            draws: Draws {
                state: u64::from(number),
            },
            arrivals: Vec::new(alloc),
        }
    }

    /// The world takes an event. What it puts on the link may arrive from then on.
    fn take(&mut self, event: EpochEvent) -> Result<EpochAnswer, OutOfMemory>
        requires event { IsEvent self.old.world.streams event }
        requires few { length self.old.world.events ≤ 100000 }
        ensures takes { IfOk result (Takes self.old.world self.new.world self.old.arrivals.items self.new.arrivals.items event) }
        ensures draws { self.new.draws ≡ self.old.draws }
    {
        let answer = self.world.apply(event)?;
        if let Some(arrival) = arrival_of(&self.world, event, answer) {
            self.arrivals.push(arrival)?;
        }
        Ok(answer)
    }

    /// Draws the next event, and tells what it comes to.
    pub(crate) fn step(&mut self) -> Result<EpochAnswer, OutOfMemory>
        requires streams { AreDrawable self.old.world.streams }
        requires arrivals { All (IsEvent self.old.world.streams) self.old.arrivals.items }
        requires few { length self.old.world.events ≤ 100000 }
        ensures { IfOk result (Steps self.old.world self.new.world self.old.draws.state self.new.draws.state self.old.arrivals.items self.new.arrivals.items) }
    {
        let number = self.world.event_count() + 1;
        let event = draw_event(
            &mut self.draws,
            self.world.streams(),
            &self.arrivals,
            number,
        );
        self.take(event)
    }
}
