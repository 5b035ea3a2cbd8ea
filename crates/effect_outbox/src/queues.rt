//! The three lanes.
ghost use Rattle.std.specs.Prelude.{◌≡◌, ◌≤◌, ◌∷◌, [], length, OnOk, OnErr};
ghost use Rattle.effect_outbox.specs.Queue.{HasRoom};

use crate::queue::LaneQueue;
use crate::settled::Settled;
use device_types::{Effect, Lane};
use std::alloc::{AllocError, Global};

/// The queues of the lanes, and for how many more effects each of them has room.
#[derive(Debug, Drop)]
pub(crate) struct Queues {
    pub(crate) down: LaneQueue,
    pub(crate) gateway: LaneQueue,
    pub(crate) subscriber: LaneQueue,
    pub(crate) room: usize,
    ghost down_room: { HasRoom down room },
    ghost gateway_room: { HasRoom gateway room },
    ghost subscriber_room: { HasRoom subscriber room },
}

impl Queues {
    ghost use Rattle.effect_outbox.specs.Outbox.{pushed_on, settled_by, settled_of, number_on};
    ghost use Rattle.effect_outbox.specs.Queue.{none};
    ghost use Rattle.effect_outbox.specs.Queues.{state_of, state_with, state_from};

    /// Three lanes without effects. It takes no memory.
    pub(crate) fn new(alloc: Global) -> Queues
        ensures { state_of result ≡ record { down = none; gateway = none; subscriber = none; room = 0 } }
    {
        Queues {
            down: LaneQueue::new(alloc),
            gateway: LaneQueue::new(alloc),
            subscriber: LaneQueue::new(alloc),
            room: 0,
        }
    }

    /// Makes room for so many more effects, whatever their lanes.
    pub(crate) fn reserve(&mut self, more: usize) -> Result<(), AllocError>
        ensures ok { OnOk result (state_of self.new ≡ record (state_of self.old) { room = more }) }
        ensures err { OnErr result (state_of self.new ≡ state_of self.old) }
    {
        self.down.reserve(more)?;
        self.gateway.reserve(more)?;
        self.subscriber.reserve(more)?;
        self.room = more;
        Ok(())
    }

    /// The next effect, on its lane. There is room.
    pub(crate) fn put(&mut self, effect: Effect)
        requires { 1 ≤ self.old.room }
        ensures { state_of self.new ≡ state_with (state_of self.old) (effect ∷ []) }
    {
        self.room -= 1;
        match effect {
            Effect::Down(down) => self.down.put(Effect::Down(down)),
            Effect::Gateway(call) => self.gateway.put(Effect::Gateway(call)),
            Effect::Subscriber(call) => self.subscriber.put(Effect::Subscriber(call)),
        }
    }

    /// The next effects, each on its lane. There is room.
    pub(crate) fn put_all(&mut self, effects: Vec<Effect>)
        requires { length effects.items ≤ self.old.room }
        ensures { state_of self.new ≡ state_with (state_of self.old) effects.items }
    {
        for effect in effects {
            self.put(effect);
        }
    }

    /// The effects of the lane up to `k` are settled, and no room is kept.
    pub(crate) fn settle(&mut self, lane: Lane, k: u64) -> Settled
        requires { k ≤ pushed_on (state_of self.old) lane }
        ensures value { result ≡ settled_by (number_on (settled_of (state_of self.old)) lane) k }
        ensures state { state_of self.new ≡ state_from (state_of self.old) lane k }
    {
        self.room = 0;
        match lane {
            Lane::Down => self.down.settle(k),
            Lane::Gateway => self.gateway.settle(k),
            Lane::Subscriber => self.subscriber.settle(k),
        }
    }
}
