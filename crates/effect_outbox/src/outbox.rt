//! The outbox of a device.
ghost use Rattle.std.specs.Prelude.{◌≡◌, ◌<◌, ◌≤◌, ◌-◌, ◌^◌, [], List, length, OnOk, IfErr, OnErr, option_copied};

use crate::queues::Queues;
use crate::settled::Settled;
use device_types::{Effect, Effects, Lane, NoRoom};
use std::alloc::{AllocError, Global};
use std::marker::Model;

/// The effects of a device by lane, until they are settled. Contracts speak of the lanes of which it holds the unsettled rest.
#[derive(Debug, Drop)]
pub struct Outbox {
    queues: Queues,
}

impl Model for Outbox {
    ghost use Rattle.effect_outbox.specs.Outbox.{OutboxState};

    ghost Value = { OutboxState };

    ghost use Rattle.effect_outbox.specs.Queues.{state_of};

    ghost view = { λ outbox. state_of outbox.queues };
}

impl Outbox {
    ghost use Rattle.device_types.specs.declared.event.Lane.{Lane};
    ghost use Rattle.device_types.specs.declared.effect.Effect.{Effect};
    ghost use Rattle.effect_outbox.specs.Outbox.{LaneNumbers, number_on, with_number, Holds, with_effects, unsettled_at, settled_by, settled_of, pushed_on};

    /// The outbox of three lanes without effects. It takes no memory.
    pub fn new(alloc: Global) -> Outbox
        ensures lanes { Holds result (λ _. []) (record { down = 0; gateway = 0; subscriber = 0 }) }
        ensures room { result.room ≡ 0 }
    {
        Outbox {
            queues: Queues::new(alloc),
        }
    }

    /// Makes room for so many more effects, whatever their lanes. It fails for want of memory, or of numbers below 2^64, and the
    /// outbox stays as it was.
    pub fn reserve(&mut self, more: usize) -> Result<(), AllocError>
        ensures ok { OnOk result (self.new ≡ record self.old { room = more }) }
        ensures err { OnErr result (self.new ≡ self.old) }
    {
        self.queues.reserve(more)
    }

    /// Adds the effects of a step for which there is room, each at the end of its lane. It takes no memory.
    #[tactic(auto, using(crate::proofs::Steps::state_longer))]
    pub fn push_reserved(&mut self, effects: Effects)
        requires { length effects ≤ self.old.room }
        ensures lanes { (lanes : Lane → List Effect) (settled : LaneNumbers) → Holds self.old lanes settled → Holds self.new (with_effects lanes effects) settled }
        ensures counted { (l : Lane) → pushed_on self.new l < 2 ^ 64 }
        ensures room { self.new.room ≡ self.old.room - length effects }
    {
        self.queues.put_all(effects.into_items());
    }

    /// Adds the effects of a step, each at the end of its lane. For want of memory, or of numbers below 2^64, the outbox stays as
    /// it was, and the effects are given back.
    pub fn push(&mut self, effects: Effects) -> Result<(), NoRoom<Effects>>
        ensures ok { OnOk result ((lanes : Lane → List Effect) (settled : LaneNumbers) → Holds self.old lanes settled → Holds self.new (with_effects lanes effects) settled) }
        ensures counted { OnOk result ((l : Lane) → pushed_on self.new l < 2 ^ 64) }
        ensures room { OnOk result (self.new.room ≡ 0) }
        ensures err { OnErr result (self.new ≡ self.old) }
        ensures back { IfErr result (λ room. room.0 ≡ effects) }
    {
        if self.reserve(effects.items().len()).is_err() {
            return Err(NoRoom(effects));
        }
        self.push_reserved(effects);
        Ok(())
    }

    /// Effect `k` of the lane, from 1, or `None` where it was not made or is settled. It takes no memory.
    pub fn at(&self, lane: Lane, k: u64) -> Option<&Effect>
        ensures { (lanes : Lane → List Effect) (settled : LaneNumbers) → Holds self.now lanes settled → option_copied result ≡ unsettled_at (lanes lane) (number_on settled lane) k }
    {
        match lane {
            Lane::Down => self.queues.down.at(k),
            Lane::Gateway => self.queues.gateway.at(k),
            Lane::Subscriber => self.queues.subscriber.at(k),
        }
    }

    /// The effects of the lane up to `k` are settled: their memory is given back, and no room is kept. It never fails.
    pub fn settle(&mut self, lane: Lane, k: u64) -> Settled
        requires { k ≤ pushed_on self.old lane }
        ensures value { result ≡ settled_by (number_on (settled_of self.old) lane) k }
        ensures rest { (lanes : Lane → List Effect) (settled : LaneNumbers) → Holds self.old lanes settled → Holds self.new lanes (with_number settled lane k) }
        ensures room { self.new.room ≡ 0 }
    {
        self.queues.settle(lane, k)
    }

    /// How many effects of the lane were made. It takes no memory.
    pub fn pushed(&self, lane: Lane) -> u64
        ensures value { result ≡ pushed_on self.now lane }
        ensures lanes { (lanes : Lane → List Effect) (settled : LaneNumbers) → Holds self.now lanes settled → result ≡ length (lanes lane) }
    {
        match lane {
            Lane::Down => self.queues.down.pushed(),
            Lane::Gateway => self.queues.gateway.pushed(),
            Lane::Subscriber => self.queues.subscriber.pushed(),
        }
    }
}
