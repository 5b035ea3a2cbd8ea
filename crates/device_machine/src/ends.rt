//! What becomes of a device.
ghost use Rattle.std.specs.Prelude.{◌≡◌, ◌≤◌, [], length, map, fold, All, IfOk, OnOk};
ghost use Rattle.device_types.specs.declared.effect.Effect.TheVariants as effects;
ghost use Rattle.device_types.specs.declared.event.Lane.TheVariants as lanes;
ghost use Rattle.device_types.specs.Alone.{alone_of};
ghost use Rattle.device_types.specs.Down.{IsDown};
ghost use Rattle.device_types.specs.Journal.{effects_of};
ghost use Rattle.device_types.specs.Message.{IsMessage};
ghost use Rattle.device_types.specs.Subscriber.{IsSubscriber};
ghost use Rattle.device_machine.specs.Ends.{end_of, ended, lanes_of, with_effect};

use crate::course::{Course, advance};
use device_types::{
    DeviceEnd, Downs, Effect, Effects, GwCalls, Message, Session, SubCalls, Subscriber,
};
use std::alloc::{AllocError, Global};

/// The effects of each lane in order.
#[derive(Drop)]
pub struct Lanes {
    downs: Downs,
    gateway: GwCalls,
    subscriber: SubCalls,
}

impl Lanes {
    /// Before the first step.
    fn new(alloc: Global) -> Lanes
        ensures { result ≡ lanes_of [] }
    {
        Lanes {
            downs: Downs::new(alloc),
            gateway: GwCalls::new(alloc),
            subscriber: SubCalls::new(alloc),
        }
    }

    /// Puts an effect at the end of its lane.
    fn put(&mut self, effect: Effect) -> Result<(), AllocError>
        ensures { OnOk result (self.new ≡ with_effect self.old effect) }
    {
        match effect {
            Effect::Down(down) => self.downs.push(down),
            Effect::Gateway(call) => self.gateway.push(call),
            Effect::Subscriber(call) => self.subscriber.push(call),
        }
    }

    /// Puts effects at the ends of their lanes, in order.
    fn put_all(&mut self, effects: Effects) -> Result<(), AllocError>
        ensures { OnOk result (self.new ≡ fold with_effect self.old effects) }
    {
        for effect in effects.into_items() {
            self.put(effect)?;
        }
        Ok(())
    }
}

/// What these messages, steps and lanes come to, with the last session.
fn ended(messages: u64, steps: u64, lanes: Lanes, session: Session) -> DeviceEnd
    ensures { result ≡ ended messages steps lanes session }
{
    let Lanes {
        downs,
        gateway,
        subscriber,
    } = lanes;
    DeviceEnd {
        messages,
        steps,
        downs,
        gateway,
        subscriber,
        session,
    }
}

/// What becomes of a device whose messages are taken one by one, with each call answered at once: how many messages and steps
/// there were, the effects of each lane in order, and the last session.
pub fn end_of(row: &Subscriber, messages: &[Message]) -> Result<DeviceEnd, AllocError>
    requires tunnel { row.now.teid ≤ 4000000000 }
    requires count { length messages.now ≤ 100000 }
    ensures { IfOk result (λ end. end ≡ end_of row.now messages.now) }
{
    let count = messages.len() as u64;
    let mut course = Course::new(row.rand.alloc());
    let mut lanes = Lanes::new(row.rand.alloc());
    for v in 0..3 * messages.len() {
        let Some(effects) = advance(row, messages, v, &mut course)? else {
            return Ok(ended(count, v as u64, lanes, course.session));
        };
        lanes.put_all(effects)?;
    }
    Ok(ended(count, 3 * count, lanes, course.session))
}

/// The lists of an end are the lanes of the machine alone, effect by effect.
#[tactic(auto, using(crate::proofs::Gathered::downs_whole, crate::proofs::Gathered::gateway_whole, crate::proofs::Gathered::subscriber_whole))]
pub fn end_has_the_lanes(_row: &Subscriber, _messages: &[Message])
    ensures downs { map effects.Down (end_of _row.now _messages.now).downs
        ≡ effects_of lanes.Down (alone_of _row.now _messages.now) }
    ensures gateway { map effects.Gateway (end_of _row.now _messages.now).gateway
        ≡ effects_of lanes.Gateway (alone_of _row.now _messages.now) }
    ensures subscriber { map effects.Subscriber (end_of _row.now _messages.now).subscriber
        ≡ effects_of lanes.Subscriber (alone_of _row.now _messages.now) }
{}

/// Each message to a device, in its end, can be written, where the row and the messages are in their ranges.
#[tactic(auto, using(crate::proofs::Gathered::end_written))]
pub fn end_can_be_written(_row: &Subscriber, _messages: &[Message])
    requires row { IsSubscriber _row.now }
    requires messages { All IsMessage _messages.now }
    requires count { length _messages.now ≤ 100000 }
    ensures { All (IsDown _row.now) (end_of _row.now _messages.now).downs }
{}
