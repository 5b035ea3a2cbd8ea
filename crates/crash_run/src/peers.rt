//! The two peers of a device that is alone.
ghost use Rattle.std.specs.Prelude.{◌≡◌, ◌≤◌, ◌<◌, ◌+◌, ◌++◌, ◌∷◌, [], length, map, OnOk, IfOk};
ghost use Rattle.device_types.specs.declared.effect.Effect.TheVariants as effects;
ghost use Rattle.device_types.specs.declared.event.Lane.TheVariants as lanes;
ghost use Rattle.device_types.specs.Journal.{effects_on};
ghost use Rattle.device_types.specs.Numbers.{IsWithin};
ghost use Rattle.peer_calls.specs.Calls.{calls_of};
ghost use Rattle.crash_run.specs.Course.{HasPeers};

use device_types::{DeviceId, Effect, Step, Subscriber};
use peer_gateway::Gateway;
use peer_subscriber::SubscriberPeer;
use std::alloc::{AllocError, Global};

/// The two peers, which a device offers each of its calls once.
#[derive(Drop)]
pub struct Peers {
    /// The gateway.
    pub(crate) gateway: Gateway,
    /// The subscriber server.
    pub(crate) server: SubscriberPeer,
}

impl Peers {
    /// Peers that were offered no call, with room for a device of that number.
    pub(crate) fn new(alloc: Global, number: u32) -> Result<Peers, AllocError>
        requires { 1 ≤ number }
        ensures { IfOk result (HasPeers number [] []) }
    {
        Ok(Peers {
            gateway: Gateway::new(alloc, number)?,
            server: SubscriberPeer::new(alloc, number)?,
        })
    }

    /// Offers the call that an effect is. A message to the device is none.
    fn offer(&mut self, row: &Subscriber, effect: &Effect) -> Result<(), AllocError>
        requires gateway { IsWithin (length self.old.gateway) row.now.number }
        requires server { IsWithin (length self.old.server) row.now.number }
        requires tunnel { row.now.teid ≤ 4000000000 }
        requires few { length (calls_of self.old.gateway row.now.number) + 1 < 268435456 }
        requires short { length (calls_of self.old.server row.now.number) + 1 < 268435456 }
        ensures gateway { OnOk result (map effects.Gateway (calls_of self.new.gateway row.now.number) ≡ map effects.Gateway (calls_of self.old.gateway row.now.number) ++ effects_on lanes.Gateway (effect.now ∷ [])) }
        ensures server { OnOk result (map effects.Subscriber (calls_of self.new.server row.now.number) ≡ map effects.Subscriber (calls_of self.old.server row.now.number) ++ effects_on lanes.Subscriber (effect.now ∷ [])) }
        ensures sizes { OnOk result ((length self.new.gateway ≡ length self.old.gateway) × (length self.new.server ≡ length self.old.server)) }
    {
        let d = DeviceId(row.number);
        match effect {
            Effect::Down(_) => {}
            Effect::Gateway(call) => {
                let k = self.gateway.accepted(d) + 1;
                self.gateway.offer(row, k, *call)?;
            }
            Effect::Subscriber(call) => {
                let k = self.server.accepted(d) + 1;
                self.server.offer(row, k, *call)?;
            }
        }
        Ok(())
    }

    /// Offers the calls that a step makes, in order.
    pub(crate) fn offer_all(&mut self, row: &Subscriber, step: &Step) -> Result<(), AllocError>
        requires gateway { IsWithin (length self.old.gateway) row.now.number }
        requires server { IsWithin (length self.old.server) row.now.number }
        requires tunnel { row.now.teid ≤ 4000000000 }
        requires few { length (calls_of self.old.gateway row.now.number) + length step.now.effects < 268435456 }
        requires short { length (calls_of self.old.server row.now.number) + length step.now.effects < 268435456 }
        ensures gateway { OnOk result (map effects.Gateway (calls_of self.new.gateway row.now.number) ≡ map effects.Gateway (calls_of self.old.gateway row.now.number) ++ effects_on lanes.Gateway step.now.effects) }
        ensures server { OnOk result (map effects.Subscriber (calls_of self.new.server row.now.number) ≡ map effects.Subscriber (calls_of self.old.server row.now.number) ++ effects_on lanes.Subscriber step.now.effects) }
        ensures sizes { OnOk result ((length self.new.gateway ≡ length self.old.gateway) × (length self.new.server ≡ length self.old.server)) }
    {
        for effect in step.effects.items() {
            self.offer(row, effect)?;
        }
        Ok(())
    }
}
