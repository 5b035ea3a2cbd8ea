//! Both peers, which are called by effects of either lane.
ghost use Rattle.std.specs.Prelude.{◌≡◌, ◌<◌, ◌≤◌, true, [], length, replicate, IfOk, OnOk, OnErr};
ghost use Rattle.device_types.specs.Numbers.{IsWithin};
ghost use Rattle.device_types.specs.PeerAnswer.{answer_of};
ghost use Rattle.peer_calls.specs.Calls.{offer_of};
ghost use Rattle.shard_parts.specs.BothPeers.{is_call, lane_of, lists_on, gateway_after, subscriber_after};

use device_types::{Effect, Offer, Subscriber};
use peer_gateway::Gateway;
use peer_subscriber::SubscriberPeer;
use std::alloc::{AllocError, Global};

/// The gateway and the subscriber server, each with the calls that it has accepted of each device.
#[derive(Drop)]
pub struct Peers {
    pub(crate) gateway: Gateway,
    pub(crate) subscriber: SubscriberPeer,
}

impl Peers {
    /// Peers that have accepted no call of so many devices.
    pub fn new(alloc: Global, devices: u32) -> Result<Peers, AllocError>
        ensures { IfOk result (λ peers. (peers.gateway ≡ replicate devices []) × (peers.subscriber ≡ replicate devices [])) }
    {
        Ok(Peers {
            gateway: Gateway::new(alloc, devices)?,
            subscriber: SubscriberPeer::new(alloc, devices)?,
        })
    }

    /// What is said to call `k` of the device of this row on its lane, `k` from 1, before anything is accepted.
    pub fn says(&self, row: &Subscriber, k: u64, call: &Effect) -> Result<Offer, AllocError>
        requires call { is_call call.now ≡ true }
        requires gateway { IsWithin (length self.now.gateway) row.now.number }
        requires subscriber { IsWithin (length self.now.subscriber) row.now.number }
        requires tunnel { row.now.teid ≤ 4000000000 }
        requires number { 1 ≤ k }
        requires count { k < 268435456 }
        ensures { IfOk result (λ offer. offer ≡ offer_of (answer_of row.now) (lists_on self.now (lane_of call.now) row.now.number) k call.now) }
    {
        match call {
            Effect::Gateway(call) => Ok(self.gateway.says(row, k, *call)),
            Effect::Subscriber(call) => self.subscriber.says(row, k, *call),
            Effect::Down(_) => unreachable!(),
        }
    }

    /// Call `k` of the device of this row on its lane arrives, `k` from 1. For want of memory all is as before.
    pub fn offer(&mut self, row: &Subscriber, k: u64, call: &Effect) -> Result<Offer, AllocError>
        requires call { is_call call.now ≡ true }
        requires gateway { IsWithin (length self.old.gateway) row.now.number }
        requires subscriber { IsWithin (length self.old.subscriber) row.now.number }
        requires tunnel { row.now.teid ≤ 4000000000 }
        requires number { 1 ≤ k }
        requires count { k < 268435456 }
        ensures offer { IfOk result (λ offer. offer ≡ offer_of (answer_of row.now) (lists_on self.old (lane_of call.now) row.now.number) k call.now) }
        ensures gateway { OnOk result (self.new.gateway ≡ gateway_after self.old.gateway row.now.number k call.now) }
        ensures subscriber { OnOk result (self.new.subscriber ≡ subscriber_after self.old.subscriber row.now.number k call.now) }
        ensures err { OnErr result (self.new ≡ self.old) }
    {
        match call {
            Effect::Gateway(call) => self.gateway.offer(row, k, *call),
            Effect::Subscriber(call) => self.subscriber.offer(row, k, *call),
            Effect::Down(_) => unreachable!(),
        }
    }

    /// The same, and what is said once more.
    pub fn offer_twice(
        &mut self,
        row: &Subscriber,
        k: u64,
        call: &Effect,
    ) -> Result<(Offer, Offer), AllocError>
        requires call { is_call call.now ≡ true }
        requires gateway { IsWithin (length self.old.gateway) row.now.number }
        requires subscriber { IsWithin (length self.old.subscriber) row.now.number }
        requires tunnel { row.now.teid ≤ 4000000000 }
        requires number { 1 ≤ k }
        requires count { k < 268435456 }
        ensures offer { IfOk result (λ offer. offer.0 ≡ offer_of (answer_of row.now) (lists_on self.old (lane_of call.now) row.now.number) k call.now) }
        ensures copy { IfOk result (λ offer. offer.1 ≡ offer.0) }
        ensures gateway { OnOk result (self.new.gateway ≡ gateway_after self.old.gateway row.now.number k call.now) }
        ensures subscriber { OnOk result (self.new.subscriber ≡ subscriber_after self.old.subscriber row.now.number k call.now) }
        ensures err { OnErr result (self.new ≡ self.old) }
    {
        let kept = self.says(row, k, call)?;
        let offer = self.offer(row, k, call)?;
        Ok((offer, kept))
    }
}
