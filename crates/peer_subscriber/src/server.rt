//! The subscriber server.
ghost use Rattle.std.specs.Prelude.{◌≡◌, ◌≤◌, ◌+◌, ◌-◌, [], length, replicate, take, slice_get, IfOk, OnErr};
ghost use Rattle.device_types.specs.Numbers.{IsWithin};
ghost use Rattle.device_types.specs.PeerAnswer.{subscriber_answer};
ghost use Rattle.peer_calls.specs.Calls.{calls_of, offer_of, after_offer};
ghost use Rattle.peer_subscriber.specs.Server.{subscriber_answer_of};

use device_types::{Answer, DeviceId, Offer, SubCall, SubCalls, Subscriber, TryCopy};
use peer_calls::{Accepted, Arrival};
use std::alloc::{AllocError, Global};
use std::marker::Model;

/// The subscriber server, which has accepted calls of each device in the order of their numbers. Contracts see these calls, a list
/// for each device. What it answers follows from the call and the subscriber's row.
#[derive(Debug, Drop)]
pub struct SubscriberPeer {
    done: Accepted<SubCall>,
}

impl Model for SubscriberPeer {
    ghost use Rattle.std.specs.Prelude.{List};
    ghost use Rattle.device_types.specs.declared.effect.SubCall.{SubCall};

    ghost Value = { List (List SubCall) };

    ghost view = { λ peer. peer.done };
}

/// The answer to a call.
fn answer(row: &Subscriber, call: SubCall) -> Result<Answer, AllocError>
    ensures { IfOk result (λ answer. answer ≡ subscriber_answer row.now call) }
{
    match call {
        SubCall::Vectors => Ok(Answer::Vectors(
            row.rand.copy()?,
            row.autn.copy()?,
            row.res.copy()?,
            row.key.copy()?,
        )),
        SubCall::Location => Ok(Answer::Located(row.ambr_dl, row.ambr_ul)),
        SubCall::Purge => Ok(Answer::Purged),
    }
}

impl SubscriberPeer {
    /// The server that has accepted no call of so many devices.
    pub fn new(alloc: Global, devices: u32) -> Result<SubscriberPeer, AllocError>
        ensures { IfOk result (λ peer. peer ≡ replicate devices []) }
    {
        Ok(SubscriberPeer {
            done: Accepted::new(alloc, devices)?,
        })
    }

    /// Call `k` of the device of this row arrives, `k` from 1. Where it is the next one it is accepted, and answered by the row. A
    /// repeat is given the answer to call `k` again, whatever call comes with its number, and one that is ahead the number of the
    /// last that was accepted; both change nothing, and the second takes no memory. For want of memory all is as before.
    pub fn offer(&mut self, row: &Subscriber, k: u64, call: SubCall) -> Result<Offer, AllocError>
        requires device { IsWithin (length self.old) row.now.number }
        requires number { 1 ≤ k }
        ensures offer { IfOk result (λ offer. offer ≡ offer_of (subscriber_answer_of row.now) (calls_of self.old row.now.number) k call) }
        ensures calls { IfOk result (λ _. self.new ≡ after_offer self.old row.now.number k call) }
        ensures err { OnErr result (self.new ≡ self.old) }
        ensures memory { OnErr result (k ≤ length (calls_of self.old row.now.number) + 1) }
    {
        let offer = self.says(row, k, call)?;
        let d = DeviceId(row.number);
        match self.done.arrival(d, k) {
            Arrival::Next => {
                self.done.accept(d, call)?;
                Ok(offer)
            }
            Arrival::Repeat | Arrival::Ahead(_) => Ok(offer),
        }
    }

    /// What it says to call `k` of the device of this row, `k` from 1, before anything is accepted. It fails for want of memory alone,
    /// and takes none for a call that is ahead.
    pub fn says(&self, row: &Subscriber, k: u64, call: SubCall) -> Result<Offer, AllocError>
        requires device { IsWithin (length self.now) row.now.number }
        requires number { 1 ≤ k }
        ensures offer { IfOk result (λ offer. offer ≡ offer_of (subscriber_answer_of row.now) (calls_of self.now row.now.number) k call) }
        ensures memory { OnErr result (k ≤ length (calls_of self.now row.now.number) + 1) }
    {
        match self.done.arrival(DeviceId(row.number), k) {
            Arrival::Next => {
                let answer = answer(row, call)?;
                Ok(Offer::Accepted(answer))
            }
            Arrival::Repeat => Ok(Offer::Repeat(self.answer(row, k)?)),
            Arrival::Ahead(last) => Ok(Offer::Ahead(last)),
        }
    }

    /// The answer that call `k` of the device of this row was given, `k` from 1.
    pub fn answer(&self, row: &Subscriber, k: u64) -> Result<Answer, AllocError>
        requires device { IsWithin (length self.now) row.now.number }
        requires number { 1 ≤ k }
        requires accepted { k ≤ length (calls_of self.now row.now.number) }
        ensures { IfOk result (λ answer. answer ≡ subscriber_answer_of row.now (take k (calls_of self.now row.now.number))) }
    {
        answer(row, self.done.calls(DeviceId(row.number))[k as usize - 1])
    }

    /// How many calls of the device were accepted. It takes no memory.
    pub fn accepted(&self, d: DeviceId) -> u64
        requires { IsWithin (length self.now) d.0 }
        ensures { result ≡ length (calls_of self.now d.0) }
    {
        self.done.calls(d).len() as u64
    }

    /// Call `k` of the device, from 1, or `None` where it was not accepted. It takes no memory.
    pub fn call(&self, d: DeviceId, k: u64) -> Option<SubCall>
        requires device { IsWithin (length self.now) d.0 }
        requires number { 1 ≤ k }
        ensures { result ≡ slice_get (calls_of self.now d.0) (k - 1) }
    {
        self.done.calls(d).get(k as usize - 1).copied()
    }

    /// The calls of the device that were accepted, in order.
    pub fn calls(&self, alloc: Global, d: DeviceId) -> Result<SubCalls, AllocError>
        requires { IsWithin (length self.now) d.0 }
        ensures { IfOk result (λ calls. calls ≡ calls_of self.now d.0) }
    {
        let mut calls = SubCalls::new(alloc);
        for call in self.done.calls(d) {
            calls.push(*call)?;
        }
        Ok(calls)
    }
}
