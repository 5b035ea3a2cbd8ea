//! The gateway.
ghost use Rattle.std.specs.Prelude.{◌≡◌, ◌<◌, ◌≤◌, ◌+◌, ◌-◌, [], length, replicate, take, slice_get, IfOk, OnErr};
ghost use Rattle.device_types.specs.Numbers.{IsWithin};
ghost use Rattle.peer_calls.specs.Calls.{calls_of, offer_of, after_offer};
ghost use Rattle.peer_gateway.specs.Gateway.{gateway_answer_of};

use crate::counted::{Counted, answer, creates_in};
use device_types::{Answer, DeviceId, GwCall, GwCalls, Offer, Subscriber};
use peer_calls::{Accepted, Arrival};
use std::alloc::{AllocError, Global};
use std::marker::Model;

/// The gateway, which has accepted calls of each device in the order of their numbers. Contracts see these calls, a list for each
/// device. What it answers follows from them and the subscriber's row.
#[derive(Debug, Drop)]
pub struct Gateway {
    done: Accepted<Counted>,
}

impl Model for Gateway {
    ghost use Rattle.std.specs.Prelude.{List};
    ghost use Rattle.device_types.specs.declared.effect.GwCall.{GwCall};

    ghost Value = { List (List GwCall) };

    ghost use Rattle.peer_gateway.specs.Counted.{calls_in, AreCounted};

    ghost view = { λ gateway. calls_in gateway.done };

    ghost invariant = { λ gateway. AreCounted gateway.done };
}

impl Gateway {
    /// The gateway that has accepted no call of so many devices.
    pub fn new(alloc: Global, devices: u32) -> Result<Gateway, AllocError>
        ensures { IfOk result (λ gateway. gateway ≡ replicate devices []) }
    {
        Ok(Gateway {
            done: Accepted::new(alloc, devices)?,
        })
    }

    /// Call `k` of the device of this row arrives, `k` from 1. Where it is the next one it is accepted, and answered by the row and
    /// the calls up to it. A repeat is given the answer to call `k` again, whatever call comes with its number, and one that is
    /// ahead the number of the last that was accepted; both take no memory and change nothing. For want of memory all is as before.
    pub fn offer(&mut self, row: &Subscriber, k: u64, call: GwCall) -> Result<Offer, AllocError>
        requires device { IsWithin (length self.old) row.now.number }
        requires tunnel { row.now.teid ≤ 4000000000 }
        requires number { 1 ≤ k }
        requires count { k < 268435456 }
        ensures offer { IfOk result (λ offer. offer ≡ offer_of (gateway_answer_of row.now) (calls_of self.old row.now.number) k call) }
        ensures calls { IfOk result (λ _. self.new ≡ after_offer self.old row.now.number k call) }
        ensures err { OnErr result (self.new ≡ self.old) }
        ensures memory { OnErr result (k ≡ length (calls_of self.old row.now.number) + 1) }
    {
        let offer = self.says(row, k, call);
        let d = DeviceId(row.number);
        match self.done.arrival(d, k) {
            Arrival::Next => {
                let creates = creates_in(self.done.calls(d));
                self.done.accept(d, Counted { call, creates })?;
                Ok(offer)
            }
            Arrival::Repeat | Arrival::Ahead(_) => Ok(offer),
        }
    }

    /// What it says to call `k` of the device of this row, `k` from 1, before anything is accepted. It takes no memory.
    pub fn says(&self, row: &Subscriber, k: u64, call: GwCall) -> Offer
        requires device { IsWithin (length self.now) row.now.number }
        requires tunnel { row.now.teid ≤ 4000000000 }
        requires number { 1 ≤ k }
        requires count { k < 268435456 }
        ensures { result ≡ offer_of (gateway_answer_of row.now) (calls_of self.now row.now.number) k call }
    {
        let d = DeviceId(row.number);
        match self.done.arrival(d, k) {
            Arrival::Next => {
                let creates = creates_in(self.done.calls(d));
                Offer::Accepted(answer(row, creates, call))
            }
            Arrival::Repeat => Offer::Repeat(self.answer(row, k)),
            Arrival::Ahead(last) => Offer::Ahead(last),
        }
    }

    /// The answer that call `k` of the device of this row was given, `k` from 1. It takes no memory.
    pub fn answer(&self, row: &Subscriber, k: u64) -> Answer
        requires device { IsWithin (length self.now) row.now.number }
        requires tunnel { row.now.teid ≤ 4000000000 }
        requires number { 1 ≤ k }
        requires accepted { k ≤ length (calls_of self.now row.now.number) }
        requires count { k < 268435456 }
        ensures { result ≡ gateway_answer_of row.now (take k (calls_of self.now row.now.number)) }
    {
        let Counted { call, creates } = self.done.calls(DeviceId(row.number))[k as usize - 1];
        answer(row, creates, call)
    }

    /// How many calls of the device were accepted. It takes no memory.
    pub fn accepted(&self, d: DeviceId) -> u64
        requires { IsWithin (length self.now) d.0 }
        ensures { result ≡ length (calls_of self.now d.0) }
    {
        self.done.calls(d).len() as u64
    }

    /// Call `k` of the device, from 1, or `None` where it was not accepted. It takes no memory.
    pub fn call(&self, d: DeviceId, k: u64) -> Option<GwCall>
        requires device { IsWithin (length self.now) d.0 }
        requires number { 1 ≤ k }
        ensures { result ≡ slice_get (calls_of self.now d.0) (k - 1) }
    {
        let counted = self.done.calls(d).get(k as usize - 1)?;
        Some(counted.call)
    }

    /// The calls of the device that were accepted, in order. It takes memory.
    pub fn calls(&self, alloc: Global, d: DeviceId) -> Result<GwCalls, AllocError>
        requires { IsWithin (length self.now) d.0 }
        ensures { IfOk result (λ calls. calls ≡ calls_of self.now d.0) }
    {
        let mut calls = GwCalls::new(alloc);
        for counted in self.done.calls(d) {
            calls.push(counted.call)?;
        }
        Ok(calls)
    }
}
