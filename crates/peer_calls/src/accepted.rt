//! The calls that a peer has accepted.
ghost use Rattle.std.specs.Prelude.{◌≡◌, [], length, replicate, IfOk, OnOk, OnErr};
ghost use Rattle.device_types.specs.Numbers.{IsWithin};
ghost use Rattle.peer_calls.specs.Calls.{calls_of, with_call, arrival_of};

use crate::arrival::Arrival;
use device_types::{DeviceId, ListOf};
use std::alloc::{AllocError, Global};
use std::marker::Model;

/// The calls that a peer has accepted, which contracts see as a list for each device, in the order of their numbers. The calls of a
/// device are numbered from 1, and the number of a call says whether it is the next one. No call of this type takes longer where
/// more calls were accepted, but for a list that grows.
#[derive(Debug, Drop)]
pub struct Accepted<C> {
    lists: Vec<ListOf<C>>,
}

impl<C> Model for Accepted<C> {
    ghost use Rattle.std.specs.Prelude.{List};

    ghost Value = { List (List C) };

    ghost view = { λ accepted. accepted.lists.items };
}

impl<C: Drop> Accepted<C> {
    /// No calls, of so many devices.
    pub fn new(alloc: Global, devices: u32) -> Result<Accepted<C>, AllocError>
        ensures { IfOk result (λ accepted. accepted ≡ replicate devices []) }
    {
        let mut lists = Vec::new(alloc);
        for _i in 0..devices {
            lists.push(ListOf::new(alloc))?;
        }
        Ok(Accepted { lists })
    }

    /// The calls of a device, in the order of their numbers.
    pub fn calls(&self, d: DeviceId) -> &[C]
        requires { IsWithin (length self.now) d.0 }
        ensures { result.now ≡ calls_of self.now d.0 }
    {
        self.lists[d.index()].items()
    }

    /// What the number `k` says of a call of the device. It takes no memory.
    pub fn arrival(&self, d: DeviceId, k: u64) -> Arrival
        requires { IsWithin (length self.now) d.0 }
        ensures { result ≡ arrival_of (length (calls_of self.now d.0)) k }
    {
        let last = self.calls(d).len() as u64;
        if k <= last {
            return Arrival::Repeat;
        }
        if k - last > 1 {
            return Arrival::Ahead(last);
        }
        Arrival::Next
    }

    /// Accepts the next call of the device. For want of memory all is as before, and the call is dropped.
    pub fn accept(&mut self, d: DeviceId, call: C) -> Result<(), AllocError>
        requires { IsWithin (length self.old) d.0 }
        ensures ok { OnOk result (self.new ≡ with_call self.old d.0 call) }
        ensures err { OnErr result (self.new ≡ self.old) }
    {
        let calls = &mut self.lists[d.index()];
        calls.push(call)
    }
}
