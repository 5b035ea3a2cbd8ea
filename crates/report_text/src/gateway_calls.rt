//! The calls of devices to the gateway and its answers, as text.

ghost use Rattle.std.specs.Prelude.{◌≡◌, ◌<◌, ◌+◌, ◌^◌, [], ◌∷◌, ◌++◌, length, IfOk, OnOk};
ghost use Rattle.device_types.specs.Numbers.{IsWithin};
ghost use Rattle.device_types.specs.Subscriber.{IsSubscriber};
ghost use Rattle.gtp2_wire.specs.Calls.{IsGatewayAnswer};
ghost use Rattle.peer_calls.specs.Calls.{calls_of, with_call};
ghost use Rattle.peer_gateway.specs.Gateway.{gateway_answer_of};
ghost use Rattle.report_text.specs.Calls.{gateway_wire, s11_text, AreCallers};

use crate::calls::{Peer, calls_text};
use device_types::{Answer, DeviceEnd, Finals, GwCall, Octets, Offer, Subscriber};
use echo_base::OutOfMemory;
use gtp2_wire::{answer_of, call_of, write_gtp};
use peer_gateway::Gateway;
use std::alloc::{AllocError, Global};
use subs_table::SubsTable;

/// The gateway's answer to call `k` of the row's device, which is the next one.
fn accept(
    gateway: &mut Gateway,
    row: &Subscriber,
    k: u64,
    call: GwCall,
) -> Result<Answer, AllocError>
    requires row { IsSubscriber row.now }
    requires device { IsWithin (length gateway.old) row.now.number }
    requires next { k ≡ length (calls_of gateway.old row.now.number) + 1 }
    requires number { k < 2 ^ 24 }
    ensures answer { IfOk result (λ answer. answer ≡ gateway_answer_of row.now (calls_of gateway.old row.now.number ++ call ∷ [])) }
    ensures gateway { IfOk result IsGatewayAnswer }
    ensures accepted { OnOk result (gateway.new ≡ with_call gateway.old row.now.number call) }
{
    match gateway.offer(row, k, call)? {
        Offer::Accepted(answer) => Ok(answer),
        Offer::Repeat(_) | Offer::Ahead(_) => unreachable!(),
    }
}

impl Peer for Gateway {
    type Call = GwCall;

    ghost accepted = { λ gateway. gateway };

    ghost wire = { gateway_wire };

    fn open(alloc: Global, devices: u32) -> Result<Gateway, AllocError> {
        Gateway::new(alloc, devices)
    }

    fn calls_in(end: &DeviceEnd) -> &[GwCall] {
        end.gateway.items()
    }

    fn call_octets(
        alloc: Global,
        row: &Subscriber,
        k: u64,
        call: &GwCall,
    ) -> Result<Octets, OutOfMemory> {
        let message = call_of(row, k, call)?;
        write_gtp(alloc, &message)
    }

    fn answer_octets(
        &mut self,
        alloc: Global,
        row: &Subscriber,
        k: u64,
        call: GwCall,
    ) -> Result<Octets, OutOfMemory> {
        let answer = accept(self, row, k, call)?;
        write_gtp(alloc, &answer_of(row, k, &answer))
    }
}

/// What devices called of the gateway, and what it answered: for each device, in the order of their IMSIs, a line `device IMSI`, and for
/// each of its calls, numbered from 1, the lines `call K HEX` and `answer K HEX`, with the octets of GTPv2-C.
#[tactic(auto, unfolding(crate::specs::Calls::s11_text))]
pub fn s11_text(alloc: Global, table: &SubsTable, finals: &Finals) -> Result<Octets, OutOfMemory>
    requires { AreCallers gateway_wire table.now finals.now }
    ensures { IfOk result (λ text. text ≡ s11_text table.now finals.now) }
{
    calls_text::<Gateway>(alloc, table, finals.items())
}
