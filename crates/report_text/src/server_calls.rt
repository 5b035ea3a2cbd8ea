//! The calls of devices to the subscriber server and its answers, as text.

ghost use Rattle.std.specs.Prelude.{◌≡◌, ◌<◌, ◌+◌, ◌^◌, [], ◌∷◌, ◌++◌, length, IfOk, OnOk};
ghost use Rattle.device_types.specs.Numbers.{IsWithin};
ghost use Rattle.device_types.specs.Subscriber.{IsSubscriber};
ghost use Rattle.dia_wire.specs.Calls.{IsServerAnswer};
ghost use Rattle.peer_calls.specs.Calls.{calls_of, with_call};
ghost use Rattle.peer_subscriber.specs.Server.{subscriber_answer_of};
ghost use Rattle.report_text.specs.Calls.{server_wire, s6a_text, AreCallers};

use crate::calls::{Peer, calls_text};
use device_types::{Answer, DeviceEnd, Finals, Octets, Offer, SubCall, Subscriber};
use dia_wire::{ask_of, reply_of, write_dia};
use echo_base::OutOfMemory;
use peer_subscriber::SubscriberPeer;
use std::alloc::{AllocError, Global};
use subs_table::SubsTable;

/// The server's answer to call `k` of the row's device, which is the next one.
#[tactic(auto, using(crate::proofs::Accepted::answer_of_server))]
fn accept(
    server: &mut SubscriberPeer,
    row: &Subscriber,
    k: u64,
    call: SubCall,
) -> Result<Answer, AllocError>
    requires row { IsSubscriber row.now }
    requires device { IsWithin (length server.old) row.now.number }
    requires next { k ≡ length (calls_of server.old row.now.number) + 1 }
    ensures answer { IfOk result (λ answer. answer ≡ subscriber_answer_of row.now (calls_of server.old row.now.number ++ call ∷ [])) }
    ensures server { IfOk result IsServerAnswer }
    ensures accepted { OnOk result (server.new ≡ with_call server.old row.now.number call) }
{
    match server.offer(row, k, call)? {
        Offer::Accepted(answer) => Ok(answer),
        Offer::Repeat(_) | Offer::Ahead(_) => unreachable!(),
    }
}

impl Peer for SubscriberPeer {
    type Call = SubCall;

    ghost accepted = { λ server. server };

    ghost wire = { server_wire };

    fn open(alloc: Global, devices: u32) -> Result<SubscriberPeer, AllocError> {
        SubscriberPeer::new(alloc, devices)
    }

    fn calls_in(end: &DeviceEnd) -> &[SubCall] {
        end.subscriber.items()
    }

    fn call_octets(
        alloc: Global,
        row: &Subscriber,
        k: u64,
        call: &SubCall,
    ) -> Result<Octets, OutOfMemory> {
        let message = ask_of(alloc, row, k, call)?;
        write_dia(alloc, &message)
    }

    fn answer_octets(
        &mut self,
        alloc: Global,
        row: &Subscriber,
        k: u64,
        call: SubCall,
    ) -> Result<Octets, OutOfMemory> {
        let answer = accept(self, row, k, call)?;
        let message = reply_of(alloc, row, k, &answer)?;
        write_dia(alloc, &message)
    }
}

/// What devices called of the subscriber server, and what it answered, the answer to a purge too: for each device, in the order of
/// their IMSIs, a line `device IMSI`, and for each of its calls, numbered from 1, the lines `call K HEX` and `answer K HEX`, with the
/// octets of Diameter.
#[tactic(auto, unfolding(crate::specs::Calls::s6a_text))]
pub fn s6a_text(alloc: Global, table: &SubsTable, finals: &Finals) -> Result<Octets, OutOfMemory>
    requires { AreCallers server_wire table.now finals.now }
    ensures { IfOk result (λ text. text ≡ s6a_text table.now finals.now) }
{
    calls_text::<SubscriberPeer>(alloc, table, finals.items())
}
