//! The answer to a call arrives at a replica.
ghost use Rattle.std.specs.Prelude.{◌≡◌, ◌≤◌, ◌<◌, length, map, IfOk, OnErr};
ghost use Rattle.device_types.specs.declared.effect.Effect.TheVariants as effects;
ghost use Rattle.device_types.specs.declared.event.Event.{Event};
ghost use Rattle.device_types.specs.Event.{IsCallLane};
ghost use Rattle.device_types.specs.Numbers.{IsWithin};
ghost use Rattle.peer_calls.specs.Calls.{calls_of};
ghost use Rattle.schedule_laws.specs.Answer.{IsEvent};
ghost use Rattle.link_schedule.specs.World.{answer_given, accepted_calls, Answers};

use crate::world::{World, row_at};
use device_types::{Answer, DeviceId, Event, EventAnswer, Input, Lane, Shared, Subscriber};
use peer_gateway::Gateway;
use peer_subscriber::SubscriberPeer;
use std::alloc::AllocError;

/// The answer that the gateway has given to call `k` of the device of this row, or `None` where it has not accepted it. It takes no
/// memory.
fn gateway_given(gateway: &Gateway, row: &Subscriber, k: u64) -> Option<Answer>
    requires device { IsWithin (length gateway.now) row.now.number }
    requires tunnel { row.now.teid ≤ 4000000000 }
    requires number { 1 ≤ k }
    requires count { length (calls_of gateway.now row.now.number) < 268435456 }
    ensures { result ≡ answer_given row.now (map effects.Gateway (calls_of gateway.now row.now.number)) k }
{
    if gateway.accepted(DeviceId(row.number)) < k {
        return None;
    }
    Some(gateway.answer(row, k))
}

/// The same of the subscriber server, but that the answer is copied.
fn server_given(
    server: &SubscriberPeer,
    row: &Subscriber,
    k: u64,
) -> Result<Option<Answer>, AllocError>
    requires device { IsWithin (length server.now) row.now.number }
    requires number { 1 ≤ k }
    ensures { IfOk result (λ given. given ≡ answer_given row.now (map effects.Subscriber (calls_of server.now row.now.number)) k) }
{
    if server.accepted(DeviceId(row.number)) < k {
        return Ok(None);
    }
    Ok(Some(server.answer(row, k)?))
}

/// The answer that a peer has given to call `k` of a lane.
fn given(
    gateway: &Gateway,
    server: &SubscriberPeer,
    row: &Subscriber,
    lane: Lane,
    k: u64,
) -> Result<Option<Answer>, AllocError>
    requires lane { IsCallLane lane }
    requires gateway { IsWithin (length gateway.now) row.now.number }
    requires server { IsWithin (length server.now) row.now.number }
    requires tunnel { row.now.teid ≤ 4000000000 }
    requires number { 1 ≤ k }
    requires count { length (calls_of gateway.now row.now.number) < 268435456 }
    ensures { IfOk result (λ given. given ≡ answer_given row.now (accepted_calls gateway.now server.now lane row.now.number) k) }
{
    match lane {
        Lane::Gateway => Ok(gateway_given(gateway, row, k)),
        Lane::Subscriber => server_given(server, row, k),
        Lane::Down => unreachable!(),
    }
}

impl World {
    /// The answer to call `k` of a lane of the device arrives at a replica. For want of memory the world is as before.
    pub(crate) fn answer(
        &mut self,
        r: u32,
        d: DeviceId,
        lane: Lane,
        k: u64,
    ) -> Result<EventAnswer, AllocError>
        requires { IsEvent self.old.setting (Event.Answer r d lane k) }
        ensures ok { IfOk result (Answers self.old self.new (Event.Answer r d lane k)) }
        ensures err { OnErr result (self.new ≡ self.old) }
    {
        let event = Event::Answer { r, d, lane, k };
        if r > self.count {
            return Ok(self.log.noted(event, EventAnswer::VoidReplica));
        }
        let row = row_at(&self.law, d);
        let Some(answer) = given(&self.gateway, &self.server, row, lane, k)? else {
            return Ok(self.log.noted(event, EventAnswer::VoidLink));
        };
        let input = Shared::new(row.rand.alloc(), Input::Answer { lane, k, answer })?;
        self.replicas[r as usize - 1].take(d, input);
        Ok(self.log.noted(event, EventAnswer::Taken))
    }
}
