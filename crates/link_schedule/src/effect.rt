//! An effect arrives at its receiver.
ghost use Rattle.std.specs.Prelude.{◌≡◌, ◌≤◌, true, length, map, Some, IfOk, OnErr};
ghost use Rattle.device_types.specs.declared.effect.Effect.TheVariants as effects;
ghost use Rattle.device_types.specs.declared.event.Lane.TheVariants as lanes;
ghost use Rattle.device_types.specs.Numbers.{IsWithin};
ghost use Rattle.peer_calls.specs.Calls.{calls_of};
ghost use Rattle.session_store.specs.Rows.{row_of};
ghost use Rattle.schedule_laws.specs.Answer.{IsEvent, history};
ghost use Rattle.schedule_laws.specs.Counts.{effect_pushed};
ghost use Rattle.link_schedule.specs.Told.{down_answer, offer_answer};
ghost use Rattle.link_schedule.specs.World.{effect_at, IsOnLane, Answers};

use crate::world::{Agent, World, row_at};
use agent_resend::DownTaken;
use device_types::{
    DeviceId, Down, Effect, Event, EventAnswer, GwCall, Lane, Offer, SubCall, TryCopy,
};
use peer_gateway::Gateway;
use peer_subscriber::SubscriberPeer;
use session_store::{EchoLaw, Store};
use std::alloc::AllocError;

/// What the device says to a message to it, as the answer to the event.
fn down_answer(taken: DownTaken) -> EventAnswer
    ensures { result ≡ down_answer taken }
{
    match taken {
        DownTaken::Accepted(k) => EventAnswer::Accepted(k),
        DownTaken::Repeat(k) => EventAnswer::Repeat(k),
        DownTaken::Ahead(last) => EventAnswer::Ahead(last),
    }
}

/// What a peer says to call `k`, as the answer to the event.
fn offer_answer(k: u64, offer: &Offer) -> EventAnswer
    ensures { result ≡ offer_answer k offer.now }
{
    match offer {
        Offer::Accepted(_) => EventAnswer::Accepted(k),
        Offer::Repeat(_) => EventAnswer::Repeat(k),
        Offer::Ahead(last) => EventAnswer::Ahead(*last),
    }
}

/// The message to the device that the effect is.
fn as_down(effect: Option<Effect>) -> Down
    requires { IsOnLane lanes.Down effect }
    ensures { effect ≡ Some (effects.Down result) }
{
    match effect {
        Some(Effect::Down(down)) => down,
        _ => unreachable!(),
    }
}

/// The call of the gateway that the effect is.
fn as_gateway_call(effect: Option<Effect>) -> GwCall
    requires { IsOnLane lanes.Gateway effect }
    ensures { effect ≡ Some (effects.Gateway result) }
{
    match effect {
        Some(Effect::Gateway(call)) => call,
        _ => unreachable!(),
    }
}

/// The call of the subscriber server that the effect is.
fn as_server_call(effect: Option<Effect>) -> SubCall
    requires { IsOnLane lanes.Subscriber effect }
    ensures { effect ≡ Some (effects.Subscriber result) }
{
    match effect {
        Some(Effect::Subscriber(call)) => call,
        _ => unreachable!(),
    }
}

/// Message `k` to the device: with its agent where that has accepted it, else in the row.
fn down_on_link(
    agent: &Agent,
    store: &Store<EchoLaw>,
    d: DeviceId,
    k: u64,
) -> Result<Down, AllocError>
    requires device { IsWithin (length store.now.rows) d.0 }
    requires number { 1 ≤ k }
    requires there { IsOnLane lanes.Down (effect_at (row_of store.now.rows d.0) (map effects.Down agent.now.downs) lanes.Down k) }
    ensures { IfOk result (λ down. effect_at (row_of store.now.rows d.0) (map effects.Down agent.now.downs) lanes.Down k ≡ Some (effects.Down down)) }
{
    if let Some(down) = agent.downs().get(k as usize - 1) {
        return down.copy();
    }
    Ok(as_down(store.push(d, Lane::Down, k)?))
}

/// Call `k` of the gateway for the device: with the gateway where that has accepted it, else in the row.
fn gateway_call_on_link(
    gateway: &Gateway,
    store: &Store<EchoLaw>,
    d: DeviceId,
    k: u64,
) -> Result<GwCall, AllocError>
    requires served { IsWithin (length gateway.now) d.0 }
    requires device { IsWithin (length store.now.rows) d.0 }
    requires number { 1 ≤ k }
    requires there { IsOnLane lanes.Gateway (effect_at (row_of store.now.rows d.0) (map effects.Gateway (calls_of gateway.now d.0)) lanes.Gateway k) }
    ensures { IfOk result (λ call. effect_at (row_of store.now.rows d.0) (map effects.Gateway (calls_of gateway.now d.0)) lanes.Gateway k ≡ Some (effects.Gateway call)) }
{
    if let Some(call) = gateway.call(d, k) {
        return Ok(call);
    }
    Ok(as_gateway_call(store.push(d, Lane::Gateway, k)?))
}

/// Call `k` of the subscriber server for the device: with the server where that has accepted it, else in the row.
fn server_call_on_link(
    server: &SubscriberPeer,
    store: &Store<EchoLaw>,
    d: DeviceId,
    k: u64,
) -> Result<SubCall, AllocError>
    requires served { IsWithin (length server.now) d.0 }
    requires device { IsWithin (length store.now.rows) d.0 }
    requires number { 1 ≤ k }
    requires there { IsOnLane lanes.Subscriber (effect_at (row_of store.now.rows d.0) (map effects.Subscriber (calls_of server.now d.0)) lanes.Subscriber k) }
    ensures { IfOk result (λ call. effect_at (row_of store.now.rows d.0) (map effects.Subscriber (calls_of server.now d.0)) lanes.Subscriber k ≡ Some (effects.Subscriber call)) }
{
    if let Some(call) = server.call(d, k) {
        return Ok(call);
    }
    Ok(as_server_call(store.push(d, Lane::Subscriber, k)?))
}

impl World {
    /// Message `k` to the device arrives at its agent. For want of memory the world is as before.
    fn down_arrives(&mut self, d: DeviceId, k: u64) -> Result<EventAnswer, AllocError>
        requires event { IsEvent self.old.setting (Event.Effect d lanes.Down k) }
        requires pushed { effect_pushed d.0 lanes.Down k (history self.old.setting self.old.events) ≡ true }
        ensures ok { IfOk result (Answers self.old self.new (Event.Effect d lanes.Down k)) }
        ensures err { OnErr result (self.new ≡ self.old) }
    {
        let lane = Lane::Down;
        let index = d.index();
        let down = down_on_link(&self.agents[index], &self.store, d, k)?;
        let taken = self.agents[index].take_down(k, down)?;
        let answer = down_answer(taken);
        Ok(self.log.noted(Event::Effect { d, lane, k }, answer))
    }

    /// Call `k` for the device arrives at the gateway. For want of memory the world is as before.
    fn gateway_call_arrives(&mut self, d: DeviceId, k: u64) -> Result<EventAnswer, AllocError>
        requires event { IsEvent self.old.setting (Event.Effect d lanes.Gateway k) }
        requires pushed { effect_pushed d.0 lanes.Gateway k (history self.old.setting self.old.events) ≡ true }
        ensures ok { IfOk result (Answers self.old self.new (Event.Effect d lanes.Gateway k)) }
        ensures err { OnErr result (self.new ≡ self.old) }
    {
        let lane = Lane::Gateway;
        let row = row_at(&self.law, d);
        let call = gateway_call_on_link(&self.gateway, &self.store, d, k)?;
        let offer = self.gateway.offer(row, k, call)?;
        let answer = offer_answer(k, &offer);
        Ok(self.log.noted(Event::Effect { d, lane, k }, answer))
    }

    /// Call `k` for the device arrives at the subscriber server. For want of memory the world is as before.
    fn server_call_arrives(&mut self, d: DeviceId, k: u64) -> Result<EventAnswer, AllocError>
        requires event { IsEvent self.old.setting (Event.Effect d lanes.Subscriber k) }
        requires pushed { effect_pushed d.0 lanes.Subscriber k (history self.old.setting self.old.events) ≡ true }
        ensures ok { IfOk result (Answers self.old self.new (Event.Effect d lanes.Subscriber k)) }
        ensures err { OnErr result (self.new ≡ self.old) }
    {
        let lane = Lane::Subscriber;
        let row = row_at(&self.law, d);
        let call = server_call_on_link(&self.server, &self.store, d, k)?;
        let offer = self.server.offer(row, k, call)?;
        let answer = offer_answer(k, &offer);
        Ok(self.log.noted(Event::Effect { d, lane, k }, answer))
    }

    /// Effect `k` of a lane of the device arrives at its receiver. For want of memory the world is as before.
    pub(crate) fn effect(
        &mut self,
        d: DeviceId,
        lane: Lane,
        k: u64,
    ) -> Result<EventAnswer, AllocError>
        requires { IsEvent self.old.setting (Event.Effect d lane k) }
        ensures ok { IfOk result (Answers self.old self.new (Event.Effect d lane k)) }
        ensures err { OnErr result (self.new ≡ self.old) }
    {
        let index = d.index();
        if !self.pushed[index].has(lane, k) {
            let event = Event::Effect { d, lane, k };
            return Ok(self.log.noted(event, EventAnswer::VoidLink));
        }
        match lane {
            Lane::Down => self.down_arrives(d, k),
            Lane::Gateway => self.gateway_call_arrives(d, k),
            Lane::Subscriber => self.server_call_arrives(d, k),
        }
    }
}
