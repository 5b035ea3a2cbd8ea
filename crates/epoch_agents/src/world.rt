//! The world of the streams of a device.
ghost use Rattle.std.specs.Prelude.{◌≡◌, ◌==◌, ◌<◌, ◌^◌, ◌++◌, ◌∷◌, [], length, All, IfOk, OnErr, vec_len, vec_capacity, if◌then◌else◌};
ghost use Rattle.epoch_agents.specs.declared.event.EpochEvent.{EpochEvent};
ghost use Rattle.epoch_agents.specs.declared.event.EpochEvent.TheVariants as happens;
ghost use Rattle.epoch_agents.specs.Answer.{IsEvent};
ghost use Rattle.epoch_agents.specs.Counts.{agent, merge};
ghost use Rattle.epoch_agents.specs.Kept.{value_or};
ghost use Rattle.epoch_agents.specs.Merge.{IsMerge};
ghost use Rattle.epoch_agents.specs.World.{Answers, turns_in};

use crate::agent::Agent;
use crate::event::{EpochAnswer, EpochEvent};
use crate::heard::{Turn, heard_at};
use crate::row::row_answer;
use crate::stream::{Merged, Stream};
use std::alloc::{AllocError, Global};
use std::collections::{BTreeMap, BTreeSet};
use std::marker::Model;

/// A message of a stream: the place of the stream, the stamp of the name that it was sent under, and its number.
type Packet = (u32, u64, u64);

/// The streams of a device, their agents, the link and the row. Contracts see the streams and the events that the world has taken.
///
/// It keeps what the agents know, how many messages of each stream the row has committed, the messages that are on the link, the
/// merge, and the events with their answers. A stream of which nothing is known has no entry in the maps. So an event is meant to take
/// a time that is logarithmic in streams and events, but for a list that grows; no clause speaks of time.
#[derive(Drop)]
pub struct EpochWorld {
    streams: Vec<Stream>,
    agents: BTreeMap<u32, Agent>,
    taken: BTreeMap<u32, u64>,
    sent: BTreeSet<Packet>,
    merged: Vec<Merged>,
    turns: Vec<Turn>,
}

impl Model for EpochWorld {
    ghost use Rattle.epoch_agents.specs.World.{WorldState};

    ghost Value = { WorldState };

    ghost use Rattle.epoch_agents.specs.View.{view_of, IsInside};

    ghost view = { view_of };

    ghost invariant = { IsInside };
}

/// The value at a place, or this one.
fn value_or<T: Copy>(map: &BTreeMap<u32, T>, a: u32, otherwise: T) -> T
    ensures { result ≡ value_or map.now a otherwise }
{
    map.get(&a).copied().unwrap_or(otherwise)
}

/// How many messages of a stream are committed under that stamp, where so many of the stream are: those of its present name alone.
fn count_under(agent: Agent, taken: u64, stamp: u64) -> u64
    ensures { result ≡ (if stamp == agent.stamp then taken else 0) }
{
    if stamp == agent.stamp { taken } else { 0 }
}

/// One item more in a list that has room for it.
fn push_within<T: Drop>(items: &mut Vec<T>, item: T)
    requires { vec_len items.old < vec_capacity items.old }
    ensures { items.new.items ≡ items.old.items ++ item ∷ [] }
{
    let _ = items.push(item);
}

/// Notes a turn, for which there is room, and hands its answer on.
fn noted(turns: &mut Vec<Turn>, event: EpochEvent, answer: EpochAnswer) -> EpochAnswer
    requires { vec_len turns.old < vec_capacity turns.old }
    ensures turns { turns.new.items ≡ turns.old.items ++ (event, answer) ∷ [] }
    ensures answer { result ≡ answer }
{
    push_within(turns, (event, answer));
    answer
}

impl EpochWorld {
    /// The world of these streams before any event; no message of them is acknowledged. Streams are told apart by their places, so
    /// nothing rests on it that their labels differ. It takes no memory.
    pub fn new(alloc: Global, streams: Vec<Stream>) -> EpochWorld
        requires { All (λ stream. stream.line.acked ≡ 0) streams.items }
        ensures { result ≡ record { streams = streams.items; events = [] } }
    {
        EpochWorld {
            streams,
            agents: BTreeMap::new(alloc),
            taken: BTreeMap::new(alloc),
            sent: BTreeSet::new(alloc),
            merged: Vec::new(alloc),
            turns: Vec::new(alloc),
        }
    }

    /// The streams, in the order of their places. It takes no memory.
    pub fn streams(&self) -> &[Stream]
        ensures { result.now ≡ self.now.streams }
    {
        &self.streams
    }

    /// How many events the world has taken. It takes no memory.
    pub fn event_count(&self) -> u64
        ensures { result ≡ length self.now.events }
    {
        self.turns.len() as u64
    }

    /// The messages that were committed, in that order. It takes no memory.
    pub fn merge(&self) -> &[Merged]
        ensures value { result.now ≡ merge (turns_in self.now) }
        ensures lawful { IsMerge self.now.streams result.now }
    {
        &self.merged
    }

    /// The stamp of the name under which the agent of a stream sends now, from 1. It takes no memory.
    pub fn stamp(&self, a: u32) -> u64
        ensures { result ≡ (agent a (turns_in self.now)).stamp }
    {
        value_or(&self.agents, a, Agent::new()).stamp
    }

    /// The agent of a stream puts message `n` on the link. For want of memory the world is as before.
    fn send(&mut self, a: u32, n: u64) -> Result<EpochAnswer, AllocError>
        requires { IsEvent self.old.streams (happens.Send a n) }
        ensures ok { IfOk result (Answers self.old self.new (happens.Send a n)) }
        ensures err { OnErr result (self.new ≡ self.old) }
    {
        self.turns.reserve(1)?;
        let event = EpochEvent::Send { a, n };
        let agent = value_or(&self.agents, a, Agent::new());
        if !agent.may_send(self.streams[a as usize - 1].line.len(), n) {
            return Ok(noted(&mut self.turns, event, EpochAnswer::VoidWindow));
        }
        self.sent.insert((a, agent.stamp, n))?;
        Ok(noted(&mut self.turns, event, EpochAnswer::Sent))
    }

    /// A message arrives at the row. For want of memory the world is as before.
    fn arrive(&mut self, a: u32, stamp: u64, n: u64) -> Result<EpochAnswer, AllocError>
        requires { IsEvent self.old.streams (happens.Arrive a stamp n) }
        ensures ok { IfOk result (Answers self.old self.new (happens.Arrive a stamp n)) }
        ensures err { OnErr result (self.new ≡ self.old) }
    {
        self.turns.reserve(1)?;
        let event = EpochEvent::Arrive { a, stamp, n };
        if !self.sent.contains(&(a, stamp, n)) {
            return Ok(noted(&mut self.turns, event, EpochAnswer::VoidLink));
        }
        let agent = value_or(&self.agents, a, Agent::new());
        let taken = count_under(agent, value_or(&self.taken, a, 0), stamp);
        let answer = row_answer(&self.streams, &self.merged, taken, a, stamp, n);
        if let EpochAnswer::Committed(_) = answer {
            self.merged.reserve(1)?;
            self.taken.insert(a, n)?;
            push_within(&mut self.merged, Merged { a, stamp, n });
            return Ok(noted(&mut self.turns, event, answer));
        }
        Ok(noted(&mut self.turns, event, answer))
    }

    /// The answer to event `i` comes back to the agent of its stream. For want of memory the world is as before.
    fn learn(&mut self, i: u64) -> Result<EpochAnswer, AllocError>
        requires { length self.old.events < 2 ^ 62 }
        ensures ok { IfOk result (Answers self.old self.new (happens.Learn i)) }
        ensures err { OnErr result (self.new ≡ self.old) }
    {
        self.turns.reserve(1)?;
        let event = EpochEvent::Learn { i };
        let Some(heard) = heard_at(&self.turns, i) else {
            return Ok(noted(&mut self.turns, event, EpochAnswer::VoidLink));
        };
        let agent = value_or(&self.agents, heard.a, Agent::new());
        let answer = agent.hears(heard);
        self.agents.insert(heard.a, agent.learnt(answer))?;
        Ok(noted(&mut self.turns, event, answer))
    }

    /// The world takes an event, and tells what it comes to. For want of memory the world is as before.
    pub fn apply(&mut self, event: EpochEvent) -> Result<EpochAnswer, AllocError>
        requires event { IsEvent self.old.streams event }
        requires count { length self.old.events < 2 ^ 62 }
        ensures ok { IfOk result (Answers self.old self.new event) }
        ensures err { OnErr result (self.new ≡ self.old) }
    {
        match event {
            EpochEvent::Send { a, n } => self.send(a, n),
            EpochEvent::Arrive { a, stamp, n } => self.arrive(a, stamp, n),
            EpochEvent::Learn { i } => self.learn(i),
        }
    }
}
