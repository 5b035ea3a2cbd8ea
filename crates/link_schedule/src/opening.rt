//! A world before any event.
ghost use Rattle.std.specs.Prelude.{◌≡◌, ◌≤◌, [], length, map, replicate, All, IfOk};
ghost use Rattle.std.specs.Arc.{arc_value};
ghost use Rattle.device_types.specs.Line.{IsLine};
ghost use Rattle.device_types.specs.Numbers.{IsWithin};
ghost use Rattle.replica_worker.specs.declared.hand.Hand.TheVariants as hands;
ghost use Rattle.schedule_laws.specs.Promise.{setting};
ghost use Rattle.link_schedule.specs.World.{fresh_window, IsShort, IsWorld};

use crate::event_log::EventLog;
use crate::marks::{LaneMarks, Marks};
use crate::world::{Agent, World};
use agent_order::Line;
use device_types::{Book, Messages};
use peer_gateway::Gateway;
use peer_subscriber::SubscriberPeer;
use replica_worker::Replica;
use session_store::{EchoLaw, RowLaw, Store};
use std::alloc::{AllocError, Global};
use std::sync::Arc;
use subs_table::SubsTable;

/// So many replicas that hold nothing, and remember nothing.
fn idle_replicas(alloc: Global, count: u32) -> Result<Vec<Replica>, AllocError>
    ensures { IfOk result (λ replicas. replicas.items ≡ replicate count (record { hand = hands.Empty; cache = [] })) }
{
    let mut replicas = Vec::new(alloc);
    for _ in 0..count {
        replicas.push(Replica::new(alloc)?)?;
    }
    Ok(replicas)
}

/// An agent with the messages of each line, which it shares, that has sent none.
fn agents_of(alloc: Global, lines: &[Arc<Messages, Global>]) -> Result<Vec<Agent>, AllocError>
    requires { All IsLine (map arc_value lines.now) }
    ensures { IfOk result (λ agents. agents.items ≡ map fresh_window (map arc_value lines.now)) }
{
    let mut agents = Vec::new(alloc);
    for line in lines {
        let line = Line::new(Arc::try_clone(line)?);
        agents.push(Agent::new(alloc, line))?;
    }
    Ok(agents)
}

/// So many devices of which nothing is marked.
fn no_marks(alloc: Global, count: u32) -> Result<Vec<Marks>, AllocError>
    ensures { IfOk result (λ marks. marks.items ≡ replicate count []) }
{
    let mut marks = Vec::new(alloc);
    for _ in 0..count {
        marks.push(Marks::new(alloc))?;
    }
    Ok(marks)
}

/// So many devices of which nothing is marked on any lane.
fn no_lane_marks(alloc: Global, count: u32) -> Result<Vec<LaneMarks>, AllocError>
    ensures { IfOk result (λ marks. marks.items ≡ replicate count (record { down = []; gateway = []; subscriber = [] })) }
{
    let mut marks = Vec::new(alloc);
    for _ in 0..count {
        marks.push(LaneMarks::new(alloc))?;
    }
    Ok(marks)
}

impl World {
    /// The world of the subscribers of a table with the messages of a book, a line for each row, before any event. It has so many
    /// replicas, 1 to 16, which hold nothing. Table and book are copied once. It fails for want of memory alone.
    pub fn new(
        alloc: Global,
        table: &SubsTable,
        book: &Book,
        replicas: u32,
    ) -> Result<World, AllocError>
        requires lines { length book.now ≡ length table.now }
        requires short { All IsShort book.now }
        requires replicas { IsWithin 16 replicas }
        ensures setting { IfOk result (λ world. world.setting ≡ setting table.now book.now replicas) }
        ensures events { IfOk result (λ world. world.events ≡ []) }
        ensures world { IfOk result IsWorld }
    {
        let law = EchoLaw::new(alloc, table, book)?;
        let devices = law.charter().rows().len() as u32;
        let agents = agents_of(alloc, law.charter().lines())?;
        let store = Store::new(alloc, law.copy()?, devices)?;
        let hands = idle_replicas(alloc, replicas)?;
        let gateway = Gateway::new(alloc, devices)?;
        let server = SubscriberPeer::new(alloc, devices)?;
        let sent = no_marks(alloc, devices)?;
        let pushed = no_lane_marks(alloc, devices)?;
        Ok(World {
            law,
            store,
            count: replicas,
            replicas: hands,
            agents,
            gateway,
            server,
            sent,
            pushed,
            log: EventLog::new(),
        })
    }
}
