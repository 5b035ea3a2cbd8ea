//! The world of events.
ghost use Rattle.std.specs.Prelude.{◌≡◌, ◌≤◌, ◌-◌, ◌^◌, length, min, slice_index_or};
ghost use Rattle.std.specs.Arc.{arc_value};
ghost use Rattle.device_types.specs.Numbers.{IsWithin};
ghost use Rattle.schedule_laws.specs.Setting.{no_row};
ghost use Rattle.link_schedule.specs.Settled.{turns_in};
ghost use Rattle.link_schedule.specs.World.{IsWorld, IsWindowOf};

use crate::event_log::EventLog;
use crate::marks::{LaneMarks, Marks};
use agent_resend::Window;
use device_types::{DeviceId, Subscriber};
use peer_gateway::Gateway;
use peer_subscriber::SubscriberPeer;
use replica_worker::Replica;
use session_store::{EchoLaw, RowLaw, Store};
use std::marker::Model;

/// How far an agent sends ahead of the last acknowledged message: the window of a device.
pub(crate) type Agent = Window<4>;

/// The devices, the replicas and the peers of a core, and the links between them, which lose, repeat and reorder: what happens is an
/// event, and what it comes to its answer. Contracts see what the world runs on, the events that it has taken, and its parts.
///
/// No packet on a link is stored. A message is in its device's line, an effect with its receiver once it is accepted and in the row
/// until then, and replies, acknowledgements and answers follow from how many there are. Nor is an event kept: proofs alone know of
/// them. So an event is meant to take a time that is logarithmic in devices, messages and events, but for a list that grows; no clause
/// speaks of time.
#[derive(Debug, Drop)]
pub struct World {
    pub(crate) law: EchoLaw,
    pub(crate) store: Store<EchoLaw>,
    pub(crate) count: u32,
    pub(crate) replicas: Vec<Replica>,
    pub(crate) agents: Vec<Agent>,
    pub(crate) gateway: Gateway,
    pub(crate) server: SubscriberPeer,
    pub(crate) sent: Vec<Marks>,
    pub(crate) pushed: Vec<LaneMarks>,
    pub(crate) log: EventLog,
}

impl Model for World {
    ghost use Rattle.link_schedule.specs.World.{WorldState};

    ghost Value = { WorldState };

    ghost use Rattle.link_schedule.specs.View.{view_of, IsInside};

    ghost view = { view_of };

    ghost invariant = { IsInside };
}

impl World {
    /// How many events the world has taken; the count stands still at 2^64 - 1. It takes no memory.
    pub fn event_count(&self) -> u64
        ensures { result ≡ min (length self.now.events) (2 ^ 64 - 1) }
    {
        self.log.count()
    }

    /// The agent of the device. It takes no memory.
    pub(crate) fn agent(&self, d: DeviceId) -> &Agent
        requires { IsWithin (length self.now.setting.rows) d.0 }
        ensures { IsWindowOf self.now.setting (turns_in self.now) d.0 result.now }
    {
        &self.agents[d.index()]
    }

    /// What holds of every world: each part is what its events make of it. It does nothing at run time.
    pub fn recall(&self)
        ensures { IsWorld self.now }
    {
        self.law.charter().recall();
    }
}

/// The row of a device. It takes no memory.
pub(crate) fn row_at(law: &EchoLaw, d: DeviceId) -> &Subscriber
    requires { IsWithin (length (arc_value law.now.charter).rows) d.0 }
    ensures row { result.now ≡ slice_index_or (arc_value law.now.charter).rows (d.0 - 1) no_row }
    ensures number { result.now.number ≡ d.0 }
    ensures tunnel { result.now.teid ≤ 4000000000 }
{
    &law.charter().rows()[d.index()]
}
