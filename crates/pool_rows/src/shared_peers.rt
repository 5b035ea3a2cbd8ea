//! The shared peers as peers that threads share.
ghost use Rattle.std.specs.Prelude.{◌≡◌, length};
ghost use Rattle.std.specs.Arc.{arc_value};
ghost use Rattle.front_lock.specs.FrontRow.{AreSeatsOf, SpeaksOnAll};
ghost use Rattle.store_shared.specs.PeerBases.{peer_basis};
ghost use Rattle.pool_rows.specs.Shared.{AreClosedPeers, calls_known, closed_calls};

use crate::calls::SharedCalls;
use device_types::{DeviceId, Effect, Offer, Shared};
use session_store::{Charter, EchoLaw};
use std::alloc::{AllocError, Global};
use std::sync::Wait;
use store_shared::{PeerSeat, PeerShard, SharedPeers};
use subs_table::SubsTable;

impl SharedCalls for SharedPeers {
    type Seat = PeerSeat;

    type Closed = Vec<PeerShard>;

    ghost charter = { λ peers. arc_value peers.law.charter };

    ghost count = { λ peers. peers.seats };

    ghost is_seat = { λ peers seat. AreSeatsOf peer_basis peers.fronts.fronts.items seat.seats.items };

    ghost known = { λ seat d lane. calls_known seat.seats.items d lane };

    ghost speaks = { λ seat n. SpeaksOnAll n seat.seats.items };

    ghost closes = { λ charter shards. AreClosedPeers charter shards.items };

    ghost accepted = { λ shards d lane. closed_calls shards.items d lane };

    fn open(
        alloc: Global,
        law: EchoLaw,
        table: &SubsTable,
        seats: u32,
    ) -> Result<(SharedPeers, Vec<PeerSeat>), AllocError> {
        SharedPeers::new(alloc, law, table, seats)
    }

    fn charter(&self) -> &Charter {
        let charter = SharedPeers::charter(self);
        charter.recall();
        charter
    }

    fn offer<R: Wait>(
        &self,
        rt: &R,
        seat: &mut PeerSeat,
        d: DeviceId,
        k: u64,
        call: Shared<Effect>,
    ) -> Result<Offer, AllocError> {
        SharedPeers::charter(self).recall();
        SharedPeers::offer(self, rt, seat, d, k, call)
    }

    fn join(&self, into: &mut PeerSeat, from: PeerSeat) {
        let _ = SharedPeers::join(self, into, from);
    }

    fn close(self, seat: PeerSeat) -> Result<Vec<PeerShard>, AllocError> {
        match SharedPeers::close(self, seat) {
            Ok(shards) => Ok(shards),
            Err(_) => Err(AllocError),
        }
    }
}
