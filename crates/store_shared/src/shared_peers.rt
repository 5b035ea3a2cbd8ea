//! The shared peers.
ghost use Rattle.std.specs.Prelude.{◌≡◌, ◌≢◌, ◌<◌, ℕ, [], length, map, slice_get, All, IfErr, IfOk, OnErr, OnOk};
ghost use Rattle.std.specs.Arc.{arc_value};
ghost use Rattle.front_lock.specs.Front.{basis_of, seats_of};
ghost use Rattle.session_store.specs.Shards.{shard_of};
ghost use Rattle.front_lock.specs.FrontRow.{AreClosed, AreFreshSeats, AreJoined, AreSeatsOf, IsValueMore, MissesAt, SpeaksOnAll};
ghost use Rattle.store_shared.specs.PeerBases.{peer_bases, peer_basis, peer_basis_at, peer_turns};
ghost use Rattle.store_shared.specs.PeerShards.{IsOffered};
ghost use Rattle.store_shared.specs.SharedOffers.{Offered};
ghost use Rattle.store_shared.specs.StoreBases.{seat_of};

use crate::offer_job::OfferJob;
use crate::peer_shard::PeerShard;
use device_types::{DeviceId, Effect, NoRoom, Offer, Shared};
use front_lock::{Fronts, FrontsSeat};
use session_store::{Charter, EchoLaw, RowLaw, SHARDS};
use shard_parts::place_of;
use std::alloc::{AllocError, Global};
use std::sync::Wait;
use subs_table::SubsTable;

/// The gateway and the subscriber server under a charter, in 16 shards of devices, at each of which threads take turns. Offers on
/// different shards never wait for one another; no clause says so.
#[derive(Drop)]
pub struct SharedPeers {
    law: EchoLaw,
    seats: u32,
    fronts: Fronts<PeerShard>,
    ghost based: { map (λ f. basis_of peer_basis f) fronts.fronts.items ≡ peer_bases (arc_value law.charter) },
    ghost seated: { All (λ f. seats_of f ≡ seats) fronts.fronts.items },
}

/// A seat of the shared peers: one at the front of each shard, all of the same number.
pub type PeerSeat = FrontsSeat<PeerShard>;

/// The job is let go.
fn no_memory<J: Drop>(_room: NoRoom<J>) -> AllocError {
    AllocError
}

/// The shard of that number, without turns, behind the others.
fn add_shard(
    alloc: Global,
    made: &mut Vec<PeerShard>,
    law: &EchoLaw,
    number: u32,
) -> Result<(), AllocError>
    ensures { OnOk result (IsValueMore peer_turns peer_basis (peer_basis_at (arc_value law.now.charter) number) made.old.items made.new.items) }
{
    made.reserve(1)?;
    let shard = PeerShard::new(alloc, law.copy()?, number)?;
    made.push_reserved(shard);
    Ok(())
}

/// The 16 shards, without turns.
fn opening_shards(alloc: Global, law: &EchoLaw) -> Result<Vec<PeerShard>, AllocError>
    ensures bases { IfOk result (λ made. map peer_basis made.items ≡ peer_bases (arc_value law.now.charter)) }
    ensures empty { IfOk result (λ made. All (λ t. t.turns.items ≡ []) made.items) }
{
    let mut made = Vec::new(alloc);
    for number in 0..SHARDS {
        add_shard(alloc, &mut made, law, number)?;
    }
    Ok(made)
}

impl SharedPeers {
    /// The peers of the devices of a table, which have accepted nothing, and their seats in the order of their numbers; no seat is
    /// made later. It fails for want of memory alone.
    pub fn new(
        alloc: Global,
        law: EchoLaw,
        _table: &SubsTable,
        seats: u32,
    ) -> Result<(SharedPeers, Vec<PeerSeat>), AllocError>
        requires table { (arc_value law.charter).rows ≡ _table.now }
        requires seats { 0 < seats }
        ensures charter { IfOk result (λ made. arc_value made.0.law.charter ≡ arc_value law.charter) }
        ensures seated { IfOk result (λ made. made.0.seats ≡ seats) }
        ensures count { IfOk result (λ made. length made.1.items ≡ seats) }
        ensures held { IfOk result (λ made. All (λ s. AreSeatsOf peer_basis made.0.fronts.fronts.items s.seats.items) made.1.items) }
        ensures seats { IfOk result (λ made. AreFreshSeats peer_basis (peer_bases (arc_value law.charter)) seats made.0.fronts.fronts.items made.1.items) }
    {
        let values = opening_shards(alloc, &law)?;
        let (fronts, made) = Fronts::new(alloc, values, seats)?;
        Ok((SharedPeers { law, seats, fronts }, made))
    }

    /// Call `k` of a device on its lane arrives, `k` from 1: effect k of that lane of the machine alone. It is answered as peers of
    /// one thread would answer at that place of the shard's history, which begins with all that the seat had seen of it. It fails
    /// for want of memory alone.
    pub fn offer<R: Wait>(
        &self,
        rt: &R,
        seat: &mut PeerSeat,
        d: DeviceId,
        k: u64,
        call: Shared<Effect>,
    ) -> Result<Offer, AllocError>
        requires seat { AreSeatsOf peer_basis self.now.fronts.fronts.items seat.old.seats.items }
        requires offered { IsOffered (arc_value self.now.law.charter) (shard_of d.0) d.0 k call }
        ensures seat { AreSeatsOf peer_basis self.now.fronts.fronts.items seat.new.seats.items }
        ensures number { seat.new.number ≡ seat.old.number }
        ensures others { (n : ℕ) → n ≢ shard_of d.0 → slice_get seat.new.seats.items n ≡ slice_get seat.old.seats.items n }
        ensures ok { IfOk result (λ offer. Offered (arc_value self.now.law.charter) seat.old.seats.items seat.new.seats.items d k call offer) }
        ensures err { OnErr result (MissesAt peer_turns peer_basis seat.old.seats.items (shard_of d.0) seat.new.seats.items) }
    {
        match self
            .fronts
            .turn(rt, seat, place_of(d), OfferJob { d, k, call })
        {
            Ok(answer) => Ok(answer),
            Err(room) => Err(no_memory(room)),
        }
    }

    /// The charter of their law. It takes no memory.
    pub fn charter(&self) -> &Charter
        ensures { result.now ≡ arc_value self.now.law.charter }
    {
        self.law.charter()
    }

    /// With how many seats they were made. It takes no memory.
    pub fn seats(&self) -> u32
        ensures { result ≡ self.now.seats }
    {
        self.seats
    }

    /// Joins two seats to one, one shard after another: it keeps the number of `into`, and of each shard what both had seen and the
    /// turns of both. It takes no memory, and never fails.
    pub fn join(&self, into: &mut PeerSeat, from: PeerSeat) -> Result<(), NoRoom<PeerSeat>>
        requires into { AreSeatsOf peer_basis self.now.fronts.fronts.items into.old.seats.items }
        requires from { AreSeatsOf peer_basis self.now.fronts.fronts.items from.seats.items }
        ensures seats { AreSeatsOf peer_basis self.now.fronts.fronts.items into.new.seats.items }
        ensures number { into.new.number ≡ into.old.number }
        ensures joined { AreJoined into.old.seats.items from.seats.items into.new.seats.items }
        ensures keeps { (n : ℕ) → SpeaksOnAll n into.old.seats.items → SpeaksOnAll n into.new.seats.items }
        ensures gains { (n : ℕ) → SpeaksOnAll n from.seats.items → SpeaksOnAll n into.new.seats.items }
        ensures never { OnErr result ⊥ }
    {
        self.fronts.join(into, from);
        Ok(())
    }

    /// The 16 shards in the order of their numbers, once a seat speaks for every number of each: of each shard the history begins
    /// with what the seat has seen, and has the turns of its lists and no others. For want of memory, which it takes first, the
    /// peers and the seat are given back.
    pub fn close(self, seat: PeerSeat) -> Result<Vec<PeerShard>, NoRoom<(SharedPeers, PeerSeat)>>
        requires seat { AreSeatsOf peer_basis self.fronts.fronts.items seat.seats.items }
        requires all { (n : ℕ) → n < self.seats → SpeaksOnAll n seat.seats.items }
        ensures closed { IfOk result (λ shards. AreClosed peer_turns peer_basis seat_of self.fronts.fronts.items seat.seats.items shards.items) }
        ensures charter { IfOk result (λ shards. map peer_basis shards.items ≡ peer_bases (arc_value self.law.charter)) }
        ensures back { IfErr result (λ room. (room.0.0.fronts ≡ self.fronts) × (room.0.0.law ≡ self.law) × (room.0.0.seats ≡ self.seats) × (room.0.1 ≡ seat)) }
    {
        let SharedPeers { law, seats, fronts } = self;
        match fronts.close(seat) {
            Ok(values) => Ok(values),
            Err(NoRoom((fronts, seat))) => Err(NoRoom((SharedPeers { law, seats, fronts }, seat))),
        }
    }
}
