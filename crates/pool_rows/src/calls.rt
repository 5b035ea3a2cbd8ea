//! Peers that threads share.
ghost use Rattle.std.specs.Prelude.{◌≡◌, ◌<◌, ℕ, List, [], length, slice_get, All, Some, IfOk};
ghost use Rattle.std.specs.Arc.{arc_value};
ghost use Rattle.device_types.specs.declared.effect.Effect.{Effect};
ghost use Rattle.device_types.specs.declared.event.Lane.{Lane};
ghost use Rattle.session_store.specs.Charter.{CharterState, IsCharter};
ghost use Rattle.session_store.specs.Rows.{Begins, IsDevice};
ghost use Rattle.shard_parts.specs.BothPeers.{lane_of};
ghost use Rattle.store_shared.specs.Legal.{IsAcceptedOf};
ghost use Rattle.pool_rows.specs.Seats.{GoesOn, IsCall, IsOffer, KnowsCalls};

use device_types::{DeviceId, Effect, Lane, Offer, Shared};
use session_store::{Charter, EchoLaw};
use std::alloc::{AllocError, Global};
use std::sync::Wait;
use subs_table::SubsTable;

/// The peers of all devices, which threads share. Each thread has a seat, and calls by it. A seat knows the calls of each device
/// and lane that were accepted, which its calls only extend, and it speaks for numbers of seats: a new one for its own, a joined
/// one for those of both.
pub trait SharedCalls: Sized {
    /// What a thread calls by.
    type Seat;

    /// What is left of the peers once they are closed.
    type Closed;

    /// The table, and the lines of its devices.
    ghost charter: { Self → CharterState };

    /// With how many seats they were made.
    ghost count: { Self → ℕ };

    /// A seat of these peers.
    ghost is_seat: { Self → Self.Seat → Type 0 };

    /// The calls of the device of that number that were accepted on a lane, as far as the seat has seen them.
    ghost known: { Self.Seat → ℕ → Lane → List Effect };

    /// The seat speaks for that number.
    ghost speaks: { Self.Seat → ℕ → Type 0 };

    /// Closed peers under a charter, each shard with a legal history.
    ghost closes: { CharterState → Self.Closed → Type 0 };

    /// The calls of the device of that number that closed peers have accepted on a lane.
    ghost accepted: { Self.Closed → ℕ → Lane → List Effect };

    /// The peers of the devices of a table, which have accepted nothing, and their seats. It fails for want of memory alone.
    fn open(
        alloc: Global,
        law: EchoLaw,
        table: &SubsTable,
        seats: u32,
    ) -> Result<(Self, Vec<Self::Seat>), AllocError>
        requires table { (arc_value law.charter).rows ≡ table.now }
        requires seats { 0 < seats }
        ensures charter { IfOk result (λ made. charter made.0 ≡ arc_value law.charter) }
        ensures count { IfOk result (λ made. (count made.0 ≡ seats) × (length made.1.items ≡ seats)) }
        ensures seats { IfOk result (λ made. All (is_seat made.0) made.1.items) }
        ensures fresh { IfOk result (λ made. All (λ seat. (d : ℕ) (lane : Lane) → known seat d lane ≡ []) made.1.items) }
        ensures speaks { IfOk result (λ made. (n : ℕ) (seat : Self.Seat) → slice_get made.1.items n ≡ Some seat → speaks seat n) };

    /// The charter. It takes no memory.
    fn charter(&self) -> &Charter
        ensures charter { result.now ≡ charter self.now }
        ensures in_form { IsCharter (charter self.now) };

    /// Call `k` of a device on its lane arrives, `k` from 1: effect k of that lane of the machine alone. It fails for want of
    /// memory alone.
    fn offer<R: Wait>(
        &self,
        rt: &R,
        seat: &mut Self::Seat,
        d: DeviceId,
        k: u64,
        call: Shared<Effect>,
    ) -> Result<Offer, AllocError>
        requires seat { is_seat self.now seat.old }
        requires call { IsCall (charter self.now) d.0 k call }
        ensures seat { GoesOn (is_seat self.now) speaks (KnowsCalls known) seat.old seat.new }
        ensures ok { IfOk result (IsOffer (charter self.now) d.0 k call (known seat.new d.0 (lane_of call))) };

    /// Joins two seats to one, which speaks for the numbers of both and knows what both knew. It takes no memory.
    fn join(&self, into: &mut Self::Seat, from: Self::Seat)
        requires into { is_seat self.now into.old }
        requires from { is_seat self.now from }
        ensures keeps { GoesOn (is_seat self.now) speaks (KnowsCalls known) into.old into.new }
        ensures gains { GoesOn (is_seat self.now) speaks (KnowsCalls known) from into.new };

    /// Closes the peers, once a seat speaks for every number: what was accepted of each device on a lane begins that lane of the
    /// machine alone, and begins with what the seat has seen. For want of memory all is dropped.
    fn close(self, seat: Self::Seat) -> Result<Self::Closed, AllocError>
        requires seat { is_seat self seat }
        requires all { (n : ℕ) → n < count self → speaks seat n }
        ensures closed { IfOk result (closes (charter self)) }
        ensures seen { IfOk result (λ closed. (d : ℕ) (lane : Lane) → Begins (known seat d lane) (accepted closed d lane)) }
        ensures lawful { IfOk result (λ closed. (d : ℕ) (lane : Lane) → IsDevice (length (charter self).rows) d → IsAcceptedOf (charter self) d lane (accepted closed d lane)) };
}
