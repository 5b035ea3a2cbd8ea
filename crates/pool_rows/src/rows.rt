//! Rows that threads share.
ghost use Rattle.std.specs.Prelude.{◌≡◌, ◌≤◌, ◌<◌, ℕ, List, length, take, slice_get, All, Some, IfErr, IfOk, OnOk};
ghost use Rattle.std.specs.Arc.{arc_value};
ghost use Rattle.device_types.specs.declared.effect.Effect.{Effect};
ghost use Rattle.device_types.specs.declared.step.Entry.{Entry};
ghost use Rattle.device_types.specs.Journal.{pushed_count};
ghost use Rattle.session_store.specs.Charter.{CharterState, IsCharter, follows_alone};
ghost use Rattle.session_row.specs.Row.{RowState};
ghost use Rattle.session_store.specs.Law.{IsLawful};
ghost use Rattle.session_store.specs.Rows.{Begins, IsDevice, IsKnownAfter, opening_row, unsettled_effect};
ghost use Rattle.session_store.specs.Seen.{IsAsked, peeked_of, seen_of};
ghost use Rattle.pool_rows.specs.Seats.{GoesOn, KnowsRows, Settles};

use device_types::{DeviceId, Effect, Entry, Lane, NoRoom, Shared};
use effect_outbox::Settled;
use session_row::Commit;
use session_store::{Asked, Charter, EchoLaw, Peeked, Seen};
use std::alloc::{AllocError, Global};
use std::sync::Wait;

/// The rows of all devices under the law of the machine alone, which threads share. Each thread has a seat, and calls by it. A
/// seat knows of each device a row, which its calls only make later, and it speaks for numbers of seats: a new one for its own, a
/// joined one for those of both.
pub trait SharedRows: Sized {
    /// What a thread calls by.
    type Seat;

    /// What is left of the rows once they are closed.
    type Closed;

    /// The table, and the lines of its devices.
    ghost charter: { Self → CharterState };

    /// With how many seats it was made.
    ghost count: { Self → ℕ };

    /// A seat of these rows.
    ghost is_seat: { Self → Self.Seat → Type 0 };

    /// The row of the device of that number, as far as the seat has seen it.
    ghost known: { Self.Seat → ℕ → RowState };

    /// What the row of the device of that number may be once others were served: none of the calls behind those that the seat has
    /// seen was one of a number that it speaks for.
    ghost comes: { Self.Seat → ℕ → RowState → Type 0 };

    /// The seat speaks for that number.
    ghost speaks: { Self.Seat → ℕ → Type 0 };

    /// Closed rows under a charter, each shard with a legal history.
    ghost closes: { CharterState → Self.Closed → Type 0 };

    /// The journal of the device of that number in closed rows.
    ghost journal: { Self.Closed → ℕ → List Entry };

    /// The rows of the devices of a law's table, none of which was ever seen, and their seats. It fails for want of memory alone.
    fn open(
        alloc: Global,
        law: EchoLaw,
        devices: u32,
        seats: u32,
    ) -> Result<(Self, Vec<Self::Seat>), AllocError>
        requires devices { devices ≡ length (arc_value law.charter).rows }
        requires seats { 0 < seats }
        ensures charter { IfOk result (λ made. charter made.0 ≡ arc_value law.charter) }
        ensures count { IfOk result (λ made. (count made.0 ≡ seats) × (length made.1.items ≡ seats)) }
        ensures seats { IfOk result (λ made. All (is_seat made.0) made.1.items) }
        ensures fresh { IfOk result (λ made. All (λ seat. (d : ℕ) → known seat d ≡ opening_row) made.1.items) }
        ensures speaks { IfOk result (λ made. (n : ℕ) (seat : Self.Seat) → slice_get made.1.items n ≡ Some seat → speaks seat n) };

    /// The charter. It takes no memory.
    fn charter(&self) -> &Charter
        ensures charter { result.now ≡ charter self.now }
        ensures in_form { IsCharter (charter self.now) };

    /// What is seen of the row of a device, about an input. It fails for want of memory alone.
    fn read<R: Wait>(
        &self,
        rt: &R,
        seat: &mut Self::Seat,
        d: DeviceId,
        asked: Asked,
    ) -> Result<Seen, AllocError>
        requires seat { is_seat self.now seat.old }
        requires device { IsDevice (length (charter self.now).rows) d.0 }
        requires asked { IsAsked asked }
        ensures seat { GoesOn (is_seat self.now) speaks (KnowsRows known) seat.old seat.new }
        ensures lawful { OnOk result (IsLawful (follows_alone (charter self.now) d.0) (known seat.new d.0).journal) }
        ensures ok { IfOk result (λ seen. seen ≡ seen_of (known seat.new d.0).journal asked) };

    /// The same without the session.
    fn peek<R: Wait>(
        &self,
        rt: &R,
        seat: &mut Self::Seat,
        d: DeviceId,
        asked: Asked,
    ) -> Result<Peeked, AllocError>
        requires seat { is_seat self.now seat.old }
        requires device { IsDevice (length (charter self.now).rows) d.0 }
        requires asked { IsAsked asked }
        ensures seat { GoesOn (is_seat self.now) speaks (KnowsRows known) seat.old seat.new }
        ensures lawful { OnOk result (IsLawful (follows_alone (charter self.now) d.0) (known seat.new d.0).journal) }
        ensures ok { IfOk result (λ peeked. peeked ≡ peeked_of (known seat.new d.0).journal asked) };

    /// Writes an entry, where the row of the device still has the version that was read. For want of memory it is given back.
    fn commit<R: Wait>(
        &self,
        rt: &R,
        seat: &mut Self::Seat,
        d: DeviceId,
        read: u64,
        entry: Entry,
    ) -> Result<Commit, NoRoom<Entry>>
        requires seat { is_seat self.now seat.old }
        requires device { IsDevice (length (charter self.now).rows) d.0 }
        requires version { read ≤ length (known seat.old d.0).journal }
        requires law { follows_alone (charter self.now) d.0 (take read (known seat.old d.0).journal) entry }
        ensures seat { GoesOn (is_seat self.now) speaks (KnowsRows known) seat.old seat.new }
        ensures lawful { OnOk result (IsLawful (follows_alone (charter self.now) d.0) (known seat.new d.0).journal) }
        ensures ok { IfOk result (IsKnownAfter (known seat.new d.0).journal read entry) }
        ensures back { IfErr result (λ room. room.0 ≡ entry) };

    /// Effect `k` of a lane of the device, from 1, or `None` where it was not made or is settled. It fails for want of memory
    /// alone.
    fn push<R: Wait>(
        &self,
        rt: &R,
        seat: &mut Self::Seat,
        d: DeviceId,
        lane: Lane,
        k: u64,
    ) -> Result<Option<Shared<Effect>>, AllocError>
        requires seat { is_seat self.now seat.old }
        requires device { IsDevice (length (charter self.now).rows) d.0 }
        ensures seat { GoesOn (is_seat self.now) speaks (KnowsRows known) seat.old seat.new }
        ensures lawful { OnOk result (IsLawful (follows_alone (charter self.now) d.0) (known seat.new d.0).journal) }
        ensures ok { IfOk result (λ effect. effect ≡ unsettled_effect (known seat.new d.0) lane k) };

    /// The effects of a lane of the device up to `k` are settled; so many were made, as far as the seat has seen. It fails for
    /// want of memory alone.
    fn settle<R: Wait>(
        &self,
        rt: &R,
        seat: &mut Self::Seat,
        d: DeviceId,
        lane: Lane,
        k: u64,
    ) -> Result<Settled, AllocError>
        requires seat { is_seat self.now seat.old }
        requires device { IsDevice (length (charter self.now).rows) d.0 }
        requires pushed { k ≤ pushed_count lane (known seat.old d.0).journal }
        ensures seat { GoesOn (is_seat self.now) speaks (KnowsRows known) seat.old seat.new }
        ensures lawful { OnOk result (IsLawful (follows_alone (charter self.now) d.0) (known seat.new d.0).journal) }
        ensures ok { IfOk result (Settles (comes seat.old d.0) (known seat.old d.0) lane k (known seat.new d.0)) };

    /// Joins two seats to one, which speaks for the numbers of both and knows what both knew. It takes no memory.
    fn join(&self, into: &mut Self::Seat, from: Self::Seat)
        requires into { is_seat self.now into.old }
        requires from { is_seat self.now from }
        ensures keeps { GoesOn (is_seat self.now) speaks (KnowsRows known) into.old into.new }
        ensures gains { GoesOn (is_seat self.now) speaks (KnowsRows known) from into.new };

    /// Closes the rows, once a seat speaks for every number: the journal of each device begins with what the seat has seen. For
    /// want of memory all is dropped.
    fn close(self, seat: Self::Seat) -> Result<Self::Closed, AllocError>
        requires seat { is_seat self seat }
        requires all { (n : ℕ) → n < count self → speaks seat n }
        ensures closed { IfOk result (closes (charter self)) }
        ensures seen { IfOk result (λ closed. (d : ℕ) → Begins (known seat d).journal (journal closed d)) };

    /// The journal of a device in closed rows, lent; it is lawful. It takes no memory.
    fn journal(closed: &Self::Closed, d: DeviceId) -> &[Entry]
        requires closed { (charter : CharterState) × closes charter closed.now × IsDevice (length charter.rows) d.0 }
        ensures value { result.now ≡ journal closed.now d.0 }
        ensures lawful { (charter : CharterState) → closes charter closed.now → IsDevice (length charter.rows) d.0 → IsLawful (follows_alone charter d.0) (journal closed.now d.0) };
}
