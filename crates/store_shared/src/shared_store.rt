//! The shared store.
ghost use Rattle.std.specs.Prelude.{◌≡◌, ◌≢◌, ◌≤◌, ◌<◌, ℕ, [], length, map, take, slice_get, All, IfErr, IfOk, OnErr, OnOk};
ghost use Rattle.device_types.specs.Journal.{pushed_count};
ghost use Rattle.effect_outbox.specs.Outbox.{number_on, settled_by};
ghost use Rattle.front_lock.specs.Front.{basis_of, seats_of};
ghost use Rattle.session_store.specs.Rows.{IsDevice, unsettled_effect};
ghost use Rattle.session_store.specs.Seen.{IsAsked, peeked_of, seen_of};
ghost use Rattle.session_store.specs.Shards.{shard_of};
ghost use Rattle.store_shared.specs.declared.turn.TurnAnswer.TheVariants as answers;
ghost use Rattle.store_shared.specs.declared.turn.TurnCall.TheVariants as calls;
ghost use Rattle.front_lock.specs.FrontRow.{AreClosed, AreFreshSeats, AreJoined, AreSeatsOf, MissesAt, SpeaksOnAll, TurnsAt, IsValueMore, seen_at};
ghost use Rattle.store_shared.specs.Legal.{IsBehind, TellsCount, commit_of, journal_in, row_in};
ghost use Rattle.store_shared.specs.SharedCalls.{Called};
ghost use Rattle.store_shared.specs.StoreBases.{basis_at, seat_of, shard_bases, store_basis, store_turns};

use crate::store_jobs::{CommitJob, PeekJob, PushJob, ReadJob, SettleJob};
use crate::store_shard::StoreShard;
use device_types::{DeviceId, Effect, Entry, Lane, NoRoom, Shared};
use effect_outbox::Settled;
use front_lock::{Fronts, FrontsSeat, Job};
use session_row::Commit;
use session_store::{Asked, Charter, Peeked, RowLaw, SHARDS, Seen};
use shard_parts::place_of;
use std::alloc::{AllocError, Global};
use std::sync::Wait;

/// The rows of all devices under a law, in 16 shards, at each of which threads take turns. Calls on different shards never wait for
/// one another; no clause says so.
///
/// A call makes one turn on the shard of its device, and is answered as the store of one thread would answer at that place of the
/// shard's history, which begins with all that the seat had seen of it (`Called`).
#[derive(Drop)]
pub struct SharedStore<L: RowLaw> {
    law: L,
    devices: u32,
    seats: u32,
    fronts: Fronts<StoreShard<L>>,
    ghost based: { map (λ f. basis_of store_basis f) fronts.fronts.items ≡ shard_bases devices (L.charter law) },
    ghost seated: { All (λ f. seats_of f ≡ seats) fronts.fronts.items },
}

/// A seat of the shared store: one at the front of each shard, all of the same number.
pub type StoreSeat<L> = FrontsSeat<StoreShard<L>>;

/// The shard of that number of so many devices, without turns, behind the others.
fn add_shard<L: RowLaw>(
    alloc: Global,
    made: &mut Vec<StoreShard<L>>,
    law: &L,
    number: u32,
    devices: u32,
) -> Result<(), AllocError>
    ensures { OnOk result (IsValueMore store_turns store_basis (basis_at devices (L.charter law.now) number) made.old.items made.new.items) }
{
    made.reserve(1)?;
    let shard = StoreShard::new(alloc, law.copy()?, number, devices)?;
    made.push_reserved(shard);
    Ok(())
}

/// The 16 shards of so many devices, without turns.
fn opening_shards<L: RowLaw>(
    alloc: Global,
    law: &L,
    devices: u32,
) -> Result<Vec<StoreShard<L>>, AllocError>
    ensures bases { IfOk result (λ made. map store_basis made.items ≡ shard_bases devices (L.charter law.now)) }
    ensures empty { IfOk result (λ made. All (λ t. t.turns.items ≡ []) made.items) }
{
    let mut made = Vec::new(alloc);
    for number in 0..SHARDS {
        add_shard(alloc, &mut made, law, number, devices)?;
    }
    Ok(made)
}

impl<L: RowLaw> SharedStore<L> {
    /// The store of so many devices, none of which was ever seen, and its seats in the order of their numbers; no seat is made
    /// later. The shards share what copies of the law share. It fails for want of memory alone.
    pub fn new(
        alloc: Global,
        law: L,
        devices: u32,
        seats: u32,
    ) -> Result<(SharedStore<L>, Vec<StoreSeat<L>>), AllocError>
        requires seats { 0 < seats }
        ensures charter { IfOk result (λ made. L.charter made.0.law ≡ L.charter law) }
        ensures devices { IfOk result (λ made. made.0.devices ≡ devices) }
        ensures seated { IfOk result (λ made. made.0.seats ≡ seats) }
        ensures count { IfOk result (λ made. length made.1.items ≡ seats) }
        ensures held { IfOk result (λ made. All (λ s. AreSeatsOf store_basis made.0.fronts.fronts.items s.seats.items) made.1.items) }
        ensures seats { IfOk result (λ made. AreFreshSeats store_basis (shard_bases devices (L.charter law)) seats made.0.fronts.fronts.items made.1.items) }
    {
        let values = opening_shards(alloc, &law, devices)?;
        let (fronts, made) = Fronts::new(alloc, values, seats)?;
        Ok((
            SharedStore {
                law,
                devices,
                seats,
                fronts,
            },
            made,
        ))
    }

    /// One turn at the shard of a device.
    fn turn<J: Job<StoreShard<L>>, R: Wait>(
        &self,
        rt: &R,
        seat: &mut StoreSeat<L>,
        d: DeviceId,
        job: J,
    ) -> Result<J::Answer, NoRoom<J>>
        requires seat { AreSeatsOf store_basis self.now.fronts.fronts.items seat.old.seats.items }
        requires can { J.can job (basis_at self.now.devices (L.charter self.now.law) (shard_of d.0)) (seen_at seat.old.seats.items (shard_of d.0)) }
        ensures seat { AreSeatsOf store_basis self.now.fronts.fronts.items seat.new.seats.items }
        ensures number { seat.new.number ≡ seat.old.number }
        ensures others { (n : ℕ) → n ≢ shard_of d.0 → slice_get seat.new.seats.items n ≡ slice_get seat.old.seats.items n }
        ensures ok { IfOk result (λ answer. TurnsAt store_turns store_basis seat_of (J.done job) seat.old.seats.items (shard_of d.0) answer seat.new.seats.items) }
        ensures err { IfErr result (λ room. MissesAt store_turns store_basis seat.old.seats.items (shard_of d.0) seat.new.seats.items) }
        ensures back { IfErr result (λ room. room.0 ≡ job) }
    {
        self.fronts.turn(rt, seat, place_of(d), job)
    }

    /// The same of a job that is let go where memory runs out.
    fn ask<J: Job<StoreShard<L>> + Drop, R: Wait>(
        &self,
        rt: &R,
        seat: &mut StoreSeat<L>,
        d: DeviceId,
        job: J,
    ) -> Result<J::Answer, AllocError>
        requires seat { AreSeatsOf store_basis self.now.fronts.fronts.items seat.old.seats.items }
        requires can { J.can job (basis_at self.now.devices (L.charter self.now.law) (shard_of d.0)) (seen_at seat.old.seats.items (shard_of d.0)) }
        ensures seat { AreSeatsOf store_basis self.now.fronts.fronts.items seat.new.seats.items }
        ensures number { seat.new.number ≡ seat.old.number }
        ensures others { (n : ℕ) → n ≢ shard_of d.0 → slice_get seat.new.seats.items n ≡ slice_get seat.old.seats.items n }
        ensures ok { IfOk result (λ answer. TurnsAt store_turns store_basis seat_of (J.done job) seat.old.seats.items (shard_of d.0) answer seat.new.seats.items) }
        ensures err { OnErr result (MissesAt store_turns store_basis seat.old.seats.items (shard_of d.0) seat.new.seats.items) }
    {
        match self.turn(rt, seat, d, job) {
            Ok(answer) => Ok(answer),
            Err(_) => Err(AllocError),
        }
    }

    /// What is seen of the row of a device, about an input, as `Store::read` tells it. It fails for want of memory alone.
    pub fn read<R: Wait>(
        &self,
        rt: &R,
        seat: &mut StoreSeat<L>,
        d: DeviceId,
        asked: Asked,
    ) -> Result<Seen, AllocError>
        requires seat { AreSeatsOf store_basis self.now.fronts.fronts.items seat.old.seats.items }
        requires device { IsDevice self.now.devices d.0 }
        requires asked { IsAsked asked }
        ensures seat { AreSeatsOf store_basis self.now.fronts.fronts.items seat.new.seats.items }
        ensures number { seat.new.number ≡ seat.old.number }
        ensures others { (n : ℕ) → n ≢ shard_of d.0 → slice_get seat.new.seats.items n ≡ slice_get seat.old.seats.items n }
        ensures ok { IfOk result (λ seen. Called L.follows self.now.devices (L.charter self.now.law) seat.old.seats.items seat.new.seats.items d (calls.Read asked) (answers.Read seen) (λ before. seen ≡ seen_of (journal_in d.0 before) asked)) }
        ensures err { OnErr result (MissesAt store_turns store_basis seat.old.seats.items (shard_of d.0) seat.new.seats.items) }
    {
        self.ask(rt, seat, d, ReadJob { d, asked })
    }

    /// The same without the session.
    pub fn peek<R: Wait>(
        &self,
        rt: &R,
        seat: &mut StoreSeat<L>,
        d: DeviceId,
        asked: Asked,
    ) -> Result<Peeked, AllocError>
        requires seat { AreSeatsOf store_basis self.now.fronts.fronts.items seat.old.seats.items }
        requires device { IsDevice self.now.devices d.0 }
        requires asked { IsAsked asked }
        ensures seat { AreSeatsOf store_basis self.now.fronts.fronts.items seat.new.seats.items }
        ensures number { seat.new.number ≡ seat.old.number }
        ensures others { (n : ℕ) → n ≢ shard_of d.0 → slice_get seat.new.seats.items n ≡ slice_get seat.old.seats.items n }
        ensures ok { IfOk result (λ peeked. Called L.follows self.now.devices (L.charter self.now.law) seat.old.seats.items seat.new.seats.items d (calls.Peek asked) (answers.Peek peeked) (λ before. peeked ≡ peeked_of (journal_in d.0 before) asked)) }
        ensures err { OnErr result (MissesAt store_turns store_basis seat.old.seats.items (shard_of d.0) seat.new.seats.items) }
    {
        self.ask(rt, seat, d, PeekJob { d, asked })
    }

    /// Writes an entry, where the row of the device still has the version that was read. The version is one that the seat has seen,
    /// and the entry follows its journal by the law. Where another write came before, what the seat has seen behind the call has
    /// as many commits as the answer says, more than were read (`tells`). For want of memory the entry is given back.
    pub fn commit<R: Wait>(
        &self,
        rt: &R,
        seat: &mut StoreSeat<L>,
        d: DeviceId,
        read: u64,
        entry: Entry,
    ) -> Result<Commit, NoRoom<Entry>>
        requires seat { AreSeatsOf store_basis self.now.fronts.fronts.items seat.old.seats.items }
        requires device { IsDevice self.now.devices d.0 }
        requires version { read ≤ length (journal_in d.0 (seen_at seat.old.seats.items (shard_of d.0))) }
        requires law { L.follows (L.charter self.now.law) d.0 (take read (journal_in d.0 (seen_at seat.old.seats.items (shard_of d.0)))) entry }
        ensures seat { AreSeatsOf store_basis self.now.fronts.fronts.items seat.new.seats.items }
        ensures number { seat.new.number ≡ seat.old.number }
        ensures others { (n : ℕ) → n ≢ shard_of d.0 → slice_get seat.new.seats.items n ≡ slice_get seat.old.seats.items n }
        ensures ok { IfOk result (λ commit. Called L.follows self.now.devices (L.charter self.now.law) seat.old.seats.items seat.new.seats.items d (calls.Commit read entry) (answers.Commit commit) (λ before. (commit ≡ commit_of (length (journal_in d.0 before)) read) × IsBehind read commit)) }
        ensures tells { IfOk result (TellsCount d.0 read (seen_at seat.new.seats.items (shard_of d.0))) }
        ensures err { OnErr result (MissesAt store_turns store_basis seat.old.seats.items (shard_of d.0) seat.new.seats.items) }
        ensures back { IfErr result (λ room. room.0 ≡ entry) }
    {
        match self.turn(rt, seat, d, CommitJob { d, read, entry }) {
            Ok(answer) => Ok(answer),
            Err(NoRoom(job)) => Err(NoRoom(job.entry)),
        }
    }

    /// Effect `k` of a lane of the device, from 1, or `None` where it was not made or is settled. It fails for want of memory
    /// alone.
    pub fn push<R: Wait>(
        &self,
        rt: &R,
        seat: &mut StoreSeat<L>,
        d: DeviceId,
        lane: Lane,
        k: u64,
    ) -> Result<Option<Shared<Effect>>, AllocError>
        requires seat { AreSeatsOf store_basis self.now.fronts.fronts.items seat.old.seats.items }
        requires device { IsDevice self.now.devices d.0 }
        ensures seat { AreSeatsOf store_basis self.now.fronts.fronts.items seat.new.seats.items }
        ensures number { seat.new.number ≡ seat.old.number }
        ensures others { (n : ℕ) → n ≢ shard_of d.0 → slice_get seat.new.seats.items n ≡ slice_get seat.old.seats.items n }
        ensures ok { IfOk result (λ effect. Called L.follows self.now.devices (L.charter self.now.law) seat.old.seats.items seat.new.seats.items d (calls.Push lane k) (answers.Push effect) (λ before. effect ≡ unsettled_effect (row_in d.0 before) lane k)) }
        ensures err { OnErr result (MissesAt store_turns store_basis seat.old.seats.items (shard_of d.0) seat.new.seats.items) }
    {
        self.ask(rt, seat, d, PushJob { d, lane, k })
    }

    /// The effects of a lane of the device up to `k` are settled; so many were made, as far as the seat has seen. It fails for want
    /// of memory alone: its turn is kept.
    pub fn settle<R: Wait>(
        &self,
        rt: &R,
        seat: &mut StoreSeat<L>,
        d: DeviceId,
        lane: Lane,
        k: u64,
    ) -> Result<Settled, AllocError>
        requires seat { AreSeatsOf store_basis self.now.fronts.fronts.items seat.old.seats.items }
        requires device { IsDevice self.now.devices d.0 }
        requires pushed { k ≤ pushed_count lane (journal_in d.0 (seen_at seat.old.seats.items (shard_of d.0))) }
        ensures seat { AreSeatsOf store_basis self.now.fronts.fronts.items seat.new.seats.items }
        ensures number { seat.new.number ≡ seat.old.number }
        ensures others { (n : ℕ) → n ≢ shard_of d.0 → slice_get seat.new.seats.items n ≡ slice_get seat.old.seats.items n }
        ensures ok { IfOk result (λ settled. Called L.follows self.now.devices (L.charter self.now.law) seat.old.seats.items seat.new.seats.items d (calls.Settle lane k) (answers.Settle settled) (λ before. settled ≡ settled_by (number_on (row_in d.0 before).settled lane) k)) }
        ensures err { OnErr result (MissesAt store_turns store_basis seat.old.seats.items (shard_of d.0) seat.new.seats.items) }
    {
        self.ask(rt, seat, d, SettleJob { d, lane, k })
    }

    /// The charter of its law. It takes no memory.
    pub fn charter(&self) -> &Charter
        ensures { result.now ≡ L.charter self.now.law }
    {
        self.law.charter()
    }

    /// With how many seats it was made. It takes no memory.
    pub fn seats(&self) -> u32
        ensures { result ≡ self.now.seats }
    {
        self.seats
    }

    /// Joins two seats to one, one shard after another: it keeps the number of `into`, and of each shard what both had seen and the
    /// turns of both. It takes no memory, and never fails.
    pub fn join(
        &self,
        into: &mut StoreSeat<L>,
        from: StoreSeat<L>,
    ) -> Result<(), NoRoom<StoreSeat<L>>>
        requires into { AreSeatsOf store_basis self.now.fronts.fronts.items into.old.seats.items }
        requires from { AreSeatsOf store_basis self.now.fronts.fronts.items from.seats.items }
        ensures seats { AreSeatsOf store_basis self.now.fronts.fronts.items into.new.seats.items }
        ensures number { into.new.number ≡ into.old.number }
        ensures joined { AreJoined into.old.seats.items from.seats.items into.new.seats.items }
        ensures keeps { (n : ℕ) → SpeaksOnAll n into.old.seats.items → SpeaksOnAll n into.new.seats.items }
        ensures gains { (n : ℕ) → SpeaksOnAll n from.seats.items → SpeaksOnAll n into.new.seats.items }
        ensures never { OnErr result ⊥ }
    {
        self.fronts.join(into, from);
        Ok(())
    }

    /// The 16 shards in the order of their numbers, once a seat speaks for every number of each: of each shard the history begins
    /// with what the seat has seen, and has the turns of its lists and no others. For want of memory, which it takes first, the
    /// store and the seat are given back.
    pub fn close(
        self,
        seat: StoreSeat<L>,
    ) -> Result<Vec<StoreShard<L>>, NoRoom<(SharedStore<L>, StoreSeat<L>)>>
        requires seat { AreSeatsOf store_basis self.fronts.fronts.items seat.seats.items }
        requires all { (n : ℕ) → n < self.seats → SpeaksOnAll n seat.seats.items }
        ensures closed { IfOk result (λ shards. AreClosed store_turns store_basis seat_of self.fronts.fronts.items seat.seats.items shards.items) }
        ensures charter { IfOk result (λ shards. map store_basis shards.items ≡ shard_bases self.devices (L.charter self.law)) }
        ensures back { IfErr result (λ room. (room.0.0.fronts ≡ self.fronts) × (room.0.0.law ≡ self.law) × (room.0.0.devices ≡ self.devices) × (room.0.0.seats ≡ self.seats) × (room.0.1 ≡ seat)) }
    {
        let SharedStore {
            law,
            devices,
            seats,
            fronts,
        } = self;
        match fronts.close(seat) {
            Ok(values) => Ok(values),
            Err(NoRoom((fronts, seat))) => Err(NoRoom((
                SharedStore {
                    law,
                    devices,
                    seats,
                    fronts,
                },
                seat,
            ))),
        }
    }
}
