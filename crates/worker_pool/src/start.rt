//! The threads: the mover, the entry, and the workers, the last of which is the thread of the caller.
ghost use Rattle.std.specs.Prelude.{◌≡◌, ℕ, [], ◌∷◌, ◌++◌, length, All, IfErr, IfNone, IfOk, IfSome};
ghost use Rattle.crossbeam_channel.specs.Claims.{IsSeatAt};
ghost use Rattle.crossbeam_channel.specs.Ends.{receives_on, sends_on};
ghost use Rattle.pool_work.specs.Stores.{AreSeats, AreUnder, BothTakeOver};

use crate::entry::EntryThread;
use crate::mover::carry_all;
use pool_rows::{SharedCalls, SharedRows};
use pool_work::{Desk, Ends, Gate, Line, Named, Place, Seats, another};
use std::alloc::Global;
use std::snapshot::Snapshot;
use std::sync::Wait;
use std::thread::{Promise, PromisedHandle, Scope, Threads};

/// A worker, or the mover, gives back seats that speak for what its own spoke for.
#[derive(Drop)]
pub(crate) struct SeatsBack<'a, T: SharedRows, P: SharedCalls> {
    rows: &'a T,
    peers: &'a P,
    row_seat: Snapshot<T::Seat>,
    peer_seat: Snapshot<P::Seat>,
}

impl<'a, T: SharedRows, P: SharedCalls> Promise<Seats<T, P>> for SeatsBack<'a, T, P> {
    ghost use Rattle.pool_work.specs.Stores.{BothTakeOver};

    ghost kept_by = { λ p r. BothTakeOver (T.is_seat p.rows.now) T.speaks (P.is_seat p.peers.now) P.speaks p.row_seat.value r.rows p.peer_seat.value r.peers };
}

/// Takes the last of the seats of the rows out.
fn take_row_seat<T: SharedRows>(rows: &T, seats: &mut Vec<T::Seat>) -> Option<T::Seat>
    requires { All (T.is_seat rows.now) seats.old.items }
    ensures rest { All (T.is_seat rows.now) seats.new.items }
    ensures some { IfSome result (λ seat. T.is_seat rows.now seat × (seats.old.items ≡ seats.new.items ++ seat ∷ [])) }
    ensures none { IfNone result ((seats.old.items ≡ []) × (seats.new.items ≡ [])) }
{
    let _ = rows;
    seats.pop()
}

/// Takes the last of the seats of the peers out.
fn take_call_seat<P: SharedCalls>(peers: &P, seats: &mut Vec<P::Seat>) -> Option<P::Seat>
    requires { All (P.is_seat peers.now) seats.old.items }
    ensures rest { All (P.is_seat peers.now) seats.new.items }
    ensures some { IfSome result (λ seat. P.is_seat peers.now seat × (seats.old.items ≡ seats.new.items ++ seat ∷ [])) }
    ensures none { IfNone result (seats.old.items ≡ []) }
{
    let _ = peers;
    seats.pop()
}

/// Takes the last seat of the rows and the last of the peers out. None where none are left.
pub(crate) fn take_seats<T: SharedRows, P: SharedCalls>(
    rows: &T,
    peers: &P,
    row_seats: &mut Vec<T::Seat>,
    peer_seats: &mut Vec<P::Seat>,
) -> Option<Seats<T, P>>
where
    T::Seat: Drop,
    requires row_seats { All (T.is_seat rows.now) row_seats.old.items }
    requires peer_seats { All (P.is_seat peers.now) peer_seats.old.items }
    requires pairs { length row_seats.old.items ≡ length peer_seats.old.items }
    ensures row_seats { All (T.is_seat rows.now) row_seats.new.items }
    ensures peer_seats { All (P.is_seat peers.now) peer_seats.new.items }
    ensures pairs { length row_seats.new.items ≡ length peer_seats.new.items }
    ensures seats { IfSome result (λ seats. AreSeats (T.is_seat rows.now) (P.is_seat peers.now) seats.rows seats.peers) }
    ensures rows { IfSome result (λ seats. row_seats.old.items ≡ row_seats.new.items ++ seats.rows ∷ []) }
    ensures peers { IfSome result (λ seats. peer_seats.old.items ≡ peer_seats.new.items ++ seats.peers ∷ []) }
    ensures none { IfNone result ((row_seats.old.items ≡ []) × (peer_seats.old.items ≡ [])) }
{
    let rows = take_row_seat(rows, row_seats)?;
    let Some(peers) = take_call_seat(peers, peer_seats) else {
        unreachable!()
    };
    Some(Seats { rows, peers })
}

/// The threads of a run: where they are started, and what they share.
#[derive(Drop)]
pub(crate) struct Crew<'s, E, T, P, R, G> {
    /// It joins those that are left.
    pub(crate) scope: &'s Scope<'s, E>,
    /// What they share.
    pub(crate) desk: &'s Desk<'s, T, P, R, G>,
    /// From where the entry and the workers take memory.
    pub(crate) alloc: Global,
    /// How many workers there are.
    pub(crate) workers: u32,
}

impl<
    's,
    E: 's,
    T: SharedRows + Sync + 's,
    P: SharedCalls + Sync + 's,
    R: Threads + Wait + Sync + 's,
    G: Gate + Sync + 's,
> Crew<'s, E, T, P, R, G>
where
    T::Seat: Send + Drop + 's,
    P::Seat: Send + Drop + 's,
{
    /// Starts the entry, and takes devices on in the thread of the caller, by the seats of the caller. Where no thread can be made for the
    /// entry, all are told to end.
    fn with_entry<C: Named + Send + Sync + 's>(
        &self,
        mine: Seats<T, P>,
        line: Line<C>,
        mut place: Place,
        ends: Ends<C>,
    ) -> Seats<T, P>
        requires under { AreUnder C.charter self.now.desk.now.charter.now (T.charter self.now.desk.now.rows.now) (P.charter self.now.desk.now.peers.now) }
        requires mine { AreSeats (T.is_seat self.now.desk.now.rows.now) (P.is_seat self.now.desk.now.peers.now) mine.rows mine.peers }
        requires ends { receives_on ends ≡ sends_on line }
        requires place { IsSeatAt (sends_on line) place }
        ensures { BothTakeOver (T.is_seat self.now.desk.now.rows.now) T.speaks (P.is_seat self.now.desk.now.peers.now) P.speaks mine.rows result.rows mine.peers result.peers }
    {
        let (desk, alloc) = (self.desk, self.alloc);
        let own_place = another(&line, &mut place);
        let entry = EntryThread {
            rt: desk.rt,
            charter: desk.charter,
            board: desk.board,
            workers: self.workers,
        };
        let Ok(entry) = self
            .scope
            .spawn(move || { entry.enter::<C>(alloc, line, place) })
        else {
            desk.board.stop();
            return mine;
        };
        let back = desk.work::<C>(self.workers.saturating_sub(1), alloc, mine, ends, own_place);
        entry.join(desk.rt);
        back
    }

    /// Starts the mover and the entry, and works in the thread of the caller. What the mover gives back is joined with the seats of the
    /// caller. Where no thread can be made for it, all are told to end.
    fn with_mover<C: Named + Send + Sync + 's>(
        &self,
        mut mine: Seats<T, P>,
        seats: Seats<T, P>,
        line: Line<C>,
        place: Place,
        ends: Ends<C>,
    ) -> Seats<T, P>
        requires under { AreUnder C.charter self.now.desk.now.charter.now (T.charter self.now.desk.now.rows.now) (P.charter self.now.desk.now.peers.now) }
        requires mine { AreSeats (T.is_seat self.now.desk.now.rows.now) (P.is_seat self.now.desk.now.peers.now) mine.rows mine.peers }
        requires seats { AreSeats (T.is_seat self.now.desk.now.rows.now) (P.is_seat self.now.desk.now.peers.now) seats.rows seats.peers }
        requires ends { receives_on ends ≡ sends_on line }
        requires place { IsSeatAt (sends_on line) place }
        ensures keeps { BothTakeOver (T.is_seat self.now.desk.now.rows.now) T.speaks (P.is_seat self.now.desk.now.peers.now) P.speaks mine.rows result.rows mine.peers result.peers }
        ensures gains { BothTakeOver (T.is_seat self.now.desk.now.rows.now) T.speaks (P.is_seat self.now.desk.now.peers.now) P.speaks seats.rows result.rows seats.peers result.peers }
    {
        let desk = self.desk;
        let promise = SeatsBack {
            rows: desk.rows,
            peers: desk.peers,
            row_seat: Snapshot::of(&seats.rows),
            peer_seat: Snapshot::of(&seats.peers),
        };
        match self
            .scope
            .spawn_with(promise, move || { carry_all::<T, P, R, G>(desk, seats) })
        {
            Ok(mover) => {
                let mut ran = self.with_entry::<C>(mine, line, place, ends);
                let back = mover.join(desk.rt);
                desk.join(&mut ran, back);
                ran
            }
            Err(refused) => {
                desk.board.stop();
                let back = (refused.value)();
                desk.join(&mut mine, back);
                mine
            }
        }
    }

    /// Starts a worker on these seats. Where there is no memory for its end of the channel, or no thread for it, all are told to end,
    /// and what speaks for the seats comes back.
    fn start_worker<C: Named + Send + Sync + 's>(
        &self,
        number: u32,
        seats: Seats<T, P>,
        ends: &Ends<C>,
        place: Place,
    ) -> Result<PromisedHandle<Seats<T, P>, SeatsBack<'s, T, P>>, Seats<T, P>>
        requires under { AreUnder C.charter self.now.desk.now.charter.now (T.charter self.now.desk.now.rows.now) (P.charter self.now.desk.now.peers.now) }
        requires seats { AreSeats (T.is_seat self.now.desk.now.rows.now) (P.is_seat self.now.desk.now.peers.now) seats.rows seats.peers }
        requires place { IsSeatAt (receives_on ends.now) place }
        ensures rows { IfOk result (λ worker. worker.promise.rows.now ≡ self.now.desk.now.rows.now) }
        ensures peers { IfOk result (λ worker. worker.promise.peers.now ≡ self.now.desk.now.peers.now) }
        ensures row_seat { IfOk result (λ worker. worker.promise.row_seat.value ≡ seats.rows) }
        ensures peer_seat { IfOk result (λ worker. worker.promise.peer_seat.value ≡ seats.peers) }
        ensures err { IfErr result (λ back. BothTakeOver (T.is_seat self.now.desk.now.rows.now) T.speaks (P.is_seat self.now.desk.now.peers.now) P.speaks seats.rows back.rows seats.peers back.peers) }
    {
        let (desk, alloc) = (self.desk, self.alloc);
        let Ok(own) = ends.try_clone() else {
            desk.board.stop();
            return Err(seats);
        };
        let promise = SeatsBack {
            rows: desk.rows,
            peers: desk.peers,
            row_seat: Snapshot::of(&seats.rows),
            peer_seat: Snapshot::of(&seats.peers),
        };
        match self.scope.spawn_with(promise, move || {
            desk.work::<C>(number, alloc, seats, own, place)
        }) {
            Ok(worker) => Ok(worker),
            Err(refused) => {
                desk.board.stop();
                Err((refused.value)())
            }
        }
    }

    /// Starts a worker for each seat, then the mover and the entry, and works in the thread of the caller. What they give back is joined
    /// with the seats of the caller. Where a thread can't be made, all are told to end.
    pub(crate) fn with_workers<C: Named + Send + Sync + 's>(
        &self,
        mut row_seats: Vec<T::Seat>,
        mut peer_seats: Vec<P::Seat>,
        mine: Seats<T, P>,
        seats: Seats<T, P>,
        line: Line<C>,
        mut place: Place,
        ends: Ends<C>,
    ) -> Seats<T, P>
        requires under { AreUnder C.charter self.now.desk.now.charter.now (T.charter self.now.desk.now.rows.now) (P.charter self.now.desk.now.peers.now) }
        requires row_seats { All (T.is_seat self.now.desk.now.rows.now) row_seats.items }
        requires peer_seats { All (P.is_seat self.now.desk.now.peers.now) peer_seats.items }
        requires pairs { length row_seats.items ≡ length peer_seats.items }
        requires mine { AreSeats (T.is_seat self.now.desk.now.rows.now) (P.is_seat self.now.desk.now.peers.now) mine.rows mine.peers }
        requires seats { AreSeats (T.is_seat self.now.desk.now.rows.now) (P.is_seat self.now.desk.now.peers.now) seats.rows seats.peers }
        requires ends { receives_on ends ≡ sends_on line }
        requires place { IsSeatAt (sends_on line) place }
        ensures keeps { BothTakeOver (T.is_seat self.now.desk.now.rows.now) T.speaks (P.is_seat self.now.desk.now.peers.now) P.speaks mine.rows result.rows mine.peers result.peers }
        ensures gains { BothTakeOver (T.is_seat self.now.desk.now.rows.now) T.speaks (P.is_seat self.now.desk.now.peers.now) P.speaks seats.rows result.rows seats.peers result.peers }
        ensures gains_rows { (n : ℕ) → All (λ seat. T.speaks seat n → T.speaks result.rows n) row_seats.items }
        ensures gains_peers { (n : ℕ) → All (λ seat. P.speaks seat n → P.speaks result.peers n) peer_seats.items }
    {
        let Some(own_seats) = take_seats(
            self.desk.rows,
            self.desk.peers,
            &mut row_seats,
            &mut peer_seats,
        ) else {
            return self.with_mover::<C>(mine, seats, line, place, ends);
        };
        let number = u32::try_from(row_seats.len()).unwrap_or(0);
        let own_place = another(&line, &mut place);
        let worker = self.start_worker::<C>(number, own_seats, &ends, own_place);
        let mut mine = self.with_workers::<C>(
            row_seats, peer_seats, mine, seats, line, place, ends,
        );
        let back = match worker {
            Ok(worker) => worker.join(self.desk.rt),
            Err(back) => back,
        };
        self.desk.join(&mut mine, back);
        mine
    }
}
