//! What the threads of a run share, and the seats that they give back.
ghost use Rattle.std.specs.Prelude.{◌≡◌, ℕ, length, IfOk};
ghost use Rattle.pool_ends.specs.Ends.{IsWhole};
ghost use Rattle.replica_worker.specs.Cache.{AreSessionsOf};
ghost use Rattle.session_store.specs.Rows.{IsDevice};
ghost use Rattle.pool_work.specs.Stores.{AreSeats, BothTakeOver};

use crate::board::Board;
use crate::gate::OpenGate;
use crate::runner::Runner;
use crate::seat_store::SeatStore;
use crate::worker::Worker;
use pool_rows::{SharedCalls, SharedRows};
use replica_worker::Replica;
use session_store::Charter;
use std::alloc::{AllocError, Global};
use std::sync::Wait;

/// What the threads of a run share.
#[derive(Drop)]
pub struct Desk<'a, T, P, R, G> {
    /// The handle.
    pub rt: &'a R,
    /// The table and the book.
    pub charter: &'a Charter,
    /// What they tell one another.
    pub board: &'a Board,
    /// What learns where a worker is.
    pub gate: &'a G,
    /// The rows.
    pub rows: &'a T,
    /// The peers.
    pub peers: &'a P,
}

/// A seat of the rows and one of the peers.
#[derive(Drop)]
pub struct Seats<T: SharedRows, P: SharedCalls> {
    /// That of the rows.
    pub rows: T::Seat,
    /// That of the peers.
    pub peers: P::Seat,
}

impl<'a, T: SharedRows, P: SharedCalls, R, G> Desk<'a, T, P, R, G> {
    /// Joins the seats of a thread with those of the caller.
    pub fn join(&self, into: &mut Seats<T, P>, from: Seats<T, P>)
        requires into { AreSeats (T.is_seat self.now.rows.now) (P.is_seat self.now.peers.now) into.old.rows into.old.peers }
        requires from { AreSeats (T.is_seat self.now.rows.now) (P.is_seat self.now.peers.now) from.rows from.peers }
        ensures keeps { BothTakeOver (T.is_seat self.now.rows.now) T.speaks (P.is_seat self.now.peers.now) P.speaks into.old.rows into.new.rows into.old.peers into.new.peers }
        ensures gains { BothTakeOver (T.is_seat self.now.rows.now) T.speaks (P.is_seat self.now.peers.now) P.speaks from.rows into.new.rows from.peers into.new.peers }
    {
        let Seats { rows, peers } = from;
        self.rows.join(&mut into.rows, rows);
        self.peers.join(&mut into.peers, peers);
    }
}

impl<'a, T: SharedRows, P: SharedCalls, R: Wait, G> Desk<'a, T, P, R, G> {
    /// Settles by the caller's own seats what the threads left undone. They come back speaking for what they spoke for, and have
    /// seen as much of each device as the machine alone makes. It fails for want of memory alone.
    pub fn settle(
        &self,
        alloc: Global,
        devices: u32,
        mine: Seats<T, P>,
    ) -> Result<Seats<T, P>, AllocError>
    where
        T::Seat: Drop,
        P::Seat: Drop,
        requires rows { T.charter self.now.rows.now ≡ self.now.charter.now }
        requires peers { P.charter self.now.peers.now ≡ self.now.charter.now }
        requires devices { devices ≡ length self.now.charter.now.rows }
        requires mine { AreSeats (T.is_seat self.now.rows.now) (P.is_seat self.now.peers.now) mine.rows mine.peers }
        ensures mine { IfOk result (λ done. BothTakeOver (T.is_seat self.now.rows.now) T.speaks (P.is_seat self.now.peers.now) P.speaks mine.rows done.rows mine.peers done.peers) }
        ensures whole { IfOk result (λ done. (d : ℕ) → IsDevice devices d → IsWhole self.now.charter.now d (T.known done.rows d).journal) }
    {
        let mut replica = Replica::new(alloc)?;
        self.settle_by(&mut replica, devices, mine)
    }

    /// The same by a replica.
    fn settle_by(
        &self,
        replica: &mut Replica,
        devices: u32,
        mine: Seats<T, P>,
    ) -> Result<Seats<T, P>, AllocError>
    where
        T::Seat: Drop,
        P::Seat: Drop,
        requires rows { T.charter self.now.rows.now ≡ self.now.charter.now }
        requires peers { P.charter self.now.peers.now ≡ self.now.charter.now }
        requires devices { devices ≡ length self.now.charter.now.rows }
        requires mine { AreSeats (T.is_seat self.now.rows.now) (P.is_seat self.now.peers.now) mine.rows mine.peers }
        requires remembers { AreSessionsOf self.now.charter.now replica.old.cache }
        ensures mine { IfOk result (λ done. BothTakeOver (T.is_seat self.now.rows.now) T.speaks (P.is_seat self.now.peers.now) P.speaks mine.rows done.rows mine.peers done.peers) }
        ensures whole { IfOk result (λ done. (d : ℕ) → IsDevice devices d → IsWhole self.now.charter.now d (T.known done.rows d).journal) }
    {
        self.charter.recall();
        let Seats { rows, mut peers } = mine;
        let gate = OpenGate;
        let runner = Runner {
            rt: self.rt,
            peers: self.peers,
            worker: Worker {
                number: 0,
                charter: self.charter,
                board: self.board,
                gate: &gate,
            },
        };
        let mut store = SeatStore::new(self.rt, self.rows, rows);
        runner.settle_all(replica, &mut store, &mut peers, devices)?;
        Ok(Seats {
            rows: store.into_seat(),
            peers,
        })
    }
}
