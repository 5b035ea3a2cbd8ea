//! A worker: it takes inputs from the channel, and takes their devices on.
ghost use Rattle.std.specs.Prelude.{◌≡◌};
ghost use Rattle.crossbeam_channel.specs.Claims.{IsSeatAt};
ghost use Rattle.crossbeam_channel.specs.Ends.{receives_on};
ghost use Rattle.replica_worker.specs.Cache.{AreSessionsOf};
ghost use Rattle.pool_work.specs.Packets.{IsPacket};
ghost use Rattle.pool_work.specs.Stores.{AreSeats, AreUnder, BothTakeOver, Kept, TakesOver};

use crate::bring::carry;
use crate::desk::{Desk, Seats};
use crate::gate::Gate;
use crate::line::{Ends, Named, Packet, Place, receive};
use crate::runner::Runner;
use crate::seat_store::SeatStore;
use crate::worker::Worker;
use pool_rows::{SharedCalls, SharedRows};
use replica_worker::Replica;
use std::alloc::Global;
use std::sync::Wait;

impl<'a, P: SharedCalls, R: Wait, G: Gate> Runner<'a, P, R, G> {
    /// Takes the device of an input on, and brings what was made of it then to where it goes, unless the mover is free to do it. None
    /// where there is no memory.
    fn take_on<T: SharedRows>(
        &self,
        replica: &mut Replica,
        store: &mut SeatStore<'_, T, R>,
        seat: &mut P::Seat,
        packet: Packet,
    ) -> Option<()>
        requires charter { self.now.worker.charter.now ≡ T.charter store.old.rows }
        requires peers { P.charter self.now.peers.now ≡ T.charter store.old.rows }
        requires packet { IsPacket self.now.worker.charter.now packet }
        requires seat { P.is_seat self.now.peers.now seat.old }
        requires remembers { AreSessionsOf (T.charter store.old.rows) replica.old.cache }
        ensures store { Kept T.speaks T.known store.old store.new }
        ensures seat { TakesOver (P.is_seat self.now.peers.now) P.speaks seat.old seat.new }
        ensures remembers { AreSessionsOf (T.charter store.new.rows) replica.new.cache }
    {
        let d = packet.d;
        self.follow(replica, store, seat, packet).ok()?;
        if self.worker.board.mover.is_asleep() {
            return Some(());
        }
        carry(self.rt, self.worker.board, store, self.peers, seat, d)
    }

    /// Takes the device of an input of the channel on. False where no more can come, the threads are to end, or there is no memory.
    fn serve<C: Named, T: SharedRows>(
        &self,
        ends: &Ends<C>,
        place: &mut Place,
        replica: &mut Replica,
        store: &mut SeatStore<'_, T, R>,
        seat: &mut P::Seat,
    ) -> bool
        requires under { AreUnder C.charter self.now.worker.charter.now (T.charter store.old.rows) (P.charter self.now.peers.now) }
        requires seat { P.is_seat self.now.peers.now seat.old }
        requires place { IsSeatAt (receives_on ends.now) place.old }
        requires remembers { AreSessionsOf (T.charter store.old.rows) replica.old.cache }
        ensures store { Kept T.speaks T.known store.old store.new }
        ensures seat { TakesOver (P.is_seat self.now.peers.now) P.speaks seat.old seat.new }
        ensures place { IsSeatAt (receives_on ends.now) place.new }
        ensures remembers { AreSessionsOf (T.charter store.new.rows) replica.new.cache }
    {
        let board = self.worker.board;
        if board.is_over() {
            return false;
        }
        let Some(packet) = receive::<C, R>(self.rt, ends, place) else {
            return false;
        };
        let d = packet.d;
        let is_brought = self.take_on(replica, store, seat, packet).is_some();
        board.finish(d);
        if !is_brought {
            board.stop();
        }
        is_brought
    }
}

impl<'a, T: SharedRows, P: SharedCalls, R: Wait, G: Gate> Desk<'a, T, P, R, G> {
    /// The worker of that number takes on the devices of the inputs that come, until no more can come, or the threads are to end. It
    /// gives its seats back.
    pub fn work<C: Named>(
        &self,
        number: u32,
        alloc: Global,
        seats: Seats<T, P>,
        ends: Ends<C>,
        mut place: Place,
    ) -> Seats<T, P>
        requires under { AreUnder C.charter self.now.charter.now (T.charter self.now.rows.now) (P.charter self.now.peers.now) }
        requires seats { AreSeats (T.is_seat self.now.rows.now) (P.is_seat self.now.peers.now) seats.rows seats.peers }
        requires place { IsSeatAt (receives_on ends) place }
        ensures { BothTakeOver (T.is_seat self.now.rows.now) T.speaks (P.is_seat self.now.peers.now) P.speaks seats.rows result.rows seats.peers result.peers }
    {
        let Ok(mut replica) = Replica::new(alloc) else {
            self.board.stop();
            return seats;
        };
        self.work_by::<C>(number, &mut replica, seats, &ends, &mut place)
    }

    /// The same by a replica.
    fn work_by<C: Named>(
        &self,
        number: u32,
        replica: &mut Replica,
        seats: Seats<T, P>,
        ends: &Ends<C>,
        place: &mut Place,
    ) -> Seats<T, P>
        requires under { AreUnder C.charter self.now.charter.now (T.charter self.now.rows.now) (P.charter self.now.peers.now) }
        requires seats { AreSeats (T.is_seat self.now.rows.now) (P.is_seat self.now.peers.now) seats.rows seats.peers }
        requires place { IsSeatAt (receives_on ends.now) place.old }
        requires remembers { AreSessionsOf C.charter replica.old.cache }
        ensures { BothTakeOver (T.is_seat self.now.rows.now) T.speaks (P.is_seat self.now.peers.now) P.speaks seats.rows result.rows seats.peers result.peers }
    {
        self.charter.recall();
        let runner = Runner {
            rt: self.rt,
            peers: self.peers,
            worker: Worker {
                number,
                charter: self.charter,
                board: self.board,
                gate: self.gate,
            },
        };
        let Seats {
            rows,
            peers: mut seat,
        } = seats;
        let mut store = SeatStore::new(self.rt, self.rows, rows);
        for _ in self.rt.forever() {
            if !runner.serve::<C, T>(ends, place, replica, &mut store, &mut seat) {
                break;
            }
        }
        Seats {
            rows: store.into_seat(),
            peers: seat,
        }
    }
}
