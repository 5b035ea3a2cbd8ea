//! The thin store of a thread: the handle, the shared rows and a seat.
ghost use Rattle.std.specs.Prelude.{◌≡◌, ◌≤◌, length, IfOk, IfSome};
ghost use Rattle.device_types.specs.Journal.{pushed_count};
ghost use Rattle.session_store.specs.Charter.{IsCharter, alone_in};
ghost use Rattle.session_store.specs.Rows.{IsDevice};
ghost use Rattle.pool_work.specs.Stores.{IsPushed, Kept, seen_of_alone};
ghost use Rattle.pool_work.specs.Keeps.{kept_same, kept_twice};

use device_types::{DeviceId, Effect, Entry, Lane, NoRoom, Shared};
use effect_outbox::Settled;
use pool_rows::SharedRows;
use session_row::Commit;
use session_store::{Asked, EchoLaw, Peeked, RowStore, Seen};
use std::alloc::AllocError;
use std::marker::Model;
use std::sync::Wait;

/// Shared rows, as one thread sees them from its seat.
#[derive(Drop)]
pub struct SeatStore<'a, T: SharedRows, R: Wait> {
    rt: &'a R,
    rows: &'a T,
    seat: T::Seat,
    reads: u64,
}

impl<'a, T: SharedRows, R: Wait> Model for SeatStore<'a, T, R> {
    ghost use Rattle.session_store.specs.Charter.{IsCharter};
    ghost use Rattle.pool_work.specs.Stores.{StoreState};

    ghost Value = { StoreState T T.Seat };

    ghost view = { λ s. record { rows = s.rows.now; seat = s.seat; reads = s.reads } };

    ghost invariant = { λ s. T.is_seat s.rows.now s.seat × IsCharter (T.charter s.rows.now) };
}

impl<'a, T: SharedRows, R: Wait> SeatStore<'a, T, R> {
    /// The rows from a seat.
    pub fn new(rt: &'a R, rows: &'a T, seat: T::Seat) -> SeatStore<'a, T, R>
        requires seat { T.is_seat rows.now seat }
        requires charter { IsCharter (T.charter rows.now) }
        ensures { result ≡ record { rows = rows.now; seat = seat; reads = 0 } }
    {
        SeatStore {
            rt,
            rows,
            seat,
            reads: 0,
        }
    }

    /// The seat.
    pub fn into_seat(self) -> T::Seat
        ensures value { result ≡ self.entry.seat }
        ensures seat { T.is_seat self.entry.rows result }
    {
        let SeatStore {
            rt: _,
            rows: _,
            seat,
            reads: _,
        } = self;
        seat
    }

    /// Effect `k` of a lane of the device, from 1, while it is not settled: that of the machine alone.
    pub fn push(
        &mut self,
        d: DeviceId,
        lane: Lane,
        k: u64,
    ) -> Result<Option<Shared<Effect>>, AllocError>
        requires device { IsDevice (length (T.charter self.old.rows).rows) d.0 }
        ensures store { Kept T.speaks T.known self.old self.new }
        ensures pushed { IfOk result (λ effect. IfSome effect (λ e. k ≤ pushed_count lane (T.known self.new.seat d.0).journal)) }
        ensures effect { IfOk result (IsPushed lane k (alone_in (T.charter self.new.rows) d.0)) }
    {
        self.rows.push(self.rt, &mut self.seat, d, lane, k)
    }

    /// The effects of a lane of the device up to `k` are settled.
    pub fn settle(&mut self, d: DeviceId, lane: Lane, k: u64) -> Result<Settled, AllocError>
        requires device { IsDevice (length (T.charter self.old.rows).rows) d.0 }
        requires pushed { k ≤ pushed_count lane (T.known self.old.seat d.0).journal }
        ensures store { Kept T.speaks T.known self.old self.new }
    {
        self.rows.settle(self.rt, &mut self.seat, d, lane, k)
    }
}

impl<'a, T: SharedRows, R: Wait> RowStore for SeatStore<'a, T, R> {
    type Law = EchoLaw;

    ghost charter = { λ s. T.charter s.rows };

    ghost devices = { λ s. length (T.charter s.rows).rows };

    ghost known = { λ s d. seen_of_alone (T.charter s.rows) d (T.known s.seat d).journal };

    ghost reads = { λ s. s.reads };

    ghost keeps = { λ old new. Kept T.speaks T.known old new };

    ghost writes = { λ old new d read entry commit. Kept T.speaks T.known old new };

    fn read(&mut self, d: DeviceId, asked: Asked) -> Result<Seen, AllocError> {
        self.reads = self.reads.saturating_add(1);
        self.rows.read(self.rt, &mut self.seat, d, asked)
    }

    fn peek(&mut self, d: DeviceId, asked: Asked) -> Result<Peeked, AllocError> {
        self.rows.peek(self.rt, &mut self.seat, d, asked)
    }

    fn commit(&mut self, d: DeviceId, read: u64, entry: Entry) -> Result<Commit, NoRoom<Entry>> {
        self.rows.commit(self.rt, &mut self.seat, d, read, entry)
    }

    ghost keeps_same = { λ store. kept_same T.speaks T.known store };

    ghost keeps_twice = { λ old between new p q. kept_twice T.speaks T.known old between new p q };
}
