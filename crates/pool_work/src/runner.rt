//! One thread that takes devices on by itself: it deals with their inputs, and brings the calls whose answers they await.
ghost use Rattle.std.specs.Prelude.{◌≡◌, ◌≤◌, length, IfOk, IfSome};
ghost use Rattle.device_types.specs.Journal.{pushed_count};
ghost use Rattle.replica_worker.specs.Cache.{AreSessionsOf};
ghost use Rattle.session_store.specs.Rows.{IsDevice};
ghost use Rattle.pool_work.specs.Packets.{IsPacket};
ghost use Rattle.pool_work.specs.Stores.{Kept, TakesOver};

use crate::board::News;
use crate::bring::bring;
use crate::gate::Gate;
use crate::line::{Packet, message_at};
use crate::seat_store::SeatStore;
use crate::worker::Worker;
use device_types::{DeviceId, Input, Lane, Look, Offer};
use pool_rows::{SharedCalls, SharedRows};
use replica_worker::Replica;
use session_store::{Asked, RowStore};
use std::alloc::AllocError;
use std::sync::Wait;

/// With how many inputs of a device a worker goes on by itself, and with more while an answer is awaited.
const GOES_ON: u32 = 128;

/// The answer to call `k` of a lane, brought to its peer behind those before it that have not come. None where the row does not
/// give a call.
pub(crate) fn fetch<T: SharedRows, P: SharedCalls, R: Wait>(
    rt: &R,
    store: &mut SeatStore<'_, T, R>,
    peers: &P,
    seat: &mut P::Seat,
    d: DeviceId,
    lane: Lane,
    k: u64,
) -> Result<Option<Packet>, AllocError>
    requires charter { P.charter peers.now ≡ T.charter store.old.rows }
    requires device { IsDevice (length (P.charter peers.now).rows) d.0 }
    requires seat { P.is_seat peers.now seat.old }
    ensures store { Kept T.speaks T.known store.old store.new }
    ensures seat { TakesOver (P.is_seat peers.now) P.speaks seat.old seat.new }
    ensures pushed { IfOk result (λ packet. IfSome packet (λ p. k ≤ pushed_count lane (T.known store.new.seat d.0).journal)) }
    ensures packet { IfOk result (λ packet. IfSome packet (IsPacket (P.charter peers.now))) }
{
    if k == 0 || lane == Lane::Down {
        return Ok(None);
    }
    let mut next = k;
    for _ in rt.forever() {
        match bring(rt, store, peers, seat, d, lane, next)? {
            None => return Ok(None),
            Some(Offer::Ahead(last)) => next = last.saturating_add(1),
            Some(Offer::Accepted(answer) | Offer::Repeat(answer)) => {
                if next == k {
                    let input = Input::Answer { lane, k, answer };
                    return Ok(Some(Packet { d, input }));
                }
                next = next.saturating_add(1);
            }
        }
    }
    unreachable!()
}

/// One thread that takes devices on: it writes by a replica of its own.
#[derive(Drop)]
pub(crate) struct Runner<'a, P, R, G> {
    /// The handle.
    pub(crate) rt: &'a R,
    /// The peers.
    pub(crate) peers: &'a P,
    /// Who deals with the inputs.
    pub(crate) worker: Worker<'a, G>,
}

impl<'a, P: SharedCalls, R: Wait, G: Gate> Runner<'a, P, R, G> {
    /// The input that a device of which so many messages were taken waits for: the message behind them, or the answer to a call.
    /// None where there is none.
    fn missing<T: SharedRows>(
        &self,
        store: &mut SeatStore<'_, T, R>,
        seat: &mut P::Seat,
        d: DeviceId,
        taken: u64,
    ) -> Result<Option<Packet>, AllocError>
        requires charter { self.now.worker.charter.now ≡ T.charter store.old.rows }
        requires peers { P.charter self.now.peers.now ≡ T.charter store.old.rows }
        requires device { IsDevice (length (P.charter self.now.peers.now).rows) d.0 }
        requires seat { P.is_seat self.now.peers.now seat.old }
        ensures store { Kept T.speaks T.known store.old store.new }
        ensures seat { TakesOver (P.is_seat self.now.peers.now) P.speaks seat.old seat.new }
        ensures packet { IfOk result (λ packet. IfSome packet (IsPacket (P.charter self.now.peers.now))) }
    {
        match store.peek(d, Asked::Message(taken.saturating_add(1)))?.look {
            Look::Ready => message_at(self.worker.charter, d, taken),
            Look::Waiting(lane, k) => fetch(self.rt, store, self.peers, seat, d, lane, k),
            _ => Ok(None),
        }
    }

    /// Deals with the input that a device of which so many messages were taken waits for, and gives what it told of the write.
    pub(crate) fn advance<T: SharedRows>(
        &self,
        replica: &mut Replica,
        store: &mut SeatStore<'_, T, R>,
        seat: &mut P::Seat,
        d: DeviceId,
        taken: u64,
    ) -> Result<Option<News>, AllocError>
        requires charter { self.now.worker.charter.now ≡ T.charter store.old.rows }
        requires peers { P.charter self.now.peers.now ≡ T.charter store.old.rows }
        requires device { IsDevice (length (P.charter self.now.peers.now).rows) d.0 }
        requires seat { P.is_seat self.now.peers.now seat.old }
        requires remembers { AreSessionsOf (T.charter store.old.rows) replica.old.cache }
        ensures store { Kept T.speaks T.known store.old store.new }
        ensures seat { TakesOver (P.is_seat self.now.peers.now) P.speaks seat.old seat.new }
        ensures remembers { AreSessionsOf (T.charter store.new.rows) replica.new.cache }
    {
        match self.missing(store, seat, d, taken)? {
            Some(packet) => self.worker.deal(replica, store, packet),
            None => Ok(None),
        }
    }

    /// The input that a device waits for behind a write of this thread, by what all have told: the answer to the call of that write, or
    /// the next message.
    fn next<T: SharedRows>(
        &self,
        store: &mut SeatStore<'_, T, R>,
        seat: &mut P::Seat,
        d: DeviceId,
        news: News,
    ) -> Result<Option<Packet>, AllocError>
        requires charter { self.now.worker.charter.now ≡ T.charter store.old.rows }
        requires peers { P.charter self.now.peers.now ≡ T.charter store.old.rows }
        requires device { IsDevice (length (P.charter self.now.peers.now).rows) d.0 }
        requires seat { P.is_seat self.now.peers.now seat.old }
        ensures store { Kept T.speaks T.known store.old store.new }
        ensures seat { TakesOver (P.is_seat self.now.peers.now) P.speaks seat.old seat.new }
        ensures packet { IfOk result (λ packet. IfSome packet (IsPacket (P.charter self.now.peers.now))) }
    {
        let board = self.worker.board;
        match news.awaits {
            None => message_at(self.worker.charter, d, board.taken(d)),
            Some(lane) => fetch(
                self.rt,
                store,
                self.peers,
                seat,
                d,
                lane,
                board.made(d).on(lane),
            ),
        }
    }

    /// Deals with that input, and gives what it told of the write. None where another thread was at the device too, so that it was not
    /// that one.
    fn take_next<T: SharedRows>(
        &self,
        replica: &mut Replica,
        store: &mut SeatStore<'_, T, R>,
        seat: &mut P::Seat,
        d: DeviceId,
        news: News,
    ) -> Result<Option<News>, AllocError>
        requires charter { self.now.worker.charter.now ≡ T.charter store.old.rows }
        requires peers { P.charter self.now.peers.now ≡ T.charter store.old.rows }
        requires device { IsDevice (length (P.charter self.now.peers.now).rows) d.0 }
        requires seat { P.is_seat self.now.peers.now seat.old }
        requires remembers { AreSessionsOf (T.charter store.old.rows) replica.old.cache }
        ensures store { Kept T.speaks T.known store.old store.new }
        ensures seat { TakesOver (P.is_seat self.now.peers.now) P.speaks seat.old seat.new }
        ensures remembers { AreSessionsOf (T.charter store.new.rows) replica.new.cache }
    {
        match self.next(store, seat, d, news)? {
            Some(packet) => self.worker.deal(replica, store, packet),
            None => Ok(None),
        }
    }

    /// Goes on with a device after so many inputs, the last of which told this, where there is one to go on with.
    fn go_on<T: SharedRows>(
        &self,
        replica: &mut Replica,
        store: &mut SeatStore<'_, T, R>,
        seat: &mut P::Seat,
        d: DeviceId,
        dealt: u32,
        news: News,
    ) -> Result<Option<News>, AllocError>
        requires charter { self.now.worker.charter.now ≡ T.charter store.old.rows }
        requires peers { P.charter self.now.peers.now ≡ T.charter store.old.rows }
        requires device { IsDevice (length (P.charter self.now.peers.now).rows) d.0 }
        requires seat { P.is_seat self.now.peers.now seat.old }
        requires remembers { AreSessionsOf (T.charter store.old.rows) replica.old.cache }
        ensures store { Kept T.speaks T.known store.old store.new }
        ensures seat { TakesOver (P.is_seat self.now.peers.now) P.speaks seat.old seat.new }
        ensures remembers { AreSessionsOf (T.charter store.new.rows) replica.new.cache }
    {
        if dealt >= GOES_ON && news.awaits.is_none() {
            return Ok(None);
        }
        match self.take_next(replica, store, seat, d, news)? {
            Some(news) => Ok(Some(news)),
            None => self.advance(replica, store, seat, d, self.worker.board.taken(d)),
        }
    }

    /// Deals with an input, and goes on with its device: brings the calls whose answers are awaited, and takes the next messages. It
    /// ends where another worker is at the device, or behind some inputs, and no answer is awaited then.
    pub(crate) fn follow<T: SharedRows>(
        &self,
        replica: &mut Replica,
        store: &mut SeatStore<'_, T, R>,
        seat: &mut P::Seat,
        packet: Packet,
    ) -> Result<(), AllocError>
        requires charter { self.now.worker.charter.now ≡ T.charter store.old.rows }
        requires peers { P.charter self.now.peers.now ≡ T.charter store.old.rows }
        requires packet { IsPacket self.now.worker.charter.now packet }
        requires seat { P.is_seat self.now.peers.now seat.old }
        requires remembers { AreSessionsOf (T.charter store.old.rows) replica.old.cache }
        ensures store { Kept T.speaks T.known store.old store.new }
        ensures seat { TakesOver (P.is_seat self.now.peers.now) P.speaks seat.old seat.new }
        ensures remembers { AreSessionsOf (T.charter store.new.rows) replica.new.cache }
    {
        let d = packet.d;
        let mut told = self.worker.deal(replica, store, packet)?;
        let mut dealt = 0u32;
        for _ in self.rt.forever() {
            let Some(news) = told else {
                return Ok(());
            };
            dealt = dealt.saturating_add(1);
            told = self.go_on(replica, store, seat, d, dealt, news)?;
        }
        unreachable!()
    }
}
