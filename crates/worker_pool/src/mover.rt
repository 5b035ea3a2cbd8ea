//! The mover: it brings to the peers what the workers left in the rows, and settles.
ghost use Rattle.std.specs.Prelude.{◌≡◌, length};
ghost use Rattle.pool_work.specs.Stores.{AreSeats, BothTakeOver, Kept, TakesOver};
ghost use Rattle.session_store.specs.Rows.{IsDevice};

use pool_rows::{SharedCalls, SharedRows};
use pool_work::{Desk, SeatStore, Seats, carry, marked_device};
use std::sync::Wait;

/// Carries for the marked devices of a word. None where the threads are to end.
fn carry_word<T: SharedRows, P: SharedCalls, R: Wait, G>(
    desk: &Desk<'_, T, P, R, G>,
    store: &mut SeatStore<'_, T, R>,
    seat: &mut P::Seat,
    word: usize,
    marks: u64,
) -> Option<()>
    requires looked { desk.now.charter.now ≡ T.charter store.old.rows }
    requires charter { P.charter desk.now.peers.now ≡ T.charter store.old.rows }
    requires seat { P.is_seat desk.now.peers.now seat.old }
    ensures store { Kept T.speaks T.known store.old store.new }
    ensures seat { TakesOver (P.is_seat desk.now.peers.now) P.speaks seat.old seat.new }
{
    for bit in 0..64usize {
        let Some(d) = marked_device(desk.charter, word, marks, bit) else {
            continue;
        };
        carry(desk.rt, desk.board, store, desk.peers, seat, d)?;
    }
    Some(())
}

/// Carries for all marked devices. It tells whether there were any.
fn carry_marked<T: SharedRows, P: SharedCalls, R: Wait, G>(
    desk: &Desk<'_, T, P, R, G>,
    store: &mut SeatStore<'_, T, R>,
    seat: &mut P::Seat,
) -> bool
    requires looked { desk.now.charter.now ≡ T.charter store.old.rows }
    requires charter { P.charter desk.now.peers.now ≡ T.charter store.old.rows }
    requires seat { P.is_seat desk.now.peers.now seat.old }
    ensures store { Kept T.speaks T.known store.old store.new }
    ensures seat { TakesOver (P.is_seat desk.now.peers.now) P.speaks seat.old seat.new }
{
    let mut any = false;
    for word in 0..desk.board.mover.count() {
        let marks = desk.board.mover.take(word);
        if marks != 0 {
            any = true;
            if carry_word::<T, P, R, G>(desk, store, seat, word, marks).is_none() {
                desk.board.stop();
            }
        }
    }
    any
}

/// Carries effects until the threads are to end. It gives its seats back.
pub(crate) fn carry_all<T: SharedRows, P: SharedCalls, R: Wait, G>(
    desk: &Desk<'_, T, P, R, G>,
    seats: Seats<T, P>,
) -> Seats<T, P>
    requires rows { desk.now.charter.now ≡ T.charter desk.now.rows.now }
    requires peers { P.charter desk.now.peers.now ≡ T.charter desk.now.rows.now }
    requires seats { AreSeats (T.is_seat desk.now.rows.now) (P.is_seat desk.now.peers.now) seats.rows seats.peers }
    ensures { BothTakeOver (T.is_seat desk.now.rows.now) T.speaks (P.is_seat desk.now.peers.now) P.speaks seats.rows result.rows seats.peers result.peers }
{
    desk.charter.recall();
    let Seats {
        rows,
        peers: mut seat,
    } = seats;
    let mut store = SeatStore::new(desk.rt, desk.rows, rows);
    for _ in desk.rt.forever() {
        if desk.board.is_over() {
            break;
        }
        if !carry_marked::<T, P, R, G>(desk, &mut store, &mut seat) {
            desk.board.await_mover(desk.rt);
        }
    }
    Seats {
        rows: store.into_seat(),
        peers: seat,
    }
}
