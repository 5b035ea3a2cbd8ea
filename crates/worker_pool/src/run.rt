//! The run.
ghost use Rattle.std.specs.Prelude.{◌≡◌, ◌≤◌, ◌<◌, ℕ, Some, length, slice_get, All, IfOk};
ghost use Rattle.crossbeam_channel.specs.Claims.{IsSeatAt};
ghost use Rattle.crossbeam_channel.specs.Ends.{receives_on, sends_on};
ghost use Rattle.device_machine.specs.Ends.{finals_of};
ghost use Rattle.device_types.specs.declared.event.Lane.{Lane};
ghost use Rattle.device_types.specs.Event.{IsCallLane};
ghost use Rattle.device_types.specs.Journal.{effects_of};
ghost use Rattle.pool_ends.specs.Ends.{IsWhole};
ghost use Rattle.pool_rows.specs.Shared.{AreClosedPeers, AreClosedRows, closed_calls, closed_journal};
ghost use Rattle.pool_work.specs.Stores.{AreSeats, AreUnder, BothTakeOver};
ghost use Rattle.session_store.specs.Charter.{IsShort, alone_in};
ghost use Rattle.session_store.specs.Rows.{IsDevice};
ghost use Rattle.worker_pool.specs.Runs.{charter_of};

use crate::start::{Crew, take_seats};
use crossbeam_channel::bounded_with;
use device_types::{Book, Finals};
use pool_ends::{Ended, close_all};
use pool_rows::{SharedCalls, SharedRows};
use pool_work::{Board, Desk, Gate, Named, OwnPackets, Packet, Seats};
use session_store::{EchoLaw, RowLaw};
use std::alloc::{AllocError, Global};
use std::marker::Brand;
use std::sync::Wait;
use std::thread;
use std::thread::Threads;
use store_shared::{PeerShard, SharedPeers, SharedStore, StoreShard};
use subs_table::SubsTable;

/// How many packets the channel holds.
const ROOM: usize = 1024;

/// The threads, from their start to their end.
fn threads<
    C: Named + Send + Sync,
    T: SharedRows + Sync,
    P: SharedCalls + Sync,
    R: Threads + Wait + Sync,
    G: Gate + Sync,
>(
    desk: &Desk<'_, T, P, R, G>,
    alloc: Global,
    workers: u32,
    row_seats: Vec<T::Seat>,
    peer_seats: Vec<P::Seat>,
    mine: Seats<T, P>,
    seats: Seats<T, P>,
) -> Result<Seats<T, P>, AllocError>
where
    T::Seat: Send + Drop,
    P::Seat: Send + Drop,
    requires under { AreUnder C.charter desk.now.charter.now (T.charter desk.now.rows.now) (P.charter desk.now.peers.now) }
    requires row_seats { All (T.is_seat desk.now.rows.now) row_seats.items }
    requires peer_seats { All (P.is_seat desk.now.peers.now) peer_seats.items }
    requires pairs { length row_seats.items ≡ length peer_seats.items }
    requires mine { AreSeats (T.is_seat desk.now.rows.now) (P.is_seat desk.now.peers.now) mine.rows mine.peers }
    requires seats { AreSeats (T.is_seat desk.now.rows.now) (P.is_seat desk.now.peers.now) seats.rows seats.peers }
    ensures keeps { IfOk result (λ ran. BothTakeOver (T.is_seat desk.now.rows.now) T.speaks (P.is_seat desk.now.peers.now) P.speaks mine.rows ran.rows mine.peers ran.peers) }
    ensures gains { IfOk result (λ ran. BothTakeOver (T.is_seat desk.now.rows.now) T.speaks (P.is_seat desk.now.peers.now) P.speaks seats.rows ran.rows seats.peers ran.peers) }
    ensures gains_rows { IfOk result (λ ran. (n : ℕ) → All (λ seat. T.speaks seat n → T.speaks ran.rows n) row_seats.items) }
    ensures gains_peers { IfOk result (λ ran. (n : ℕ) → All (λ seat. P.speaks seat n → P.speaks ran.peers n) peer_seats.items) }
{
    let (line, ends, place) = bounded_with::<Packet, (), OwnPackets<C>, Global>(alloc, ROOM)?;
    Ok(thread::scope(
        thread::scope_env(),
        desk.rt,
        move |scope| -> Seats<T, P>
            requires under { AreUnder C.charter desk.now.charter.now (T.charter desk.now.rows.now) (P.charter desk.now.peers.now) }
            requires row_seats { All (T.is_seat desk.now.rows.now) row_seats.items }
            requires peer_seats { All (P.is_seat desk.now.peers.now) peer_seats.items }
            requires pairs { length row_seats.items ≡ length peer_seats.items }
            requires mine { AreSeats (T.is_seat desk.now.rows.now) (P.is_seat desk.now.peers.now) mine.rows mine.peers }
            requires seats { AreSeats (T.is_seat desk.now.rows.now) (P.is_seat desk.now.peers.now) seats.rows seats.peers }
            requires ends { receives_on ends ≡ sends_on line }
            requires place { IsSeatAt (sends_on line) place }
            ensures keeps { BothTakeOver (T.is_seat desk.entry.now.rows.now) T.speaks (P.is_seat desk.entry.now.peers.now) P.speaks mine.rows result.rows mine.peers result.peers }
            ensures gains { BothTakeOver (T.is_seat desk.entry.now.rows.now) T.speaks (P.is_seat desk.entry.now.peers.now) P.speaks seats.rows result.rows seats.peers result.peers }
            ensures gains_rows { (n : ℕ) → All (λ seat. T.speaks seat n → T.speaks result.rows n) row_seats.items }
            ensures gains_peers { (n : ℕ) → All (λ seat. P.speaks seat n → P.speaks result.peers n) peer_seats.items }
        {
            let crew = Crew {
                scope,
                desk,
                alloc,
                workers,
            };
            crew.with_workers::<C>(row_seats, peer_seats, mine, seats, line, place, ends)
        },
    ))
}

/// Runs the threads and settles what they left undone. What comes back speaks for every seat, and has seen the journal of each
/// device as a whole.
fn run_threads<
    T: SharedRows + Sync,
    P: SharedCalls + Sync,
    R: Threads + Wait + Sync,
    G: Gate + Sync,
>(
    desk: &Desk<'_, T, P, R, G>,
    alloc: Global,
    devices: u32,
    workers: u32,
    mut row_seats: Vec<T::Seat>,
    mut peer_seats: Vec<P::Seat>,
) -> Result<Seats<T, P>, AllocError>
where
    T::Seat: Send + Drop,
    P::Seat: Send + Drop,
    requires rows { T.charter desk.now.rows.now ≡ desk.now.charter.now }
    requires peers { P.charter desk.now.peers.now ≡ desk.now.charter.now }
    requires devices { devices ≡ length desk.now.charter.now.rows }
    requires row_seats { All (T.is_seat desk.now.rows.now) row_seats.items }
    requires peer_seats { All (P.is_seat desk.now.peers.now) peer_seats.items }
    requires row_count { 2 ≤ length row_seats.items }
    requires pairs { length row_seats.items ≡ length peer_seats.items }
    requires row_speaks { (n : ℕ) (seat : T.Seat) → slice_get row_seats.items n ≡ Some seat → T.speaks seat n }
    requires peer_speaks { (n : ℕ) (seat : P.Seat) → slice_get peer_seats.items n ≡ Some seat → P.speaks seat n }
    ensures seats { IfOk result (λ ran. AreSeats (T.is_seat desk.now.rows.now) (P.is_seat desk.now.peers.now) ran.rows ran.peers) }
    ensures all_rows { IfOk result (λ ran. (n : ℕ) → n < length row_seats.items → T.speaks ran.rows n) }
    ensures all_peers { IfOk result (λ ran. (n : ℕ) → n < length peer_seats.items → P.speaks ran.peers n) }
    ensures whole { IfOk result (λ ran. (d : ℕ) → IsDevice devices d → IsWhole desk.now.charter.now d (T.known ran.rows d).journal) }
{
    let Some(mine) = take_seats(desk.rows, desk.peers, &mut row_seats, &mut peer_seats) else {
        unreachable!()
    };
    let Some(moved) = take_seats(desk.rows, desk.peers, &mut row_seats, &mut peer_seats) else {
        unreachable!()
    };
    let ran = threads::<Brand, T, P, R, G>(
        desk, alloc, workers, row_seats, peer_seats, mine, moved,
    )?;
    desk.settle(alloc, devices, ran)
}

/// Takes a book to its end over rows and peers of these types, with a board of its devices, which tells afterwards how many
/// messages were dealt with. It fails for want of memory alone.
pub fn run_over<
    T: SharedRows + Sync + Drop,
    P: SharedCalls + Sync + Drop,
    R: Threads + Wait + Sync,
    G: Gate + Sync,
>(
    rt: &R,
    alloc: Global,
    table: &SubsTable,
    book: &Book,
    workers: u32,
    gates: &G,
    board: &Board,
) -> Result<Ended<T::Closed, P::Closed>, AllocError>
where
    T::Seat: Send + Drop,
    P::Seat: Send + Drop,
    T::Closed: Drop,
    requires workers { (1 ≤ workers) × (workers ≤ 16) }
    requires lines { length book.now ≡ length table.now }
    requires short { All IsShort book.now }
    ensures finals { IfOk result (λ ended. ended.finals ≡ finals_of table.now book.now) }
    ensures store { IfOk result (λ ended. T.closes (charter_of table.now book.now) ended.store) }
    ensures peers { IfOk result (λ ended. P.closes (charter_of table.now book.now) ended.peers) }
    ensures journals { IfOk result (λ ended. (d : ℕ) → IsDevice (length table.now) d → T.journal ended.store d ≡ alone_in (charter_of table.now book.now) d) }
    ensures lanes { IfOk result (λ ended. (d : ℕ) (lane : Lane) → IsDevice (length table.now) d → IsCallLane lane → P.accepted ended.peers d lane ≡ effects_of lane (alone_in (charter_of table.now book.now) d)) }
{
    let law = EchoLaw::new(alloc, table, book)?;
    let copy = law.copy()?;
    let devices = table.len();
    let (rows, row_seats) = T::open(alloc, law, devices, workers + 1)?;
    let (peers, peer_seats) = P::open(alloc, copy, table, workers + 1)?;
    let desk = Desk {
        rt,
        charter: rows.charter(),
        board,
        gate: gates,
        rows: &rows,
        peers: &peers,
    };
    let seats = run_threads(&desk, alloc, devices, workers, row_seats, peer_seats)?;
    close_all::<T, P, R>(rt, alloc, devices, rows, peers, seats.rows, seats.peers)
}

/// What a run comes to.
#[derive(Drop)]
pub struct Ran {
    /// What became of each device.
    pub finals: Finals,
    /// The shards of the store.
    pub store: Vec<StoreShard<EchoLaw>>,
    /// The shards of the peers.
    pub peers: Vec<PeerShard>,
}

/// Takes a book to its end by so many workers, an entry and a mover, over a shared store and shared peers. A gate learns where
/// each worker is. Where a thread can't be made, or one ends for want of memory, the others end too, and the call settles by
/// itself what is left. It fails for want of memory alone.
pub fn run_pool<R: Threads + Wait + Sync, G: Gate + Sync>(
    rt: &R,
    alloc: Global,
    table: &SubsTable,
    book: &Book,
    workers: u32,
    gates: &G,
) -> Result<Ran, AllocError>
    requires workers { (1 ≤ workers) × (workers ≤ 16) }
    requires lines { length book.now ≡ length table.now }
    requires short { All IsShort book.now }
    ensures finals { IfOk result (λ ran. ran.finals ≡ finals_of table.now book.now) }
    ensures store { IfOk result (λ ran. AreClosedRows (charter_of table.now book.now) ran.store.items) }
    ensures peers { IfOk result (λ ran. AreClosedPeers (charter_of table.now book.now) ran.peers.items) }
    ensures journals { IfOk result (λ ran. (d : ℕ) → IsDevice (length table.now) d → closed_journal ran.store.items d ≡ alone_in (charter_of table.now book.now) d) }
    ensures lanes { IfOk result (λ ran. (d : ℕ) (lane : Lane) → IsDevice (length table.now) d → IsCallLane lane → closed_calls ran.peers.items d lane ≡ effects_of lane (alone_in (charter_of table.now book.now) d)) }
{
    let board = Board::new(alloc, table.len() as usize)?;
    let Ended {
        finals,
        store,
        peers,
    } = run_over::<SharedStore<EchoLaw>, SharedPeers, R, G>(
        rt, alloc, table, book, workers, gates, &board,
    )?;
    Ok(Ran {
        finals,
        store,
        peers,
    })
}
