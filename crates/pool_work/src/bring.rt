//! Effects are brought out of the rows: calls to their peers, and what goes down.
ghost use Rattle.std.specs.Prelude.{◌≡◌, ◌≤◌, length, IfOk, IfSome};
ghost use Rattle.device_types.specs.Event.{IsCallLane};
ghost use Rattle.device_types.specs.Journal.{pushed_count};
ghost use Rattle.session_store.specs.Rows.{IsDevice};
ghost use Rattle.pool_work.specs.Packets.{IsSaid};
ghost use Rattle.pool_work.specs.Stores.{Kept, TakesOver};

use crate::board::{Board, Made};
use crate::runner::fetch;
use crate::seat_store::SeatStore;
use device_types::{DeviceId, Lane, Offer};
use pool_rows::{SharedCalls, SharedRows};
use std::alloc::AllocError;
use std::sync::Wait;

/// Brings effect `k` of a lane of calls to its peer, and tells what the peer says to it. None where the row does not give it.
pub(crate) fn bring<T: SharedRows, P: SharedCalls, R: Wait>(
    rt: &R,
    store: &mut SeatStore<'_, T, R>,
    peers: &P,
    seat: &mut P::Seat,
    d: DeviceId,
    lane: Lane,
    k: u64,
) -> Result<Option<Offer>, AllocError>
    requires charter { P.charter peers.now ≡ T.charter store.old.rows }
    requires device { IsDevice (length (P.charter peers.now).rows) d.0 }
    requires lane { IsCallLane lane }
    requires number { 1 ≤ k }
    requires seat { P.is_seat peers.now seat.old }
    ensures store { Kept T.speaks T.known store.old store.new }
    ensures seat { TakesOver (P.is_seat peers.now) P.speaks seat.old seat.new }
    ensures pushed { IfOk result (λ offer. IfSome offer (λ said. k ≤ pushed_count lane (T.known store.new.seat d.0).journal)) }
    ensures offer { IfOk result (λ offer. IfSome offer (IsSaid (P.charter peers.now) d.0 lane k)) }
{
    let Some(call) = store.push(d, lane, k)? else {
        return Ok(None);
    };
    Ok(Some(peers.offer(rt, seat, d, k, call)?))
}

/// Brings call `k` of a lane of a device to its peer, behind those before it that have not come, and settles them all: its answer
/// is not awaited, or was taken. None where there is no memory.
fn deliver<T: SharedRows, P: SharedCalls, R: Wait>(
    rt: &R,
    store: &mut SeatStore<'_, T, R>,
    peers: &P,
    seat: &mut P::Seat,
    d: DeviceId,
    lane: Lane,
    k: u64,
) -> Option<()>
    requires charter { P.charter peers.now ≡ T.charter store.old.rows }
    requires device { IsDevice (length (P.charter peers.now).rows) d.0 }
    requires seat { P.is_seat peers.now seat.old }
    ensures store { Kept T.speaks T.known store.old store.new }
    ensures seat { TakesOver (P.is_seat peers.now) P.speaks seat.old seat.new }
{
    if fetch(rt, store, peers, seat, d, lane, k).ok()?.is_some() {
        store.settle(d, lane, k).ok()?;
    }
    Some(())
}

/// Takes what goes down to the device behind so many out of its row, up to the one of that number, and settles it. The base station
/// is not modelled here: an effect that was taken out of the row is there. None where there is no memory.
fn carry_downs<T: SharedRows, R: Wait>(
    store: &mut SeatStore<'_, T, R>,
    d: DeviceId,
    brought: u64,
    last: u64,
) -> Option<()>
    requires device { IsDevice (length (T.charter store.old.rows).rows) d.0 }
    ensures store { Kept T.speaks T.known store.old store.new }
{
    for k in brought.saturating_add(1)..last {
        store.push(d, Lane::Down, k).ok()?;
    }
    if store.push(d, Lane::Down, last).ok()?.is_some() {
        store.settle(d, Lane::Down, last).ok()?;
    }
    Some(())
}

/// Brings the calls of a device up to those that were made, where more were made than were brought. None where there is no memory.
fn carry_calls<T: SharedRows, P: SharedCalls, R: Wait>(
    rt: &R,
    store: &mut SeatStore<'_, T, R>,
    peers: &P,
    seat: &mut P::Seat,
    d: DeviceId,
    brought: Made,
    made: Made,
) -> Option<()>
    requires charter { P.charter peers.now ≡ T.charter store.old.rows }
    requires device { IsDevice (length (P.charter peers.now).rows) d.0 }
    requires seat { P.is_seat peers.now seat.old }
    ensures store { Kept T.speaks T.known store.old store.new }
    ensures seat { TakesOver (P.is_seat peers.now) P.speaks seat.old seat.new }
{
    if made.gateway > brought.gateway {
        deliver(rt, store, peers, seat, d, Lane::Gateway, made.gateway)?;
    }
    if made.subscriber > brought.subscriber {
        deliver(rt, store, peers, seat, d, Lane::Subscriber, made.subscriber)?;
    }
    Some(())
}

/// Brings what was made of a device and not brought to where it goes, where the device awaits no answer. None where there is no memory.
pub fn carry<T: SharedRows, P: SharedCalls, R: Wait>(
    rt: &R,
    board: &Board,
    store: &mut SeatStore<'_, T, R>,
    peers: &P,
    seat: &mut P::Seat,
    d: DeviceId,
) -> Option<()>
    requires charter { P.charter peers.now ≡ T.charter store.old.rows }
    requires device { IsDevice (length (P.charter peers.now).rows) d.0 }
    requires seat { P.is_seat peers.now seat.old }
    ensures store { Kept T.speaks T.known store.old store.new }
    ensures seat { TakesOver (P.is_seat peers.now) P.speaks seat.old seat.new }
{
    let made = board.made(d);
    let brought = board.brought(d);
    if board.rests_at(d).is_none() {
        return Some(());
    }
    carry_calls(rt, store, peers, seat, d, brought, made)?;
    if made.down > brought.down {
        carry_downs(store, d, brought.down, made.down)?;
    }
    board.bring(d, made);
    Some(())
}
