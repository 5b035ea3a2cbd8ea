//! Rows and peers are closed, by seats that speak for all.
ghost use Rattle.std.specs.Prelude.{◌≡◌, ◌<◌, ℕ, length, IfOk};
ghost use Rattle.device_machine.specs.Ends.{finals_of};
ghost use Rattle.device_types.specs.declared.event.Lane.{Lane};
ghost use Rattle.device_types.specs.Event.{IsCallLane};
ghost use Rattle.device_types.specs.Journal.{effects_of};
ghost use Rattle.session_store.specs.Charter.{alone_in};
ghost use Rattle.session_store.specs.Rows.{IsDevice};
ghost use Rattle.pool_ends.specs.Ends.{IsWhole};

use crate::ends::finals;
use crate::lanes::bring_lanes;
use device_types::Finals;
use pool_rows::{SharedCalls, SharedRows};
use std::alloc::{AllocError, Global};
use std::sync::Wait;

/// What a run comes to.
#[derive(Drop)]
pub struct Ended<S, Q> {
    /// What became of each device.
    pub finals: Finals,
    /// What is left of the rows.
    pub store: S,
    /// What is left of the peers.
    pub peers: Q,
}

/// Brings the peers' lanes whole, by the journals in closed rows, which are whole, and closes the peers, by a seat that speaks for
/// all.
fn close_peers<T: SharedRows, P: SharedCalls + Drop, R: Wait>(
    rt: &R,
    alloc: Global,
    devices: u32,
    closed: &T::Closed,
    peers: P,
    mut seat: P::Seat,
) -> Result<P::Closed, AllocError>
where
    P::Seat: Drop,
    requires devices { devices ≡ length (P.charter peers).rows }
    requires closed { T.closes (P.charter peers) closed.now }
    requires journals { (d : ℕ) → IsDevice devices d → T.journal closed.now d ≡ alone_in (P.charter peers) d }
    requires seat { P.is_seat peers seat }
    requires all { (n : ℕ) → n < P.count peers → P.speaks seat n }
    ensures peers { IfOk result (P.closes (P.charter peers)) }
    ensures lanes { IfOk result (λ closed. (d : ℕ) (lane : Lane) → IsDevice devices d → IsCallLane lane → P.accepted closed d lane ≡ effects_of lane (alone_in (P.charter peers) d)) }
{
    bring_lanes::<T, P, R>(rt, alloc, &peers, &mut seat, devices, closed)?;
    peers.close(seat)
}

/// Closes the rows, brings the peers' lanes whole, and closes the peers, by seats that speak for all, the one of the rows having
/// seen as much of each device as the machine alone makes. It fails for want of memory alone.
pub fn close_all<T: SharedRows, P: SharedCalls + Drop, R: Wait>(
    rt: &R,
    alloc: Global,
    devices: u32,
    rows: T,
    peers: P,
    row_seat: T::Seat,
    peer_seat: P::Seat,
) -> Result<Ended<T::Closed, P::Closed>, AllocError>
where
    T::Closed: Drop,
    P::Seat: Drop,
    requires charter { P.charter peers ≡ T.charter rows }
    requires devices { devices ≡ length (T.charter rows).rows }
    requires lines { length (T.charter rows).lines ≡ length (T.charter rows).rows }
    requires row_seat { T.is_seat rows row_seat }
    requires peer_seat { P.is_seat peers peer_seat }
    requires all_rows { (n : ℕ) → n < T.count rows → T.speaks row_seat n }
    requires all_peers { (n : ℕ) → n < P.count peers → P.speaks peer_seat n }
    requires whole { (d : ℕ) → IsDevice devices d → IsWhole (T.charter rows) d (T.known row_seat d).journal }
    ensures finals { IfOk result (λ ended. ended.finals ≡ finals_of (T.charter rows).rows (T.charter rows).lines) }
    ensures store { IfOk result (λ ended. T.closes (T.charter rows) ended.store) }
    ensures peers { IfOk result (λ ended. P.closes (T.charter rows) ended.peers) }
    ensures journals { IfOk result (λ ended. (d : ℕ) → IsDevice devices d → T.journal ended.store d ≡ alone_in (T.charter rows) d) }
    ensures lanes { IfOk result (λ ended. (d : ℕ) (lane : Lane) → IsDevice devices d → IsCallLane lane → P.accepted ended.peers d lane ≡ effects_of lane (alone_in (T.charter rows) d)) }
{
    let store = rows.close(row_seat)?;
    let finals = finals::<T>(alloc, &store, devices)?;
    let peers = close_peers::<T, P, R>(rt, alloc, devices, &store, peers, peer_seat)?;
    Ok(Ended {
        finals,
        store,
        peers,
    })
}
