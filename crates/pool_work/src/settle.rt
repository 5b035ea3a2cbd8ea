//! What the threads left undone, by one thread.
ghost use Rattle.std.specs.Prelude.{◌≡◌, ℕ, length, IfNone, OnOk};
ghost use Rattle.device_types.specs.declared.look.Look.TheVariants as looks;
ghost use Rattle.pool_ends.specs.Ends.{IsWhole};
ghost use Rattle.replica_worker.specs.Cache.{AreSessionsOf};
ghost use Rattle.session_store.specs.Rows.{IsDevice};
ghost use Rattle.pool_work.specs.Stores.{Kept, TakesOver};

use crate::gate::Gate;
use crate::lines::messages_of;
use crate::runner::Runner;
use crate::seat_store::SeatStore;
use device_types::{DeviceId, Look};
use pool_rows::{SharedCalls, SharedRows};
use replica_worker::Replica;
use session_store::{Asked, RowStore};
use std::alloc::AllocError;
use std::sync::Wait;

/// How many messages of a device were taken, where its row says that to the message behind its last one, of so many. None where
/// it is ready for that one.
fn taken_by(look: Look, count: u64) -> Option<u64>
    ensures { IfNone result (look ≡ looks.Ready) }
{
    match look {
        Look::Ready => None,
        Look::Ahead(taken) => Some(taken),
        _ => Some(count),
    }
}

impl<'a, P: SharedCalls, R: Wait, G: Gate> Runner<'a, P, R, G> {
    /// Takes a device to its end: there its row is ready for the message behind the last one.
    fn settle<T: SharedRows>(
        &self,
        replica: &mut Replica,
        store: &mut SeatStore<'_, T, R>,
        seat: &mut P::Seat,
        d: DeviceId,
    ) -> Result<(), AllocError>
        requires charter { self.now.worker.charter.now ≡ T.charter store.old.rows }
        requires peers { P.charter self.now.peers.now ≡ T.charter store.old.rows }
        requires device { IsDevice (length (P.charter self.now.peers.now).rows) d.0 }
        requires seat { P.is_seat self.now.peers.now seat.old }
        requires remembers { AreSessionsOf (T.charter store.old.rows) replica.old.cache }
        ensures store { Kept T.speaks T.known store.old store.new }
        ensures seat { TakesOver (P.is_seat self.now.peers.now) P.speaks seat.old seat.new }
        ensures remembers { AreSessionsOf (T.charter store.new.rows) replica.new.cache }
        ensures whole { OnOk result (IsWhole (P.charter self.now.peers.now) d.0 (T.known store.new.seat d.0).journal) }
    {
        let count = messages_of(self.worker.charter, d).len() as u64;
        for _ in self.rt.forever() {
            let look = store.peek(d, Asked::Message(count + 1))?.look;
            let Some(taken) = taken_by(look, count) else {
                return Ok(());
            };
            self.advance(replica, store, seat, d, taken)?;
        }
        unreachable!()
    }

    /// Takes all devices to their ends.
    pub(crate) fn settle_all<T: SharedRows>(
        &self,
        replica: &mut Replica,
        store: &mut SeatStore<'_, T, R>,
        seat: &mut P::Seat,
        devices: u32,
    ) -> Result<(), AllocError>
        requires charter { self.now.worker.charter.now ≡ T.charter store.old.rows }
        requires peers { P.charter self.now.peers.now ≡ T.charter store.old.rows }
        requires devices { devices ≡ length (P.charter self.now.peers.now).rows }
        requires seat { P.is_seat self.now.peers.now seat.old }
        requires remembers { AreSessionsOf (T.charter store.old.rows) replica.old.cache }
        ensures store { Kept T.speaks T.known store.old store.new }
        ensures seat { TakesOver (P.is_seat self.now.peers.now) P.speaks seat.old seat.new }
        ensures whole { OnOk result ((d : ℕ) → IsDevice devices d → IsWhole (P.charter self.now.peers.now) d (T.known store.new.seat d).journal) }
    {
        for i in 0..devices {
            self.settle(replica, store, seat, DeviceId(i + 1))?;
        }
        Ok(())
    }
}
