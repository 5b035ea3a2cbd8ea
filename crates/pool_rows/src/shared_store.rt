//! The shared store as rows that threads share.
ghost use Rattle.std.specs.Prelude.{◌≡◌, length};
ghost use Rattle.std.specs.Arc.{arc_value};
ghost use Rattle.front_lock.specs.FrontRow.{AreSeatsOf, SpeaksOnAll};
ghost use Rattle.store_shared.specs.StoreBases.{store_basis};
ghost use Rattle.pool_rows.specs.Shared.{AreClosedRows, RowComes, closed_journal, row_known};

use crate::rows::SharedRows;
use device_types::{DeviceId, Effect, Entry, Lane, NoRoom, Shared};
use effect_outbox::Settled;
use session_row::Commit;
use session_store::{Asked, Charter, EchoLaw, Peeked, Seen, shard_of};
use std::alloc::{AllocError, Global};
use std::sync::Wait;
use store_shared::{SharedStore, StoreSeat, StoreShard};

impl SharedRows for SharedStore<EchoLaw> {
    type Seat = StoreSeat<EchoLaw>;

    type Closed = Vec<StoreShard<EchoLaw>>;

    ghost charter = { λ store. arc_value store.law.charter };

    ghost count = { λ store. store.seats };

    ghost is_seat = { λ store seat. AreSeatsOf store_basis store.fronts.fronts.items seat.seats.items × (store.devices ≡ length (arc_value store.law.charter).rows) };

    ghost known = { λ seat d. row_known seat.seats.items d };

    ghost comes = { λ seat d row. RowComes seat.seats.items d row };

    ghost speaks = { λ seat n. SpeaksOnAll n seat.seats.items };

    ghost closes = { λ charter shards. AreClosedRows charter shards.items };

    ghost journal = { λ shards d. closed_journal shards.items d };

    fn open(
        alloc: Global,
        law: EchoLaw,
        devices: u32,
        seats: u32,
    ) -> Result<(SharedStore<EchoLaw>, Vec<StoreSeat<EchoLaw>>), AllocError> {
        SharedStore::new(alloc, law, devices, seats)
    }

    fn charter(&self) -> &Charter {
        let charter = SharedStore::charter(self);
        charter.recall();
        charter
    }

    fn read<R: Wait>(
        &self,
        rt: &R,
        seat: &mut StoreSeat<EchoLaw>,
        d: DeviceId,
        asked: Asked,
    ) -> Result<Seen, AllocError> {
        SharedStore::read(self, rt, seat, d, asked)
    }

    fn peek<R: Wait>(
        &self,
        rt: &R,
        seat: &mut StoreSeat<EchoLaw>,
        d: DeviceId,
        asked: Asked,
    ) -> Result<Peeked, AllocError> {
        SharedStore::peek(self, rt, seat, d, asked)
    }

    fn commit<R: Wait>(
        &self,
        rt: &R,
        seat: &mut StoreSeat<EchoLaw>,
        d: DeviceId,
        read: u64,
        entry: Entry,
    ) -> Result<Commit, NoRoom<Entry>> {
        SharedStore::commit(self, rt, seat, d, read, entry)
    }

    fn push<R: Wait>(
        &self,
        rt: &R,
        seat: &mut StoreSeat<EchoLaw>,
        d: DeviceId,
        lane: Lane,
        k: u64,
    ) -> Result<Option<Shared<Effect>>, AllocError> {
        SharedStore::push(self, rt, seat, d, lane, k)
    }

    fn settle<R: Wait>(
        &self,
        rt: &R,
        seat: &mut StoreSeat<EchoLaw>,
        d: DeviceId,
        lane: Lane,
        k: u64,
    ) -> Result<Settled, AllocError> {
        SharedStore::settle(self, rt, seat, d, lane, k)
    }

    fn join(&self, into: &mut StoreSeat<EchoLaw>, from: StoreSeat<EchoLaw>) {
        let _ = SharedStore::join(self, into, from);
    }

    fn close(self, seat: StoreSeat<EchoLaw>) -> Result<Vec<StoreShard<EchoLaw>>, AllocError> {
        match SharedStore::close(self, seat) {
            Ok(shards) => Ok(shards),
            Err(_) => Err(AllocError),
        }
    }

    fn journal(closed: &Vec<StoreShard<EchoLaw>>, d: DeviceId) -> &[Entry] {
        closed[shard_of(d) as usize].journal(d)
    }
}
