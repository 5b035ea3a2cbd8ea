//! A worker: it takes an input, reads, makes the step, and writes it.
ghost use Rattle.std.specs.Prelude.{◌≡◌, length, IfSome};
ghost use Rattle.replica_worker.specs.Cache.{AreSessionsOf};
ghost use Rattle.replica_worker.specs.Writes.{IsReady, MayWrite};
ghost use Rattle.pool_work.specs.Packets.{IsPacket};
ghost use Rattle.pool_work.specs.Stores.{Kept, seen_of_alone};

use crate::board::{Board, Made, News};
use crate::gate::{Gate, Point};
use crate::line::Packet;
use crate::lines::row_of;
use crate::seat_store::SeatStore;
use device_machine::awaited;
use device_types::{DeviceId, Effect, Input, Shared};
use pool_rows::SharedRows;
use replica_worker::{Hand, Replica};
use session_row::Commit;
use session_store::Charter;
use std::alloc::AllocError;
use std::sync::Wait;

/// Who deals with inputs: a number, and what it tells.
#[derive(Drop)]
pub(crate) struct Worker<'a, G> {
    /// Its number, for the gate.
    pub(crate) number: u32,
    /// The table and the book.
    pub(crate) charter: &'a Charter,
    /// What it tells the other threads.
    pub(crate) board: &'a Board,
    /// What learns where it is.
    pub(crate) gate: &'a G,
}

/// How many effects of each lane there are.
fn made_of(effects: &[Effect]) -> Made {
    let mut made = Made::NONE;
    for effect in effects {
        match effect {
            Effect::Down(_) => made.down = made.down.saturating_add(1),
            Effect::Gateway(_) => made.gateway = made.gateway.saturating_add(1),
            Effect::Subscriber(_) => made.subscriber = made.subscriber.saturating_add(1),
        }
    }
    made
}

/// What there is to tell of the step that a hand is to write, if it is to write one.
fn news_of(hand: &Hand) -> Option<News>
    ensures { IfSome result (λ news. IsReady hand.now) }
{
    let Hand::Ready { version, entry, .. } = hand else {
        return None;
    };
    Some(News {
        taken: match entry.input.get() {
            Input::Message(message) => Some(message.number),
            Input::Answer { .. } => None,
        },
        version: version.saturating_add(1),
        awaits: awaited(&entry.step),
        made: made_of(entry.step.effects.items()),
    })
}

impl<'a, G: Gate> Worker<'a, G> {
    /// Writes the step that the replica holds, and gives what it tells. None where another has written first.
    fn write<T: SharedRows, R: Wait>(
        &self,
        replica: &mut Replica,
        store: &mut SeatStore<'_, T, R>,
        d: DeviceId,
        news: News,
    ) -> Result<Option<News>, AllocError>
        requires ready { IsReady replica.old.hand }
        requires may { MayWrite (T.charter store.old.rows) (length (T.charter store.old.rows).rows) (λ i. seen_of_alone (T.charter store.old.rows) i (T.known store.old.seat i).journal) replica.old.hand }
        requires remembers { AreSessionsOf (T.charter store.old.rows) replica.old.cache }
        ensures store { Kept T.speaks T.known store.old store.new }
        ensures remembers { AreSessionsOf (T.charter store.new.rows) replica.new.cache }
    {
        self.gate.pass(self.number, d, Point::Ready);
        match replica.commit(store)? {
            Commit::Committed(_) => {
                self.board.tell(d, news);
                self.gate.pass(self.number, d, Point::Committed);
                Ok(Some(news))
            }
            Commit::Stale { .. } => {
                self.gate.pass(self.number, d, Point::Stale);
                Ok(None)
            }
        }
    }

    /// Deals with one input: takes it, reads the row, and writes the step if the row was ready. It gives what it told of the write, if
    /// it has written.
    pub(crate) fn deal<T: SharedRows, R: Wait>(
        &self,
        replica: &mut Replica,
        store: &mut SeatStore<'_, T, R>,
        packet: Packet,
    ) -> Result<Option<News>, AllocError>
        requires charter { self.now.charter.now ≡ T.charter store.old.rows }
        requires packet { IsPacket self.now.charter.now packet }
        requires remembers { AreSessionsOf (T.charter store.old.rows) replica.old.cache }
        ensures store { Kept T.speaks T.known store.old store.new }
        ensures remembers { AreSessionsOf (T.charter store.new.rows) replica.new.cache }
    {
        let Packet { d, input } = packet;
        let row = row_of(self.charter, d);
        replica.take(d, Shared::new(row.rand.alloc(), input)?);
        replica.read(row, store)?;
        match news_of(replica.hand()) {
            Some(news) => self.write(replica, store, d, news),
            None => Ok(None),
        }
    }
}
