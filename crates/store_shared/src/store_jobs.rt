//! The calls of a shard of the store, as jobs of a front.
ghost use Rattle.std.specs.Prelude.{◌≡◌, ◌≤◌, length, take};
ghost use Rattle.device_types.specs.Journal.{pushed_count};
ghost use Rattle.effect_outbox.specs.Outbox.{number_on, settled_by};
ghost use Rattle.session_store.specs.Rows.{unsettled_effect};
ghost use Rattle.session_store.specs.Seen.{IsAsked, seen_of, peeked_of};
ghost use Rattle.store_shared.specs.declared.turn.TurnCall.TheVariants as calls;
ghost use Rattle.store_shared.specs.declared.turn.TurnAnswer.TheVariants as answers;
ghost use Rattle.store_shared.specs.Legal.{row_in, journal_in, commit_of, IsBehind};
ghost use Rattle.store_shared.specs.StoreShards.{IsOfShard, IsMade};
ghost use Rattle.store_shared.specs.Stays.{commit_stays, pushed_stays};

use crate::store_shard::StoreShard;
use device_types::{DeviceId, Effect, Entry, Lane, NoRoom, Shared};
use effect_outbox::Settled;
use front_lock::Job;
use session_row::Commit;
use session_store::{Asked, Peeked, RowLaw, Seen};

/// What is seen of the row of a device, about an input.
#[derive(Drop)]
pub(crate) struct ReadJob {
    pub(crate) d: DeviceId,
    pub(crate) asked: Asked,
}

impl<L: RowLaw> Job<StoreShard<L>> for ReadJob {
    type Answer = Seen;

    ghost can = { λ j b h. IsOfShard b.shard b.devices j.d.0 × IsAsked j.asked };

    ghost done = { λ j b h x a. IsMade L.follows b h x j.d (calls.Read j.asked) (answers.Read a) × (a ≡ seen_of (journal_in j.d.0 h) j.asked) };

    fn run(self, value: &mut StoreShard<L>, seat: u32) -> Result<Seen, NoRoom<ReadJob>> {
        match value.read(seat, self.d, self.asked) {
            Ok(answer) => Ok(answer),
            Err(_) => Err(NoRoom(self)),
        }
    }

    ghost stays = { λ j b h more c. c };
}

/// The same without the session.
#[derive(Drop)]
pub(crate) struct PeekJob {
    pub(crate) d: DeviceId,
    pub(crate) asked: Asked,
}

impl<L: RowLaw> Job<StoreShard<L>> for PeekJob {
    type Answer = Peeked;

    ghost can = { λ j b h. IsOfShard b.shard b.devices j.d.0 × IsAsked j.asked };

    ghost done = { λ j b h x a. IsMade L.follows b h x j.d (calls.Peek j.asked) (answers.Peek a) × (a ≡ peeked_of (journal_in j.d.0 h) j.asked) };

    fn run(self, value: &mut StoreShard<L>, seat: u32) -> Result<Peeked, NoRoom<PeekJob>> {
        match value.peek(seat, self.d, self.asked) {
            Ok(answer) => Ok(answer),
            Err(_) => Err(NoRoom(self)),
        }
    }

    ghost stays = { λ j b h more c. c };
}

/// An entry is written, where the row still has the version that was read.
#[derive(Drop)]
pub(crate) struct CommitJob {
    pub(crate) d: DeviceId,
    pub(crate) read: u64,
    pub(crate) entry: Entry,
}

impl<L: RowLaw> Job<StoreShard<L>> for CommitJob {
    type Answer = Commit;

    ghost can = { λ j b h. IsOfShard b.shard b.devices j.d.0 × ((j.read ≤ length (journal_in j.d.0 h)) × L.follows b.charter j.d.0 (take j.read (journal_in j.d.0 h)) j.entry) };

    ghost done = { λ j b h x a. IsMade L.follows b h x j.d (calls.Commit j.read j.entry) (answers.Commit a) × (a ≡ commit_of (length (journal_in j.d.0 h)) j.read) × IsBehind j.read a };

    fn run(self, value: &mut StoreShard<L>, seat: u32) -> Result<Commit, NoRoom<CommitJob>> {
        let CommitJob { d, read, entry } = self;
        match value.commit(seat, d, read, entry) {
            Ok(commit) => Ok(commit),
            Err(NoRoom(entry)) => Err(NoRoom(CommitJob { d, read, entry })),
        }
    }

    ghost stays = { λ j b h more c. (c.0, commit_stays (λ journal. L.follows b.charter j.d.0 journal j.entry) j.d.0 j.read h more c.1) };
}

/// An effect of a lane is asked for.
#[derive(Drop)]
pub(crate) struct PushJob {
    pub(crate) d: DeviceId,
    pub(crate) lane: Lane,
    pub(crate) k: u64,
}

impl<L: RowLaw> Job<StoreShard<L>> for PushJob {
    type Answer = Option<Shared<Effect>>;

    ghost can = { λ j b h. IsOfShard b.shard b.devices j.d.0 };

    ghost done = { λ j b h x a. IsMade L.follows b h x j.d (calls.Push j.lane j.k) (answers.Push a) × (a ≡ unsettled_effect (row_in j.d.0 h) j.lane j.k) };

    fn run(
        self,
        value: &mut StoreShard<L>,
        seat: u32,
    ) -> Result<Option<Shared<Effect>>, NoRoom<PushJob>> {
        match value.push(seat, self.d, self.lane, self.k) {
            Ok(answer) => Ok(answer),
            Err(_) => Err(NoRoom(self)),
        }
    }

    ghost stays = { λ j b h more c. c };
}

/// The effects of a lane up to that one are settled.
#[derive(Drop)]
pub(crate) struct SettleJob {
    pub(crate) d: DeviceId,
    pub(crate) lane: Lane,
    pub(crate) k: u64,
}

impl<L: RowLaw> Job<StoreShard<L>> for SettleJob {
    type Answer = Settled;

    ghost can = { λ j b h. IsOfShard b.shard b.devices j.d.0 × (j.k ≤ pushed_count j.lane (journal_in j.d.0 h)) };

    ghost done = { λ j b h x a. IsMade L.follows b h x j.d (calls.Settle j.lane j.k) (answers.Settle a) × (a ≡ settled_by (number_on (row_in j.d.0 h).settled j.lane) j.k) };

    fn run(self, value: &mut StoreShard<L>, seat: u32) -> Result<Settled, NoRoom<SettleJob>> {
        match value.settle(seat, self.d, self.lane, self.k) {
            Ok(answer) => Ok(answer),
            Err(_) => Err(NoRoom(self)),
        }
    }

    ghost stays = { λ j b h more c. (c.0, pushed_stays j.d.0 j.k j.lane h more c.1) };
}
