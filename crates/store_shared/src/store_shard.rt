//! A shard of the store, as a value of a front: its rows, and the history that made them.
ghost use Rattle.std.specs.Prelude.{◌≡◌, ◌≤◌, ◌∷◌, ◌++◌, [], length, take, IfOk, IfErr, OnOk, OnErr};
ghost use Rattle.device_types.specs.Journal.{pushed_count};
ghost use Rattle.effect_outbox.specs.Outbox.{number_on, settled_by};
ghost use Rattle.session_store.specs.Law.{IsLawful};
ghost use Rattle.session_store.specs.Rows.{unsettled_effect};
ghost use Rattle.session_store.specs.Seen.{IsAsked, seen_of, peeked_of};
ghost use Rattle.session_store.specs.Shards.{IsHere};
ghost use Rattle.store_shared.specs.declared.turn.TurnCall.TheVariants as calls;
ghost use Rattle.store_shared.specs.declared.turn.TurnAnswer.TheVariants as answers;
ghost use Rattle.store_shared.specs.Legal.{row_in, journal_in, commit_of, IsTurn, store_says, IsStoreHistory, AreLawfulIn, IsBehind};
ghost use Rattle.store_shared.specs.StoreShards.{IsStoreShard, turn_by};

use crate::basis::ShardBasis;
use crate::turn::{Turn, TurnAnswer, TurnCall};
use device_types::{DeviceId, Effect, Entry, Lane, NoRoom, Shared};
use effect_outbox::Settled;
use front_lock::Held;
use session_row::Commit;
use session_store::{Asked, Peeked, RowLaw, Seen, Shard};
use shard_parts::{commit_copied, peek_twice, push_twice, read_twice};
use std::alloc::{AllocError, Global};

/// A shard of the store: the rows of its devices, and the turns that made them. It is given out when the store is closed.
#[derive(Drop)]
pub struct StoreShard<L: RowLaw> {
    pub(crate) shard: Shard<L>,
    pub(crate) turns: Vec<Turn>,
    ghost kept: { IsStoreShard shard turns.items },
}

impl<L: RowLaw> Held for StoreShard<L> {
    type Turn = Turn;

    type Basis = ShardBasis;

    ghost basis = { λ t. record { shard = t.shard.number; devices = t.shard.devices; charter = t.shard.charter } };

    ghost turns = { λ t. t.turns.items };

    ghost by = { λ x. x.seat };

    fn turn_count(&self) -> u64 {
        self.turns.len() as u64
    }
}

impl<L: RowLaw> StoreShard<L> {
    /// The shard of that number of a store of so many devices, without turns. It fails for want of memory alone.
    pub(crate) fn new(
        alloc: Global,
        law: L,
        number: u32,
        devices: u32,
    ) -> Result<StoreShard<L>, AllocError>
        ensures number { IfOk result (λ made. made.shard.number ≡ number) }
        ensures devices { IfOk result (λ made. made.shard.devices ≡ devices) }
        ensures charter { IfOk result (λ made. made.shard.charter ≡ L.charter law) }
        ensures turns { IfOk result (λ made. made.turns.items ≡ []) }
    {
        let shard = Shard::new(alloc, law, number, devices)?;
        Ok(StoreShard {
            shard,
            turns: Vec::new(alloc),
        })
    }

    /// The turns that were made on it, the oldest first: a legal history of the shard, whose journals are lawful. It takes no
    /// memory.
    pub fn turns(&self) -> &[Turn]
        ensures turns { result.now ≡ self.now.turns.items }
        ensures legal { IsStoreHistory self.now.shard.number self.now.shard.devices self.now.turns.items }
        ensures lawful { AreLawfulIn (L.follows self.now.shard.charter) self.now.shard.devices self.now.turns.items }
    {
        self.recall();
        let turns: &[Turn] = &self.turns;
        turns
    }

    /// The journal of a device of the shard, lent: the entries that the turns have committed of it, in order, which are lawful. It
    /// takes no memory.
    pub fn journal(&self, d: DeviceId) -> &[Entry]
        requires { IsHere self.now.shard d.0 }
        ensures journal { result.now ≡ journal_in d.0 self.now.turns.items }
        ensures lawful { IsLawful (L.follows self.now.shard.charter d.0) (journal_in d.0 self.now.turns.items) }
    {
        self.recall();
        self.shard.row(d).entries()
    }

    /// What holds of every shard: the journals of its history are lawful. It does nothing at run time.
    fn recall(&self)
        ensures { AreLawfulIn (L.follows self.now.shard.charter) self.now.shard.devices self.now.turns.items }
    {
        self.shard.charter();
    }

    /// What is seen of the row of a device, about an input.
    pub(crate) fn read(&mut self, seat: u32, d: DeviceId, asked: Asked) -> Result<Seen, AllocError>
        requires here { IsHere self.old.shard d.0 }
        requires asked { IsAsked asked }
        ensures shard { self.new.shard ≡ self.old.shard }
        ensures turn { IfOk result (λ seen. self.new.turns.items ≡ self.old.turns.items ++ turn_by seat d (calls.Read asked) (answers.Read seen) ∷ []) }
        ensures legal { IfOk result (λ seen. IsTurn store_says self.old.shard.number self.old.shard.devices self.old.turns.items (turn_by seat d (calls.Read asked) (answers.Read seen))) }
        ensures lawful { OnOk result (AreLawfulIn (L.follows self.new.shard.charter) self.new.shard.devices self.new.turns.items) }
        ensures value { IfOk result (λ seen. seen ≡ seen_of (journal_in d.0 self.old.turns.items) asked) }
        ensures err { OnErr result (self.new.turns.items ≡ self.old.turns.items) }
    {
        self.turns.reserve(1)?;
        let (seen, kept) = read_twice(&self.shard, d, asked)?;
        self.turns.push_reserved(Turn {
            seat,
            device: d,
            call: TurnCall::Read { asked },
            answer: TurnAnswer::Read(kept),
        });
        self.recall();
        Ok(seen)
    }

    /// The same without the session.
    pub(crate) fn peek(
        &mut self,
        seat: u32,
        d: DeviceId,
        asked: Asked,
    ) -> Result<Peeked, AllocError>
        requires here { IsHere self.old.shard d.0 }
        requires asked { IsAsked asked }
        ensures shard { self.new.shard ≡ self.old.shard }
        ensures turn { IfOk result (λ peeked. self.new.turns.items ≡ self.old.turns.items ++ turn_by seat d (calls.Peek asked) (answers.Peek peeked) ∷ []) }
        ensures legal { IfOk result (λ peeked. IsTurn store_says self.old.shard.number self.old.shard.devices self.old.turns.items (turn_by seat d (calls.Peek asked) (answers.Peek peeked))) }
        ensures lawful { OnOk result (AreLawfulIn (L.follows self.new.shard.charter) self.new.shard.devices self.new.turns.items) }
        ensures value { IfOk result (λ peeked. peeked ≡ peeked_of (journal_in d.0 self.old.turns.items) asked) }
        ensures err { OnErr result (self.new.turns.items ≡ self.old.turns.items) }
    {
        self.turns.reserve(1)?;
        let (peeked, kept) = peek_twice(&self.shard, d, asked)?;
        self.turns.push_reserved(Turn {
            seat,
            device: d,
            call: TurnCall::Peek { asked },
            answer: TurnAnswer::Peek(kept),
        });
        self.recall();
        Ok(peeked)
    }

    /// Writes an entry, where the row still has the version that was read.
    pub(crate) fn commit(
        &mut self,
        seat: u32,
        d: DeviceId,
        read: u64,
        entry: Entry,
    ) -> Result<Commit, NoRoom<Entry>>
        requires here { IsHere self.old.shard d.0 }
        requires version { read ≤ length (journal_in d.0 self.old.turns.items) }
        requires law { L.follows self.old.shard.charter d.0 (take read (journal_in d.0 self.old.turns.items)) entry }
        ensures basis { (self.new.shard.number ≡ self.old.shard.number) × (self.new.shard.devices ≡ self.old.shard.devices) × (self.new.shard.charter ≡ self.old.shard.charter) }
        ensures turn { IfOk result (λ commit. self.new.turns.items ≡ self.old.turns.items ++ turn_by seat d (calls.Commit read entry) (answers.Commit commit) ∷ []) }
        ensures legal { IfOk result (λ commit. IsTurn store_says self.old.shard.number self.old.shard.devices self.old.turns.items (turn_by seat d (calls.Commit read entry) (answers.Commit commit))) }
        ensures lawful { OnOk result (AreLawfulIn (L.follows self.new.shard.charter) self.new.shard.devices self.new.turns.items) }
        ensures value { IfOk result (λ commit. commit ≡ commit_of (length (journal_in d.0 self.old.turns.items)) read) }
        ensures behind { IfOk result (IsBehind read) }
        ensures err { OnErr result (self.new.turns.items ≡ self.old.turns.items) }
        ensures back { IfErr result (λ room. room.0 ≡ entry) }
    {
        if self.turns.reserve(1).is_err() {
            return Err(NoRoom(entry));
        }
        let (commit, kept) = commit_copied(&mut self.shard, d, read, entry)?;
        self.turns.push_reserved(Turn {
            seat,
            device: d,
            call: TurnCall::Commit { read, entry: kept },
            answer: TurnAnswer::Commit(commit),
        });
        self.recall();
        Ok(commit)
    }

    /// Effect `k` of a lane of the device, from 1, or `None` where it was not made or is settled.
    pub(crate) fn push(
        &mut self,
        seat: u32,
        d: DeviceId,
        lane: Lane,
        k: u64,
    ) -> Result<Option<Shared<Effect>>, AllocError>
        requires here { IsHere self.old.shard d.0 }
        ensures shard { self.new.shard ≡ self.old.shard }
        ensures turn { IfOk result (λ effect. self.new.turns.items ≡ self.old.turns.items ++ turn_by seat d (calls.Push lane k) (answers.Push effect) ∷ []) }
        ensures legal { IfOk result (λ effect. IsTurn store_says self.old.shard.number self.old.shard.devices self.old.turns.items (turn_by seat d (calls.Push lane k) (answers.Push effect))) }
        ensures lawful { OnOk result (AreLawfulIn (L.follows self.new.shard.charter) self.new.shard.devices self.new.turns.items) }
        ensures value { IfOk result (λ effect. effect ≡ unsettled_effect (row_in d.0 self.old.turns.items) lane k) }
        ensures err { OnErr result (self.new.turns.items ≡ self.old.turns.items) }
    {
        self.turns.reserve(1)?;
        let (effect, kept) = push_twice(*self.turns.allocator(), &self.shard, d, lane, k)?;
        self.turns.push_reserved(Turn {
            seat,
            device: d,
            call: TurnCall::Push { lane, k },
            answer: TurnAnswer::Push(kept),
        });
        self.recall();
        Ok(effect)
    }

    /// The effects of a lane of the device up to `k` are settled.
    pub(crate) fn settle(
        &mut self,
        seat: u32,
        d: DeviceId,
        lane: Lane,
        k: u64,
    ) -> Result<Settled, AllocError>
        requires here { IsHere self.old.shard d.0 }
        requires pushed { k ≤ pushed_count lane (journal_in d.0 self.old.turns.items) }
        ensures basis { (self.new.shard.number ≡ self.old.shard.number) × (self.new.shard.devices ≡ self.old.shard.devices) × (self.new.shard.charter ≡ self.old.shard.charter) }
        ensures turn { IfOk result (λ settled. self.new.turns.items ≡ self.old.turns.items ++ turn_by seat d (calls.Settle lane k) (answers.Settle settled) ∷ []) }
        ensures legal { IfOk result (λ settled. IsTurn store_says self.old.shard.number self.old.shard.devices self.old.turns.items (turn_by seat d (calls.Settle lane k) (answers.Settle settled))) }
        ensures lawful { OnOk result (AreLawfulIn (L.follows self.new.shard.charter) self.new.shard.devices self.new.turns.items) }
        ensures value { IfOk result (λ settled. settled ≡ settled_by (number_on (row_in d.0 self.old.turns.items).settled lane) k) }
        ensures err { OnErr result (self.new.turns.items ≡ self.old.turns.items) }
    {
        self.turns.reserve(1)?;
        let settled = self.shard.settle(d, lane, k);
        self.turns.push_reserved(Turn {
            seat,
            device: d,
            call: TurnCall::Settle { lane, k },
            answer: TurnAnswer::Settle(settled),
        });
        self.recall();
        Ok(settled)
    }
}
