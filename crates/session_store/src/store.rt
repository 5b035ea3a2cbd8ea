//! The store: a row for each device, in shards.
ghost use Rattle.std.specs.Prelude.{◌≡◌, ◌≤◌, ◌<◌, ◌-◌, ◌↔◌, ℕ, length, take, refl, IfOk, OnErr, IfErr, IsSome, IsTrue, replicate, slice_set};
ghost use Rattle.std.proofs.Common.{◌∙◌};
ghost use Rattle.device_types.specs.declared.step.Entry.{Entry};
ghost use Rattle.device_types.specs.Journal.{version_of, pushed_count};
ghost use Rattle.effect_outbox.specs.Outbox.{number_on, settled_by};
ghost use Rattle.session_row.specs.Row.{RowState, Commits};
ghost use Rattle.session_store.specs.Charter.{CharterState, IsCharter};
ghost use Rattle.session_store.specs.Law.{IsLawful};
ghost use Rattle.session_store.specs.Rows.{StoreState, one_more, IsDevice, opening_row, row_of, journal_of, AreLawful, unsettled_effect, with_settled, WritesRow};
ghost use Rattle.session_store.specs.Seen.{IsAsked, IsRepeat, peeked_of, seen_of};
ghost use Rattle.session_store.specs.Shards.{shard_count, IsHere, row_in, AreOpened};

use crate::asked::{Asked, Peeked, Seen};
use crate::charter::Charter;
use crate::row_law::RowLaw;
use crate::row_store::RowStore;
use crate::shard::{DeviceRow, SHARDS, Shard, shard_of};
use device_types::{DeviceId, Effect, Entry, Lane, NoRoom};
use effect_outbox::Settled;
use session_row::Commit;
use std::alloc::{AllocError, Global};
use std::marker::Model;

/// The rows of all devices, under a law, in 16 shards. Contracts see the charter of the law, the rows in the order of the devices'
/// numbers, and how often the store was read. A call on one device looks at its shard alone; no clause speaks of time.
#[derive(Debug, Drop)]
pub struct Store<L: RowLaw> {
    law: L,
    devices: u32,
    shards: Vec<Shard<L>>,
    reads: u64,
}

impl<L: RowLaw> Model for Store<L> {
    ghost use Rattle.session_store.specs.Rows.{StoreState};
    ghost use Rattle.session_store.specs.Shards.{stored_rows, IsStore};

    ghost Value = { StoreState };

    ghost view = { λ store. record { charter = L.charter store.law; rows = stored_rows store.shards.items store.devices; reads = store.reads } };

    ghost invariant = { λ store. IsStore (L.follows (L.charter store.law)) (L.charter store.law) store.devices store.shards.items };
}

/// The shards of so many devices, none of which was ever seen.
fn opening_shards<L: RowLaw>(
    alloc: Global,
    law: &L,
    devices: u32,
) -> Result<Vec<Shard<L>>, AllocError>
    ensures { IfOk result (λ shards. AreOpened (L.charter law.now) devices shard_count shards.items) }
{
    let mut shards = Vec::new(alloc);
    for number in 0..SHARDS {
        shards.push(Shard::new(alloc, law.copy()?, number, devices)?)?;
    }
    Ok(shards)
}

impl<L: RowLaw> Store<L> {
    /// The store of so many devices, none of which was ever seen. It fails for want of memory alone.
    pub fn new(alloc: Global, law: L, devices: u32) -> Result<Store<L>, AllocError>
        ensures { IfOk result (λ store. store ≡ record { charter = L.charter law; rows = replicate devices opening_row; reads = 0 }) }
    {
        let shards = opening_shards(alloc, &law, devices)?;
        law.charter().recall();
        Ok(Store {
            law,
            devices,
            shards,
            reads: 0,
        })
    }

    /// The charter of its law, under which the rows are lawful. It takes no memory.
    pub fn charter(&self) -> &Charter
        ensures charter { result.now ≡ self.now.charter }
        ensures in_form { IsCharter self.now.charter }
        ensures lawful { AreLawful (L.follows self.now.charter) self.now.rows }
    {
        self.law.charter()
    }

    /// How often it was read: each read counts, up to the last value of a u64. It takes no memory.
    pub fn reads(&self) -> u64
        ensures { result ≡ self.now.reads }
    {
        self.reads
    }

    /// The shard of the device. It takes no memory.
    fn shard(&self, d: DeviceId) -> &Shard<L>
        requires { IsDevice (length self.now.rows) d.0 }
        ensures here { IsHere result.now d.0 }
        ensures row { row_in result.now.rows d.0 ≡ row_of self.now.rows d.0 }
        ensures in_form { IsCharter self.now.charter }
        ensures lawful { AreLawful (L.follows self.now.charter) self.now.rows }
    {
        &self.shards[shard_of(d) as usize]
    }

    /// The row of the device. It takes no memory.
    pub fn row(&self, d: DeviceId) -> &DeviceRow
        requires { IsDevice (length self.now.rows) d.0 }
        ensures { result.now ≡ row_of self.now.rows d.0 }
    {
        self.shard(d).row(d)
    }

    /// What is seen of the row of a device, about an input: with the reply exactly where it is a repeat. Every row is as before, and
    /// the read is counted. It fails for want of memory alone.
    pub fn read(&mut self, d: DeviceId, asked: Asked) -> Result<Seen, AllocError>
        requires device { IsDevice (length self.old.rows) d.0 }
        requires asked { IsAsked asked }
        ensures state { self.new ≡ record self.old { reads = one_more self.old.reads } }
        ensures in_form { IsCharter self.old.charter }
        ensures lawful { AreLawful (L.follows self.old.charter) self.old.rows }
        ensures ok { IfOk result (λ seen. seen ≡ seen_of (journal_of self.old.rows d.0) asked) }
        ensures told { IfOk result (λ seen. IsSome seen.reply ↔ IsRepeat seen.look) }
    {
        self.reads = self.reads.saturating_add(1);
        self.shard(d).read(d, asked)
    }

    /// The same without the session. It changes nothing, and is not counted.
    pub fn peek(&mut self, d: DeviceId, asked: Asked) -> Result<Peeked, AllocError>
        requires device { IsDevice (length self.old.rows) d.0 }
        requires asked { IsAsked asked }
        ensures same { self.new ≡ self.old }
        ensures in_form { IsCharter self.old.charter }
        ensures lawful { AreLawful (L.follows self.old.charter) self.old.rows }
        ensures ok { IfOk result (λ peeked. peeked ≡ peeked_of (journal_of self.old.rows d.0) asked) }
        ensures told { IfOk result (λ peeked. IsSome peeked.reply ↔ IsRepeat peeked.look) }
    {
        self.shard(d).peek(d, asked)
    }

    /// Writes an entry, where the row of the device still has the version that was read: nothing but the journal of that row
    /// changes. For want of memory the store stays as it was, and the entry is given back.
    pub fn commit(&mut self, d: DeviceId, read: u64, entry: Entry) -> Result<Commit, NoRoom<Entry>>
        requires device { IsDevice (length self.old.rows) d.0 }
        requires version { read ≤ version_of (journal_of self.old.rows d.0) }
        requires law { L.follows self.old.charter d.0 (take read (journal_of self.old.rows d.0)) entry }
        ensures ok { IfOk result (Commits (row_of self.old.rows d.0) (row_of self.new.rows d.0) read entry) }
        ensures others { self.new ≡ record self.old { rows = slice_set self.old.rows (d.0 - 1) (row_of self.new.rows d.0) } }
        ensures in_form { IsCharter self.new.charter }
        ensures lawful { AreLawful (L.follows self.new.charter) self.new.rows }
        ensures err { OnErr result (self.new ≡ self.old) }
        ensures back { IfErr result (λ room. room.0 ≡ entry) }
    {
        let shard = &mut self.shards[shard_of(d) as usize];
        shard.commit(d, read, entry)
    }

    /// Is effect `k` of a lane of the device, from 1, among the unsettled ones: was it made, and is it not settled? It takes no memory.
    pub fn is_unsettled(&self, d: DeviceId, lane: Lane, k: u64) -> bool
        requires { IsDevice (length self.now.rows) d.0 }
        ensures { IsTrue result ↔ ((number_on (row_of self.now.rows d.0).settled lane < k) × (k ≤ pushed_count lane (journal_of self.now.rows d.0))) }
    {
        self.shard(d).is_unsettled(d, lane, k)
    }

    /// Effect `k` of a lane of the device, from 1, or `None` where it was not made or is settled. It fails for want of memory
    /// alone.
    pub fn push(&self, d: DeviceId, lane: Lane, k: u64) -> Result<Option<Effect>, AllocError>
        requires device { IsDevice (length self.now.rows) d.0 }
        ensures value { IfOk result (λ effect. effect ≡ unsettled_effect (row_of self.now.rows d.0) lane k) }
        ensures told { IfOk result (λ effect. IsSome effect ↔ ((number_on (row_of self.now.rows d.0).settled lane < k) × (k ≤ pushed_count lane (journal_of self.now.rows d.0)))) }
    {
        self.shard(d).push(d, lane, k)
    }

    /// The effects of a lane of the device up to `k` are settled: nothing but that number changes. It may move the lane into a
    /// smaller block, and never fails.
    pub fn settle(&mut self, d: DeviceId, lane: Lane, k: u64) -> Settled
        requires device { IsDevice (length self.old.rows) d.0 }
        requires pushed { k ≤ pushed_count lane (journal_of self.old.rows d.0) }
        ensures value { result ≡ settled_by (number_on (row_of self.old.rows d.0).settled lane) k }
        ensures state { self.new ≡ record self.old { rows = slice_set self.old.rows (d.0 - 1) (with_settled (row_of self.old.rows d.0) lane k) } }
        ensures in_form { IsCharter self.new.charter }
        ensures lawful { AreLawful (L.follows self.new.charter) self.new.rows }
    {
        let shard = &mut self.shards[shard_of(d) as usize];
        shard.settle(d, lane, k)
    }
}

impl<L: RowLaw> RowStore for Store<L> {
    type Law = L;

    ghost charter = { λ store. store.charter };

    ghost devices = { λ store. length store.rows };

    ghost known = { λ store d. journal_of store.rows d };

    ghost reads = { λ store. store.reads };

    ghost keeps = { λ old new. new.rows ≡ old.rows };

    ghost writes = { WritesRow };

    ghost keeps_same = { λ store. refl };

    ghost keeps_twice = { λ old between new one two. two ∙ one };

    fn read(&mut self, d: DeviceId, asked: Asked) -> Result<Seen, AllocError> {
        Store::read(self, d, asked)
    }

    fn peek(&mut self, d: DeviceId, asked: Asked) -> Result<Peeked, AllocError> {
        Store::peek(self, d, asked)
    }

    fn commit(&mut self, d: DeviceId, read: u64, entry: Entry) -> Result<Commit, NoRoom<Entry>> {
        Store::commit(self, d, read, entry)
    }
}
