//! A shard: the rows of the devices that share a remainder.
ghost use Rattle.std.specs.Prelude.{◌≡◌, ◌≤◌, ◌<◌, ◌↔◌, ℕ, Some, length, take, IfOk, OnOk, OnErr, IfErr, IsSome, IsTrue};
ghost use Rattle.std.specs.BTreeMap.{Updates};
ghost use Rattle.std.specs.Ordering.{nat_cmp};
ghost use Rattle.device_types.specs.Journal.{version_of, pushed_count};
ghost use Rattle.effect_outbox.specs.Outbox.{number_on, settled_by};
ghost use Rattle.session_row.specs.Row.{Commits};
ghost use Rattle.session_store.specs.Charter.{IsCharter};
ghost use Rattle.session_store.specs.Law.{IsLawful};
ghost use Rattle.session_store.specs.Rows.{IsDevice, opening_row, unsettled_effect, with_settled};
ghost use Rattle.session_store.specs.Seen.{IsAsked, IsRepeat, peeked_of, seen_of};
ghost use Rattle.session_store.specs.Shards.{shard_of, ShardState, IsHere, find_row, row_in, journal_in, with_row, HasItsRows, IsOpening, AreLawfulHere};

use crate::asked::{Asked, Peeked, Seen};
use crate::charter::Charter;
use crate::looks::{peeked_of, seen_of};
use crate::row_law::RowLaw;
use device_types::{DeviceId, Effect, Entry, Lane, NoRoom, TryCopy};
use effect_outbox::Settled;
use session_row::{Commit, Row};
use std::alloc::{AllocError, Global};
use std::collections::BTreeMap;
use std::marker::Model;

/// How many shards a store has.
pub const SHARDS: u32 = 16;

/// A row that keeps the last four replies.
pub type DeviceRow = Row<4>;

/// The number of the shard in which the device lies: its own number, modulo 16. It takes no memory.
pub fn shard_of(d: DeviceId) -> u32
    ensures { result ≡ shard_of d.0 }
{
    d.0 % SHARDS
}

/// The rows of those devices of a store that lie in the shard of a number, under a law. Contracts see the charter of the law, this
/// number, how many devices the store has, and the rows with their devices, in the order of the devices' numbers. A call on one
/// device takes a time that is logarithmic in the devices of the shard; no clause speaks of time.
#[derive(Debug, Drop)]
pub struct Shard<L: RowLaw> {
    law: L,
    number: u32,
    devices: u32,
    rows: BTreeMap<u32, DeviceRow>,
}

impl<L: RowLaw> Model for Shard<L> {
    ghost use Rattle.session_store.specs.Shards.{ShardState, IsShard};

    ghost Value = { ShardState };

    ghost view = { λ shard. record { charter = L.charter shard.law; number = shard.number; devices = shard.devices; rows = shard.rows.entries } };

    ghost invariant = { λ shard. IsShard (L.follows (L.charter shard.law)) (record { charter = L.charter shard.law; number = shard.number; devices = shard.devices; rows = shard.rows.entries }) };
}

/// The rows with one that was never seen, for that device.
fn open_row(
    alloc: Global,
    rows: &mut BTreeMap<u32, DeviceRow>,
    d: DeviceId,
) -> Result<(), AllocError>
    ensures { OnOk result (Updates nat_cmp rows.old rows.new d.0 (Some opening_row)) }
{
    rows.insert(d.0, Row::new(alloc)?)?;
    Ok(())
}

/// Of so many devices, a row that was never seen for each that lies in the shard of that number, and for no other.
fn opening_rows(
    alloc: Global,
    number: u32,
    devices: u32,
) -> Result<BTreeMap<u32, DeviceRow>, AllocError>
    ensures opening { IfOk result (λ rows. (d : ℕ) → IsDevice devices d → shard_of d ≡ number → find_row rows.entries d ≡ Some opening_row) }
    ensures no_other { IfOk result (λ rows. (d : ℕ) → IsSome (find_row rows.entries d) → IsDevice devices d × (shard_of d ≡ number)) }
{
    let mut rows = BTreeMap::new(alloc);
    for index in 0..devices {
        let d = DeviceId(index + 1);
        if shard_of(d) == number {
            open_row(alloc, &mut rows, d)?;
        }
    }
    Ok(rows)
}

impl<L: RowLaw> Shard<L> {
    /// The shard of that number of a store of so many devices, none of which was ever seen: it has a row for each of them that lies
    /// in it, and for no other device. It fails for want of memory alone.
    pub fn new(alloc: Global, law: L, number: u32, devices: u32) -> Result<Shard<L>, AllocError>
        ensures charter { IfOk result (λ shard. shard.charter ≡ L.charter law) }
        ensures number { IfOk result (λ shard. shard.number ≡ number) }
        ensures devices { IfOk result (λ shard. shard.devices ≡ devices) }
        ensures opening { IfOk result IsOpening }
        ensures rows { IfOk result HasItsRows }
    {
        let rows = opening_rows(alloc, number, devices)?;
        law.charter().recall();
        Ok(Shard {
            law,
            number,
            devices,
            rows,
        })
    }

    /// The charter of its law, under which its rows, those of just its devices, are lawful. It takes no memory.
    pub fn charter(&self) -> &Charter
        ensures charter { result.now ≡ self.now.charter }
        ensures in_form { IsCharter self.now.charter }
        ensures rows { HasItsRows self.now }
        ensures lawful { AreLawfulHere (L.follows self.now.charter) self.now }
    {
        self.law.charter()
    }

    /// The row of a device of the shard. It takes no memory.
    pub fn row(&self, d: DeviceId) -> &DeviceRow
        requires { IsHere self.now d.0 }
        ensures { result.now ≡ row_in self.now.rows d.0 }
    {
        let Some(row) = self.rows.get(&d.0) else {
            unreachable!();
        };
        row
    }

    /// What is seen of the row of a device, about an input: with the reply exactly where it is a repeat. It fails for want of memory
    /// alone.
    pub fn read(&self, d: DeviceId, asked: Asked) -> Result<Seen, AllocError>
        requires here { IsHere self.now d.0 }
        requires asked { IsAsked asked }
        ensures ok { IfOk result (λ seen. seen ≡ seen_of (journal_in self.now.rows d.0) asked) }
        ensures told { IfOk result (λ seen. IsSome seen.reply ↔ IsRepeat seen.look) }
    {
        seen_of(self.row(d), asked)
    }

    /// The same without the session.
    pub fn peek(&self, d: DeviceId, asked: Asked) -> Result<Peeked, AllocError>
        requires here { IsHere self.now d.0 }
        requires asked { IsAsked asked }
        ensures ok { IfOk result (λ peeked. peeked ≡ peeked_of (journal_in self.now.rows d.0) asked) }
        ensures told { IfOk result (λ peeked. IsSome peeked.reply ↔ IsRepeat peeked.look) }
    {
        peeked_of(self.row(d), asked)
    }

    /// Writes an entry, where the row of the device still has the version that was read: nothing but the journal of that row
    /// changes. For want of memory the shard stays as it was, and the entry is given back.
    pub fn commit(&mut self, d: DeviceId, read: u64, entry: Entry) -> Result<Commit, NoRoom<Entry>>
        requires here { IsHere self.old d.0 }
        requires version { read ≤ version_of (journal_in self.old.rows d.0) }
        requires law { L.follows self.old.charter d.0 (take read (journal_in self.old.rows d.0)) entry }
        ensures ok { IfOk result (Commits (row_in self.old.rows d.0) (row_in self.new.rows d.0) read entry) }
        ensures others { self.new ≡ record self.old { rows = with_row self.old.rows d.0 (row_in self.new.rows d.0) } }
        ensures in_form { IsCharter self.new.charter }
        ensures lawful { AreLawfulHere (L.follows self.new.charter) self.new }
        ensures err { OnErr result (self.new ≡ self.old) }
        ensures back { IfErr result (λ room. room.0 ≡ entry) }
    {
        let Some(row) = self.rows.get_mut(&d.0) else {
            unreachable!();
        };
        row.commit(read, entry)
    }

    /// Is effect `k` of a lane of the device, from 1, among the unsettled ones: was it made, and is it not settled? It takes no memory.
    pub fn is_unsettled(&self, d: DeviceId, lane: Lane, k: u64) -> bool
        requires { IsHere self.now d.0 }
        ensures { IsTrue result ↔ ((number_on (row_in self.now.rows d.0).settled lane < k) × (k ≤ pushed_count lane (journal_in self.now.rows d.0))) }
    {
        self.row(d).outbox().at(lane, k).is_some()
    }

    /// Effect `k` of a lane of the device, from 1, or `None` where it was not made or is settled. It fails for want of memory
    /// alone.
    pub fn push(&self, d: DeviceId, lane: Lane, k: u64) -> Result<Option<Effect>, AllocError>
        requires { IsHere self.now d.0 }
        ensures value { IfOk result (λ effect. effect ≡ unsettled_effect (row_in self.now.rows d.0) lane k) }
        ensures told { IfOk result (λ effect. IsSome effect ↔ ((number_on (row_in self.now.rows d.0).settled lane < k) × (k ≤ pushed_count lane (journal_in self.now.rows d.0)))) }
    {
        match self.row(d).outbox().at(lane, k) {
            Some(effect) => Ok(Some(effect.copy()?)),
            None => Ok(None),
        }
    }

    /// The effects of a lane of the device up to `k` are settled: nothing but that number changes. It may move the lane into a
    /// smaller block, and never fails.
    pub fn settle(&mut self, d: DeviceId, lane: Lane, k: u64) -> Settled
        requires here { IsHere self.old d.0 }
        requires pushed { k ≤ pushed_count lane (journal_in self.old.rows d.0) }
        ensures value { result ≡ settled_by (number_on (row_in self.old.rows d.0).settled lane) k }
        ensures row { row_in self.new.rows d.0 ≡ with_settled (row_in self.old.rows d.0) lane k }
        ensures state { self.new ≡ record self.old { rows = with_row self.old.rows d.0 (with_settled (row_in self.old.rows d.0) lane k) } }
        ensures in_form { IsCharter self.new.charter }
        ensures lawful { AreLawfulHere (L.follows self.new.charter) self.new }
    {
        let Some(row) = self.rows.get_mut(&d.0) else {
            unreachable!();
        };
        row.settle(lane, k)
    }
}
