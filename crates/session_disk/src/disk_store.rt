//! The store of rows on a disk.
ghost use Rattle.std.specs.Prelude.{◌≡◌, ◌≤◌, ◌<◌, ◌-◌, ◌+◌, ◌↔◌, ◌^◌, ◌++◌, ◌∷◌, [], ℕ, List, Some, true, false, not, length, take, slice_set, IfOk, IfErr, OnOk, IsErrOf, IsSome, Ok, Err};
ghost use Rattle.echo_base.specs.Outside.{Rose};
ghost use Rattle.device_types.specs.Journal.{version_of};
ghost use Rattle.disk_log.specs.Log.{log_of, WithOrWithout};
ghost use Rattle.disk_log.specs.Opening.{OpensLog};
ghost use Rattle.session_row.specs.Row.{Commits};
ghost use Rattle.session_row.specs.declared.commit.Commit.TheVariants as commits;
ghost use Rattle.session_store.specs.Charter.{IsCharter};
ghost use Rattle.session_store.specs.Rows.{one_more, IsDevice, row_of, journal_of, AreLawful};
ghost use Rattle.session_store.specs.Seen.{IsAsked, IsRepeat, seen_of};
ghost use Rattle.store_disk.specs.Moments.{LeavesOnly};
ghost use Rattle.session_disk.specs.Fits.{AreRowsOf, IsLogOf, IsForeign};
ghost use Rattle.session_disk.specs.Stored.{IsAtRest, entry_count, with_entry, record_of};
ghost use Rattle.session_disk.specs.declared.fault.DiskBad.TheVariants as bad;
ghost use Rattle.session_disk.specs.declared.fault.OpenCause.TheVariants as causes;

use crate::fault::{DiskBad, OpenCause, OpenFault};
use crate::maker::Maker;
use crate::replay::replay;
use device_types::{DeviceId, Entry};
use disk_log::{Record, add_record, open_log};
use session_row::Commit;
use session_store::{Asked, RowLaw, Seen, Store};
use std::alloc::{AllocError, Global};
use std::marker::Model;
use store_disk::Disk;

/// The rows of all devices, each commit of which is on a disk before it is answered. Contracts see the disk, the store of the
/// rows, and whether it is open. While it is, each file that a crash may leave has a log of these rows.
#[derive(Drop)]
pub struct DiskStore<D: Disk, L: RowLaw> {
    disk: D,
    store: Store<L>,
    gate: u64,
    is_open: bool,
}

impl<D: Disk, L: RowLaw> Model for DiskStore<D, L> {
    ghost use Rattle.std.specs.Prelude.{◌≡◌, true};
    ghost use Rattle.session_disk.specs.Stored.{DiskState, IsAtRest};

    ghost Value = { DiskState D };

    ghost view = { λ s. record { disk = s.disk; store = s.store; is_open = s.is_open } };

    ghost invariant = { λ s. s.is_open ≡ true → IsAtRest (D.bytes s.disk) (D.may_leave s.disk) s.gate s.store.rows };
}

/// Opens the log of a disk, and replays it: the rows, and the place of the log's last gate.
fn load<D: Disk, L: RowLaw, M: Maker<L>>(
    alloc: Global,
    disk: &mut D,
    law: L,
    devices: u32,
    maker: &M,
) -> Result<(Store<L>, u64), OpenCause>
    requires charter { M.charter maker.now ≡ L.charter law }
    ensures rest { IfOk result (λ x. IsAtRest (D.bytes disk.new) (D.may_leave disk.new) x.1 x.0.rows) }
    ensures rows { (octets : List ℕ) → D.bytes disk.old ≡ Some octets → IfOk result (λ x. AreRowsOf devices (M.made (L.charter law)) (log_of octets) x.0.rows) }
    ensures devices { IfOk result (λ x. length x.0.rows ≡ devices) }
    ensures store { IfOk result (λ x. (x.0.charter ≡ L.charter law)) }
    ensures foreign { (octets : List ℕ) (at : ℕ) → D.bytes disk.old ≡ Some octets → IsErrOf result (causes.Foreign at) → (1 < length octets) × IsForeign devices (M.made (L.charter law)) octets at }
    ensures exact { (octets : List ℕ) → D.bytes disk.old ≡ Some octets → OnOk result ((at : ℕ) → 1 < length octets → IsForeign devices (M.made (L.charter law)) octets at → ⊥) }
    ensures failed { IsErrOf result causes.DiskFault → Rose (D.faults disk.old) (D.faults disk.new) }
    ensures count { D.faults disk.old ≤ D.faults disk.new }
    ensures any_moment { (octets : List ℕ) → D.bytes disk.old ≡ Some octets → OpensLog D.moment D.left_since disk.old disk.new (D.may_leave disk.old) (log_of octets) }
{
    let octets = open_log(alloc, disk)?;
    let mut store = Store::new(alloc, law, devices)?;
    let gate = replay(&octets, &mut store, devices, maker)?;
    Ok((store, gate))
}

impl<D: Disk, L: RowLaw> DiskStore<D, L> {
    /// Opens the store on a disk: at `Ok` it has the rows of the disk's log. It begins with a sync. On a file of at most one
    /// octet it then writes a closed gate, and syncs. An open that fails gives the disk back.
    pub fn open<M: Maker<L>>(
        alloc: Global,
        mut disk: D,
        law: L,
        devices: u32,
        maker: &M,
    ) -> Result<DiskStore<D, L>, OpenFault<D>>
        requires charter { M.charter maker.now ≡ L.charter law }
        ensures open { IfOk result (λ s. s.is_open ≡ true) }
        ensures charter { IfOk result (λ s. s.store.charter ≡ L.charter law) }
        ensures rows { (octets : List ℕ) → D.bytes disk ≡ Some octets → IfOk result (λ s. AreRowsOf devices (M.made (L.charter law)) (log_of octets) s.store.rows) }
        ensures devices { IfOk result (λ s. length s.store.rows ≡ devices) }
        ensures foreign { (octets : List ℕ) → D.bytes disk ≡ Some octets → IfErr result (λ f. (at : ℕ) → f.cause ≡ causes.Foreign at → (1 < length octets) × IsForeign devices (M.made (L.charter law)) octets at) }
        ensures exact { (octets : List ℕ) → D.bytes disk ≡ Some octets → OnOk result ((at : ℕ) → 1 < length octets → IsForeign devices (M.made (L.charter law)) octets at → ⊥) }
        ensures failed { IfErr result (λ f. f.cause ≡ causes.DiskFault → Rose (D.faults disk) (D.faults f.disk)) }
        ensures count { IfOk result (λ s. D.faults disk ≤ D.faults s.disk) × IfErr result (λ f. D.faults disk ≤ D.faults f.disk) }
        ensures any_moment { (octets : List ℕ) → D.bytes disk ≡ Some octets → IfOk result (λ s. OpensLog D.moment D.left_since disk s.disk (D.may_leave disk) (log_of octets)) }
        ensures any_moment_at_a_fault { (octets : List ℕ) → D.bytes disk ≡ Some octets → IfErr result (λ f. OpensLog D.moment D.left_since disk f.disk (D.may_leave disk) (log_of octets)) }
    {
        match load(alloc, &mut disk, law, devices, maker) {
            Ok((store, gate)) => Ok(DiskStore {
                disk,
                store,
                gate,
                is_open: true,
            }),
            Err(cause) => Err(OpenFault { disk, cause }),
        }
    }

    /// Is it open? It is not, just behind a commit that answered `DiskFault`. While it is, what reads give is the only image,
    /// and has a log of the rows.
    pub fn is_open(&self) -> bool
        ensures value { result ≡ self.now.is_open }
        ensures images { result ≡ true → (image : List ℕ) → D.may_leave self.now.disk image → (D.bytes self.now.disk ≡ Some image) × IsLogOf self.now.store.rows (log_of image) }
    {
        self.is_open
    }

    /// What is seen of the row of a device, about an input, as `Store::read`: nothing but the count of reads changes.
    pub fn read(&mut self, d: DeviceId, asked: Asked) -> Result<Seen, AllocError>
        requires open { self.old.is_open ≡ true }
        requires device { IsDevice (length self.old.store.rows) d.0 }
        requires asked { IsAsked asked }
        ensures state { self.new ≡ record self.old { store = record self.old.store { reads = one_more self.old.store.reads } } }
        ensures ok { IfOk result (λ seen. seen ≡ seen_of (journal_of self.old.store.rows d.0) asked) }
        ensures told { IfOk result (λ seen. IsSome seen.reply ↔ IsRepeat seen.look) }
        ensures in_form { IsCharter self.old.store.charter }
        ensures lawful { AreLawful (L.follows self.old.store.charter) self.old.store.rows }
    {
        self.store.read(d, asked)
    }

    /// Writes an entry, where the row of the device still has the version that was read, and brings it onto the disk: four
    /// calls of it, two of them syncs. A stale one makes no call of the disk.
    pub fn commit(&mut self, d: DeviceId, read: u64, entry: Entry) -> Result<Commit, DiskBad>
        requires open { self.old.is_open ≡ true }
        requires device { IsDevice (length self.old.store.rows) d.0 }
        requires version { read ≤ version_of (journal_of self.old.store.rows d.0) }
        requires law { L.follows self.old.store.charter d.0 (take read (journal_of self.old.store.rows d.0)) entry }
        requires room { entry_count self.old.store.rows < 2 ^ 40 }
        ensures ok { IfOk result (Commits (row_of self.old.store.rows d.0) (row_of self.new.store.rows d.0) read entry) }
        ensures others { IfOk result (λ _. self.new.store ≡ record self.old.store { rows = slice_set self.old.store.rows (d.0 - 1) (row_of self.new.store.rows d.0) }) }
        ensures stale { (current : ℕ) → result ≡ Ok (commits.Stale read current) → self.new ≡ self.old }
        ensures committed { (version : ℕ) (octets : List ℕ) → result ≡ Ok (commits.Committed version) → D.bytes self.old.disk ≡ Some octets
            → (image : List ℕ) → D.may_leave self.new.disk image → log_of image ≡ log_of octets ++ record_of d.0 (read + 1) entry ∷ [] }
        ensures any_moment { (octets : List ℕ) → D.bytes self.old.disk ≡ Some octets → LeavesOnly D.moment D.left_since self.old.disk self.new.disk (WithOrWithout (log_of octets) (record_of d.0 (read + 1) entry)) }
        ensures no_room { (back : Entry) → result ≡ Err (bad.NoRoom back) → (self.new ≡ self.old) × (back ≡ entry) }
        ensures failed { IsErrOf result bad.DiskFault → Rose (D.faults self.old.disk) (D.faults self.new.disk) }
        ensures count { D.faults self.old.disk ≤ D.faults self.new.disk }
        ensures open { (self.new.is_open ≡ false) ↔ (result ≡ Err bad.DiskFault) }
    {
        let commit = self.store.commit(d, read, entry)?;
        let Commit::Committed(version) = commit else {
            return Ok(commit);
        };
        self.is_open = false;
        let record = Record::new(d.0, version, self.store.row(d).octets());
        self.gate = add_record(&mut self.disk, self.gate, &record)?;
        self.is_open = true;
        Ok(commit)
    }

    /// The disk.
    pub fn into_disk(self) -> D
        ensures { result ≡ self.disk }
    {
        let DiskStore { disk, .. } = self;
        disk
    }
}
