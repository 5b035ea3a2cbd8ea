//! The two runs of a store on a disk.
ghost use Rattle.std.specs.Prelude.{◌≡◌, true, length, IfOk};
ghost use Rattle.session_store.specs.Charter.{IsCharter, follows_alone};
ghost use Rattle.session_store.specs.Rows.{IsDevice, journal_of, AreLawful};
ghost use Rattle.crash_run.specs.Stores.{IsStore};

use crate::kept::Kept;
use crate::maker::AloneMaker;
use device_types::DeviceId;
use echo_base::OutOfMemory;
use session_disk::{DiskBad, DiskStore, Maker};
use session_row::Commit;
use session_store::{Asked, EchoLaw};
use std::alloc::Global;
use store_disk::FuseDisk;

/// How many calls opening makes of a disk that holds no record.
const OPENING: u64 = 3;

/// Opens a store on a disk that passes the calls of opening, so that one that fails is of a disk that is starved.
fn open_store(
    alloc: Global,
    maker: &AloneMaker,
    disk: FuseDisk,
) -> Result<DiskStore<FuseDisk, EchoLaw>, OutOfMemory>
    ensures { IfOk result (λ store. IsStore maker.now store.store store.is_open) }
{
    match DiskStore::open(alloc, disk, maker.law()?, maker.devices(), maker) {
        Ok(store) => Ok(store),
        Err(_) => Err(OutOfMemory),
    }
}

/// The version of a device.
fn version_of(store: &mut DiskStore<FuseDisk, EchoLaw>, d: DeviceId) -> Result<u64, OutOfMemory>
    requires open { store.old.is_open ≡ true }
    requires device { IsDevice (length store.old.store.rows) d.0 }
    ensures same { (store.new.is_open ≡ true) × (store.new.store.rows ≡ store.old.store.rows) × (store.new.store.charter ≡ store.old.store.charter) }
    ensures version { IfOk result (λ version. version ≡ length (journal_of store.old.store.rows d.0)) }
    ensures in_form { IsCharter store.old.store.charter }
    ensures lawful { AreLawful (follows_alone store.old.store.charter) store.old.store.rows }
{
    let seen = store.read(d, Asked::Message(1))?;
    Ok(seen.version)
}

/// Commits the next entry of a device: was it acknowledged?
fn commit_next(
    store: &mut DiskStore<FuseDisk, EchoLaw>,
    maker: &AloneMaker,
    d: DeviceId,
) -> Result<bool, OutOfMemory>
    requires store { IsStore maker.now store.old.store store.old.is_open }
    requires device { IsDevice (length store.old.store.rows) d.0 }
    ensures { IfOk result (λ made. made ≡ true → IsStore maker.now store.new.store store.new.is_open) }
{
    let version = version_of(store, d)?;
    let Some(entry) = maker.entry(d, version)? else {
        return Ok(false);
    };
    match store.commit(d, version, entry) {
        Ok(Commit::Committed(_)) => Ok(true),
        Ok(Commit::Stale { .. }) | Err(DiskBad::DiskFault) => Ok(false),
        Err(DiskBad::NoRoom(_)) => Err(OutOfMemory),
    }
}

/// Commits the entries of the devices, by number, until one is not acknowledged: how many were.
fn commit_all(
    store: &mut DiskStore<FuseDisk, EchoLaw>,
    maker: &AloneMaker,
) -> Result<u64, OutOfMemory>
    requires { IsStore maker.now store.old.store store.old.is_open }
{
    let mut acknowledged = 0u64;
    for index in 0..maker.devices() {
        let d = DeviceId(index + 1);
        for _entry in 0..maker.count(d) {
            if !commit_next(store, maker, d)? {
                return Ok(acknowledged);
            }
            acknowledged = acknowledged.saturating_add(1);
        }
    }
    Ok(acknowledged)
}

/// The version of each device, by number.
fn versions_of(
    alloc: Global,
    store: &mut DiskStore<FuseDisk, EchoLaw>,
    devices: u32,
) -> Result<Vec<u64>, OutOfMemory>
    requires open { store.old.is_open ≡ true }
    requires devices { length store.old.store.rows ≡ devices }
{
    let mut versions = Vec::new(alloc);
    for index in 0..devices {
        versions.push(version_of(store, DeviceId(index + 1))?)?;
    }
    Ok(versions)
}

/// What came of commits to a disk that passes the calls of opening and so many more, and was then opened again.
pub(crate) fn crash(alloc: Global, maker: &AloneMaker, after: u32) -> Result<Kept, OutOfMemory> {
    let disk = FuseDisk::new(Vec::new(alloc), OPENING + u64::from(after));
    let mut store = open_store(alloc, maker, disk)?;
    let acknowledged = commit_all(&mut store, maker)?;
    let disk = store.into_disk();
    if disk.starved() {
        return Err(OutOfMemory);
    }
    let mut store = open_store(alloc, maker, FuseDisk::new(disk.image(), OPENING))?;
    let versions = versions_of(alloc, &mut store, maker.devices())?;
    let found = versions
        .iter()
        .fold(0u64, |found, version| found.saturating_add(*version));
    Ok(Kept {
        acknowledged,
        found,
        versions,
    })
}
