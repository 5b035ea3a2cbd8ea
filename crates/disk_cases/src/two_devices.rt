//! A store of two devices on a disk, whose entries are numbered.
ghost use Rattle.std.specs.Prelude.{◌≡◌, ◌≤◌, true, length, IfOk};
ghost use Rattle.session_store.specs.Rows.{IsDevice, AreLawful, journal_of};

use crate::numbered_law::NumberedLaw;
use device_types::DeviceId;
use session_disk::{DiskStore, Maker, OpenCause, OpenFault};
use session_store::{Asked, RowLaw};
use std::alloc::AllocError;
use store_disk::Disk;

/// Opens a store of two devices on a disk.
pub fn open_two<D: Disk>(
    law: &NumberedLaw,
    disk: D,
) -> Result<DiskStore<D, NumberedLaw>, OpenFault<D>>
    ensures open { IfOk result (λ s. s.is_open ≡ true) }
    ensures count { IfOk result (λ s. length s.store.rows ≡ 2) }
{
    let Ok(copy) = law.copy() else {
        return Err(OpenFault {
            disk,
            cause: OpenCause::OutOfMemory,
        });
    };
    DiskStore::open(law.alloc(), disk, copy, 2, law)
}

/// The version of a device.
pub fn version<D: Disk, L: RowLaw>(store: &mut DiskStore<D, L>, d: u32) -> Result<u64, AllocError>
    requires open { store.old.is_open ≡ true }
    requires device { IsDevice (length store.old.store.rows) d }
    ensures same { (store.new.is_open ≡ true) × (store.new.store.rows ≡ store.old.store.rows) }
    ensures version { IfOk result (λ version. version ≡ length (journal_of store.old.store.rows d)) }
    ensures lawful { AreLawful (L.follows store.old.store.charter) store.old.store.rows }
{
    let seen = store.read(DeviceId(d), Asked::Message(1))?;
    Ok(seen.version)
}

/// Commits the next entry of a device: was it acknowledged?
#[tactic(auto, using(crate::proofs::Two::next_follows, crate::proofs::Two::same_length))]
fn commit_next<D: Disk>(
    store: &mut DiskStore<D, NumberedLaw>,
    law: &NumberedLaw,
    d: u32,
) -> Result<bool, AllocError>
    requires open { store.old.is_open ≡ true }
    requires count { length store.old.store.rows ≡ 2 }
    requires device { IsDevice 2 d }
    ensures open { IfOk result (λ made. made ≡ true → store.new.is_open ≡ true) }
    ensures count { IfOk result (λ made. made ≡ true → length store.new.store.rows ≡ 2) }
{
    let read = version(store, d)?;
    let Some(entry) = law.entry(DeviceId(d), read)? else {
        return Ok(false);
    };
    match store.commit(DeviceId(d), read, entry) {
        Ok(_) => Ok(true),
        Err(_) => Ok(false),
    }
}

/// Commits so many entries, of device 1 and of device 2 in turns, until one is not acknowledged: how many were.
pub fn commit_in_turns<D: Disk>(
    store: &mut DiskStore<D, NumberedLaw>,
    law: &NumberedLaw,
    commits: u32,
) -> Result<u32, AllocError>
    requires open { store.old.is_open ≡ true }
    requires count { length store.old.store.rows ≡ 2 }
    ensures made { IfOk result (λ made. made ≤ commits) }
{
    let mut made = 0;
    while made < commits && commit_next(store, law, made % 2 + 1)? {
        made += 1;
    }
    Ok(made)
}
