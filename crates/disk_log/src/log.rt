//! The log on a disk: it is opened, and records are added to it.
ghost use Rattle.std.specs.Prelude.{◌≡◌, ◌≤◌, ◌<◌, ◌↔◌, ◌+◌, ◌++◌, ◌∷◌, [], ◌^◌, ℕ, List, Some, length, option_map, IfOk, OnOk, OnErr, IfSome, IsSome, IsErrOf};
ghost use Rattle.echo_base.specs.Outside.{Rose};
ghost use Rattle.store_disk.specs.Moments.{IsDurable, LeavesOnly};
ghost use Rattle.disk_log.specs.Log.{log_of, EndsAt, gated, WithOrWithout};
ghost use Rattle.disk_log.specs.Opening.{OpensLog};
ghost use Rattle.disk_log.specs.Record.{size_of};
ghost use Rattle.disk_log.specs.declared.log.LogFault.TheVariants as faults;

use crate::record::{MOST_SESSION, Record};
use std::alloc::{AllocError, Global};
use store_disk::{Disk, DiskFault, append, write_through};

/// Why a log was not opened.
#[derive(Clone, Copy)]
pub enum LogFault {
    /// A call of the disk failed.
    DiskFault,
    /// There was no memory.
    OutOfMemory,
}

impl From<DiskFault> for LogFault {
    ghost from_gives = { λ _ e. e ≡ faults.DiskFault };

    fn from(_: DiskFault) -> LogFault {
        LogFault::DiskFault
    }
}

impl From<AllocError> for LogFault {
    ghost from_gives = { λ _ e. e ≡ faults.OutOfMemory };

    fn from(_: AllocError) -> LogFault {
        LogFault::OutOfMemory
    }
}

/// A file that is on its disk, of at most one octet, becomes a closed gate. Tells how many octets there are then.
fn first_gate<D: Disk>(disk: &mut D) -> Result<u64, DiskFault>
    requires durable { IsDurable (D.bytes disk.old) (D.may_leave disk.old) }
    ensures octets { IfOk result (λ n. IfSome (D.bytes disk.new) (λ now. n ≡ length now)) }
    ensures some { IfOk result (λ n. 1 ≤ n) }
    ensures gated { OnOk result (D.bytes disk.new ≡ option_map gated (D.bytes disk.old)) }
    ensures durable { OnOk result (IsDurable (D.bytes disk.new) (D.may_leave disk.new)) }
    ensures any_moment { (octets : List ℕ) → D.bytes disk.old ≡ Some octets → LeavesOnly D.moment D.left_since disk.old disk.new (λ image. log_of image ≡ log_of octets) }
    ensures count { D.faults disk.old ≤ D.faults disk.new }
    ensures failed { OnErr result (Rose (D.faults disk.old) (D.faults disk.new)) }
{
    let count = disk.len()?;
    if count > 1 {
        return Ok(count);
    }
    write_through(disk, 0, &[0])?;
    Ok(1)
}

/// Opens the log on a disk: gives all its octets, behind a sync. On a file of at most one octet it writes a closed gate before it
/// reads, and syncs. At any moment a crash leaves what it might have left before, or, from the end of the first sync on, a file of
/// that log.
pub fn open_log<D: Disk>(alloc: Global, disk: &mut D) -> Result<Vec<u8>, LogFault>
    ensures read { IfOk result (λ octets. IfSome (D.bytes disk.new) (λ now. octets.items ≡ now)) }
    ensures some { IfOk result (λ octets. 1 ≤ length octets.items) }
    ensures gated { OnOk result (D.bytes disk.new ≡ option_map gated (D.bytes disk.old)) }
    ensures durable { OnOk result (IsDurable (D.bytes disk.new) (D.may_leave disk.new)) }
    ensures any_moment { (octets : List ℕ) → D.bytes disk.old ≡ Some octets → OpensLog D.moment D.left_since disk.old disk.new (D.may_leave disk.old) (log_of octets) }
    ensures count { D.faults disk.old ≤ D.faults disk.new }
    ensures failed { IsErrOf result faults.DiskFault → Rose (D.faults disk.old) (D.faults disk.new) }
{
    disk.sync()?;
    let count = first_gate(disk)?;
    let mut octets = vec![in alloc; 0; count as usize]?;
    disk.read_at(0, &mut octets)?;
    Ok(octets)
}

/// Adds a record behind the last gate, which is closed: four calls of the disk, two of them syncs. Tells the place of the next
/// gate. At any moment a crash leaves the log as it was, or the log with the record. It takes no memory.
pub fn add_record<D: Disk>(disk: &mut D, gate: u64, addition: &Record) -> Result<u64, DiskFault>
    requires durable { IsDurable (D.bytes disk.old) (D.may_leave disk.old) }
    requires gate { IfSome (D.bytes disk.old) (EndsAt gate) }
    requires end { gate < 2 ^ 62 }
    requires session { length addition.now.session ≤ MOST_SESSION }
    ensures next { IfOk result (λ next. next ≡ gate + 1 + size_of addition.now) }
    ensures added { (octets : List ℕ) → D.bytes disk.old ≡ Some octets → IfOk result (λ next. IfSome (D.bytes disk.new) (λ now. (log_of now ≡ log_of octets ++ addition.now ∷ []) × EndsAt next now)) }
    ensures durable { OnOk result (IsDurable (D.bytes disk.new) (D.may_leave disk.new)) }
    ensures any_moment { (octets : List ℕ) → D.bytes disk.old ≡ Some octets → LeavesOnly D.moment D.left_since disk.old disk.new (WithOrWithout (log_of octets) addition.now) }
    ensures tells { IsSome (D.bytes disk.new) ↔ IsSome (D.bytes disk.old) }
    ensures count { D.faults disk.old ≤ D.faults disk.new }
    ensures failed { OnErr result (Rose (D.faults disk.old) (D.faults disk.new)) }
{
    append(disk, gate, addition.piece().octets())?;
    Ok(gate + 1 + addition.size() as u64)
}
