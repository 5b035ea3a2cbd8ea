//! Writing through to the disk.
ghost use Rattle.std.specs.Prelude.{◌≡◌, ◌≤◌, ◌<◌, ◌↔◌, ◌⊎◌, ◌+◌, ◌^◌, ℕ, List, Some, length, take, option_map, OnOk, OnErr, IfSome, IsSome};
ghost use Rattle.echo_base.specs.Outside.{Rose};
ghost use Rattle.store_disk.specs.Disk.{written_at, Torn};
ghost use Rattle.store_disk.specs.Gate.{IsShut, IsGrown};
ghost use Rattle.store_disk.specs.Moments.{IsDurable, LeavesOnly};

use crate::disk::{Disk, DiskFault};

/// Writes octets over those from `at` on, and past the end, and brings them onto the disk: two calls of it.
pub fn write_through<D: Disk>(disk: &mut D, at: u64, piece: &[u8]) -> Result<(), DiskFault>
    requires durable { IsDurable (D.bytes disk.old) (D.may_leave disk.old) }
    requires place { IfSome (D.bytes disk.old) (λ octets. at ≤ length octets) }
    requires end { at + length piece.now < 2 ^ 63 }
    ensures written { OnOk result (D.bytes disk.new ≡ option_map (written_at at piece.now) (D.bytes disk.old)) }
    ensures durable { OnOk result (IsDurable (D.bytes disk.new) (D.may_leave disk.new)) }
    ensures any_moment { (octets : List ℕ) → D.bytes disk.old ≡ Some octets → LeavesOnly D.moment D.left_since disk.old disk.new (Torn at (length piece.now) octets) }
    ensures tells { IsSome (D.bytes disk.new) ↔ IsSome (D.bytes disk.old) }
    ensures count { D.faults disk.old ≤ D.faults disk.new }
    ensures failed { OnErr result (Rose (D.faults disk.old) (D.faults disk.new)) }
{
    disk.write_at(at, piece)?;
    disk.sync()?;
    Ok(())
}

/// Writes a record and the next gate behind the closed gate, and brings them onto the disk; then opens the gate, and brings that
/// onto the disk: four calls of it. At any moment a crash leaves a file in which the gate is closed, or open in front of all of it.
///
/// ```rust
/// // a closed gate behind no record yet; then the record `ab`, and a closed gate behind it
/// let mut disk = FuseDisk::new(Vec::from_slice(alloc, &[0])?, 9);
/// assert!(rt; append(&mut disk, 0, b"ab\0").is_ok());
/// assert_eq!(rt; disk.image().as_slice(), b"\x01ab\0".as_slice());
/// ```
pub fn append<D: Disk>(disk: &mut D, gate: u64, piece: &[u8]) -> Result<(), DiskFault>
    requires durable { IsDurable (D.bytes disk.old) (D.may_leave disk.old) }
    requires shut { IfSome (D.bytes disk.old) (λ octets. IsShut (take gate octets) octets) }
    requires end { gate + 1 + length piece.now < 2 ^ 63 }
    ensures grown { OnOk result ((octets : List ℕ) → D.bytes disk.old ≡ Some octets → IfSome (D.bytes disk.new) (IsGrown (take gate octets) piece.now)) }
    ensures durable { OnOk result (IsDurable (D.bytes disk.new) (D.may_leave disk.new)) }
    ensures any_moment { (octets : List ℕ) → D.bytes disk.old ≡ Some octets → LeavesOnly D.moment D.left_since disk.old disk.new (λ image. IsShut (take gate octets) image ⊎ IsGrown (take gate octets) piece.now image) }
    ensures tells { IsSome (D.bytes disk.new) ↔ IsSome (D.bytes disk.old) }
    ensures count { D.faults disk.old ≤ D.faults disk.new }
    ensures failed { OnErr result (Rose (D.faults disk.old) (D.faults disk.new)) }
{
    write_through(disk, gate + 1, piece)?;
    write_through(disk, gate, &[1])?;
    Ok(())
}
