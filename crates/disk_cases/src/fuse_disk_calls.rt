//! A disk in memory that fails once.
use std::alloc::{AllocError, Global};
use std::test::Fail;
use store_disk::{Disk, FuseDisk};

/// How many calls pass before the one that fails; five calls, `+` for one that passed and `-` for the one that failed: a write of
/// `ab` at 0, a sync, a write of `cdef` at 0, a sync, and a write of `X` at 1; and what reads give then. The write that fails
/// leaves the first half.
const FAILED_ONCE: &str = "\
0 -++++ cXef
1 +-+++ cXef
2 ++-++ cX
3 +++-+ cXef
4 ++++- cdef
5 +++++ cXef
6 +++++ cXef
";

/// Tells what a call came to.
fn tell(told: &mut String, passed: bool) -> Result<(), AllocError> {
    told.push(if passed { '+' } else { '-' })
}

/// Writes a piece, and tells what that came to. Where its place is past the end it writes nothing.
fn write(told: &mut String, disk: &mut FuseDisk, at: u64, piece: &[u8]) -> Result<(), AllocError> {
    let Ok(count) = disk.len() else {
        return Ok(());
    };
    if count < at || piece.len() > 16 || at > 16 {
        return Ok(());
    }
    let passed = disk.write_at(at, piece).is_ok();
    tell(told, passed)
}

/// Syncs, and tells what that came to.
fn sync(told: &mut String, disk: &mut FuseDisk) -> Result<(), AllocError> {
    let passed = disk.sync().is_ok();
    tell(told, passed)
}

/// The five calls.
fn run(told: &mut String, disk: &mut FuseDisk) -> Result<(), AllocError> {
    write(told, disk, 0, b"ab")?;
    sync(told, disk)?;
    write(told, disk, 0, b"cdef")?;
    sync(told, disk)?;
    write(told, disk, 1, b"X")
}

/// A line of the table.
fn tell_run(alloc: Global, told: &mut String, calls: u64) -> Result<(), Fail> {
    let mut disk = FuseDisk::new(Vec::new(alloc), calls);
    write!(told, "{calls} ")?;
    run(told, &mut disk)?;
    let image = disk.image();
    let Ok(text) = std::str::from_utf8(&image) else {
        return Ok(());
    };
    writeln!(told, " {text}")?;
    Ok(())
}

#[test]
fn fails_once_and_leaves_half_of_a_write(rt: HostRuntime) -> Result<(), Fail> {
    let mut told = String::new(rt.alloc());
    for calls in 0..7 {
        tell_run(rt.alloc(), &mut told, calls)?;
    }
    assert_eq!(rt; told.as_str(), FAILED_ONCE);
    Ok(())
}
