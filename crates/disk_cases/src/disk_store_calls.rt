//! A store on disks in memory that fail, and on files that were cut or changed.
ghost use Rattle.std.specs.Prelude.{◌≡◌, ◌<◌, true, length};

use crate::numbered_law::NumberedLaw;
use crate::two_devices::{commit_in_turns, open_two, version};
use session_disk::{DiskStore, OpenFault};
use std::alloc::AllocError;
use std::test::Fail;
use store_disk::{Disk, FuseDisk};

/// How many calls pass before the one that fails; how many of three commits were acknowledged: entry 0 of device 1, entry 0 of
/// device 2, entry 1 of device 1; and the versions of the two devices, as the disk is opened again. Opening makes three calls,
/// and a commit four; its third opens the gate.
const FAILED_ONCE: &str = "\
0 0: 0 0
1 0: 0 0
2 0: 0 0
3 0: 0 0
4 0: 0 0
5 0: 0 0
6 0: 1 0
7 1: 1 0
8 1: 1 0
9 1: 1 0
10 1: 1 1
11 2: 1 1
12 2: 1 1
13 2: 1 1
14 2: 2 1
15 3: 2 1
16 3: 2 1
";

/// A file of two records, and of half of a third one behind the closed gate at place 266: with one octet changed by 1, and cut
/// behind so many octets. The first gate is at place 0, the second at 133; a record has 132 octets. The places that come to the
/// same are told by the first.
const DAMAGED: &str = "\
changed
0: 0 0
1: Foreign { at: 0 }
133: 1 0
134: Foreign { at: 133 }
266: Foreign { at: 266 }
267: 1 1
cut
0: 0 0
2: Foreign { at: 0 }
134: Foreign { at: 133 }
267: 1 1
";

/// A file of one record in form 1, which has 110 octets: what it opens to; how many of three further commits were acknowledged,
/// how long the file is then, and in which form each of its records is; what it opens to then.
const FORMS: &str = "\
1 0
3 made: 511 octets, forms 1 2 2 2
3 1
";

/// Where the octets stand that tell the forms of these four records: each behind a gate and 14 octets. The gates are at places 0,
/// 111, 244 and 377.
const FORM_PLACES: &[usize] = &[15, 126, 259, 392];

/// Tells the versions of the two devices.
fn tell_versions<D: Disk>(
    told: &mut String,
    store: &mut DiskStore<D, NumberedLaw>,
) -> Result<(), AllocError>
    requires open { store.old.is_open ≡ true }
    requires count { length store.old.store.rows ≡ 2 }
{
    let one = version(store, 1)?;
    let two = version(store, 2)?;
    writeln!(told, "{one} {two}")
}

/// Opens a store on a disk, and tells the versions of its devices, or why it was not opened.
fn tell_opened<D: Disk + Drop>(
    told: &mut String,
    law: &NumberedLaw,
    disk: D,
) -> Result<(), AllocError> {
    match open_two(law, disk) {
        Ok(mut store) => tell_versions(told, &mut store),
        Err(fault) => writeln!(told, "{:?}", fault.cause),
    }
}

/// Three commits on a disk of these octets that passes so many calls: how many were acknowledged, and what reads give then.
fn run(law: &NumberedLaw, image: Vec<u8>, calls: u64) -> Result<(u32, Vec<u8>), AllocError> {
    let disk = FuseDisk::new(image, calls);
    match open_two(law, disk) {
        Ok(mut store) => {
            let made = commit_in_turns(&mut store, law, 3);
            let image = store.into_disk().image();
            Ok((made?, image))
        }
        Err(OpenFault { disk, .. }) => Ok((0, disk.image())),
    }
}

/// A line of the first table.
fn tell_run(told: &mut String, law: &NumberedLaw, calls: u64) -> Result<(), AllocError> {
    let (made, image) = run(law, Vec::new(law.alloc()), calls)?;
    write!(told, "{calls} {made}: ")?;
    tell_opened(told, law, FuseDisk::new(image, 100))
}

/// The lines of the first table.
fn tell_runs(told: &mut String, law: &NumberedLaw) -> Result<(), AllocError> {
    for calls in 0..17 {
        tell_run(told, law, calls)?;
    }
    Ok(())
}

#[test]
fn a_crash_loses_no_commit(rt: HostRuntime) -> Result<(), Fail> {
    let law = NumberedLaw::new(rt.alloc())?;
    let mut told = String::new(rt.alloc());
    tell_runs(&mut told, &law)?;
    assert_eq!(rt; told.as_str(), FAILED_ONCE);
    Ok(())
}

/// A file of two records, and of half of a third one.
fn two_records(law: &NumberedLaw) -> Result<Vec<u8>, AllocError> {
    let (_, image) = run(law, Vec::new(law.alloc()), 11)?;
    Ok(image)
}

/// Opens a disk, and tells that behind a number, unless it is what was told last.
pub(crate) fn tell_next<D: Disk + Drop>(
    told: &mut String,
    last: &mut String,
    law: &NumberedLaw,
    number: usize,
    disk: D,
) -> Result<(), AllocError> {
    let mut next = String::new(law.alloc());
    tell_opened(&mut next, law, disk)?;
    if next != *last {
        write!(told, "{number}: {next}")?;
        *last = next;
    }
    Ok(())
}

/// Opens the image with one octet changed.
fn tell_change(
    told: &mut String,
    last: &mut String,
    law: &NumberedLaw,
    image: &[u8],
    place: usize,
) -> Result<(), AllocError>
    requires { place < length image.now }
{
    let mut changed = image.to_vec(law.alloc())?;
    changed[place] ^= 1;
    tell_next(told, last, law, place, FuseDisk::new(changed, 100))
}

/// Opens the image with each of its octets changed in turn.
fn tell_changes(told: &mut String, law: &NumberedLaw, image: &[u8]) -> Result<(), AllocError> {
    let mut last = String::new(law.alloc());
    for place in 0..image.len() {
        tell_change(told, &mut last, law, image, place)?;
    }
    Ok(())
}

/// Opens the image cut behind each of its octets.
fn tell_cuts(told: &mut String, law: &NumberedLaw, image: &[u8]) -> Result<(), AllocError> {
    let mut last = String::new(law.alloc());
    for count in 0..image.len() + 1 {
        let cut = image[..count].to_vec(law.alloc())?;
        tell_next(told, &mut last, law, count, FuseDisk::new(cut, 100))?;
    }
    Ok(())
}

/// Opens what is left of a file.
fn tell_damage(told: &mut String, law: &NumberedLaw) -> Result<(), AllocError> {
    let image = two_records(law)?;
    told.push_str("changed\n")?;
    tell_changes(told, law, &image)?;
    told.push_str("cut\n")?;
    tell_cuts(told, law, &image)
}

#[test]
fn a_damaged_file_is_foreign_or_shorter(rt: HostRuntime) -> Result<(), Fail> {
    let law = NumberedLaw::new(rt.alloc())?;
    let mut told = String::new(rt.alloc());
    tell_damage(&mut told, &law)?;
    assert_eq!(rt; told.as_str(), DAMAGED);
    Ok(())
}

/// A file of entry 0 of device 1, its session in form 1.
fn in_form_1(law: &NumberedLaw) -> Result<Vec<u8>, AllocError> {
    let mut image = vec![in law.alloc(); 0u8; 112]?;
    // an open gate; device 1, version 1, the 96 octets of a session
    image[0] = 1;
    image[4] = 1;
    image[12] = 1;
    image[14] = 96;
    // its form, the gateway's tunnel, the device's address; behind it a closed gate
    image[15] = 1;
    image[88] = 1;
    image[92] = 1;
    Ok(image)
}

/// Tells in which form each record is.
fn tell_forms(told: &mut String, image: &[u8]) -> Result<(), AllocError> {
    for place in FORM_PLACES {
        if let Some(form) = image.get(*place) {
            write!(told, " {form}")?;
        }
    }
    told.push_str("\n")
}

/// Opens a file in form 1, commits, and opens it again.
fn tell_form_1(told: &mut String, law: &NumberedLaw) -> Result<(), AllocError> {
    let image = in_form_1(law)?;
    tell_opened(told, law, FuseDisk::new(image.to_vec(law.alloc())?, 100))?;
    let (made, image) = run(law, image, 100)?;
    write!(told, "{made} made: {} octets, forms", image.len())?;
    tell_forms(told, &image)?;
    tell_opened(told, law, FuseDisk::new(image, 100))
}

#[test]
fn a_file_in_form_1_gets_records_in_form_2(rt: HostRuntime) -> Result<(), Fail> {
    let law = NumberedLaw::new(rt.alloc())?;
    let mut told = String::new(rt.alloc());
    tell_form_1(&mut told, &law)?;
    assert_eq!(rt; told.as_str(), FORMS);
    Ok(())
}
