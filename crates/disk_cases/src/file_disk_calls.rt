//! A store on a file of the system: written, opened again, and cut.
ghost use Rattle.std.specs.Prelude.{◌≤◌, length};

use crate::disk_store_calls::tell_next;
use crate::numbered_law::NumberedLaw;
use crate::two_devices::{commit_in_turns, open_two};
use std::alloc::AllocError;
use std::fs::{self, OpenOptions};
use std::io;
use std::test::Fail;
use store_disk::FileDisk;

const FOLDER: &str = "disk_cases_files";

const PATH: &str = "disk_cases_files/rows";

/// How many of three commits were acknowledged; and the file of three records, cut behind so many octets: a gate and a record have
/// 133 octets. The counts that come to the same are told by the first. The whole file has 400.
const WRITTEN: &str = "\
3 made
0: 0 0
2: Foreign { at: 0 }
134: Foreign { at: 133 }
267: Foreign { at: 266 }
400: 2 1
";

/// A disk over the file at that path.
fn file_disk(rt: &HostRuntime) -> io::Result<FileDisk> {
    let file = OpenOptions::new()
        .read(true)
        .write(true)
        .create(true)
        .open(rt, PATH)?;
    Ok(FileDisk::new(file))
}

/// Three commits on a file that is empty: how many were acknowledged.
fn write_three(law: &NumberedLaw, disk: FileDisk) -> Result<u32, AllocError> {
    match open_two(law, disk) {
        Ok(mut store) => commit_in_turns(&mut store, law, 3),
        Err(_) => Ok(0),
    }
}

/// Opens the file cut behind each of its octets.
fn tell_cuts(
    rt: &HostRuntime,
    told: &mut String,
    law: &NumberedLaw,
    whole: &[u8],
) -> Result<(), Fail> {
    let mut last = String::new(law.alloc());
    for count in 0..whole.len() + 1 {
        fs::write(rt, PATH, &whole[..count])?;
        tell_next(told, &mut last, law, count, file_disk(rt)?)?;
    }
    Ok(())
}

/// Tells how many of three commits were acknowledged on a file, and what it opens to, cut behind each of its octets.
fn tell_file(rt: &HostRuntime, told: &mut String, law: &NumberedLaw) -> Result<(), Fail> {
    let _ = fs::remove_dir_all(rt, FOLDER);
    fs::create_dir(rt, FOLDER)?;
    let made = write_three(law, file_disk(rt)?)?;
    writeln!(told, "{made} made")?;
    tell_cuts(rt, told, law, &fs::read(rt, PATH)?)?;
    fs::remove_dir_all(rt, FOLDER)?;
    Ok(())
}

#[test]
fn a_file_keeps_what_was_committed(rt: HostRuntime) -> Result<(), Fail> {
    let law = NumberedLaw::new(rt.alloc())?;
    let mut told = String::new(rt.alloc());
    tell_file(&rt, &mut told, &law)?;
    assert_eq!(rt; told.as_str(), WRITTEN);
    Ok(())
}
