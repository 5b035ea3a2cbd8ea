//! The lines of a device's streams.

use device_types::{Octets, Second, Session};
use echo_base::OutOfMemory;
use epoch_agents::{EpochAnswer, Merged};
use report_text::{epoch_line, merge_line, session_line};
use std::alloc::Global;
use std::test::Fail;

/// A line for each answer of `answer`, in its order, then a committed message, and the line of a session, which has none of its second
/// connection.
const LINES: &str = "\
event 1: sent
event 2: void window
event 3: void link
event 4: repeat 3
event 5: over 2
event 6: low 7
event 7: committed 10
event 8: ahead 0
event 9: old
event 10: acked 18446744073709551615
event 11: renamed 8
event 12: over
merge 65535 4 6 5
session detached link off area 000000 0 bearer none radio 0
";

fn answer(number: u64) -> EpochAnswer {
    match number {
        1 => EpochAnswer::Sent,
        2 => EpochAnswer::VoidWindow,
        3 => EpochAnswer::VoidLink,
        4 => EpochAnswer::Repeat(3),
        5 => EpochAnswer::OverAt(2),
        6 => EpochAnswer::Low(7),
        7 => EpochAnswer::Committed(10),
        8 => EpochAnswer::Ahead(0),
        9 => EpochAnswer::Old,
        10 => EpochAnswer::Acked(u64::MAX),
        11 => EpochAnswer::Renamed(8),
        _ => EpochAnswer::Over,
    }
}

/// Puts a line behind those that were told.
fn put(told: &mut String, line: Octets) -> Result<(), Fail> {
    told.push_str(str::from_utf8(line.octets())?)?;
    Ok(())
}

/// The line of a session with a second connection.
fn line_of_session(alloc: Global) -> Result<Octets, OutOfMemory> {
    let mut session = Session::opening(alloc);
    session.second = Second::Active;
    session_line(alloc, &session)
}

#[test]
fn tells_streams(rt: HostRuntime) -> Result<(), Fail> {
    let alloc = rt.alloc();
    let mut told = String::new(alloc);
    for number in 1..=12 {
        put(&mut told, epoch_line(alloc, number, answer(number))?)?;
    }
    let entry = Merged {
        a: 9,
        stamp: 6,
        n: 5,
    };
    put(&mut told, merge_line(alloc, 65535, 4, entry)?)?;
    put(&mut told, line_of_session(alloc)?)?;
    assert_eq!(rt; told.as_str(), LINES);
    Ok(())
}
