//! What each answer to an event is in a transcript.

use device_types::{EventAnswer, Lane};
use report_text::{put_transcript_line, transcript_line};
use std::test::Fail;

/// A line for each answer of `answer`, in its order.
const LINES: &str = "\
event 1: sent
event 2: taken
event 3: stopped
event 4: pushed
event 5: void replica
event 6: void window
event 7: void link
event 8: void hand
event 9: void outbox
event 10: ready 0
event 11: waiting gateway 2
event 12: waiting subscriber 1
event 13: repeat 3
event 14: settled 1
event 15: ahead 12
event 16: old gateway 2
event 17: old subscriber 1
event 18: old down 4
event 19: committed 10
event 20: stale 3 5
event 21: acked 7
event 22: accepted 18446744073709551615
event 23: old 2
";

fn answer(index: u64) -> EventAnswer {
    match index {
        1 => EventAnswer::Sent,
        2 => EventAnswer::Taken,
        3 => EventAnswer::Stopped,
        4 => EventAnswer::Pushed,
        5 => EventAnswer::VoidReplica,
        6 => EventAnswer::VoidWindow,
        7 => EventAnswer::VoidLink,
        8 => EventAnswer::VoidHand,
        9 => EventAnswer::VoidOutbox,
        10 => EventAnswer::Ready(0),
        11 => EventAnswer::Waiting(Lane::Gateway, 2),
        12 => EventAnswer::Waiting(Lane::Subscriber, 1),
        13 => EventAnswer::Repeat(3),
        14 => EventAnswer::Settled(1),
        15 => EventAnswer::Ahead(12),
        16 => EventAnswer::OldCall(Lane::Gateway, 2),
        17 => EventAnswer::OldCall(Lane::Subscriber, 1),
        18 => EventAnswer::OldCall(Lane::Down, 4),
        19 => EventAnswer::Committed(10),
        20 => EventAnswer::Stale {
            read: 3,
            current: 5,
        },
        21 => EventAnswer::Acked(7),
        22 => EventAnswer::Accepted(u64::MAX),
        _ => EventAnswer::Old(2),
    }
}

#[test]
fn tells_each_answer(rt: HostRuntime) -> Result<(), Fail> {
    let alloc = rt.alloc();
    let mut told = String::new(alloc);
    let mut text = String::new(alloc);
    for index in 1..=23 {
        let line = transcript_line(alloc, index, &answer(index))?;
        told.push_str(str::from_utf8(line.octets())?)?;
        put_transcript_line(&mut text, index, &answer(index))?;
    }
    assert_eq!(rt; told.as_str(), LINES);
    assert_eq!(rt; text.as_str(), LINES);
    Ok(())
}
