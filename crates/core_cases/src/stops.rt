//! Replicas that stop at any moment, and events that are lost or come twice. What is written behind the transcript is what `plain`
//! writes each time.

use crate::case_texts::{ATTACH, lines};
use crate::runs::{tell_run, told_run};
use std::alloc::{AllocError, Global};
use std::test::Fail;

/// A device that asks to attach.
const ASKS: &str = "[subscribers]|row|[trace]|1 attach";

/// The events of its one message, each with what it comes to, and a stop of the replica behind none of them to behind all.
const STOPPED: &str = "\
stop 1 = stopped
send 1 1 = sent
take 1 1 1 = taken
read 1 = ready 0
write 1 = committed 1
reply 1 1 = acked 1

send 1 1 = sent
stop 1 = stopped
take 1 1 1 = taken
read 1 = ready 0
write 1 = committed 1
reply 1 1 = acked 1

send 1 1 = sent
take 1 1 1 = taken
stop 1 = stopped
read 1 = void hand
write 1 = void hand
reply 1 1 = void link

send 1 1 = sent
take 1 1 1 = taken
read 1 = ready 0
stop 1 = stopped
write 1 = void hand
reply 1 1 = void link

send 1 1 = sent
take 1 1 1 = taken
read 1 = ready 0
write 1 = committed 1
stop 1 = stopped
reply 1 1 = acked 1

send 1 1 = sent
take 1 1 1 = taken
read 1 = ready 0
write 1 = committed 1
reply 1 1 = acked 1
stop 1 = stopped
";

/// A whole attach by two replicas, each event with what it comes to: six messages and the answers to four calls make ten steps.
const ATTACHES: &str = "\
send 1 1 = sent
take 1 1 1 = taken
read 1 = ready 0
write 1 = committed 1
reply 1 1 = acked 1
push 1 subscriber 1 = pushed
effect 1 subscriber 1 = accepted 1
answer 2 1 subscriber 1 = taken
read 2 = ready 1
write 2 = committed 2
settle 1 subscriber 1 = settled 1
push 1 down 1 = pushed
effect 1 down 1 = accepted 1
settle 1 down 1 = settled 1
send 1 2 = sent
take 2 1 2 = taken
read 2 = ready 2
write 2 = committed 3
reply 1 2 = acked 2
push 1 down 2 = pushed
effect 1 down 2 = accepted 2
settle 1 down 2 = settled 2
send 1 3 = sent
take 1 1 3 = taken
read 1 = ready 3
write 1 = committed 4
reply 1 3 = acked 3
push 1 subscriber 2 = pushed
effect 1 subscriber 2 = accepted 2
answer 1 1 subscriber 2 = taken
read 1 = ready 4
write 1 = committed 5
settle 1 subscriber 2 = settled 2
push 1 gateway 1 = pushed
effect 1 gateway 1 = accepted 1
answer 2 1 gateway 1 = taken
read 2 = ready 5
write 2 = committed 6
settle 1 gateway 1 = settled 1
push 1 down 3 = pushed
effect 1 down 3 = accepted 3
settle 1 down 3 = settled 3
send 1 4 = sent
take 2 1 4 = taken
read 2 = ready 6
write 2 = committed 7
reply 1 4 = acked 4
send 1 5 = sent
take 1 1 5 = taken
read 1 = ready 7
write 1 = committed 8
reply 1 5 = acked 5
send 1 6 = sent
take 2 1 6 = taken
read 2 = ready 8
write 2 = committed 9
reply 1 6 = acked 6
push 1 gateway 2 = pushed
effect 1 gateway 2 = accepted 2
answer 1 1 gateway 2 = taken
read 1 = ready 9
write 1 = committed 10
settle 1 gateway 2 = settled 2
";

/// How many events the attach has.
const EVENTS: usize = 63;

/// No place in the attach. Place p stands behind p of its events.
const NOWHERE: usize = EVENTS + 1;

/// What is changed of a schedule.
#[derive(Clone, Copy)]
struct Change {
    /// The place where replica 1 stops.
    first: usize,
    /// The place where replica 2 stops, behind the other stop where both places are one.
    second: usize,
    /// The place of an event that is lost or comes twice.
    event: usize,
    /// How many times it comes.
    times: u32,
}

/// Puts the event of a line so many times behind a text. The piece behind the last line has none.
fn put_event(text: &mut String, line: &str, times: u32) -> Result<(), AllocError> {
    if let Some((event, _)) = line.split_once(" = ") {
        for _ in 0..times {
            writeln!(text, "{event}")?;
        }
    }
    Ok(())
}

/// The case of these lines, with the events of a schedule under a change.
fn changed(
    alloc: Global,
    front: &str,
    schedule: &str,
    change: Change,
) -> Result<String, AllocError> {
    let mut text = lines(alloc, front)?;
    text.push_str("[schedule]\n")?;
    for (place, line) in schedule.split('\n').enumerate() {
        if place == change.first {
            text.push_str("stop 1\n")?;
        }
        if place == change.second {
            text.push_str("stop 2\n")?;
        }
        let times = if place == change.event {
            change.times
        } else {
            1
        };
        put_event(&mut text, line, times)?;
    }
    Ok(text)
}

/// The case of these lines and of the events of a schedule.
fn scheduled(alloc: Global, front: &str, schedule: &str) -> Result<String, AllocError> {
    let change = Change {
        first: NOWHERE,
        second: NOWHERE,
        event: NOWHERE,
        times: 1,
    };
    changed(alloc, front, schedule, change)
}

/// The case of a whole attach.
pub(crate) fn attach_case(alloc: Global) -> Result<String, AllocError> {
    scheduled(alloc, ATTACH, ATTACHES)
}

/// Puts the transcript behind a text that the lines of a schedule say.
fn put_transcript(wanted: &mut String, schedule: &str) -> Result<(), AllocError> {
    for (place, line) in schedule.lines().enumerate() {
        if let Some((_, answer)) = line.split_once(" = ") {
            let number = place.saturating_add(1);
            writeln!(wanted, "event {number}: {answer}")?;
        }
    }
    Ok(())
}

/// Puts what `replay` makes of a schedule behind one text, and behind the other its transcript by hand and what `plain` writes.
fn tell_schedule(
    alloc: Global,
    told: &mut String,
    wanted: &mut String,
    front: &str,
    schedule: &str,
) -> Result<(), Fail> {
    let text = scheduled(alloc, front, schedule)?;
    tell_run(told, alloc, "replay", text.as_bytes(), &[], &[])?;
    put_transcript(wanted, schedule)?;
    tell_run(wanted, alloc, "plain", text.as_bytes(), &[], &[])
}

/// What the schedules come to, and what they are to come to.
fn told_schedules(alloc: Global) -> Result<(String, String), Fail> {
    let (mut told, mut wanted) = (String::new(alloc), String::new(alloc));
    for schedule in STOPPED.split("\n\n") {
        tell_schedule(alloc, &mut told, &mut wanted, ASKS, schedule)?;
    }
    tell_schedule(alloc, &mut told, &mut wanted, ATTACH, ATTACHES)?;
    Ok((told, wanted))
}

#[test]
fn a_stop_loses_what_is_in_hand(rt: HostRuntime) -> Result<(), Fail> {
    let (told, wanted) = told_schedules(rt.alloc())?;
    assert_eq!(rt; told.as_str(), wanted.as_str());
    Ok(())
}

/// Whether a run wrote a transcript of so many lines, and then these lines.
fn ends_as(run: &str, finals: &str, events: usize) -> bool {
    match run.strip_suffix(finals) {
        Some(transcript) => transcript.lines().count() == events,
        None => false,
    }
}

/// Puts a run of the attach under a change behind a text, if it is not a transcript of so many events and what `plain` writes.
fn tell_change(
    alloc: Global,
    told: &mut String,
    finals: &str,
    change: Change,
    events: usize,
) -> Result<(), Fail> {
    let text = changed(alloc, ATTACH, ATTACHES, change)?;
    let run = told_run(alloc, "replay", text.as_bytes())?;
    if !ends_as(run.as_str(), finals, events) {
        writeln!(told, "{text}{run}")?;
    }
    Ok(())
}

/// Replica 1 stops at each place, and replica 2 at none or at each: puts each run that does not end as `plain` does behind a text, and
/// how many runs there were.
fn tell_stops(alloc: Global, told: &mut String, finals: &str) -> Result<(), Fail> {
    let mut runs = 0u32;
    for first in 0..NOWHERE {
        for second in 0..=NOWHERE {
            let change = Change {
                first,
                second,
                event: NOWHERE,
                times: 1,
            };
            let stops = if second == NOWHERE { 1 } else { 2 };
            tell_change(alloc, told, finals, change, EVENTS + stops)?;
            runs = runs.saturating_add(1);
        }
    }
    writeln!(told, "{runs} runs with stops")?;
    Ok(())
}

/// Each event is lost, or comes twice: the same.
fn tell_losses(alloc: Global, told: &mut String, finals: &str) -> Result<(), Fail> {
    let mut runs = 0u32;
    for event in 0..EVENTS {
        for (times, events) in [(0, EVENTS - 1), (2, EVENTS + 1)] {
            let change = Change {
                first: NOWHERE,
                second: NOWHERE,
                event,
                times,
            };
            tell_change(alloc, told, finals, change, events)?;
            runs = runs.saturating_add(1);
        }
    }
    writeln!(told, "{runs} runs with an event lost or twice")?;
    Ok(())
}

/// How many runs there are: at 64 places one stop, and at 64 * 64 pairs of places two; and two for each of 63 events.
const RUNS: &str = "\
4160 runs with stops
126 runs with an event lost or twice
";

#[test]
fn a_stop_anywhere_changes_no_final_text(rt: HostRuntime) -> Result<(), Fail> {
    let alloc = rt.alloc();
    let text = lines(alloc, ATTACH)?;
    let finals = told_run(alloc, "plain", text.as_bytes())?;
    let mut told = String::new(alloc);
    tell_stops(alloc, &mut told, finals.as_str())?;
    tell_losses(alloc, &mut told, finals.as_str())?;
    assert_eq!(rt; told.as_str(), RUNS);
    Ok(())
}
