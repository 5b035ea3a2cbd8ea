//! Worlds of streams.
ghost use Rattle.std.specs.Prelude.{◌≡◌, true, All, IfOk};
ghost use Rattle.std.specs.Arc.{arc_value};
ghost use Rattle.device_types.specs.Line.{IsNumbered};
ghost use Rattle.epoch_agents.specs.Answer.{IsEvent};

use agent_order::Line;
use device_types::{Body, Message, Messages};
use epoch_agents::{EpochEvent, EpochWorld, Stream};
use std::alloc::{AllocError, Global};
use std::sync::Arc;
use std::test::Fail;

/// Schedules. `streams` begins a new world, with the station and the index of each stream, which has five messages. An event has a
/// line, with its answer behind the colon: `send` has a stream and a message, `arrive` also the stamp between them, and `learn` an
/// event, from 1. `merge` has the stream, the stamp and the number of each entry.
const SCHEDULES: &str = "\
streams 1/1 2/1
send 2 1: Sent
arrive 2 1 1: Committed(1)
send 1 1: Sent
arrive 1 1 1: Low(1)
learn 4: Renamed(2)
send 1 1: Sent
arrive 1 2 1: Committed(2)
arrive 1 1 1: Low(2)
arrive 2 1 1: Repeat(1)
merge: 2/1:1 1/2:1
streams 1/1 2/1
send 1 1: Sent
arrive 1 1 1: Committed(1)
send 2 1: Sent
arrive 2 1 1: Committed(2)
send 1 2: Sent
arrive 1 1 2: OverAt(1)
learn 6: Over
send 1 2: VoidWindow
merge: 1/1:1 2/1:1
streams 1/1
send 1 4: Sent
send 1 5: VoidWindow
send 1 1: Sent
arrive 1 1 1: Committed(1)
learn 4: Acked(1)
learn 4: Old
send 1 1: VoidWindow
send 1 5: Sent
arrive 1 1 5: Ahead(1)
learn 9: Old
send 1 2: Sent
arrive 1 1 2: Committed(2)
arrive 1 1 2: Repeat(2)
learn 13: Acked(2)
learn 12: Old
send 1 6: VoidWindow
merge: 1/1:1 1/1:2
streams 1/1 2/1
arrive 1 1 1: VoidLink
learn 1: VoidLink
send 1 1: Sent
learn 3: VoidLink
arrive 1 2 1: VoidLink
arrive 2 1 1: VoidLink
learn 0: VoidLink
learn 9: VoidLink
arrive 1 1 1: Committed(1)
learn 2: VoidLink
learn 11: VoidLink
learn 9: Acked(1)
send 1 6: VoidWindow
merge: 1/1:1
streams 1/1 2/1 3/1
send 3 1: Sent
arrive 3 1 1: Committed(1)
send 1 1: Sent
arrive 1 1 1: Low(1)
learn 4: Renamed(2)
send 2 1: Sent
arrive 2 1 1: Low(1)
learn 7: Renamed(2)
send 2 1: Sent
arrive 2 2 1: Committed(2)
send 1 1: Sent
arrive 1 2 1: Low(2)
learn 4: Old
learn 12: Renamed(3)
send 1 1: Sent
arrive 1 3 1: Committed(3)
arrive 1 1 1: Low(3)
arrive 2 2 1: Repeat(1)
merge: 3/1:1 2/2:1 1/3:1
streams 1/1 2/1 1/2
send 1 1: Sent
arrive 1 1 1: Committed(1)
send 2 1: Sent
arrive 2 1 1: Committed(2)
send 1 2: Sent
arrive 1 1 2: OverAt(1)
send 3 1: Sent
arrive 3 1 1: Low(1)
learn 8: Renamed(2)
learn 6: Over
send 3 1: Sent
arrive 3 2 1: Committed(3)
arrive 1 1 1: Repeat(1)
learn 13: Acked(1)
learn 2: Old
learn 6: Over
send 1 2: VoidWindow
merge: 1/1:1 2/1:1 3/2:1
streams 1/1 1/2 0/1
send 2 1: Sent
arrive 2 1 1: Committed(1)
send 1 1: Sent
arrive 1 1 1: Low(1)
send 3 1: Sent
arrive 3 1 1: Low(1)
learn 6: Renamed(2)
send 3 1: Sent
arrive 3 2 1: Committed(2)
learn 4: Renamed(2)
send 1 1: Sent
arrive 1 2 1: Committed(3)
merge: 2/1:1 3/2:1 1/2:1
streams 1/1 1/2 2/1
send 1 1: Sent
arrive 1 1 1: Committed(1)
send 2 1: Sent
arrive 2 1 1: Committed(2)
send 3 1: Sent
arrive 3 1 1: Committed(3)
merge: 1/1:1 2/1:1 3/1:1
streams 1/1
send 1 2: Sent
arrive 1 1 2: Ahead(0)
learn 2: Old
send 1 1: Sent
arrive 1 1 1: Committed(1)
arrive 1 1 2: Committed(2)
learn 6: Acked(2)
learn 5: Old
merge: 1/1:1 1/1:2
streams 1/1 2/1
send 2 1: Sent
arrive 2 1 1: Committed(1)
send 1 2: Sent
arrive 1 1 2: Low(1)
arrive 1 1 2: Low(1)
learn 4: Renamed(2)
learn 5: Old
merge: 2/1:1
streams 1/1 2/1 3/1
send 3 1: Sent
arrive 3 1 1: Committed(1)
send 2 1: Sent
arrive 2 1 1: Low(1)
learn 4: Renamed(2)
send 2 1: Sent
arrive 2 2 1: Committed(2)
send 1 1: Sent
arrive 1 1 1: Low(2)
learn 9: Renamed(3)
send 1 1: Sent
arrive 1 3 1: Committed(3)
send 2 2: Sent
arrive 2 2 2: OverAt(1)
merge: 3/1:1 2/2:1 1/3:1
streams 4/7
send 1 1: Sent
merge:
";

fn message(number: u64) -> Message
    ensures { result.number ≡ number }
{
    Message {
        number,
        station: 1,
        enb: 7,
        body: Body::Service,
    }
}

/// What each stream has.
fn five_messages(alloc: Global) -> Result<Arc<Messages, Global>, Fail>
    ensures { IfOk result (λ messages. IsNumbered (arc_value messages)) }
{
    let messages = [message(1), message(2), message(3), message(4), message(5)];
    let messages = Messages::from(Vec::from_array(alloc, messages)?);
    Ok(Arc::new(alloc, messages)?)
}

/// A station and an index.
fn label_of(label: &str) -> Option<(u16, u32)> {
    let (station, index) = label.split_once("/")?;
    Some((station.parse::<u16>().ok()?, index.parse::<u32>().ok()?))
}

/// The stream with that label.
fn stream_of(label: &str, messages: &Arc<Messages, Global>) -> Result<Stream, Fail>
    requires { IsNumbered (arc_value messages.now) }
    ensures { IfOk result (λ stream. stream.line.acked ≡ 0) }
{
    let (station, index) = label_of(label).ok_or("no label")?;
    let line = Line::new(messages.clone()?);
    Ok(Stream {
        station,
        index,
        line,
    })
}

/// A world of the streams with these labels.
fn world_of(
    alloc: Global,
    labels: &str,
    messages: &Arc<Messages, Global>,
) -> Result<EpochWorld, Fail>
    requires { IsNumbered (arc_value messages.now) }
{
    let mut streams = Vec::new(alloc);
    for label in labels.split(" ") {
        streams.push(stream_of(label, messages)?)?;
    }
    Ok(EpochWorld::new(alloc, streams))
}

/// A number of an event, by its place.
fn number_at(event: &str, place: usize) -> Option<u64> {
    event.split(" ").nth(place)?.parse::<u64>().ok()
}

fn event_of(event: &str) -> Option<EpochEvent> {
    let first = number_at(event, 1)?;
    if event.starts_with("learn") {
        return Some(EpochEvent::Learn { i: first });
    }
    let a = u32::try_from(first).ok()?;
    let second = number_at(event, 2)?;
    if event.starts_with("send") {
        return Some(EpochEvent::Send { a, n: second });
    }
    let n = number_at(event, 3)?;
    Some(EpochEvent::Arrive {
        a,
        stamp: second,
        n,
    })
}

/// May the world be given it?
fn is_event(world: &EpochWorld, event: EpochEvent) -> bool
    ensures { result ≡ true → IsEvent world.now.streams event }
{
    let most = world.streams().len();
    match event {
        EpochEvent::Send { a, n } => 1 <= a && a as usize <= most && 1 <= n,
        EpochEvent::Arrive { a, n, .. } => 1 <= a && a as usize <= most && 1 <= n,
        EpochEvent::Learn { .. } => true,
    }
}

/// Writes the event again, with what the world makes of it.
fn tell_event(world: &mut EpochWorld, text: &str, told: &mut String) -> Result<(), Fail> {
    let event = event_of(text).ok_or("no event")?;
    if !is_event(world, event) || world.event_count() >= 1000 {
        return Err(Fail::from("no such event"));
    }
    let answer = world.apply(event)?;
    writeln!(told, "{text}: {answer:?}")?;
    Ok(())
}

fn tell_merge(world: &EpochWorld, told: &mut String) -> Result<(), AllocError> {
    write!(told, "merge:")?;
    for entry in world.merge() {
        write!(told, " {}/{}:{}", entry.a, entry.stamp, entry.n)?;
    }
    writeln!(told, "")
}

fn tell_line(
    alloc: Global,
    messages: &Arc<Messages, Global>,
    world: &mut EpochWorld,
    line: &str,
    told: &mut String,
) -> Result<(), Fail>
    requires { IsNumbered (arc_value messages.now) }
{
    if let Some(labels) = line.strip_prefix("streams ") {
        *world = world_of(alloc, labels, messages)?;
        writeln!(told, "{line}")?;
        return Ok(());
    }
    let (what, _) = line.split_once(":").unwrap_or((line, ""));
    if what == "merge" {
        tell_merge(world, told)?;
        return Ok(());
    }
    tell_event(world, what, told)
}

/// Writes the schedules again, with what their worlds make of them.
fn tell_schedules(
    alloc: Global,
    messages: &Arc<Messages, Global>,
    told: &mut String,
) -> Result<(), Fail>
    requires { IsNumbered (arc_value messages.now) }
{
    let mut world = EpochWorld::new(alloc, Vec::new(alloc));
    for line in SCHEDULES.lines() {
        tell_line(alloc, messages, &mut world, line, told)?;
    }
    Ok(())
}

#[test]
fn answers_each_event(rt: HostRuntime) -> Result<(), Fail> {
    let alloc = rt.alloc();
    let mut told = String::new(alloc);
    tell_schedules(alloc, &five_messages(alloc)?, &mut told)?;
    assert_eq!(rt; told.as_str(), SCHEDULES);
    Ok(())
}
