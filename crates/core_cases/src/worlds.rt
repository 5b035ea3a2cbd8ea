//! Schedules over the worlds of two devices, with what each event comes to, by hand.
ghost use Rattle.std.specs.Prelude.{◌≡◌, length, All, IfOk};
ghost use Rattle.device_types.specs.Line.{IsLine};
ghost use Rattle.device_types.specs.Message.{IsBody, IsFrom};
ghost use Rattle.link_schedule.specs.Floor.{IsOpen};
ghost use Rattle.link_schedule.specs.World.{IsShort};

use crate::events::{case_text, happen_all, may_happen, put_wanted};
use crate::messages::{attach, message};
use case_form::{Case, read_case};
use device_types::{Body, Book, DeviceEnd, DeviceId, Event, Finals, Messages, Octets};
use link_schedule::{Floor, OwnFloor, World};
use std::alloc::{AllocError, Global};
use std::test::Fail;
use subs_table::SubsTable;

/// The two devices.
const ROWS: &str = "\
{\"imsi\":\"208930000000001\",\"tmsi\":1,\"rand\":\"000102030405060708090a0b0c0d0e0f\",\"autn\":\"101112131415161718191a1b1c1d1e1f\",\
\"res\":\"a0a1a2a3a4a5a6a7\",\"key\":\"1111111111111111111111111111111111111111111111111111111111111111\",\"apn\":\"internet\",\
\"ip\":\"0a2d0001\",\"sgw\":\"c0a80001\",\"teid\":1,\"ambr_dl\":1000000000,\"ambr_ul\":1000000000,\"forbidden\":[9]}
{\"imsi\":\"208930000000002\",\"tmsi\":2,\"rand\":\"000102030405060708090a0b0c0d0e0f\",\"autn\":\"101112131415161718191a1b1c1d1e1f\",\
\"res\":\"a0a1a2a3a4a5a6a7\",\"key\":\"1111111111111111111111111111111111111111111111111111111111111111\",\"apn\":\"internet\",\
\"ip\":\"0a2d0002\",\"sgw\":\"c0a80001\",\"teid\":2,\"ambr_dl\":1000000000,\"ambr_ul\":1000000000,\"forbidden\":[]}
";

/// Schedules, each behind a line with the messages of device 1, the number of replicas, and what it shows. With `attach` device 1
/// attaches, its base station fails to set its context up, it is released, and attaches again; with `services` it asks for service
/// five times, and is rejected each time. Device 2 asks for service once.
const SCHEDULES: &str = "\
attach 2: two replicas read one row, and one of them commits; a call arrives three times, and its answer twice
send 1 1 = Sent
take 1 1 1 = Taken
take 2 1 1 = Taken
read 1 = Ready(0)
read 2 = Ready(0)
write 1 = Committed(1)
write 2 = Stale { read: 0, current: 1 }
push 1 subscriber 1 = Pushed
effect 1 subscriber 1 = Accepted(1)
effect 1 subscriber 1 = Repeat(1)
effect 1 subscriber 1 = Repeat(1)
answer 1 1 subscriber 1 = Taken
read 1 = Ready(1)
write 1 = Committed(2)
answer 2 1 subscriber 1 = Taken
read 2 = OldCall(Subscriber, 1)
settle 1 subscriber 1 = Settled(1)
settle 1 subscriber 1 = Old(1)
push 1 subscriber 1 = VoidOutbox

attach 2: a replica stops between its commit and the reply, and another finds the reply
send 1 1 = Sent
take 1 1 1 = Taken
read 1 = Ready(0)
write 1 = Committed(1)
stop 1 = Stopped
send 1 1 = Sent
take 2 1 1 = Taken
read 2 = Repeat(1)
write 2 = VoidHand
reply 1 1 = Acked(1)
reply 1 1 = Old(1)

attach 2: a message overtakes the one before it, and then waits for the answer to a call
send 1 2 = Sent
take 1 1 2 = Taken
read 1 = Ahead(0)
send 1 1 = Sent
take 2 1 1 = Taken
read 2 = Ready(0)
write 2 = Committed(1)
read 1 = Waiting(Subscriber, 1)
write 1 = VoidHand

services 2: the window moves with what is acknowledged, and replies out of it are no longer kept
send 1 5 = VoidWindow
send 1 1 = Sent
take 1 1 1 = Taken
read 1 = Ready(0)
write 1 = Committed(1)
send 1 2 = Sent
take 1 1 2 = Taken
read 1 = Ready(1)
write 1 = Committed(2)
send 1 3 = Sent
take 1 1 3 = Taken
read 1 = Ready(2)
write 1 = Committed(3)
send 1 4 = Sent
take 1 1 4 = Taken
read 1 = Ready(3)
write 1 = Committed(4)
send 1 5 = VoidWindow
reply 1 1 = Acked(1)
send 1 1 = VoidWindow
send 1 5 = Sent
take 1 1 5 = Taken
read 1 = Ready(4)
write 1 = Committed(5)
take 2 1 1 = Taken
read 2 = Settled(1)
take 2 1 2 = Taken
read 2 = Repeat(2)
reply 1 1 = Old(1)
reply 1 4 = Acked(4)
reply 1 3 = Old(3)
send 1 6 = VoidWindow

attach 1: there is no second replica, and nothing was sent, made or pushed
stop 2 = VoidReplica
write 1 = VoidHand
push 1 down 1 = VoidOutbox
take 1 1 1 = VoidLink
effect 1 down 1 = VoidLink
read 1 = VoidHand
answer 1 1 gateway 1 = VoidLink
answer 1 1 subscriber 1 = VoidLink
reply 1 1 = VoidLink
settle 1 down 1 = VoidLink
settle 1 gateway 1 = VoidLink
settle 1 subscriber 1 = VoidLink
push 1 gateway 1 = VoidOutbox
push 1 subscriber 1 = VoidOutbox
take 2 1 1 = VoidReplica
answer 2 1 gateway 1 = VoidReplica
read 2 = VoidReplica
write 16 = VoidReplica
send 1 7 = VoidWindow
send 2 2 = VoidWindow

services 2: hands are lost, replaced and left as they are
send 1 1 = Sent
send 1 2 = Sent
take 1 1 1 = Taken
write 1 = VoidHand
read 1 = Ready(0)
read 1 = Ready(0)
take 1 1 3 = VoidLink
take 2 1 1 = Taken
read 2 = Ready(0)
write 2 = Committed(1)
write 1 = Stale { read: 0, current: 1 }
read 1 = VoidHand
take 1 1 2 = Taken
read 1 = Ready(1)
stop 1 = Stopped
write 1 = VoidHand
take 1 1 2 = Taken
read 1 = Ready(1)
take 1 1 1 = Taken
write 1 = VoidHand
read 1 = Repeat(1)

services 1: messages to the device arrive out of turn, and are settled at once
send 1 1 = Sent
take 1 1 1 = Taken
read 1 = Ready(0)
write 1 = Committed(1)
send 1 2 = Sent
take 1 1 2 = Taken
read 1 = Ready(1)
write 1 = Committed(2)
push 1 down 2 = Pushed
effect 1 down 2 = Ahead(0)
push 1 down 1 = Pushed
effect 1 down 1 = Accepted(1)
effect 1 down 2 = Accepted(2)
effect 1 down 1 = Repeat(1)
settle 1 down 2 = Settled(2)
settle 1 down 1 = Old(1)
effect 1 down 2 = Repeat(2)
push 1 down 2 = VoidOutbox
push 1 down 3 = VoidOutbox

attach 2: what is of one device is not of the other, and no lane is another
send 1 1 = Sent
take 1 2 1 = VoidLink
send 2 1 = Sent
take 1 1 1 = Taken
take 2 2 1 = Taken
read 1 = Ready(0)
read 2 = Ready(0)
write 1 = Committed(1)
write 2 = Committed(1)
reply 2 1 = Acked(1)
reply 1 2 = VoidLink
push 2 subscriber 1 = VoidOutbox
push 1 subscriber 1 = Pushed
effect 2 subscriber 1 = VoidLink
effect 1 gateway 1 = VoidLink
effect 1 subscriber 1 = Accepted(1)
answer 1 2 subscriber 1 = VoidLink
answer 1 1 gateway 1 = VoidLink
settle 2 subscriber 1 = VoidLink
settle 1 gateway 1 = VoidLink
settle 1 subscriber 1 = Settled(1)
push 1 subscriber 1 = VoidOutbox
push 2 down 1 = Pushed
effect 1 down 1 = VoidLink
effect 2 down 1 = Accepted(1)
send 1 1 = Sent
send 2 1 = VoidWindow

attach 2: a device comes and goes, with calls on both lanes, and comes again
send 1 1 = Sent
take 1 1 1 = Taken
read 1 = Ready(0)
write 1 = Committed(1)
push 1 subscriber 1 = Pushed
effect 1 subscriber 1 = Accepted(1)
answer 1 1 subscriber 1 = Taken
read 1 = Ready(1)
write 1 = Committed(2)
send 1 2 = Sent
take 2 1 2 = Taken
read 2 = Ready(2)
write 2 = Committed(3)
send 1 3 = Sent
take 1 1 3 = Taken
read 1 = Ready(3)
write 1 = Committed(4)
take 2 1 3 = Taken
read 2 = Repeat(3)
send 1 4 = Sent
take 2 1 4 = Taken
read 2 = Waiting(Subscriber, 2)
answer 1 1 subscriber 2 = VoidLink
push 1 subscriber 2 = Pushed
effect 1 subscriber 2 = Accepted(2)
answer 1 1 subscriber 2 = Taken
read 1 = Ready(4)
write 1 = Committed(5)
read 2 = Waiting(Gateway, 1)
push 1 gateway 1 = Pushed
effect 1 gateway 1 = Accepted(1)
effect 1 gateway 1 = Repeat(1)
answer 1 1 gateway 1 = Taken
read 1 = Ready(5)
write 1 = Committed(6)
read 2 = Ready(6)
write 2 = Committed(7)
answer 2 1 gateway 1 = Taken
read 2 = OldCall(Gateway, 1)
push 1 gateway 2 = Pushed
effect 1 gateway 2 = Accepted(2)
answer 2 1 gateway 2 = Taken
read 2 = Ready(7)
write 2 = Committed(8)
reply 1 5 = VoidLink
reply 1 4 = Acked(4)
reply 1 2 = Old(2)
send 1 5 = Sent
take 1 1 5 = Taken
read 1 = Ready(8)
write 1 = Committed(9)
reply 1 1 = Old(1)
send 1 6 = Sent
take 1 1 6 = Taken
read 1 = Ready(9)
write 1 = Committed(10)
push 1 subscriber 4 = Pushed
effect 1 subscriber 4 = Ahead(2)
push 1 subscriber 3 = Pushed
effect 1 subscriber 3 = Accepted(3)
effect 1 subscriber 4 = Accepted(4)
answer 1 1 subscriber 3 = Taken
read 1 = OldCall(Subscriber, 3)
answer 2 1 subscriber 4 = Taken
read 2 = Ready(10)
settle 1 subscriber 4 = Settled(4)
settle 1 subscriber 2 = Old(2)
effect 1 subscriber 4 = Repeat(4)
settle 1 gateway 1 = Settled(1)
push 1 gateway 1 = VoidOutbox
push 1 gateway 2 = Pushed
settle 1 gateway 2 = Settled(2)
settle 1 gateway 1 = Old(1)
push 1 down 5 = VoidOutbox
push 1 down 4 = Pushed
effect 1 down 4 = Ahead(0)
settle 1 down 4 = VoidLink
effect 1 down 1 = VoidLink
";

/// The right response to the challenge.
fn response(alloc: Global) -> Result<Body, AllocError>
    ensures from { IfOk result (λ body. IsFrom body 1 1) }
    ensures body { IfOk result IsBody }
{
    let res = [0xa0, 0xa1, 0xa2, 0xa3, 0xa4, 0xa5, 0xa6, 0xa7];
    Ok(Body::Response {
        res: Octets::from(Vec::from_array(alloc, res)?),
    })
}

fn attaching(alloc: Global) -> Result<Messages, AllocError>
    ensures line { IfOk result IsLine }
    ensures short { IfOk result IsShort }
{
    let messages = [
        message(1, attach()),
        message(2, response(alloc)?),
        message(3, Body::Secured),
        message(4, Body::ContextFailed),
        message(5, Body::Released),
        message(6, attach()),
    ];
    Ok(Messages::from(Vec::from_array(alloc, messages)?))
}

fn services(alloc: Global) -> Result<Messages, AllocError>
    ensures line { IfOk result IsLine }
    ensures short { IfOk result IsShort }
{
    let messages = [
        message(1, Body::Service),
        message(2, Body::Service),
        message(3, Body::Service),
        message(4, Body::Service),
        message(5, Body::Service),
    ];
    Ok(Messages::from(Vec::from_array(alloc, messages)?))
}

fn service(alloc: Global) -> Result<Messages, AllocError>
    ensures line { IfOk result IsLine }
    ensures short { IfOk result IsShort }
{
    let messages = [message(1, Body::Service)];
    Ok(Messages::from(Vec::from_array(alloc, messages)?))
}

/// The messages of device 1, by their name.
fn named(alloc: Global, name: &str) -> Result<Messages, AllocError>
    ensures line { IfOk result IsLine }
    ensures short { IfOk result IsShort }
{
    match name {
        "attach" => attaching(alloc),
        _ => services(alloc),
    }
}

fn book(alloc: Global, name: &str) -> Result<Book, AllocError>
    ensures lines { IfOk result (λ book. length book ≡ 2) }
    ensures short { IfOk result (All IsShort) }
{
    let first = named(alloc, name)?;
    let second = service(alloc)?;
    let mut book = Book::new(alloc);
    book.push(first)?;
    book.push(second)?;
    Ok(book)
}

/// The world of the two devices, with the messages of that name.
fn opened(alloc: Global, table: &SubsTable, name: &str, replicas: u32) -> Result<World, Fail> {
    if table.len() != 2 {
        return Err(Fail::from("not two rows"));
    }
    if replicas == 0 {
        return Err(Fail::from("no replica"));
    }
    if replicas > 16 {
        return Err(Fail::from("too many replicas"));
    }
    let book = book(alloc, name)?;
    Ok(World::new(alloc, table, &book, replicas)?)
}

/// Puts what the events come to in a world behind the text. It takes all of them.
fn tell_world(told: &mut String, mut world: World, events: &[Event]) -> Result<(), Fail> {
    happen_all(&mut world, told, events)?;
    if world.event_count() != events.len() as u64 {
        return Err(Fail::from("not all events"));
    }
    Ok(())
}

/// Puts what the schedule of a case comes to behind the text, where device 1 has the messages of that name.
fn tell_schedule(
    alloc: Global,
    told: &mut String,
    case: &Case,
    name: &str,
    replicas: u32,
) -> Result<(), Fail> {
    let world = opened(alloc, case.table(), name, replicas)?;
    tell_world(told, world, case.schedule())
}

/// Puts what the events of a schedule come to, behind its first line, behind the text.
fn tell_answers(alloc: Global, told: &mut String, title: &str, lines: &str) -> Result<(), Fail> {
    let (name, rest) = title.split_once(" ").ok_or("no replicas")?;
    let (count, _) = rest.split_once(": ").ok_or("no title")?;
    let replicas = count.parse::<u32>()?;
    let text = case_text(alloc, ROWS, lines)?;
    let case = read_case(alloc, text.as_bytes())?;
    tell_schedule(alloc, told, &case, name, replicas)
}

/// What the schedules come to, and what they are to come to.
fn told_schedules(alloc: Global) -> Result<(String, String), Fail> {
    let (mut told, mut wanted) = (String::new(alloc), String::new(alloc));
    for schedule in SCHEDULES.split("\n\n") {
        let (title, lines) = schedule.split_once("\n").ok_or("no events")?;
        tell_answers(alloc, &mut told, title, lines)?;
        put_wanted(&mut wanted, lines)?;
    }
    Ok((told, wanted))
}

/// What became of a device: messages taken, steps, messages to it and its stage, and then its calls, a line each.
fn tell_end(text: &mut String, end: &DeviceEnd) -> Result<(), Fail> {
    let (messages, steps, downs) = (end.messages, end.steps, end.downs.items().len());
    let stage = end.session.stage;
    writeln!(text, "{messages} {steps} {downs} {stage:?}")?;
    for call in end.gateway.items() {
        writeln!(text, "{call:?}")?;
    }
    for call in end.subscriber.items() {
        writeln!(text, "{call:?}")?;
    }
    Ok(())
}

/// What became of each, put behind the text.
fn tell_ends(text: &mut String, finals: &Finals) -> Result<(), Fail> {
    for end in finals.items() {
        tell_end(text, end)?;
    }
    Ok(())
}

/// The world settles: how many events it has taken then, and what became of its devices, put behind the text.
fn settle(alloc: Global, world: &mut World, told: &mut String) -> Result<(), Fail> {
    world.settle_all()?;
    let count = world.event_count();
    writeln!(told, "{count} events")?;
    let finals = world.finals(alloc)?;
    tell_ends(told, &finals)
}

/// What becomes of the two devices where device 1 attaches and its world settles behind two events. Its six messages and the answers
/// to all of its calls but the purge make eleven steps: it is challenged, secured, set up, released and challenged again. Device 2 is
/// rejected.
///
/// The first message of device 1 is sent, taken, read and written (4 events). Each of its nine next steps takes five: a reply is
/// acknowledged and a message is sent, taken, read and written, or a call is pushed and accepted and its answer taken, read and
/// written. The last one takes seven, since the purge goes before. Its five messages are pushed and accepted (10), and each of its
/// lanes is settled (3). Device 2 takes four, two and one. A second settling finds each lane settled (3 and 1), and changes nothing.
const ATTACHED: &str = "\
Sent
Taken
78 events
6 11 5 Authenticating
Create
Delete
Vectors
Location
Purge
Vectors
1 1 1 Detached
82 events
6 11 5 Authenticating
Create
Delete
Vectors
Location
Purge
Vectors
1 1 1 Detached
";

/// The events happen to the world, and then it settles twice.
fn happen_and_settle(
    alloc: Global,
    world: &mut World,
    events: &[Event],
    told: &mut String,
) -> Result<(), Fail> {
    happen_all(world, told, events)?;
    settle(alloc, world, told)?;
    settle(alloc, world, told)
}

/// What a schedule comes to in the world where device 1 attaches, and then what its settling does.
fn settled(alloc: Global, table: &SubsTable, events: &[Event]) -> Result<String, Fail> {
    let mut told = String::new(alloc);
    let mut world = opened(alloc, table, "attach", 2)?;
    happen_and_settle(alloc, &mut world, events, &mut told)?;
    Ok(told)
}

/// What a world comes to that settles twice.
fn told_world(alloc: Global) -> Result<String, Fail> {
    let text = case_text(alloc, ROWS, "send 1 1 = Sent\ntake 2 1 1 = Taken\n")?;
    let case = read_case(alloc, text.as_bytes())?;
    settled(alloc, case.table(), case.schedule())
}

#[test]
fn world_settles(rt: HostRuntime) -> Result<(), Fail> {
    let told = told_world(rt.alloc())?;
    assert_eq!(rt; told.as_str(), ATTACHED);
    Ok(())
}

/// The floor is opened on the two devices.
fn open(alloc: Global, floor: &mut OwnFloor, table: &SubsTable, name: &str) -> Result<(), Fail> {
    if table.len() != 2 {
        return Err(Fail::from("not two rows"));
    }
    let book = book(alloc, name)?;
    floor.open(alloc, table, &book, 1)?;
    Ok(())
}

/// What the event comes to on the floor, put behind the text.
fn give(floor: &mut OwnFloor, told: &mut String, event: Event) -> Result<(), Fail> {
    let Some(world) = &floor.world else {
        return Err(Fail::from("not open"));
    };
    if !may_happen(world, event) {
        return Err(Fail::from("not an event of the world"));
    }
    let answer = floor.apply(event)?;
    writeln!(told, "{answer:?}")?;
    Ok(())
}

/// What became of the devices of a floor, put behind the text.
fn tell_floor<F: Floor>(alloc: Global, floor: &F, told: &mut String) -> Result<(), Fail>
    requires { IsOpen (F.setting floor.now) }
{
    let finals = floor.finals(alloc)?;
    tell_ends(told, &finals)
}

/// The floor settles, where it is open.
fn settle_floor(floor: &mut OwnFloor) -> Result<(), Fail> {
    if floor.world.is_none() {
        return Err(Fail::from("not open"));
    }
    floor.settle_all()?;
    floor.recall();
    Ok(())
}

/// What became of the devices of the floor, where it is open.
fn tell_own(alloc: Global, floor: &OwnFloor, told: &mut String) -> Result<(), Fail> {
    if floor.world.is_none() {
        return Err(Fail::from("not open"));
    }
    tell_floor(alloc, floor, told)
}

/// A floor is opened, is given an event, settles twice, and is opened anew.
fn run(
    alloc: Global,
    floor: &mut OwnFloor,
    table: &SubsTable,
    told: &mut String,
) -> Result<(), Fail> {
    let d = DeviceId(1);
    open(alloc, floor, table, "services")?;
    give(floor, told, Event::Send { d, n: 1 })?;
    settle_floor(floor)?;
    tell_own(alloc, floor, told)?;
    settle_floor(floor)?;
    tell_own(alloc, floor, told)?;
    open(alloc, floor, table, "attach")?;
    tell_own(alloc, floor, told)
}

/// Five requests for service are rejected, and one; a floor that is opened anew has done nothing.
const REJECTED: &str = "\
Sent
5 5 5 Detached
1 1 1 Detached
5 5 5 Detached
1 1 1 Detached
0 0 0 Detached
0 0 0 Detached
";

/// Puts what a new floor comes to, which settles twice and is opened anew, behind the text.
fn tell_new_floor(alloc: Global, told: &mut String) -> Result<(), Fail> {
    let text = case_text(alloc, ROWS, "")?;
    let case = read_case(alloc, text.as_bytes())?;
    run(alloc, &mut OwnFloor::new(), case.table(), told)
}

#[test]
fn floor_settles(rt: HostRuntime) -> Result<(), Fail> {
    let mut told = String::new(rt.alloc());
    tell_new_floor(rt.alloc(), &mut told)?;
    assert_eq!(rt; told.as_str(), REJECTED);
    Ok(())
}

#[test]
fn events_come_to_their_answers(rt: HostRuntime) -> Result<(), Fail> {
    let (told, wanted) = told_schedules(rt.alloc())?;
    assert_eq!(rt; told.as_str(), wanted.as_str());
    Ok(())
}
