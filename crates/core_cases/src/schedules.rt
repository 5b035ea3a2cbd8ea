//! Schedules over the world of one device, with what each event comes to, by hand: what a row says by numbers first, and by the call
//! that is awaited only then; and what a hand loses.
ghost use Rattle.std.specs.Prelude.{◌≡◌, length, All, IfOk};
ghost use Rattle.device_types.specs.Line.{IsLine};
ghost use Rattle.link_schedule.specs.World.{IsShort};

use crate::events::{case_text, happen_all, put_wanted};
use crate::messages::{attach, message};
use case_form::read_case;
use device_types::{Body, Book, Messages};
use link_schedule::World;
use std::alloc::{AllocError, Global};
use std::test::Fail;
use subs_table::SubsTable;

/// The device. It attaches, asks for service three times, and attaches again; what comes behind is not taken.
const ROW: &str =
    "{\"imsi\":\"208930000000003\",\"tmsi\":4,\"rand\":\"000102030405060708090a0b0c0d0e0f\",\"autn\":\"101112131415161718191a1b1c1d1e1f\",\
\"res\":\"a0a1a2a3a4a5a6a7\",\"key\":\"1111111111111111111111111111111111111111111111111111111111111111\",\"apn\":\"internet\",\
\"ip\":\"0a2d0001\",\"sgw\":\"c0a80002\",\"teid\":5,\"ambr_dl\":1000000000,\"ambr_ul\":500000000,\"forbidden\":[8,9]}\n";

/// Schedules of two replicas, each behind a line that says what it shows.
const SCHEDULES: &str = "\
a message is ahead, repeated or settled whatever is awaited, and the next one alone waits
send 1 1 = Sent
take 1 1 1 = Taken
read 1 = Ready(0)
write 1 = Committed(1)
send 1 3 = Sent
take 2 1 3 = Taken
read 2 = Ahead(1)
send 1 2 = Sent
take 1 1 2 = Taken
read 1 = Waiting(Subscriber, 1)
take 1 1 1 = Taken
read 1 = Repeat(1)
push 1 subscriber 1 = Pushed
effect 1 subscriber 1 = Accepted(1)
answer 1 1 subscriber 1 = Taken
read 1 = Ready(1)
write 1 = Committed(2)
read 2 = Ahead(1)
take 1 1 2 = Taken
read 1 = Ready(2)
write 1 = Committed(3)
read 2 = Ready(3)
write 2 = Committed(4)
send 1 4 = Sent
take 1 1 4 = Taken
read 1 = Ready(4)
write 1 = Committed(5)
reply 1 3 = Acked(3)
send 1 5 = Sent
take 1 1 5 = Taken
read 1 = Ready(5)
write 1 = Committed(6)
send 1 7 = Sent
take 2 1 7 = Taken
read 2 = Ahead(5)
send 1 6 = Sent
take 2 1 6 = Taken
read 2 = Waiting(Subscriber, 2)
take 2 1 1 = Taken
read 2 = Settled(1)
take 2 1 2 = Taken
read 2 = Repeat(2)
answer 2 1 subscriber 1 = Taken
read 2 = OldCall(Subscriber, 1)
push 1 subscriber 2 = Pushed
effect 1 subscriber 2 = Accepted(2)
answer 2 1 subscriber 2 = Taken
read 2 = Ready(6)
write 2 = Committed(7)
take 2 1 1 = Taken
read 2 = Settled(1)
answer 1 1 subscriber 2 = Taken
read 1 = OldCall(Subscriber, 2)

a replica that stops loses what it took, and the step that it made of it; another one loses nothing
send 1 1 = Sent
take 1 1 1 = Taken
read 1 = Ready(0)
stop 1 = Stopped
read 1 = VoidHand
write 1 = VoidHand
take 1 1 1 = Taken
stop 1 = Stopped
read 1 = VoidHand
take 1 1 1 = Taken
stop 2 = Stopped
read 1 = Ready(0)
stop 2 = Stopped
write 1 = Committed(1)

a read that is not ready leaves what was taken, and no step
send 1 1 = Sent
take 1 1 1 = Taken
take 2 1 1 = Taken
read 1 = Ready(0)
read 2 = Ready(0)
write 2 = Committed(1)
push 1 subscriber 1 = Pushed
effect 1 subscriber 1 = Accepted(1)
answer 2 1 subscriber 1 = Taken
read 2 = Ready(1)
write 2 = Committed(2)
read 1 = Repeat(1)
write 1 = VoidHand
read 1 = Repeat(1)

a write that is committed or stale leaves nothing
send 1 1 = Sent
take 1 1 1 = Taken
take 2 1 1 = Taken
read 1 = Ready(0)
read 2 = Ready(0)
write 1 = Committed(1)
read 1 = VoidHand
write 1 = VoidHand
write 2 = Stale { read: 0, current: 1 }
read 2 = VoidHand
write 2 = VoidHand
";

fn messages(alloc: Global) -> Result<Messages, AllocError>
    ensures line { IfOk result IsLine }
    ensures short { IfOk result IsShort }
{
    let messages = [
        message(1, attach()),
        message(2, Body::Service),
        message(3, Body::Service),
        message(4, Body::Service),
        message(5, attach()),
        message(6, Body::Service),
        message(7, Body::Service),
    ];
    Ok(Messages::from(Vec::from_array(alloc, messages)?))
}

fn book(alloc: Global) -> Result<Book, AllocError>
    ensures lines { IfOk result (λ book. length book ≡ 1) }
    ensures short { IfOk result (All IsShort) }
{
    let messages = messages(alloc)?;
    let mut book = Book::new(alloc);
    book.push(messages)?;
    Ok(book)
}

fn opened(alloc: Global, table: &SubsTable) -> Result<World, Fail> {
    if table.len() != 1 {
        return Err(Fail::from("not one row"));
    }
    let book = book(alloc)?;
    Ok(World::new(alloc, table, &book, 2)?)
}

/// What the events of a case come to, put behind the text.
fn tell_case(alloc: Global, text: &str, told: &mut String) -> Result<(), Fail> {
    let case = read_case(alloc, text.as_bytes())?;
    let mut world = opened(alloc, case.table())?;
    happen_all(&mut world, told, case.schedule())
}

/// What the events of a schedule come to, and what its lines say that they do, each behind its first line.
fn tell_schedule(
    alloc: Global,
    schedule: &str,
    told: &mut String,
    wanted: &mut String,
) -> Result<(), Fail> {
    let (title, lines) = schedule.split_once("\n").ok_or("no events")?;
    writeln!(told, "{title}")?;
    writeln!(wanted, "{title}")?;
    put_wanted(wanted, lines)?;
    let text = case_text(alloc, ROW, lines)?;
    tell_case(alloc, text.as_str(), told)
}

#[test]
fn looks_and_hands_are_as_told(rt: HostRuntime) -> Result<(), Fail> {
    let alloc = rt.alloc();
    let mut told = String::new(alloc);
    let mut wanted = String::new(alloc);
    for schedule in SCHEDULES.split("\n\n") {
        tell_schedule(alloc, schedule, &mut told, &mut wanted)?;
    }
    assert_eq!(rt; told.as_str(), wanted.as_str());
    Ok(())
}
