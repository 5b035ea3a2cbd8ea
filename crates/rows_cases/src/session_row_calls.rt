//! A row that keeps two replies, from its first step on.
ghost use Rattle.std.specs.Prelude.{◌≡◌, true, false, IfOk};
ghost use Rattle.device_types.specs.Journal.{version_of, is_awaited};
ghost use Rattle.device_types.specs.Session.{IsSession};
ghost use Rattle.device_types.specs.declared.look.Look.TheVariants.{Ready};
ghost use Rattle.session_row.specs.Row.{look_at, AwaitsAtMostOne};

use crate::words::three_words;
use device_types::{
    Answer, Body, CauseCode, Down, Effect, Effects, Entry, GwCall, Input, Lane, Look, Message,
    Session, Stage, Step, SubCall,
};
use session_row::Row;
use std::alloc::{AllocError, Global};
use std::test::Fail;

/// What is asked of the row, two numbers, and what comes. `plain V N` and `call V N` write a step of message N with version V, the
/// second with a call of the gateway; `answer V K` writes one of the answer to that call. `ask V N` and `located V K` are the same of
/// the subscriber server, and `purge V N` has a call of it whose answer is not awaited. A reply is told by its number, its version
/// and how many messages to the device it has.
const STEPS: &str = "\
look 1 0 Ready
look 2 0 Ahead(0)
gateway 1 0 NotAwaited(0)
plain 0 1 Committed(1)
plain 0 1 Stale { read: 0, current: 1 }
look 1 0 Repeat(1)
reply 1 0 1 1 1
look 2 0 Ready
settle 1 0 Upto(1)
settle 1 0 Old(1)
call 1 2 Committed(2)
look 3 0 Waiting(Gateway, 1)
gateway 1 0 Ready
gateway 2 0 NotAwaited(1)
subscriber 1 0 NotAwaited(0)
call 1 3 Stale { read: 1, current: 2 }
answer 2 1 Committed(3)
gateway 1 0 Old(Gateway, 1)
plain 3 3 Committed(4)
reply 1 0 none
reply 2 0 2 2 1
reply 3 0 3 4 1
reply 4 0 none
look 1 0 Settled(1)
look 2 0 Repeat(2)
look 4 0 Ready
look 5 0 Ahead(3)
settle 1 0 Old(1)
settle 3 0 Upto(3)
look 9 0 Ahead(3)
ask 4 4 Committed(5)
look 5 0 Waiting(Subscriber, 1)
look 6 0 Ahead(4)
look 9 0 Ahead(4)
look 4 0 Repeat(4)
look 3 0 Repeat(3)
look 2 0 Settled(2)
look 1 0 Settled(1)
subscriber 1 0 Ready
subscriber 2 0 NotAwaited(1)
subscriber 9 0 NotAwaited(1)
gateway 1 0 Old(Gateway, 1)
gateway 4 0 NotAwaited(1)
plain 5 5 not ready
located 5 1 Committed(6)
subscriber 1 0 Old(Subscriber, 1)
reply 4 0 4 5 1
purge 6 5 Committed(7)
look 6 0 Ready
subscriber 2 0 Old(Subscriber, 2)
subscriber 3 0 NotAwaited(2)
call 7 6 Committed(8)
look 7 0 Waiting(Gateway, 2)
gateway 2 0 Ready
gateway 1 0 Old(Gateway, 1)
gateway 5 0 NotAwaited(2)
subscriber 2 0 Old(Subscriber, 2)
plain 3 7 Stale { read: 3, current: 8 }
plain 11 7 Stale { read: 11, current: 8 }
reply 6 0 6 8 1
reply 5 0 5 7 1
reply 4 0 none
settle 6 0 Upto(6)
settle 5 0 Old(6)
settle 9 0 none
";

fn message(number: u64) -> Input {
    Input::Message(Message {
        number,
        station: 1,
        enb: 7,
        body: Body::Service,
    })
}

/// The answer to call `k` of a lane. The row does not ask which it is.
fn answer(lane: Lane, k: u64) -> Input {
    Input::Answer {
        lane,
        k,
        answer: Answer::Modified,
    }
}

fn release() -> Effect
    ensures { is_awaited result ≡ false }
{
    Effect::Down(Down::Release {
        station: 1,
        enb: 7,
        cause: CauseCode {
            group: 0,
            extended: false,
            index: 0,
        },
    })
}

/// A message to the device, and a call.
fn with_call(alloc: Global, call: Effect) -> Result<Effects, AllocError>
    ensures { IfOk result AwaitsAtMostOne }
{
    Ok(Effects::from(Vec::from_array(alloc, [release(), call])?))
}

/// The effects of a step that is written by this word: a message to the device, and the call of the word.
fn effects(alloc: Global, what: &str) -> Result<Effects, AllocError>
    ensures { IfOk result AwaitsAtMostOne }
{
    match what {
        "call" => with_call(alloc, Effect::Gateway(GwCall::Create)),
        "ask" => with_call(alloc, Effect::Subscriber(SubCall::Location)),
        "purge" => with_call(alloc, Effect::Subscriber(SubCall::Purge)),
        _ => Ok(Effects::from(Vec::from_array(alloc, [release()])?)),
    }
}

/// May an entry of that input be written?
fn may_write<const W: u64>(row: &Row<W>, read: u64, input: &Input) -> bool
    ensures { result ≡ true → read ≡ version_of row.now.journal → look_at W row.now.journal input.now ≡ Ready }
{
    if read != row.version() {
        return true;
    }
    let look = match input {
        Input::Message(message) => row.look(message.number),
        Input::Answer { lane, k, .. } => row.look_answer(*lane, *k),
    };
    matches!(look, Look::Ready)
}

/// Writes an entry with that session where it may be, and tells what the write comes to.
fn tell_step<const W: u64>(
    row: &mut Row<W>,
    read: u64,
    input: Input,
    step: Step,
    told: &mut String,
) -> Result<(), AllocError>
    requires session { IsSession step.session }
    requires calls { AwaitsAtMostOne step.effects }
{
    if !may_write(row, read, &input) {
        return writeln!(told, "not ready");
    }
    let entry = Entry::new(step.effects.alloc(), input, step)?;
    match row.commit(read, entry) {
        Ok(commit) => writeln!(told, "{commit:?}"),
        Err(_) => Err(AllocError),
    }
}

/// Writes an entry that leaves the session as it is.
fn tell_write<const W: u64>(
    row: &mut Row<W>,
    read: u64,
    input: Input,
    effects: Effects,
    told: &mut String,
) -> Result<(), AllocError>
    requires { AwaitsAtMostOne effects }
{
    let session = row.session()?;
    tell_step(row, read, input, Step::new(session, effects)?, told)
}

fn tell_settled<const W: u64>(
    row: &mut Row<W>,
    k: u64,
    told: &mut String,
) -> Result<(), AllocError> {
    if k > row.outbox().pushed(Lane::Down) {
        return writeln!(told, "none");
    }
    let settled = row.settle(Lane::Down, k);
    writeln!(told, "{settled:?}")
}

fn tell_reply<const W: u64>(row: &Row<W>, n: u64, told: &mut String) -> Result<(), AllocError> {
    let Some(reply) = row.reply(n) else {
        return writeln!(told, "none");
    };
    let (number, version, downs) = (reply.number, reply.version, reply.downs.items().len());
    writeln!(told, "{number} {version} {downs}")
}

/// Tells what comes of a step.
fn tell_came(
    alloc: Global,
    row: &mut Row<2>,
    what: &str,
    a: u64,
    b: u64,
    told: &mut String,
) -> Result<(), AllocError> {
    match what {
        "settle" => tell_settled(row, a, told),
        "reply" => tell_reply(row, a, told),
        "look" => writeln!(told, "{:?}", row.look(a)),
        "gateway" => writeln!(told, "{:?}", row.look_answer(Lane::Gateway, a)),
        "subscriber" => writeln!(told, "{:?}", row.look_answer(Lane::Subscriber, a)),
        "answer" => tell_write(
            row,
            a,
            answer(Lane::Gateway, b),
            effects(alloc, what)?,
            told,
        ),
        "located" => tell_write(
            row,
            a,
            answer(Lane::Subscriber, b),
            effects(alloc, what)?,
            told,
        ),
        _ => tell_write(row, a, message(b), effects(alloc, what)?, told),
    }
}

/// Does what each step says, and writes it again with what came.
fn tell_steps(alloc: Global, row: &mut Row<2>, told: &mut String) -> Result<(), Fail> {
    for step in STEPS.lines() {
        let (what, a, b) = three_words(step).ok_or("no step")?;
        let (a, b) = (a.parse::<u64>()?, b.parse::<u64>()?);
        write!(told, "{what} {a} {b} ")?;
        tell_came(alloc, row, what, a, b, told)?;
    }
    Ok(())
}

/// Does so with a new row.
fn tell_new_steps(alloc: Global, told: &mut String) -> Result<(), Fail> {
    let mut row = Row::new(alloc)?;
    tell_steps(alloc, &mut row, told)
}

#[test]
fn goes_on_from_its_versions(rt: HostRuntime) -> Result<(), Fail> {
    let mut told = String::new(rt.alloc());
    tell_new_steps(rt.alloc(), &mut told)?;
    assert_eq!(rt; told.as_str(), STEPS);
    Ok(())
}

/// How many octets the row lends, and those of them that are not zero, each behind its place.
fn tell_octets<const W: u64>(row: &Row<W>, told: &mut String) -> Result<(), AllocError> {
    let octets = row.octets();
    let count = octets.len();
    write!(told, "{count} octets")?;
    for (place, octet) in octets.iter().enumerate() {
        if *octet != 0 {
            write!(told, " {place}:{octet}")?;
        }
    }
    writeln!(told, "")
}

/// The session of the row, of a device that is registered and idle.
fn idle<const W: u64>(row: &Row<W>) -> Result<Session, AllocError>
    ensures { IfOk result IsSession }
{
    let mut session = row.session()?;
    session.stage = Stage::Idle;
    session.registered = true;
    Ok(session)
}

/// The session of a new row.
fn opening(alloc: Global) -> Result<Session, AllocError>
    ensures { IfOk result IsSession }
{
    Row::<2>::new(alloc)?.session()
}

/// Writes message 1 for version 0, with that session.
fn tell_session(
    alloc: Global,
    row: &mut Row<2>,
    session: Session,
    told: &mut String,
) -> Result<(), AllocError>
    requires { IsSession session }
{
    let effects = effects(alloc, "plain")?;
    tell_step(row, 0, message(1), Step::new(session, effects)?, told)
}

/// The octets before and behind a write of an idle session, and behind a stale one of the opening session.
fn tell_lent(alloc: Global, row: &mut Row<2>, told: &mut String) -> Result<(), AllocError> {
    tell_octets(row, told)?;
    let session = idle(row)?;
    tell_session(alloc, row, session, told)?;
    tell_octets(row, told)?;
    tell_session(alloc, row, opening(alloc)?, told)?;
    tell_octets(row, told)
}

/// The octets that a new row lends.
fn tell_new_lent(alloc: Global, told: &mut String) -> Result<(), AllocError> {
    let mut row = Row::new(alloc)?;
    tell_lent(alloc, &mut row, told)
}

/// The octets of the opening session, of one that a write made idle and registered (stage 14, at place 1; registered, at place 87),
/// and of that one behind a stale write of another (`docs/FORMATS.md`, "Sessions").
#[test]
fn lends_the_octets_of_its_session(rt: HostRuntime) -> Result<(), Fail> {
    let mut told = String::new(rt.alloc());
    tell_new_lent(rt.alloc(), &mut told)?;
    let wanted = "\
118 octets 0:2
Committed(1)
118 octets 0:2 1:14 87:1
Stale { read: 0, current: 1 }
118 octets 0:2 1:14 87:1
";
    assert_eq!(rt; told.as_str(), wanted);
    Ok(())
}

/// How many messages the row takes whose memory is measured (README of `session_row`).
const MANY: u64 = 100_000;

/// The row takes so many messages, each of whose effects is settled three messages later. Told is what came of the last one.
fn take_many(alloc: Global, row: &mut Row<4>, told: &mut String) -> Result<(), AllocError> {
    for version in 0..MANY {
        told.clear();
        let effects = effects(alloc, "plain")?;
        tell_write(row, version, message(version + 1), effects, told)?;
        tell_settled(row, version.saturating_sub(2), told)?;
    }
    Ok(())
}

/// The last replies, whether each effect is there, and the octets.
fn tell_last(row: &Row<4>, told: &mut String) -> Result<(), AllocError> {
    for n in MANY - 4..MANY + 2 {
        tell_reply(row, n, told)?;
        let found = row.outbox().at(Lane::Down, n).is_some();
        writeln!(told, "{found}")?;
    }
    tell_octets(row, told)
}

/// What a new row keeps of so many messages.
fn tell_kept(alloc: Global, told: &mut String) -> Result<(), AllocError> {
    let mut row = Row::new(alloc)?;
    take_many(alloc, &mut row, told)?;
    tell_last(&row, told)
}

/// A row that keeps four replies takes 100,000 messages, each of whose effects is settled three messages later: the last four
/// replies are there, and the last three effects.
#[test]
fn keeps_the_last_of_many(rt: HostRuntime) -> Result<(), Fail> {
    let mut told = String::new(rt.alloc());
    tell_kept(rt.alloc(), &mut told)?;
    let wanted = "\
Committed(100000)
Upto(99997)
none
false
99997 99997 1
false
99998 99998 1
true
99999 99999 1
true
100000 100000 1
true
none
false
118 octets 0:2
";
    assert_eq!(rt; told.as_str(), wanted);
    Ok(())
}
