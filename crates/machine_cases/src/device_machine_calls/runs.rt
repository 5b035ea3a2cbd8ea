//! The machine alone on worked runs. A device gives a wrong response; then it attaches, is released, is paged, asks for service, is
//! released, updates its tracking area where it is not served, and detaches. Notices come before, between and behind. Two more have a
//! second connection.
ghost use Rattle.std.specs.Prelude.{◌≤◌, length};

use super::{message, subscriber, write_effects};
use device_machine::alone;
use device_types::{Message, Subscriber};
use std::alloc::{AllocError, Global};
use std::test::Fail;

/// A line a message.
const MESSAGES: &str = "\
0/0 Data
1/5 Attach 7
1/5 Response 17
1/5 Released
1/5 Attach 7
1/5 Response 16
1/5 Secured
1/5 ContextDone
1/5 Capability
1/5 AttachDone
1/5 ReleaseAsked
1/5 Released
0/0 Data
1/6 Service
0/0 Data
1/6 ContextDone
1/6 ReleaseAsked
1/6 Released
1/7 Area first 9
1/7 Released
1/8 Detach first
1/8 Released
";

/// A line a step: the stage that it leads to, and what it makes. The steps on answers stand among them.
const STEPS: &str = "\
Detached |
AwaitVectors | subscriber Vectors;
Authenticating | nas 1/5 AuthRequest { rand: ListOf { items: [51] }, autn: ListOf { items: [52] } };
Releasing | nas 1/5 AuthReject; release 1/5 2/1;
Detached |
AwaitVectors | subscriber Vectors;
Authenticating | nas 1/5 AuthRequest { rand: ListOf { items: [51] }, autn: ListOf { items: [52] } };
Securing | nas 1/5 SecurityCommand { eea: 32, eia: 33 };
AwaitLocation | subscriber Location;
AwaitCreate | gateway Create;
Accepting | setup 1/5 55 56 57 58 32 33 [0, 0, 0, 0, 0, 0, 0, 0, 0, 0, 0, 0, 0, 0, 0, 0, 0, 0, 0, 0, 0, 0, 0, 0, 0, 0, 0, 0, 0, 0, 0, 0] Yes { plmn: 31, tac: 7, pti: 34, ip: 59 };
AcceptingContext |
AcceptingContext |
AwaitModify | gateway Modify(41, 42);
Connected |
AwaitRelease | gateway Release;
Releasing | release 1/5 0/20+;
Idle |
Idle | page 31 7;
Connecting | setup 1/6 55 56 57 58 32 33 [0, 0, 0, 0, 0, 0, 0, 0, 0, 0, 0, 0, 0, 0, 0, 0, 0, 0, 0, 0, 0, 0, 0, 0, 0, 0, 0, 0, 0, 0, 0, 0] No;
Connecting |
AwaitModify | gateway Modify(41, 42);
Connected |
AwaitRelease | gateway Release;
Releasing | release 1/6 0/20+;
Idle |
Releasing | nas 1/7 AreaReject { cause: 12 }; release 1/7 2/0;
Idle |
AwaitDelete | gateway Delete;
Releasing | subscriber Purge; nas 1/8 DetachAccept; release 1/8 2/2;
Detached |
";

/// A second connection: it is asked for, lost with the radio bearers, set up again by a service request, and dropped with the first.
const TWO_MESSAGES: &str = "\
1/5 Attach 7
1/5 Response 16
1/5 Secured
1/5 ContextDone
1/5 AttachDone
1/5 PdnRequest
1/5 SecondDone
1/5 PdnAccept
1/5 ReleaseAsked
1/5 Released
1/6 Service
1/6 ContextDone second
1/6 Detach later
1/6 Released
";

const TWO_STEPS: &str = "\
AwaitVectors | subscriber Vectors;
Authenticating | nas 1/5 AuthRequest { rand: ListOf { items: [51] }, autn: ListOf { items: [52] } };
Securing | nas 1/5 SecurityCommand { eea: 32, eia: 33 };
AwaitLocation | subscriber Location;
AwaitCreate | gateway Create;
Accepting | setup 1/5 55 56 57 58 32 33 [0, 0, 0, 0, 0, 0, 0, 0, 0, 0, 0, 0, 0, 0, 0, 0, 0, 0, 0, 0, 0, 0, 0, 0, 0, 0, 0, 0, 0, 0, 0, 0] Yes { plmn: 31, tac: 7, pti: 34, ip: 59 };
AcceptingContext |
AwaitModify | gateway Modify(41, 42);
Connected |
AwaitSecond | gateway SecondCreate;
Connected | erab 1/5 57 59 45 60;
Connected |
AwaitSecondModify | gateway SecondModify(46, 47);
Connected |
AwaitRelease | gateway Release;
Releasing | release 1/5 0/20+;
Idle |
Connecting | setup two 1/6 55 56 57 58 32 33 [0, 0, 0, 0, 0, 0, 0, 0, 0, 0, 0, 0, 0, 0, 0, 0, 0, 0, 0, 0, 0, 0, 0, 0, 0, 0, 0, 0, 0, 0, 0, 0] 57 59;
AwaitModify | gateway Modify(41, 42);
AwaitSecondModify | gateway SecondModify(43, 44);
Connected |
AwaitDelete | gateway Delete;
Releasing | subscriber Purge; nas 1/6 DetachAccept; release 1/6 2/2;
Detached |
";

/// A second connection is accepted before the base station answers; it is gone with an attach anew, and another one is asked for.
const ANEW_MESSAGES: &str = "\
1/5 Attach 7
1/5 Response 16
1/5 Secured
1/5 AttachDone
1/5 ContextDone
1/5 PdnRequest
1/5 PdnAccept
1/5 SecondDone
2/6 Attach 7
2/6 Response 16
2/6 Secured
2/6 ContextDone
2/6 AttachDone
2/6 PdnRequest
2/6 Detach later off
2/6 Released
";

const ANEW_STEPS: &str = "\
AwaitVectors | subscriber Vectors;
Authenticating | nas 1/5 AuthRequest { rand: ListOf { items: [51] }, autn: ListOf { items: [52] } };
Securing | nas 1/5 SecurityCommand { eea: 32, eia: 33 };
AwaitLocation | subscriber Location;
AwaitCreate | gateway Create;
Accepting | setup 1/5 55 56 57 58 32 33 [0, 0, 0, 0, 0, 0, 0, 0, 0, 0, 0, 0, 0, 0, 0, 0, 0, 0, 0, 0, 0, 0, 0, 0, 0, 0, 0, 0, 0, 0, 0, 0] Yes { plmn: 31, tac: 7, pti: 34, ip: 59 };
AcceptingDone |
AwaitModify | gateway Modify(41, 42);
Connected |
AwaitSecond | gateway SecondCreate;
Connected | erab 1/5 57 59 45 60;
Connected |
AwaitSecondModify | gateway SecondModify(46, 47);
Connected |
AwaitVectors | release 1/5 2/0; subscriber Vectors;
Authenticating | nas 2/6 AuthRequest { rand: ListOf { items: [51] }, autn: ListOf { items: [52] } };
Securing | nas 2/6 SecurityCommand { eea: 32, eia: 33 };
AwaitLocation | subscriber Location;
AwaitCreate | gateway Create;
Accepting | setup 2/6 55 56 57 60 32 33 [0, 0, 0, 0, 0, 0, 0, 0, 0, 0, 0, 0, 0, 0, 0, 0, 0, 0, 0, 0, 0, 0, 0, 0, 0, 0, 0, 0, 0, 0, 0, 0] Yes { plmn: 31, tac: 7, pti: 34, ip: 59 };
AcceptingContext |
AwaitModify | gateway Modify(41, 42);
Connected |
AwaitSecond | gateway SecondCreate;
Connected | erab 2/6 57 61 45 60;
AwaitDelete | gateway Delete;
Releasing | subscriber Purge; release 2/6 2/2;
Detached |
";

fn messages(alloc: Global, text: &str) -> Result<Vec<Message>, Fail> {
    let mut messages = Vec::new(alloc);
    for line in text.lines() {
        messages.push(message(alloc, line)?)?;
    }
    Ok(messages)
}

fn steps(alloc: Global, row: &Subscriber, messages: &[Message]) -> Result<String, AllocError>
    requires tunnel { row.now.teid ≤ 4000000000 }
    requires count { length messages.now ≤ 100000 }
{
    let mut text = String::new(alloc);
    for step in alone(row, messages)? {
        write!(text, "{:?} |", step.session.get().stage)?;
        write_effects(&mut text, step.effects.items())?;
        text.push('\n')?;
    }
    Ok(text)
}

/// What the machine alone makes of the messages of these lines.
fn told(alloc: Global, lines: &str) -> Result<String, Fail> {
    let row = subscriber(alloc)?;
    let messages = messages(alloc, lines)?;
    if messages.len() > 30 {
        return Err(Fail::new("more than 30 messages"));
    }
    Ok(steps(alloc, &row, &messages)?)
}

#[test]
fn a_device_comes_and_goes(rt: HostRuntime) -> Result<(), Fail> {
    assert_eq!(rt; told(rt.alloc(), MESSAGES)?.as_str(), STEPS);
    Ok(())
}

#[test]
fn a_second_connection_comes_and_goes(rt: HostRuntime) -> Result<(), Fail> {
    assert_eq!(rt; told(rt.alloc(), TWO_MESSAGES)?.as_str(), TWO_STEPS);
    Ok(())
}

#[test]
fn a_second_connection_is_gone_with_an_attach(rt: HostRuntime) -> Result<(), Fail> {
    assert_eq!(rt; told(rt.alloc(), ANEW_MESSAGES)?.as_str(), ANEW_STEPS);
    Ok(())
}
