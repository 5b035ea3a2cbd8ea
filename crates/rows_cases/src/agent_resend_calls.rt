//! Windows of two, on lines of three and of five messages.
ghost use Rattle.std.specs.Prelude.{◌≡◌};

use crate::words::two_words;
use agent_order::Line;
use agent_resend::Window;
use device_types::{Body, CauseCode, Down, Effects, Message, Messages, Reply};
use std::alloc::{AllocError, Global};
use std::sync::Arc;
use std::test::Fail;

/// What happens on a line of three, its number, and what it comes to; at last how many messages to the device were accepted, and
/// how many of its own are acknowledged.
const OF_THREE: &str = "\
send 0 false
send 1 true
send 3 false
reply 2 Stranger(1)
reply 0 Old(0)
send 2 true
reply 2 Acked(2)
reply 1 Old(2)
send 2 false
send 3 true
send 4 false
reply 3 Acked(3)
reply 4 Stranger(3)
down 2 Ahead(0)
down 0 Repeat(0)
down 1 Accepted(1)
down 1 Repeat(1)
down 3 Ahead(1)
down 2 Accepted(2)
count 0 2 3
";

/// The same on a line of five, where the number that comes, the greatest that was sent and the one that is acknowledged differ.
const OF_FIVE: &str = "\
send 1 true
send 2 true
send 1 true
reply 4 Stranger(2)
reply 1 Acked(1)
send 4 false
send 3 true
reply 0 Old(1)
reply 5 Stranger(3)
reply 3 Acked(3)
send 5 true
reply 1 Old(3)
send 4 true
reply 9 Stranger(5)
reply 4 Acked(4)
send 6 false
down 7 Ahead(0)
down 1 Accepted(1)
down 7 Ahead(1)
down 2 Accepted(2)
down 3 Accepted(3)
down 1 Repeat(1)
down 2 Repeat(2)
down 9 Ahead(3)
count 0 3 4
";

fn message(number: u64) -> Message
    ensures { result.number ≡ number }
{
    Message {
        number,
        station: 1,
        enb: 7,
        body: Body::Service,
    }
}

fn release() -> Down {
    Down::Release {
        station: 1,
        enb: 7,
        cause: CauseCode {
            group: 0,
            extended: false,
            index: 0,
        },
    }
}

/// Tells whether message `n` may be sent, and sends it if so.
fn tell_send(window: &mut Window<2>, n: u64, told: &mut String) -> Result<(), AllocError> {
    let may = window.may_send(n);
    if may {
        window.sent(n);
    }
    writeln!(told, "send {n} {may}")
}

/// Tells what the reply to message `n` comes to.
fn tell_reply(
    alloc: Global,
    window: &mut Window<2>,
    n: u64,
    told: &mut String,
) -> Result<(), AllocError> {
    let taken = window.take_reply(&Reply {
        number: n,
        version: 0,
        downs: Effects::new(alloc),
    });
    writeln!(told, "reply {n} {taken:?}")
}

/// Does what a step says, and writes the step again with what it came to.
fn tell_step(
    alloc: Global,
    window: &mut Window<2>,
    what: &str,
    n: u64,
    told: &mut String,
) -> Result<(), AllocError> {
    match what {
        "send" => tell_send(window, n, told),
        "reply" => tell_reply(alloc, window, n, told),
        "down" => {
            let taken = window.take_down(n, release())?;
            writeln!(told, "down {n} {taken:?}")
        }
        _ => {
            let (downs, acked) = (window.downs().len(), window.line().acked());
            writeln!(told, "count {n} {downs} {acked}")
        }
    }
}

fn tell_steps(
    alloc: Global,
    window: &mut Window<2>,
    steps: &str,
    told: &mut String,
) -> Result<(), Fail> {
    for step in steps.lines() {
        let (what, n) = two_words(step).ok_or("no step")?;
        tell_step(alloc, window, what, n.parse::<u64>()?, told)?;
    }
    Ok(())
}

#[test]
fn takes_what_arrives(rt: HostRuntime) -> Result<(), Fail> {
    let alloc = rt.alloc();
    let messages = Vec::from_array(alloc, [message(1), message(2), message(3)])?;
    let line = Line::new(Arc::new(alloc, Messages::from(messages))?);
    let mut window = Window::new(alloc, line);
    let mut told = String::new(alloc);
    tell_steps(alloc, &mut window, OF_THREE, &mut told)?;
    assert_eq!(rt; told.as_str(), OF_THREE);
    Ok(())
}

#[test]
fn tells_the_number_that_it_means(rt: HostRuntime) -> Result<(), Fail> {
    let alloc = rt.alloc();
    let messages = [message(1), message(2), message(3), message(4), message(5)];
    let messages = Vec::from_array(alloc, messages)?;
    let line = Line::new(Arc::new(alloc, Messages::from(messages))?);
    let mut window = Window::new(alloc, line);
    let mut told = String::new(alloc);
    tell_steps(alloc, &mut window, OF_FIVE, &mut told)?;
    assert_eq!(rt; told.as_str(), OF_FIVE);
    Ok(())
}
