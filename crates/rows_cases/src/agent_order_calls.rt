//! A line at both ends.
ghost use Rattle.std.specs.Prelude.{◌≡◌, IfOk, length};

use crate::words::two_words;
use agent_order::Line;
use device_types::{Body, Message, Messages};
use std::alloc::{AllocError, Global};
use std::sync::Arc;
use std::test::Fail;

/// What is asked of a line of three messages, a number, and what comes: `message` the number of the message, `acked` the first
/// message that is not acknowledged once that one is, `count` how many are acknowledged, and of how many.
const STEPS: &str = "\
message 0 None
message 4 None
message 18446744073709551615 None
message 1 Some(1)
message 2 Some(2)
message 3 Some(3)
acked 0 Some(1)
count 0 0 of 3
acked 2 Some(3)
count 0 2 of 3
message 1 Some(1)
acked 3 None
count 0 3 of 3
";

fn message(number: u64) -> Message
    ensures { result.number ≡ number }
{
    Message {
        number,
        station: 1,
        enb: 7,
        body: Body::Service,
    }
}

fn line_of_three(alloc: Global) -> Result<Line, Fail>
    ensures { IfOk result (λ line. (line.acked ≡ 0) × (length line.messages ≡ 3)) }
{
    let messages = Vec::from_array(alloc, [message(1), message(2), message(3)])?;
    Ok(Line::new(Arc::new(alloc, Messages::from(messages))?))
}

/// Tells the number of message `n`.
fn tell_message(line: &Line, n: u64, told: &mut String) -> Result<(), AllocError> {
    let found = match line.message(n) {
        Some(message) => Some(message.number),
        None => None,
    };
    writeln!(told, "message {n} {found:?}")
}

/// Message `n` is acknowledged, where it may be; tells which one is the first that is not.
fn tell_acked(line: &mut Line, n: u64, told: &mut String) -> Result<(), AllocError> {
    if line.acked() <= n && n <= line.len() {
        line.set_acked(n);
    }
    writeln!(told, "acked {n} {:?}", line.next_unsettled())
}

/// Does what a step says, and writes the step again with what came.
fn tell_step(line: &mut Line, what: &str, n: u64, told: &mut String) -> Result<(), AllocError> {
    match what {
        "message" => tell_message(line, n, told),
        "acked" => tell_acked(line, n, told),
        _ => writeln!(told, "count {n} {} of {}", line.acked(), line.len()),
    }
}

fn tell_steps(line: &mut Line, told: &mut String) -> Result<(), Fail> {
    for step in STEPS.lines() {
        let (what, n) = two_words(step).ok_or("no step")?;
        tell_step(line, what, n.parse::<u64>()?, told)?;
    }
    Ok(())
}

#[test]
fn finds_messages_and_settles(rt: HostRuntime) -> Result<(), Fail> {
    let mut line = line_of_three(rt.alloc())?;
    let mut told = String::new(rt.alloc());
    tell_steps(&mut line, &mut told)?;
    assert_eq!(rt; told.as_str(), STEPS);
    Ok(())
}
