//! Messages cut at each of their octets, as they are and with the length of what is left.

use crate::wire::{Telling, Wire};
use std::alloc::{AllocError, Global};
use std::process::Abort;
use std::test::Fail;

/// Writes a line of what is told of each beginning of a message, and in the other text what is wanted: the octet of the header that is
/// missing, and the length as soon as there is one, since not all that it counts is there.
fn tell_beginnings(
    alloc: Global,
    wire: Wire,
    text: &mut String,
    wanted: &mut String,
    digits: &str,
) -> Result<(), Fail> {
    let octets = hex::decode(alloc, digits)?;
    for left in 0..octets.len() {
        writeln!(
            text,
            "{}",
            wire.told(alloc, Telling::Read, &octets[..left])?
        )?;
        writeln!(wanted, "1 Truncated at {}", left.min(wire.length_place()))?;
    }
    Ok(())
}

/// Tells of each beginning of each message.
pub(crate) fn check_beginnings(
    rt: &impl Abort,
    alloc: Global,
    wire: Wire,
    messages: &str,
) -> Result<(), Fail> {
    let mut text = String::new(alloc);
    let mut wanted = String::new(alloc);
    for digits in messages.lines() {
        tell_beginnings(alloc, wire, &mut text, &mut wanted, digits)?;
    }
    assert_eq!(rt; text.as_str(), wanted.as_str());
    Ok(())
}

/// What is told of so many of the octets, with the length of what is left, at most 255, in the fourth.
fn told_cut(alloc: Global, wire: Wire, octets: &[u8], left: usize) -> Result<String, AllocError> {
    let mut shorter = Vec::from_slice(alloc, octets)?;
    shorter.truncate(left);
    if let Some(length) = shorter.get_mut(3) {
        *length = (left.saturating_sub(wire.uncounted()) % 256) as u8;
    }
    wire.told(alloc, Telling::Read, &shorter)
}

/// From and to how many octets a line tells of.
fn span_of(line: &str) -> Result<(usize, usize), Fail> {
    let (from, rest) = line.split_once(' ').ok_or("no end")?;
    let (to, _) = rest.split_once(' ').ok_or("nothing told")?;
    Ok((from.parse::<usize>()?, to.parse::<usize>()?))
}

/// Writes a line again: from and to how many octets a message is cut, and what is told of it with so many, where that is the same of all
/// of them.
fn tell_cuts(
    alloc: Global,
    wire: Wire,
    text: &mut String,
    octets: &[u8],
    line: &str,
) -> Result<(), Fail> {
    let (from, to) = span_of(line)?;
    let first = told_cut(alloc, wire, octets, from)?;
    write!(text, "{from} {to} {first}")?;
    for left in from..to {
        let other = told_cut(alloc, wire, octets, left.saturating_add(1))?;
        if other.as_str() != first.as_str() {
            write!(text, ", but not of {left} and one more")?;
        }
    }
    Ok(text.push('\n')?)
}

/// Tells each line of a table of cuts again, those of the message on that line.
pub(crate) fn check_cuts(
    rt: &impl Abort,
    alloc: Global,
    wire: Wire,
    messages: &str,
    message: usize,
    table: &str,
) -> Result<(), Fail> {
    let digits = messages.lines().nth(message).ok_or("no message")?;
    let octets = hex::decode(alloc, digits)?;
    let mut text = String::new(alloc);
    for line in table.lines() {
        tell_cuts(alloc, wire, &mut text, &octets, line)?;
    }
    assert_eq!(rt; text.as_str(), table);
    Ok(())
}
