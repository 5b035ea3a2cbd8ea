//! Messages with each of their octets set to each value.

use crate::wire::{Telling, Wire};
use std::alloc::{AllocError, Global};
use std::process::Abort;
use std::test::Fail;

/// What is told of the octets with the one at that place set to a value: the name of the message, or why they are refused.
fn told_with(
    alloc: Global,
    wire: Wire,
    octets: &[u8],
    place: usize,
    value: u8,
) -> Result<String, AllocError> {
    let mut changed = Vec::from_slice(alloc, octets)?;
    if let Some(octet) = changed.get_mut(place) {
        *octet = value;
    }
    wire.told(alloc, Telling::Name, &changed)
}

/// Writes what is told with each value at a place: values one behind another of which the same is told are one line.
fn tell_place(
    alloc: Global,
    wire: Wire,
    text: &mut String,
    octets: &[u8],
    place: usize,
) -> Result<(), AllocError> {
    let mut from = 0;
    let mut last = told_with(alloc, wire, octets, place, 0)?;
    for value in 1..=255 {
        let next = told_with(alloc, wire, octets, place, value)?;
        if next.as_str() != last.as_str() {
            writeln!(text, "{place} {from:02x} {:02x} {last}", value - 1)?;
            from = value;
            last = next;
        }
    }
    writeln!(text, "{place} {from:02x} ff {last}")
}

/// Tells of a message with each value at each place but those of its type or command.
pub(crate) fn check_changed(
    rt: &impl Abort,
    alloc: Global,
    wire: Wire,
    digits: &str,
    table: &str,
) -> Result<(), Fail> {
    let octets = hex::decode(alloc, digits)?;
    let (first, last) = wire.kind_places();
    let mut text = String::new(alloc);
    for place in 0..octets.len() {
        if place < first || place > last {
            tell_place(alloc, wire, &mut text, &octets, place)?;
        }
    }
    assert_eq!(rt; text.as_str(), table);
    Ok(())
}

/// Writes what is told with that type or last octet of a command, behind its number, where that is read.
fn tell_kind(
    alloc: Global,
    wire: Wire,
    text: &mut String,
    octets: &[u8],
    kind: u8,
) -> Result<(), AllocError> {
    let (_, place) = wire.kind_places();
    let told = told_with(alloc, wire, octets, place, kind)?;
    if told.as_str() != wire.unread(alloc, kind)?.as_str() {
        writeln!(text, "{kind} {told}")?;
    }
    Ok(())
}

/// Tells of a message with each type, or last octet of a command, that is read: all others are refused for it.
pub(crate) fn check_kinds(
    rt: &impl Abort,
    alloc: Global,
    wire: Wire,
    digits: &str,
    table: &str,
) -> Result<(), Fail> {
    let octets = hex::decode(alloc, digits)?;
    let mut text = String::new(alloc);
    for kind in 0..=255 {
        tell_kind(alloc, wire, &mut text, &octets, kind)?;
    }
    assert_eq!(rt; text.as_str(), table);
    Ok(())
}
