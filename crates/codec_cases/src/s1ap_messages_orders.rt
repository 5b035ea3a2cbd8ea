//! IEs in every order.

use crate::s1ap_messages_worked::tell;
use echo_base::OutOfMemory;
use std::alloc::Global;
use std::test::Fail;

/// The IEs of a service request: 8, 26, 67, 100, 134, 96.
const IES: [&str; 6] = [
    "000800020001",
    "001a000504c7000000",
    "004300060002f8390001",
    "006440080002f83900000010",
    "0086400140",
    "00600006004000000001",
];

/// The IEs in the order with that number, of 720: each is put at one of the places among those before it.
fn order_of(alloc: Global, number: usize) -> Result<Vec<&'static str>, OutOfMemory> {
    let mut order: Vec<&str> = Vec::new(alloc);
    let mut number = number;
    for ie in IES {
        let places = order.len() + 1;
        order.insert(number % places, ie)?;
        number /= places;
    }
    Ok(order)
}

/// The octets of a message with these IEs.
fn octets_of(alloc: Global, order: &[&str]) -> Result<Vec<u8>, Fail> {
    let mut octets = hex::decode(alloc, "000c4037000006")?;
    for ie in order {
        octets.extend_from_slice(&hex::decode(alloc, ie)?)?;
    }
    Ok(octets)
}

/// The octets of a message with the IEs in the order with that number.
fn in_order(alloc: Global, number: usize) -> Result<Vec<u8>, Fail> {
    octets_of(alloc, &order_of(alloc, number)?)
}

/// What is told of the first order, in which they are written.
const FIRST: &str =
    "= InitialUeMessage { enb: 1, nas: ListOf { items: [199, 0, 0, 0] }, tai: Tai { plmn: 194617, tac: 1 }, cgi: Cgi { plmn: 194617, cell: 1 }, rrc: EnumValue { extended: false, index: 4 }, stmsi: Some(Stmsi { mmec: 1, tmsi: 1 }) }";

/// What is told of any other: the octets that are written, and the message.
const OTHER: &str =
    "000c4037000006000800020001001a000504c7000000004300060002f8390001006440080002f83900000010008640014000600006004000000001 InitialUeMessage { enb: 1, nas: ListOf { items: [199, 0, 0, 0] }, tai: Tai { plmn: 194617, tac: 1 }, cgi: Cgi { plmn: 194617, cell: 1 }, rrc: EnumValue { extended: false, index: 4 }, stmsi: Some(Stmsi { mmec: 1, tmsi: 1 }) }";

/// Writes what is told of an order, where it is not that of another one.
fn tell_order(told: &mut String, number: usize, text: &str) -> Result<(), OutOfMemory> {
    if text == FIRST {
        return told.push_str("first\n");
    }
    if text == OTHER {
        return Ok(());
    }
    write!(told, "{number}: {text}\n")
}

/// What is told of the order with that number.
fn told_of(alloc: Global, number: usize) -> Result<String, Fail> {
    let mut text = String::new(alloc);
    tell(alloc, &mut text, &in_order(alloc, number)?)?;
    Ok(text)
}

/// Writes what is told of each order, where it is not that of another one.
fn tell_orders(alloc: Global, told: &mut String) -> Result<(), Fail> {
    for number in 0..720 {
        tell_order(told, number, &told_of(alloc, number)?)?;
    }
    Ok(())
}

#[test]
fn every_order(rt: HostRuntime) -> Result<(), Fail> {
    let mut told = String::new(rt.alloc());
    tell_orders(rt.alloc(), &mut told)?;
    assert_eq!(rt; told.as_str(), "first\n");
    Ok(())
}
