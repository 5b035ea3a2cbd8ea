//! Calls of two devices, each once, again and ahead.
ghost use Rattle.std.specs.Prelude.{◌≡◌, ◌≤◌, length, IfOk, OnOk};
ghost use Rattle.device_types.specs.Numbers.{IsWithin};

use crate::words::three_words;
use device_types::{Areas, DeviceId, Octets, SubCall, Subscriber};
use peer_subscriber::SubscriberPeer;
use std::alloc::{AllocError, Global};
use std::test::Fail;

/// A device, the number of a call, the call, and what the server says. The octets of a vector are short here: of device 1 the
/// challenge 11, the token 12, the response 13 and the key 14, of device 2 those from 21 on.
const OFFERS: &str = "\
1 2 location Ahead(0)
2 9 vectors Ahead(0)
1 1 vectors Accepted(Vectors(ListOf { items: [11] }, ListOf { items: [12] }, ListOf { items: [13] }, ListOf { items: [14] }))
1 1 vectors Repeat(Vectors(ListOf { items: [11] }, ListOf { items: [12] }, ListOf { items: [13] }, ListOf { items: [14] }))
2 1 purge Accepted(Purged)
2 1 purge Repeat(Purged)
1 3 purge Ahead(1)
1 2 location Accepted(Located(1000000000, 500000000))
1 2 location Repeat(Located(1000000000, 500000000))
1 1 vectors Repeat(Vectors(ListOf { items: [11] }, ListOf { items: [12] }, ListOf { items: [13] }, ListOf { items: [14] }))
2 3 location Ahead(1)
2 7 location Ahead(1)
1 1 location Repeat(Vectors(ListOf { items: [11] }, ListOf { items: [12] }, ListOf { items: [13] }, ListOf { items: [14] }))
1 2 purge Repeat(Located(1000000000, 500000000))
2 1 vectors Repeat(Purged)
1 3 purge Accepted(Purged)
1 8 purge Ahead(3)
2 2 vectors Accepted(Vectors(ListOf { items: [21] }, ListOf { items: [22] }, ListOf { items: [23] }, ListOf { items: [24] }))
2 2 purge Repeat(Vectors(ListOf { items: [21] }, ListOf { items: [22] }, ListOf { items: [23] }, ListOf { items: [24] }))
2 3 location Accepted(Located(2000000000, 700000000))
2 9 vectors Ahead(3)
";

/// What was accepted: how many calls of device 1, each of them, and the calls of device 2.
const ACCEPTED: &str = "\
3 Some(Vectors) Some(Location) Some(Purge) None
ListOf { items: [Purge, Vectors, Location] }
";

/// A list of one octet.
fn octet(alloc: Global, octet: u8) -> Result<Octets, Fail> {
    let mut octets = Octets::new(alloc);
    octets.push(octet)?;
    Ok(octets)
}

/// Device `number`, whose vector has the octets behind `start`.
fn subscriber(
    alloc: Global,
    number: u32,
    start: u8,
    ambr_dl: u64,
    ambr_ul: u64,
) -> Result<Subscriber, Fail>
    requires { start ≤ 20 }
    ensures { IfOk result (λ row. row.number ≡ number) }
{
    Ok(Subscriber {
        number,
        imsi: 208930000000001,
        tmsi: 77,
        rand: octet(alloc, start + 1)?,
        autn: octet(alloc, start + 2)?,
        res: octet(alloc, start + 3)?,
        key: octet(alloc, start + 4)?,
        apn: Octets::new(alloc),
        ip: 0x0a2d_0001,
        sgw: 0xc0a8_0001,
        teid: 5,
        ambr_dl,
        ambr_ul,
        forbidden: Areas::new(alloc),
        apn2: None,
        ip2: None,
    })
}

fn row_of(alloc: Global, device: &str) -> Result<Subscriber, Fail>
    ensures { IfOk result (λ row. IsWithin 2 row.number) }
{
    if device == "1" {
        return subscriber(alloc, 1, 10, 1_000_000_000, 500_000_000);
    }
    subscriber(alloc, 2, 20, 2_000_000_000, 700_000_000)
}

fn call_of(word: &str) -> SubCall {
    match word {
        "vectors" => SubCall::Vectors,
        "location" => SubCall::Location,
        _ => SubCall::Purge,
    }
}

/// Tells what the server of two devices says to call `k` of the device of this row.
#[tactic(auto, using(peer_calls::proofs::Lists::offer_devices))]
fn tell_offer(
    peer: &mut SubscriberPeer,
    row: &Subscriber,
    k: u64,
    word: &str,
    told: &mut String,
) -> Result<(), AllocError>
    requires devices { length peer.old ≡ 2 }
    requires device { IsWithin 2 row.now.number }
    ensures devices { length peer.new ≡ 2 }
{
    if k == 0 {
        return Ok(());
    }
    let offer = peer.offer(row, k, call_of(word))?;
    writeln!(told, "{} {k} {word} {offer:?}", row.number)
}

fn tell_offers(alloc: Global, peer: &mut SubscriberPeer, told: &mut String) -> Result<(), Fail>
    requires { length peer.old ≡ 2 }
    ensures { OnOk result (length peer.new ≡ 2) }
{
    for offer in OFFERS.lines() {
        let (device, k, word) = three_words(offer).ok_or("no offer")?;
        let k = k.parse::<u64>()?;
        tell_offer(peer, &row_of(alloc, device)?, k, word, told)?;
    }
    Ok(())
}

/// Tells what the server has accepted.
fn tell_accepted(alloc: Global, peer: &SubscriberPeer, told: &mut String) -> Result<(), AllocError>
    requires { length peer.now ≡ 2 }
{
    let d = DeviceId(1);
    write!(told, "{} {:?} ", peer.accepted(d), peer.call(d, 1))?;
    write!(told, "{:?} {:?} ", peer.call(d, 2), peer.call(d, 3))?;
    writeln!(told, "{:?}", peer.call(d, 4))?;
    let calls = peer.calls(alloc, DeviceId(2))?;
    writeln!(told, "{calls:?}")
}

#[test]
fn accepts_each_call_once(rt: HostRuntime) -> Result<(), Fail> {
    let mut peer = SubscriberPeer::new(rt.alloc(), 2)?;
    let mut told = String::new(rt.alloc());
    tell_offers(rt.alloc(), &mut peer, &mut told)?;
    assert_eq!(rt; told.as_str(), OFFERS);
    let mut accepted = String::new(rt.alloc());
    tell_accepted(rt.alloc(), &peer, &mut accepted)?;
    assert_eq!(rt; accepted.as_str(), ACCEPTED);
    Ok(())
}
