//! Calls of two devices, each once, again and ahead.
ghost use Rattle.std.specs.Prelude.{◌≡◌, ◌≤◌, length, OnOk};
ghost use Rattle.device_types.specs.Numbers.{IsWithin};

use crate::words::three_words;
use device_types::{Areas, DeviceId, GwCall, Octets, Subscriber};
use peer_gateway::Gateway;
use std::alloc::{AllocError, Global};
use std::test::Fail;

/// A device, the number of a call, the call, and what the gateway says. Device 1 has the address 10.45.0.1 (170721281) of the gateway
/// 192.168.0.1 (3232235521) and the tunnel 1, and on a second connection the address 10.45.128.1 (170754049); device 2 the address
/// 10.45.0.2 of the gateway 192.168.0.3 and the tunnel 256, and no second address, which is told as 0. Each session has a tunnel of
/// its own, a second one too.
const OFFERS: &str = "\
1 2 modify Ahead(0)
1 1 create Accepted(Created(3232235521, 1, 170721281))
1 1 create Repeat(Created(3232235521, 1, 170721281))
1 2 modify Accepted(Modified)
1 2 modify Repeat(Modified)
1 4 delete Ahead(2)
1 5 release Ahead(2)
1 3 release Accepted(Freed)
1 3 release Repeat(Freed)
1 4 delete Accepted(Deleted)
1 4 delete Repeat(Deleted)
1 5 create Accepted(Created(3232235521, 2, 170721281))
1 1 create Repeat(Created(3232235521, 1, 170721281))
2 1 create Accepted(Created(3232235523, 256, 170721282))
2 2 create Accepted(Created(3232235523, 257, 170721282))
2 3 create Accepted(Created(3232235523, 258, 170721282))
1 6 create Accepted(Created(3232235521, 3, 170721281))
1 5 create Repeat(Created(3232235521, 2, 170721281))
2 2 create Repeat(Created(3232235523, 257, 170721282))
1 8 create Ahead(6)
1 9 modify Ahead(6)
1 10 release Ahead(6)
1 11 delete Ahead(6)
1 1 delete Repeat(Created(3232235521, 1, 170721281))
1 2 create Repeat(Modified)
1 3 modify Repeat(Freed)
1 4 release Repeat(Deleted)
2 7 delete Ahead(3)
1 7 second-create Accepted(SecondCreated(3232235521, 4, 170754049))
1 7 second-create Repeat(SecondCreated(3232235521, 4, 170754049))
1 8 second-modify Accepted(SecondModified)
1 8 second-modify Repeat(SecondModified)
1 9 create Accepted(Created(3232235521, 5, 170721281))
1 11 second-create Ahead(9)
1 11 second-modify Ahead(9)
1 7 delete Repeat(SecondCreated(3232235521, 4, 170754049))
1 8 create Repeat(SecondModified)
2 4 second-create Accepted(SecondCreated(3232235523, 259, 0))
";

/// What was accepted: how many calls of device 1, four of them, and the calls of device 2.
const ACCEPTED: &str = "\
9 Some(Create) Some(Modify(3232235522, 2)) Some(Release) Some(Delete) None
ListOf { items: [Create, Create, Create, SecondCreate] }
";

fn subscriber(
    alloc: Global,
    number: u32,
    ip: u32,
    sgw: u32,
    teid: u32,
    ip2: Option<u32>,
) -> Subscriber
    ensures number { result.number ≡ number }
    ensures tunnel { result.teid ≡ teid }
{
    Subscriber {
        number,
        imsi: 208930000000001,
        tmsi: 77,
        rand: Octets::new(alloc),
        autn: Octets::new(alloc),
        res: Octets::new(alloc),
        key: Octets::new(alloc),
        apn: Octets::new(alloc),
        ip,
        sgw,
        teid,
        ambr_dl: 1000000000,
        ambr_ul: 500000000,
        forbidden: Areas::new(alloc),
        apn2: None,
        ip2,
    }
}

fn row_of(alloc: Global, device: &str) -> Subscriber
    ensures device { IsWithin 2 result.number }
    ensures tunnel { result.teid ≤ 4000000000 }
{
    if device == "1" {
        return subscriber(alloc, 1, 0x0a2d_0001, 0xc0a8_0001, 1, Some(0x0a2d_8001));
    }
    subscriber(alloc, 2, 0x0a2d_0002, 0xc0a8_0003, 256, None)
}

fn call_of(word: &str) -> GwCall {
    match word {
        "create" => GwCall::Create,
        "modify" => GwCall::Modify(0xc0a8_0002, 2),
        "release" => GwCall::Release,
        "second-create" => GwCall::SecondCreate,
        "second-modify" => GwCall::SecondModify(0xc0a8_0004, 3),
        _ => GwCall::Delete,
    }
}

/// Tells what the gateway of two devices says to call `k` of the device of this row.
#[tactic(auto, using(peer_calls::proofs::Lists::offer_devices))]
fn tell_offer(
    gateway: &mut Gateway,
    row: &Subscriber,
    k: u64,
    word: &str,
    told: &mut String,
) -> Result<(), AllocError>
    requires devices { length gateway.old ≡ 2 }
    requires device { IsWithin 2 row.now.number }
    requires tunnel { row.now.teid ≤ 4000000000 }
    ensures devices { length gateway.new ≡ 2 }
{
    if k == 0 || k >= 268435456 {
        return Ok(());
    }
    let offer = gateway.offer(row, k, call_of(word))?;
    writeln!(told, "{} {k} {word} {offer:?}", row.number)
}

fn tell_offers(alloc: Global, gateway: &mut Gateway, told: &mut String) -> Result<(), Fail>
    requires { length gateway.old ≡ 2 }
    ensures { OnOk result (length gateway.new ≡ 2) }
{
    for offer in OFFERS.lines() {
        let (device, k, word) = three_words(offer).ok_or("no offer")?;
        let k = k.parse::<u64>()?;
        tell_offer(gateway, &row_of(alloc, device), k, word, told)?;
    }
    Ok(())
}

/// Tells what the gateway has accepted.
fn tell_accepted(alloc: Global, gateway: &Gateway, told: &mut String) -> Result<(), AllocError>
    requires { length gateway.now ≡ 2 }
{
    let d = DeviceId(1);
    write!(told, "{} {:?} ", gateway.accepted(d), gateway.call(d, 1))?;
    write!(told, "{:?} {:?} ", gateway.call(d, 2), gateway.call(d, 3))?;
    writeln!(told, "{:?} {:?}", gateway.call(d, 4), gateway.call(d, 10))?;
    let calls = gateway.calls(alloc, DeviceId(2))?;
    writeln!(told, "{calls:?}")
}

#[test]
fn accepts_each_call_once(rt: HostRuntime) -> Result<(), Fail> {
    let mut gateway = Gateway::new(rt.alloc(), 2)?;
    let mut told = String::new(rt.alloc());
    tell_offers(rt.alloc(), &mut gateway, &mut told)?;
    assert_eq!(rt; told.as_str(), OFFERS);
    let mut accepted = String::new(rt.alloc());
    tell_accepted(rt.alloc(), &gateway, &mut accepted)?;
    assert_eq!(rt; accepted.as_str(), ACCEPTED);
    Ok(())
}
