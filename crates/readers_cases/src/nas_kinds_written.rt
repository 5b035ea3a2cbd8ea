//! Messages and their octets, worked out by hand from 3GPP TS 24.301.

ghost use Rattle.device_types.specs.Nas.{IsNasOut};

use device_types::{NasOut, Octets};
use echo_base::OutOfMemory;
use nas_kinds::write_nas;
use std::alloc::Global;
use std::test::Fail;

/// Writes the octets of a message as a line of digits.
fn tell(alloc: Global, text: &mut String, message: &NasOut) -> Result<(), OutOfMemory>
    requires { IsNasOut message.now }
{
    let octets = write_nas(alloc, message)?;
    let digits = hex::encode(alloc, octets.items())?;
    text.push_str(&digits)?;
    text.push('\n')
}

/// AUTHENTICATION REJECT; SECURITY MODE COMMAND; the rejects of an attach, a service and an update, with their causes; TRACKING AREA UPDATE
/// ACCEPT; DETACH ACCEPT; PDN CONNECTIVITY REJECT for no bearer, with the procedure transaction identities 2 and 7 and the causes 27 and
/// 26.
const PLAIN: &str = "\
0754
075d000002e070
07440b
074e0a
074b0c
074900
0746
0202d11b
0207d11a
";

#[test]
fn writes(rt: HostRuntime) -> Result<(), OutOfMemory> {
    let alloc = rt.alloc();
    let mut text = String::new(alloc);
    let command = NasOut::SecurityCommand {
        eea: 0xe0,
        eia: 0x70,
    };
    tell(alloc, &mut text, &NasOut::AuthReject)?;
    tell(alloc, &mut text, &command)?;
    tell(alloc, &mut text, &NasOut::AttachReject { cause: 11 })?;
    tell(alloc, &mut text, &NasOut::ServiceReject { cause: 10 })?;
    tell(alloc, &mut text, &NasOut::AreaReject { cause: 12 })?;
    tell(alloc, &mut text, &NasOut::AreaAccept)?;
    tell(alloc, &mut text, &NasOut::DetachAccept)?;
    tell(alloc, &mut text, &NasOut::PdnReject { pti: 2, cause: 27 })?;
    tell(alloc, &mut text, &NasOut::PdnReject { pti: 7, cause: 26 })?;
    assert_eq!(rt; text.as_str(), PLAIN);
    Ok(())
}

/// AUTHENTICATION REQUEST with the RAND 00 to 0f, and the AUTN 10 to 1f behind its length.
const CHALLENGE: &str = "\
075200000102030405060708090a0b0c0d0e0f10101112131415161718191a1b1c1d1e1f
";

#[test]
fn writes_a_challenge(rt: HostRuntime) -> Result<(), Fail> {
    let mut rand = Octets::new(rt.alloc());
    let mut autn = Octets::new(rt.alloc());
    for octet in 0..16u8 {
        rand.push(octet)?;
        autn.push(16 + octet)?;
    }
    assert!(rt; rand.items().len() == 16);
    assert!(rt; autn.items().len() == 16);
    let request = NasOut::AuthRequest { rand, autn };
    let mut text = String::new(rt.alloc());
    tell(rt.alloc(), &mut text, &request)?;
    assert_eq!(rt; text.as_str(), CHALLENGE);
    Ok(())
}

/// ATTACH ACCEPT with the PLMN 02f839 and the area 0102; of its 21 octets of ESM, 34 in all, the procedure transaction identity 7, the access
/// point `internet`, behind two lengths, and the address 10.45.0.1.
const ACCEPT: &str = "\
074201e0060002f839010200155207c101090908696e7465726e657405010a2d0001
";

#[test]
fn writes_an_accept(rt: HostRuntime) -> Result<(), Fail> {
    let apn = Octets::from(b"internet".to_vec(rt.alloc())?);
    assert!(rt; apn.items().len() == 8);
    let accept = NasOut::AttachAccept {
        plmn: 0x02f839,
        tac: 0x0102,
        pti: 7,
        apn,
        ip: 0x0a2d_0001,
    };
    let mut text = String::new(rt.alloc());
    tell(rt.alloc(), &mut text, &accept)?;
    assert_eq!(rt; text.as_str(), ACCEPT);
    Ok(())
}

/// ACTIVATE DEFAULT EPS BEARER CONTEXT REQUEST for bearer 6: the procedure transaction identity, QCI 9, the access point behind two
/// lengths, and the address; with the access points `ims`, of one character and of thirty.
const ACTIVATE: &str = "\
6202c101090403696d7305010a2d8001
6207c101090201780501c0a80003
62fec101091f1e6162636465666768696a6b6c6d6e6f707172737475767778797a303132330501ffffff00
";

/// Writes such a message, for an access point of 1 to 30 octets.
fn tell_activate(
    alloc: Global,
    text: &mut String,
    pti: u8,
    apn: &[u8],
    ip: u32,
) -> Result<(), Fail> {
    if apn.is_empty() || apn.len() > 30 {
        return Err("no access point".into());
    }
    let apn = Octets::from(apn.to_vec(alloc)?);
    let activate = NasOut::Activate { pti, apn, ip };
    tell(alloc, text, &activate)?;
    Ok(())
}

#[test]
fn writes_a_second_bearer(rt: HostRuntime) -> Result<(), Fail> {
    let alloc = rt.alloc();
    let mut text = String::new(alloc);
    tell_activate(alloc, &mut text, 2, b"ims", 0x0a2d_8001)?;
    tell_activate(alloc, &mut text, 7, b"x", 0xc0a8_0003)?;
    let longest = b"abcdefghijklmnopqrstuvwxyz0123";
    tell_activate(alloc, &mut text, 0xfe, longest, 0xffff_ff00)?;
    assert_eq!(rt; text.as_str(), ACTIVATE);
    Ok(())
}
