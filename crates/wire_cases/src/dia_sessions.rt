//! The longest session of a message of Diameter S6a, and one octet more: RFC 6733, 8.8, does not bound it, this profile does.

use crate::wire::{Telling, Wire};
use dia_wire::{read_dia, write_dia};
use std::alloc::{AllocError, Global};
use std::test::Fail;

/// A Purge-UE-Request before the AVP of its session, and behind it, where the session has 1,000 octets.
const FRONT: &str = "01000450c0000141010000230000000100000001";

const BACK: &str =
    "000001154000000c0000000100000108400000106d6d652e6563686f000001284000000c6563686f0000011b4000000c6563686f000000014000001732303839333030303030303030303100";

/// The heads of sessions of 1,000 and of 1,001 octets.
const LONGEST: &str = "00000107400003f0";

const LONGER: &str = "00000107400003f1";

/// The message with that front, whose session has so many octets with its padding.
fn message(alloc: Global, front: &str, head: &str, count: usize) -> Result<Vec<u8>, Fail> {
    let mut octets = hex::decode(alloc, front)?;
    octets.extend_from_slice(&hex::decode(alloc, head)?)?;
    octets.resize(octets.len().saturating_add(count), 0x7a)?;
    octets.extend_from_slice(&hex::decode(alloc, BACK)?)?;
    Ok(octets)
}

#[test]
fn reads_and_writes_the_longest_session(rt: HostRuntime) -> Result<(), Fail> {
    let octets = message(rt.alloc(), FRONT, LONGEST, 1000)?;
    let Ok(read) = read_dia(rt.alloc(), &octets) else {
        return Err("refused".into());
    };
    assert_eq!(rt; read.session.items().len(), 1000);
    assert_eq!(rt; write_dia(rt.alloc(), &read)?.items(), octets.as_slice());
    Ok(())
}

/// Why a session of 1,001 octets is refused.
fn told_longer(alloc: Global) -> Result<String, Fail> {
    let octets = message(
        alloc,
        "01000454c0000141010000230000000100000001",
        LONGER,
        1004,
    )?;
    Ok(Wire::Dia.told(alloc, Telling::Read, &octets)?)
}

#[test]
fn refuses_a_longer_session(rt: HostRuntime) -> Result<(), Fail> {
    assert_eq!(rt; told_longer(rt.alloc())?.as_str(), "52 DiaAvp 263 at 20");
    Ok(())
}
