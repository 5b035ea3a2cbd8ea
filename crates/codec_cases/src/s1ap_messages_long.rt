//! Long fields and lists: NAS-PDUs, radio capabilities, tracking areas, E-RABs. Of each line: octets, how many times other octets stand behind
//! them, these, and those behind all; and how many are written for what they are read as, or why they are refused.

ghost use Rattle.s1ap_pdu.specs.Run.{IsRight};

use crate::tables::is_told_again;
use echo_base::{Bad, OutOfMemory};
use s1ap_messages::{Pdu, read_pdu, write_pdu};
use std::alloc::Global;
use std::test::Fail;

const MESSAGES: &str = "
# a NAS-PDU of 2,048 octets: 8800; with their length 2,050: 8802; all IEs with the octets before them 2,070: 8816
000b408816000003000000020001000800020001001a0088028800 2048 ab : 2075 alike
# one of 2,049, whose length stands in octet 25; and of as many none, whose length stands in octet 23
000b408817000003000000020001000800020001001a0088038801 2049 ab : 6 TooLong at 25
000b4015000003000000020001000800020001001a00028801 0 ab : 6 TooLong at 23
# a radio capability of 2,049 octets, 8801; with their length 2,051: 8803; all IEs with the octets before them 2,071: 8817
0016408817000003000000020001000800020001004a4088038801 2049 ab : 2076 alike, capability 1 1 of 2049
# one of 16,354 octets, bfe2; 16,356: bfe4; 16,376: bff8
001640bff8000003000000020001000800020001004a40bfe4bfe2 16354 ab : 16381 alike, capability 1 1 of 16354
# one of 16,000, the longest that goes the short way, be80; 16,002: be82; 16,022: be96; and of 16,001, which goes piece by piece
001640be96000003000000020001000800020001004a40be82be80 16000 ab : 16027 alike, capability 1 1 of 16000
001640be97000003000000020001000800020001004a40be83be81 16001 ab : 16028 alike, capability 1 1 of 16001
# the NAS-PDU of an E-RAB that is to be set up, 2,048 octets, 8800; the item's 14 octets before it make 2,064: 8810; the list of one item,
# with the count and the item's id, criticality and length, 2,070: 8816; all IEs 2,149: 8865
00090088650000060000000200010008000200010042000a183b9aca00603b9aca000018008816000034008810450009200f80c0a80001000000018800 2048 ab 006b000518000c0000004900201111111111111111111111111111111111111111111111111111111111111111: 2154 alike
# a paging to 256 tracking areas, each an item of ten octets, so ff: with the count 2,561, 8a01; with what is before the list 2,566, and
# all IEs with that 2,590, 8a1e
000a408a1e000004005040020040002b4006001000000001006d400100002e408a01ff 256 002f40060002f8390001 : 2595 alike
# to 255 as if they were 256: 2,551, 89f7; 2,580, 8a14. The item that is lacking would stand behind all 2,585 octets
000a408a14000004005040020040002b4006001000000001006d400100002e4089f7ff 255 002f40060002f8390001 : 1 Truncated at 2585
# an E-RAB SETUP REQUEST with a NAS-PDU of 2,048 octets, 8800; the item's 14 octets before it make 2,064: 8810; the list of one item 2,070:
# 8816; all IEs 2,090: 882a; and with one of 2,049, whose length stands in octet 45
000500882a00000300000002000100080002000100100088160000110088100c0009200f80c0a80001000000028800 2048 ab : 2095 alike
000500882b00000300000002000100080002000100100088170000110088110c0009200f80c0a80001000000028801 2049 ab : 6 TooLong at 45
# one with 256 items of 19 octets, so ff: with the count 4,865, 9301; all IEs 4,885, 9315; with a 257th 4,884, 9314; 4,904, 9328
00050093150000030000000200010008000200010010009301ff 256 0011000f0c0009200f80c0a800010000000200 : 4890 alike
00050093280000030000000200010008000200010010009314ff 257 0011000f0c0009200f80c0a800010000000200 : 13 TrailingBytes at 4890
# an E-RAB SETUP RESPONSE with 256 items of 14 octets: 3,585, 8e01; 3,605, 8e15; with 257: 3,599, 8e0f; 3,619, 8e23; and with 255 as if they
# were 256: 3,571, 8df3; 3,591, 8e07
2005008e15000003000040020001000840020001001c408e01ff 256 0027400a0c1fc0a8000200000003 : 3610 alike
2005008e23000003000040020001000840020001001c408e0fff 257 0027400a0c1fc0a8000200000003 : 13 TrailingBytes at 3610
2005008e07000003000040020001000840020001001c408df3ff 255 0027400a0c1fc0a8000200000003 : 1 Truncated at 3596
";

/// Puts the octets of the digits behind the octets.
fn push_digits(alloc: Global, octets: &mut Vec<u8>, digits: &str) -> Result<(), Fail> {
    Ok(octets.extend_from_slice(&hex::decode(alloc, digits)?)?)
}

/// Puts the octets of a case behind the octets.
fn push_case(alloc: Global, octets: &mut Vec<u8>, case: &str) -> Result<(), Fail> {
    let (digits, rest) = case.split_once(' ').ok_or("no number")?;
    let (number, rest) = rest.split_once(' ').ok_or("nothing more")?;
    let (each, behind) = rest.split_once(' ').ok_or("nothing behind")?;
    push_digits(alloc, octets, digits)?;
    for _ in 0..number.parse::<usize>()? {
        push_digits(alloc, octets, each)?;
    }
    push_digits(alloc, octets, behind)
}

/// Writes how many octets are written for the message, and whether they are these.
fn tell_written(
    alloc: Global,
    text: &mut String,
    octets: &[u8],
    pdu: &Pdu,
) -> Result<(), OutOfMemory>
    requires { IsRight pdu.now }
{
    let written = write_pdu(alloc, pdu)?;
    let count = written.items().len();
    let likeness = if written.items() == octets {
        "alike"
    } else {
        "unlike"
    };
    write!(text, "{count} {likeness}")
}

/// Writes the identities of a message with a radio capability, and how many octets that has.
fn tell_capability(text: &mut String, pdu: &Pdu) -> Result<(), OutOfMemory> {
    match pdu {
        Pdu::UeCapabilityInfoIndication { mme, enb, radio } => {
            let count = radio.items().len();
            write!(text, ", capability {mme} {enb} of {count}")
        }
        _ => Ok(()),
    }
}

/// Writes what is told of a message that was read of the octets.
fn tell_message(
    alloc: Global,
    text: &mut String,
    octets: &[u8],
    pdu: &Pdu,
) -> Result<(), OutOfMemory>
    requires { IsRight pdu.now }
{
    tell_written(alloc, text, octets, pdu)?;
    tell_capability(text, pdu)
}

/// Writes what is told of the octets.
fn tell(alloc: Global, text: &mut String, octets: &[u8]) -> Result<(), OutOfMemory> {
    match read_pdu(alloc, octets) {
        Ok(pdu) => tell_message(alloc, text, octets, &pdu),
        Err(Bad::Refused(refusal)) => write!(text, "{refusal}"),
        Err(Bad::OutOfMemory) => Err(OutOfMemory),
    }
}

/// The octets of a case.
fn octets_of(alloc: Global, case: &str) -> Result<Vec<u8>, Fail> {
    let mut octets = Vec::new(alloc);
    push_case(alloc, &mut octets, case)?;
    Ok(octets)
}

/// Writes a case again, and what is told of its octets.
fn tell_case(alloc: Global, text: &mut String, line: &str) -> Result<(), Fail> {
    let (case, _) = line.split_once(": ").ok_or("nothing told")?;
    write!(text, "{case}: ")?;
    Ok(tell(alloc, text, &octets_of(alloc, case)?)?)
}

#[test]
fn long_fields(rt: HostRuntime) -> Result<(), Fail> {
    is_told_again(&rt, rt.alloc(), MESSAGES, tell_case)
}
