//! Messages in their usual form are read and written octet by octet, and piece by piece they are the same.

ghost use Rattle.s1ap_pdu.specs.Run.{IsRight};

use crate::tables::{is_told_again, octets_of};
use s1ap_messages::{Pdu, read_pdu, read_pieces, read_usual, write_pieces, write_usual};
use std::alloc::Global;
use std::test::Fail;

/// Are both printed alike?
pub(crate) fn are_alike(alloc: Global, one: &Pdu, other: &Pdu) -> Result<bool, Fail> {
    let one = format!(in alloc; "{one:?}")?;
    let other = format!(in alloc; "{other:?}")?;
    Ok(one.as_str() == other.as_str())
}

/// Is that message read octet by octet?
fn is_read_usually(alloc: Global, octets: &[u8], pdu: &Pdu) -> Result<bool, Fail> {
    match read_usual(alloc, octets) {
        Some(found) => are_alike(alloc, &found, pdu),
        None => Ok(false),
    }
}

/// Is the message written octet by octet as these octets?
fn is_written_usually(alloc: Global, octets: &[u8], pdu: &Pdu) -> Result<bool, Fail>
    requires { IsRight pdu.now }
{
    match write_usual(alloc, pdu)? {
        Some(written) => Ok(written.items() == octets),
        None => Ok(false),
    }
}

/// Is that message read piece by piece?
fn is_read_in_pieces(alloc: Global, octets: &[u8], pdu: &Pdu) -> Result<bool, Fail> {
    let found = read_pieces(alloc, octets)?;
    are_alike(alloc, &found, pdu)
}

/// Is the message written piece by piece as these octets?
fn is_written_in_pieces(alloc: Global, octets: &[u8], pdu: &Pdu) -> Result<bool, Fail>
    requires { IsRight pdu.now }
{
    let written = write_pieces(alloc, pdu)?;
    Ok(written.items() == octets)
}

/// Writes whether the octets are read and written octet by octet, and whether they are that message piece by piece.
fn tell_message(alloc: Global, text: &mut String, octets: &[u8], pdu: &Pdu) -> Result<(), Fail>
    requires { IsRight pdu.now }
{
    if is_read_usually(alloc, octets, pdu)? {
        text.push_str("read ")?;
    }
    if is_written_usually(alloc, octets, pdu)? {
        text.push_str("written ")?;
    }
    if is_read_in_pieces(alloc, octets, pdu)? && is_written_in_pieces(alloc, octets, pdu)? {
        text.push_str("alike")?;
    }
    Ok(())
}

/// Writes whether the octets are read and written octet by octet, and whether they are the same piece by piece.
fn tell(alloc: Global, text: &mut String, octets: &[u8]) -> Result<(), Fail> {
    let pdu = read_pdu(alloc, octets)?;
    tell_message(alloc, text, octets, &pdu)
}

/// Writes a case again, with what is told of its octets.
fn tell_case(alloc: Global, text: &mut String, case: &str) -> Result<(), Fail> {
    let octets = octets_of(alloc, text, case)?;
    tell(alloc, text, &octets)
}

#[test]
fn each_kind(rt: HostRuntime) -> Result<(), Fail> {
    is_told_again(&rt, rt.alloc(), KINDS, tell_case)
}

/// An INITIAL UE MESSAGE without an S-TMSI, and with one; the other kinds, the release command with both identities and with
/// one; a cause of each group; numbers of two, three and four octets; a DOWNLINK NAS TRANSPORT with 128 octets of NAS-PDU; a
/// PAGING; and an E-RAB SETUP REQUEST and RESPONSE. These three, a failure and a release command with one identity are rare, and
/// go piece by piece, as does to read a cause of transport.
const KINDS: &str = "\
000c403e000005000800020001001a00161507417108298039000000001002e0e000040201d011004300060002f8390001006440080002f839000000100086400130 read written alike
000c4037000006000800020001001a000504c7000000004300060002f8390001006440080002f83900000010008640014000600006004000000001 read written alike
000d4035000005000000020001000800020001001a000c0b075308a0a1a2a3a4a5a6a7006440080002f83900000010004340060002f8390001 read written alike
000b4017000003000000020001000800020001001a000403074e0a read written alike
00090080840000060000000200010008000200010042000a183b9aca00603b9aca00001800360000340031450009200f80c0a800010000000122074201e0060002f839000100155201c101090908696e7465726e657405010a2d0001006b000518000c0000004900201111111111111111111111111111111111111111111111111111111111111111 read written alike
200900220000030000400200010008400200010033400f000032400a0a1fc0a8000200000002 read written alike
400900140000030000400200010008400200010002400124 alike
00124015000003000000020001000800020001000240020280 read written alike
001240140000030000000200010008000200010002400124 read written alike
001240140000030000000200010008000200010002400114 written alike
0017001000000200630004000100010002400120 read written alike
0017000e00000200630002402a0002400120 alike
2017000f000002000040020001000840020001 read written alike
00164016000003000000020001000800020001004a4003020102 read written alike
400900140000030000400200010008400200010002400114 alike
400900140000030000400200010008400200010002400136 alike
400900140000030000400200010008400200010002400145 alike
2017001300000200004005c00100000000084003400100 read written alike
2017001300000200004004800100000008400480ffffff read written alike
000b408096000003000000020001000800020001001a0080828080abababababababababababababababababababababababababababababababababababababababababababababababababababababababababababababababababababababababababababababababababababababababababababababababababababababababababababababababababababababababababababababababab read written alike
000a4027000004005040020040002b4006001000000001006d400100002e400b00002f40060002f8390001 alike
0005003700000300000002000100080002000100100024000011001f0c0009200f80c0a8000100000002106202c101090403696d7305010a2d8001 alike
20050022000003000040020001000840020001001c400f000027400a0c1fc0a8000200000003 alike
";
