//! Which messages an MME receives.

use crate::tables::{is_told_again, octets_of};
use echo_base::{Bad, OutOfMemory};
use s1ap_messages::{Pdu, read_uplink};
use std::alloc::Global;
use std::test::Fail;

/// Writes the kind of a message.
fn tell_kind(text: &mut String, pdu: &Pdu) -> Result<(), OutOfMemory> {
    let kind = pdu.kind();
    write!(text, "{kind:?}")
}

/// Writes the kind of message that an MME reads, or why it is refused.
fn tell_received(alloc: Global, text: &mut String, octets: &[u8]) -> Result<(), OutOfMemory> {
    match read_uplink(alloc, octets) {
        Ok(pdu) => tell_kind(text, &pdu),
        Err(Bad::Refused(refusal)) => write!(text, "{refusal}"),
        Err(Bad::OutOfMemory) => Err(OutOfMemory),
    }
}

/// Writes a case again, with what an MME receives.
fn tell_case(alloc: Global, text: &mut String, case: &str) -> Result<(), Fail> {
    let octets = octets_of(alloc, text, case)?;
    Ok(tell_received(alloc, text, &octets)?)
}

#[test]
fn received(rt: HostRuntime) -> Result<(), Fail> {
    is_told_again(&rt, rt.alloc(), MESSAGES, tell_case)
}

const MESSAGES: &str = "
# ---- received
000c403e000005000800020001001a00161507417108298039000000001002e0e000040201d011004300060002f8390001006440080002f839000000100086400130 InitialUeMessage
000d4032000005000000020001000800020001001a000908470000000000075e006440080002f83900000010004340060002f8390001 UplinkNasTransport
200900220000030000400200010008400200010033400f000032400a0a1fc0a8000200000002 InitialContextSetupResponse
400900140000030000400200010008400200010002400124 InitialContextSetupFailure
00124015000003000000020001000800020001000240020280 UeContextReleaseRequest
2017000f000002000040020001000840020001 UeContextReleaseComplete
00164016000003000000020001000800020001004a4003020102 UeCapabilityInfoIndication
20050022000003000040020001000840020001001c400f000027400a0c1fc0a8000200000003 ErabSetupResponse
2005000f000002000040020001000840020001 ErabSetupResponse

# ---- not received
# a downlink NAS transport, and one that is cut, that has an octet too many, or that lacks its NAS-PDU
000b4017000003000000020001000800020001001a000403074e0a 14 WrongDirection at 1
000b4017000003000000020001000800020001001a000403074e 1 Truncated at 3
000b4017000003000000020001000800020001001a000403074e0a00 13 TrailingBytes at 27
000b400f000002000000020001000800020001 11 MissingIe 26 at 19
# an initial context setup request
00090080840000060000000200010008000200010042000a183b9aca00603b9aca00001800360000340031450009200f80c0a800010000000122074201e0060002f839000100155201c101090908696e7465726e657405010a2d0001006b000518000c0000004900201111111111111111111111111111111111111111111111111111111111111111 14 WrongDirection at 1
# a context release command, and one without its cause
0017001000000200630004000100010002400122 14 WrongDirection at 1
0017000b0000010063000400010001 11 MissingIe 2 at 15
# a paging, and one by IMSI
000a4027000004005040020040002b4006001000000001006d400100002e400b00002f40060002f8390001 14 WrongDirection at 1
000a4022000004005040020040002b400140006d400100002e400b00002f40060002f8390001 8 BadChoice at 17
# an E-RAB setup request, and one without its list
0005003700000300000002000100080002000100100024000011001f0c0009200f80c0a8000100000002106202c101090403696d7305010a2d8001 14 WrongDirection at 1
0005000f000002000000020001000800020001 11 MissingIe 16 at 19
# messages that an MME receives
2017000f000001000040020001000840020001 13 TrailingBytes at 13
00110000 9 OtherProcedure 17 at 1
";
