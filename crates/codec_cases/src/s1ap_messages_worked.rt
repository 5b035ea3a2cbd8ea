//! Each kind of message: its name and its IEs (TS 36.413, 9.1 and 9.3.3); and worked messages, read and written. Of each line of
//! a table of these: the octets; those that are written for what is read, or `=` for the same ones; and what is read, as it is
//! printed. In the comments e is an extension bit and o the bit of the iE-Extensions, both 0 unless shown; p is padding.

ghost use Rattle.s1ap_pdu.specs.Run.{IsRight};

use crate::tables::{is_told_again, octets_of};
use s1ap_ies::Criticality;
use s1ap_messages::{MessageKind, Pdu, ies_of, message_name, read_pdu, write_pdu};
use std::alloc::Global;
use std::test::Fail;

/// Writes what was written, or `=` for the same octets.
fn tell_octets(
    alloc: Global,
    text: &mut String,
    octets: &[u8],
    written: &[u8],
) -> Result<(), Fail> {
    if written == octets {
        return Ok(text.push('=')?);
    }
    let digits = hex::encode(alloc, written)?;
    Ok(text.push_str(&digits)?)
}

/// Writes what is written for a message, or `=` for the same octets.
fn tell_written(alloc: Global, text: &mut String, octets: &[u8], pdu: &Pdu) -> Result<(), Fail>
    requires { IsRight pdu.now }
{
    let written = write_pdu(alloc, pdu)?;
    tell_octets(alloc, text, octets, written.items())
}

/// Writes what is written for a message, and the message.
fn tell_message(alloc: Global, text: &mut String, octets: &[u8], pdu: &Pdu) -> Result<(), Fail>
    requires { IsRight pdu.now }
{
    tell_written(alloc, text, octets, pdu)?;
    Ok(write!(text, " {pdu:?}")?)
}

/// Writes what is written for the message that the octets are, or `=` for the same octets, and the message.
pub(crate) fn tell(alloc: Global, text: &mut String, octets: &[u8]) -> Result<(), Fail> {
    let pdu = read_pdu(alloc, octets)?;
    tell_message(alloc, text, octets, &pdu)
}

/// Writes a case again, with what is told of its octets.
fn tell_case(alloc: Global, text: &mut String, case: &str) -> Result<(), Fail> {
    let octets = octets_of(alloc, text, case)?;
    tell(alloc, text, &octets)
}

#[test]
fn worked_messages(rt: HostRuntime) -> Result<(), Fail> {
    is_told_again(&rt, rt.alloc(), MESSAGES, tell_case)
}

/// Writes a table as a line: the kind, the message's name, and of each element its id and its criticality, 0 reject and 1 ignore, with `?`
/// where it may be absent.
fn write_table(text: &mut String, kind: MessageKind) -> Result<(), Fail> {
    let table = ies_of(kind);
    let name = message_name(kind);
    write!(text, "{kind:?} {name}")?;
    for row in table.rows.iter().take(table.len) {
        let absent = if row.needed { "" } else { "?" };
        write!(text, " {}:{}{absent}", row.id, row.criticality.number())?;
    }
    Ok(text.push('\n')?)
}

/// Writes the number of each criticality.
fn write_criticalities(text: &mut String) -> Result<(), Fail> {
    let reject = Criticality::Reject.number();
    let ignore = Criticality::Ignore.number();
    let notify = Criticality::Notify.number();
    Ok(write!(text, "reject {reject}, ignore {ignore}, notify {notify}\n")?)
}

/// Writes the number of each criticality, and the table of each kind.
fn write_tables(text: &mut String) -> Result<(), Fail> {
    write_criticalities(text)?;
    for kind in KINDS {
        write_table(text, kind)?;
    }
    Ok(())
}

#[test]
fn has_the_elements_of_the_standard(rt: HostRuntime) -> Result<(), Fail> {
    let mut text = String::new(rt.alloc());
    write_tables(&mut text)?;
    assert_eq!(rt; text.as_str(), LINES);
    Ok(())
}

const KINDS: [MessageKind; 13] = [
    MessageKind::InitialUeMessage,
    MessageKind::UplinkNasTransport,
    MessageKind::DownlinkNasTransport,
    MessageKind::InitialContextSetupRequest,
    MessageKind::InitialContextSetupResponse,
    MessageKind::InitialContextSetupFailure,
    MessageKind::UeContextReleaseRequest,
    MessageKind::UeContextReleaseCommand,
    MessageKind::UeContextReleaseComplete,
    MessageKind::UeCapabilityInfoIndication,
    MessageKind::Paging,
    MessageKind::ErabSetupRequest,
    MessageKind::ErabSetupResponse,
];

const LINES: &str = "\
reject 0, ignore 1, notify 2
InitialUeMessage InitialUEMessage 8:0 26:0 67:0 100:1 134:1 96:0?
UplinkNasTransport UplinkNASTransport 0:0 8:0 26:0 100:1 67:1
DownlinkNasTransport DownlinkNASTransport 0:0 8:0 26:0
InitialContextSetupRequest InitialContextSetupRequest 0:0 8:0 66:0 24:0 107:0 73:0
InitialContextSetupResponse InitialContextSetupResponse 0:1 8:1 51:1
InitialContextSetupFailure InitialContextSetupFailure 0:1 8:1 2:1
UeContextReleaseRequest UEContextReleaseRequest 0:0 8:0 2:1
UeContextReleaseCommand UEContextReleaseCommand 99:0 2:1
UeContextReleaseComplete UEContextReleaseComplete 0:1 8:1
UeCapabilityInfoIndication UECapabilityInfoIndication 0:0 8:0 74:1
Paging Paging 80:1 43:1 109:1 46:1
ErabSetupRequest ErabSetupRequest 0:0 8:0 66:0? 16:0
ErabSetupResponse ErabSetupResponse 0:1 8:1 28:1?
";

const MESSAGES: &str = "
# ---- what carries NAS-PDUs
# an attach request; the IEs 8, 26, 67, 100, 134
000c403e000005000800020001001a00161507417108298039000000001002e0e000040201d011004300060002f8390001006440080002f839000000100086400130 = InitialUeMessage { enb: 1, nas: ListOf { items: [7, 65, 113, 8, 41, 128, 57, 0, 0, 0, 0, 16, 2, 224, 224, 0, 4, 2, 1, 208, 17] }, tai: Tai { plmn: 194617, tac: 1 }, cgi: Cgi { plmn: 194617, cell: 1 }, rrc: EnumValue { extended: false, index: 3 }, stmsi: None }
# a service request; the IE 96 behind them: e o 00000001 p(6), the MME code 1, is 00 40
000c4037000006000800020001001a000504c7000000004300060002f8390001006440080002f83900000010008640014000600006004000000001 = InitialUeMessage { enb: 1, nas: ListOf { items: [199, 0, 0, 0] }, tai: Tai { plmn: 194617, tac: 1 }, cgi: Cgi { plmn: 194617, cell: 1 }, rrc: EnumValue { extended: false, index: 4 }, stmsi: Some(Stmsi { mmec: 1, tmsi: 1 }) }
# a tracking area update request, from the area 9
000c4038000005000800020002001a00100f0748700bf602f83900010100000001004300060002f8390009006440080002f839000000100086400130 = InitialUeMessage { enb: 2, nas: ListOf { items: [7, 72, 112, 11, 246, 2, 248, 57, 0, 1, 1, 0, 0, 0, 1] }, tai: Tai { plmn: 194617, tac: 9 }, cgi: Cgi { plmn: 194617, cell: 1 }, rrc: EnumValue { extended: false, index: 3 }, stmsi: None }
# the greatest eNB UE S1AP ID: three octets, so 10 p(6) before them
000c40400000050008000480ffffff001a00161507417108298039000000001002e0e000040201d011004300060002f8390001006440080002f839000000100086400130 = InitialUeMessage { enb: 16777215, nas: ListOf { items: [7, 65, 113, 8, 41, 128, 57, 0, 0, 0, 0, 16, 2, 224, 224, 0, 4, 2, 1, 208, 17] }, tai: Tai { plmn: 194617, tac: 1 }, cgi: Cgi { plmn: 194617, cell: 1 }, rrc: EnumValue { extended: false, index: 3 }, stmsi: None }
# an authentication response
000d4035000005000000020001000800020001001a000c0b075308a0a1a2a3a4a5a6a7006440080002f83900000010004340060002f8390001 = UplinkNasTransport { mme: 1, enb: 1, nas: ListOf { items: [7, 83, 8, 160, 161, 162, 163, 164, 165, 166, 167] }, cgi: Cgi { plmn: 194617, cell: 1 }, tai: Tai { plmn: 194617, tac: 1 } }
# a security mode complete
000d4032000005000000020001000800020001001a000908470000000000075e006440080002f83900000010004340060002f8390001 = UplinkNasTransport { mme: 1, enb: 1, nas: ListOf { items: [71, 0, 0, 0, 0, 0, 7, 94] }, cgi: Cgi { plmn: 194617, cell: 1 }, tai: Tai { plmn: 194617, tac: 1 } }
# an attach complete
000d4037000005000000020001000800020001001a000e0d270000000001074300035200c2006440080002f83900000010004340060002f8390001 = UplinkNasTransport { mme: 1, enb: 1, nas: ListOf { items: [39, 0, 0, 0, 0, 1, 7, 67, 0, 3, 82, 0, 194] }, cgi: Cgi { plmn: 194617, cell: 1 }, tai: Tai { plmn: 194617, tac: 1 } }
# a service reject
000b4017000003000000020001000800020001001a000403074e0a = DownlinkNasTransport { mme: 1, enb: 1, nas: ListOf { items: [7, 78, 10] } }
# an authentication request
000b4038000003000000020001000800020001001a002524075200000102030405060708090a0b0c0d0e0f10101112131415161718191a1b1c1d1e1f = DownlinkNasTransport { mme: 1, enb: 1, nas: ListOf { items: [7, 82, 0, 0, 1, 2, 3, 4, 5, 6, 7, 8, 9, 10, 11, 12, 13, 14, 15, 16, 16, 17, 18, 19, 20, 21, 22, 23, 24, 25, 26, 27, 28, 29, 30, 31] } }
# a security mode command
000b401b000003000000020001000800020001001a000807075d000002e0e0 = DownlinkNasTransport { mme: 1, enb: 1, nas: ListOf { items: [7, 93, 0, 0, 2, 224, 224] } }
# an authentication reject
000b4016000003000000020001000800020001001a0003020754 = DownlinkNasTransport { mme: 1, enb: 1, nas: ListOf { items: [7, 84] } }
# a tracking area update reject
000b4017000003000000020001000800020002001a000403074b0c = DownlinkNasTransport { mme: 1, enb: 2, nas: ListOf { items: [7, 75, 12] } }

# ---- one of each kind, whose like fields all differ: the MME UE S1AP ID 2 and the eNB UE S1AP ID 3; the TAI with the PLMN 02f839, 194617,
# and the CGI with 00f110, 61712
# the NAS-PDU 075e; the area 7; the cell a5, 165, four bits higher as it stands; the RRC cause 2, e 010 p(4); the MME code 2, e o 00000010 p(6), is
# 00 80, the M-TMSI 9. IEs of 6, 7, 10, 12, 5 and 10 octets
000c4035000006000800020003001a000302075e004300060002f8390007006440080000f11000000a50008640012000600006008000000009 = InitialUeMessage { enb: 3, nas: ListOf { items: [7, 94] }, tai: Tai { plmn: 194617, tac: 7 }, cgi: Cgi { plmn: 61712, cell: 165 }, rrc: EnumValue { extended: false, index: 2 }, stmsi: Some(Stmsi { mmec: 2, tmsi: 9 }) }
# an RRC cause beyond the roots: e = 1, 0, 000101
000c402b000005000800020003001a000302075e004300060002f8390007006440080000f11000000a500086400185 = InitialUeMessage { enb: 3, nas: ListOf { items: [7, 94] }, tai: Tai { plmn: 194617, tac: 7 }, cgi: Cgi { plmn: 61712, cell: 165 }, rrc: EnumValue { extended: true, index: 5 }, stmsi: None }
# IEs of 6, 6, 7, 12 and 10 octets
000d402c000005000000020002000800020003001a000302075e006440080000f11000000a50004340060002f8390007 = UplinkNasTransport { mme: 2, enb: 3, nas: ListOf { items: [7, 94] }, cgi: Cgi { plmn: 61712, cell: 165 }, tai: Tai { plmn: 194617, tac: 7 } }
000b4016000003000000020002000800020003001a0003020746 = DownlinkNasTransport { mme: 2, enb: 3, nas: ListOf { items: [7, 70] } }
# 500000000 is 1dcd6500. The item: e o o e 0110 is 06; 00; QCI 07; e o 101001 is 29, 41; 0f80; the address c0a80003, 3232235523; the TEID 516.
# e000 and 6000: 000 1110000000000000 0 0110000000000000 p(4). IEs of 6, 6, 14, 23, 9 and 36 octets
000900610000060000000200020008000200030042000a183b9aca00601dcd650000180013000034000e060007290f80c0a8000300000204006b00051c0006000000490020000102030405060708090a0b0c0d0e0f101112131415161718191a1b1c1d1e1f = InitialContextSetupRequest { mme: 2, enb: 3, rates: BitRates { dl: 1000000000, ul: 500000000 }, bearers: ListOf { items: [ErabToSetup { id: 6, qci: 7, arp: 41, address: 3232235523, teid: 516, nas: None }] }, caps: SecCaps { eea: 57344, eia: 24576 }, key: ListOf { items: [0, 1, 2, 3, 4, 5, 6, 7, 8, 9, 10, 11, 12, 13, 14, 15, 16, 17, 18, 19, 20, 21, 22, 23, 24, 25, 26, 27, 28, 29, 30, 31] } }
200900220000030000400200020008400200030033400f000032400a0c1fc0a8000300000204 = InitialContextSetupResponse { mme: 2, enb: 3, done: ListOf { items: [ErabDone { id: 6, address: 3232235523, teid: 516 }] } }
# causes of each group beyond its roots: the choice e 010, e = 1, 0, 000101; e 011, 1, 0, 000001; e 000, 1, 0, 000101; and of the roots e 001, e 1
40090015000003000040020002000840020003000240022850 = InitialContextSetupFailure { mme: 2, enb: 3, cause: Cause { group: 2, extended: true, index: 5 } }
00124015000003000000020002000800020003000240023810 = UeContextReleaseRequest { mme: 2, enb: 3, cause: Cause { group: 3, extended: true, index: 1 } }
001240140000030000000200020008000200030002400114 = UeContextReleaseRequest { mme: 2, enb: 3, cause: Cause { group: 1, extended: false, index: 1 } }
001700110000020063000400020003000240020850 = UeContextReleaseCommand { ids: Pair { mme: 2, enb: 3 }, cause: Cause { group: 0, extended: true, index: 5 } }
2017000f000002000040020002000840020003 = UeContextReleaseComplete { mme: 2, enb: 3 }
00164016000003000000020002000800020003004a4003020102 = UeCapabilityInfoIndication { mme: 2, enb: 3, radio: ListOf { items: [1, 2] } }

# ---- contexts
# an initial context setup request. Header, and 132 octets in two octets of length, 8084; six IEs; the IEs 0 and 8.
# 66: 1000000000 is 3b9aca00, four octets: e o 011 p(3) is 18, and 011 p(5) is 60
# 24: one E-RAB, so 00; the item 52 of 49 octets: e o o with o = 10, e 0101, 45; e e e p(5), QCI, 0009; e o 1000 0 0, e 00011111 p(7),
# 200f80; address, TEID; 34 octets of NAS-PDU. 107: e o e 1100000000000000 e 1100000000000000 p(4). 73
00090080840000060000000200010008000200010042000a183b9aca00603b9aca00001800360000340031450009200f80c0a800010000000122074201e0060002f839000100155201c101090908696e7465726e657405010a2d0001006b000518000c0000004900201111111111111111111111111111111111111111111111111111111111111111 = InitialContextSetupRequest { mme: 1, enb: 1, rates: BitRates { dl: 1000000000, ul: 1000000000 }, bearers: ListOf { items: [ErabToSetup { id: 5, qci: 9, arp: 32, address: 3232235521, teid: 1, nas: Some(ListOf { items: [7, 66, 1, 224, 6, 0, 2, 248, 57, 0, 1, 0, 21, 82, 1, 193, 1, 9, 9, 8, 105, 110, 116, 101, 114, 110, 101, 116, 5, 1, 10, 45, 0, 1] }) }] }, caps: SecCaps { eea: 49152, eia: 49152 }, key: ListOf { items: [17, 17, 17, 17, 17, 17, 17, 17, 17, 17, 17, 17, 17, 17, 17, 17, 17, 17, 17, 17, 17, 17, 17, 17, 17, 17, 17, 17, 17, 17, 17, 17] } }
# the IEs 0, 8, 51: one E-RAB, so 00; the item 50: e o e 0101 e is 0a, and 00011111 is 1f
200900220000030000400200010008400200010033400f000032400a0a1fc0a8000200000002 = InitialContextSetupResponse { mme: 1, enb: 1, done: ListOf { items: [ErabDone { id: 5, address: 3232235522, teid: 2 }] } }
# two of them: the count less 1, and items of 10 octets with the E-RABs 5 and 6
200900300000030000400200010008400200010033401d010032400a0a1fc0a80002000000020032400a0c1fc0a8000300000003 = InitialContextSetupResponse { mme: 1, enb: 1, done: ListOf { items: [ErabDone { id: 5, address: 3232235522, teid: 2 }, ErabDone { id: 6, address: 3232235523, teid: 3 }] } }
# two that are to be set up: the count less 1, and items of 14 octets, and of 17 with a NAS-PDU: e o o with o = 10, e 0011, 43; QCI 05; e o
# 1111 0 0, 3c
000900760000060000000200010008000200010042000a183b9aca00603b9aca0000180028010034000e050009200f80c0a8000100000001003400114300053c0f800a00000100000102020746006b000518000c0000004900201111111111111111111111111111111111111111111111111111111111111111 = InitialContextSetupRequest { mme: 1, enb: 1, rates: BitRates { dl: 1000000000, ul: 1000000000 }, bearers: ListOf { items: [ErabToSetup { id: 5, qci: 9, arp: 32, address: 3232235521, teid: 1, nas: None }, ErabToSetup { id: 3, qci: 5, arp: 60, address: 167772161, teid: 258, nas: Some(ListOf { items: [7, 70] }) }] }, caps: SecCaps { eea: 49152, eia: 49152 }, key: ListOf { items: [17, 17, 17, 17, 17, 17, 17, 17, 17, 17, 17, 17, 17, 17, 17, 17, 17, 17, 17, 17, 17, 17, 17, 17, 17, 17, 17, 17, 17, 17, 17, 17] } }
# causes: user-inactivity is the radio network's 20, e 000 e 010100; of the NAS ones, e 010, normal-release is e 00,
# authentication-failure e 01, detach e 10
# the IEs 0, 8, 2
400900140000030000400200010008400200010002400124 = InitialContextSetupFailure { mme: 1, enb: 1, cause: Cause { group: 2, extended: false, index: 2 } }
# the IEs 0, 8, 2
00124015000003000000020001000800020001000240020280 = UeContextReleaseRequest { mme: 1, enb: 1, cause: Cause { group: 0, extended: false, index: 20 } }
# the IEs 99 and 2: the choice e 0, the pair e o, one octet 00 p(2), one octet 00 p(6)
0017001000000200630004000100010002400120 = UeContextReleaseCommand { ids: Pair { mme: 1, enb: 1 }, cause: Cause { group: 2, extended: false, index: 0 } }
0017001000000200630004000100010002400122 = UeContextReleaseCommand { ids: Pair { mme: 1, enb: 1 }, cause: Cause { group: 2, extended: false, index: 1 } }
001700110000020063000400010001000240020280 = UeContextReleaseCommand { ids: Pair { mme: 1, enb: 1 }, cause: Cause { group: 0, extended: false, index: 20 } }
# the choice e 1, one octet 00 p(4)
0017000e00000200630002402a0002400120 = UeContextReleaseCommand { ids: Mme(42), cause: Cause { group: 2, extended: false, index: 0 } }
# the IEs 0 and 8
2017000f000002000040020001000840020001 = UeContextReleaseComplete { mme: 1, enb: 1 }
# the IEs 0, 8, 74
00164016000003000000020001000800020001004a4003020102 = UeCapabilityInfoIndication { mme: 1, enb: 1, radio: ListOf { items: [1, 2] } }

# ---- other criticalities, and IEs that are passed over
# any criticality
2017000f000002000000020001000800020001 2017000f000002000040020001000840020001 UeContextReleaseComplete { mme: 1, enb: 1 }
2017400f000002000040020001000840020001 2017000f000002000040020001000840020001 UeContextReleaseComplete { mme: 1, enb: 1 }
2017800f000002000080020001000880020001 2017000f000002000040020001000840020001 UeContextReleaseComplete { mme: 1, enb: 1 }
2017000f000002000080020001000880020001 2017000f000002000040020001000840020001 UeContextReleaseComplete { mme: 1, enb: 1 }
# the id 75 at the end, in front, without content, and three times
20170017000003000040020001000840020001004b000400000000 2017000f000002000040020001000840020001 UeContextReleaseComplete { mme: 1, enb: 1 }
20170017000003004b000400000000000040020001000840020001 2017000f000002000040020001000840020001 UeContextReleaseComplete { mme: 1, enb: 1 }
20170013000003000040020001004b0000000840020001 2017000f000002000040020001000840020001 UeContextReleaseComplete { mme: 1, enb: 1 }
2017001d000005004b4001ff000040020001004b0000000840020001004b8001ff 2017000f000002000040020001000840020001 UeContextReleaseComplete { mme: 1, enb: 1 }
# ids of other messages, whatever they contain
20170015000003000040020001001a0002ffff000840020001 2017000f000002000040020001000840020001 UeContextReleaseComplete { mme: 1, enb: 1 }
2017001400000300024001ff000040020001000840020001 2017000f000002000040020001000840020001 UeContextReleaseComplete { mme: 1, enb: 1 }
20170019000004000040020001ffff0001ffffff0001ff000840020001 2017000f000002000040020001000840020001 UeContextReleaseComplete { mme: 1, enb: 1 }
# an attach request with the IE 75 behind its own
000c4046000006000800020001001a00161507417108298039000000001002e0e000040201d011004300060002f8390001006440080002f839000000100086400130004b000400000000 000c403e000005000800020001001a00161507417108298039000000001002e0e000040201d011004300060002f8390001006440080002f839000000100086400130 InitialUeMessage { enb: 1, nas: ListOf { items: [7, 65, 113, 8, 41, 128, 57, 0, 0, 0, 0, 16, 2, 224, 224, 0, 4, 2, 1, 208, 17] }, tai: Tai { plmn: 194617, tac: 1 }, cgi: Cgi { plmn: 194617, cell: 1 }, rrc: EnumValue { extended: false, index: 3 }, stmsi: None }
# with iE-Extensions in its TAI, o 1: one entry with the id 99 hexadecimal, to be ignored, of one octet
000c4045000005000800020001001a00161507417108298039000000001002e0e000040201d0110043000d4002f839000100000099400100006440080002f839000000100086400130 000c403e000005000800020001001a00161507417108298039000000001002e0e000040201d011004300060002f8390001006440080002f839000000100086400130 InitialUeMessage { enb: 1, nas: ListOf { items: [7, 65, 113, 8, 41, 128, 57, 0, 0, 0, 0, 16, 2, 224, 224, 0, 4, 2, 1, 208, 17] }, tai: Tai { plmn: 194617, tac: 1 }, cgi: Cgi { plmn: 194617, cell: 1 }, rrc: EnumValue { extended: false, index: 3 }, stmsi: None }
# items of lists with any criticality: an item 50 with reject and notify, an item 52 with ignore
200900220000030000400200010008400200010033400f000032000a0a1fc0a8000200000002 200900220000030000400200010008400200010033400f000032400a0a1fc0a8000200000002 InitialContextSetupResponse { mme: 1, enb: 1, done: ListOf { items: [ErabDone { id: 5, address: 3232235522, teid: 2 }] } }
200900220000030000400200010008400200010033400f000032800a0a1fc0a8000200000002 200900220000030000400200010008400200010033400f000032400a0a1fc0a8000200000002 InitialContextSetupResponse { mme: 1, enb: 1, done: ListOf { items: [ErabDone { id: 5, address: 3232235522, teid: 2 }] } }
000900610000060000000200010008000200010042000a183b9aca00603b9aca0000180013000034400e050009200f80c0a8000100000001006b000518000c0000004900201111111111111111111111111111111111111111111111111111111111111111 000900610000060000000200010008000200010042000a183b9aca00603b9aca0000180013000034000e050009200f80c0a8000100000001006b000518000c0000004900201111111111111111111111111111111111111111111111111111111111111111 InitialContextSetupRequest { mme: 1, enb: 1, rates: BitRates { dl: 1000000000, ul: 1000000000 }, bearers: ListOf { items: [ErabToSetup { id: 5, qci: 9, arp: 32, address: 3232235521, teid: 1, nas: None }] }, caps: SecCaps { eea: 49152, eia: 49152 }, key: ListOf { items: [17, 17, 17, 17, 17, 17, 17, 17, 17, 17, 17, 17, 17, 17, 17, 17, 17, 17, 17, 17, 17, 17, 17, 17, 17, 17, 17, 17, 17, 17, 17, 17] } }

# ---- iE-Extensions in items
# iE-Extensions in the item of a request, which are passed over
# in the priority: e o 100000 with o = 1 is 60; behind it one entry, 0000, the id 7, to be ignored, the octet aa
000900680000060000000200010008000200010042000a183b9aca00603b9aca000018001a000034001505000960000000074001aa0f80c0a8000100000001006b000518000c0000004900201111111111111111111111111111111111111111111111111111111111111111 000900610000060000000200010008000200010042000a183b9aca00603b9aca0000180013000034000e050009200f80c0a8000100000001006b000518000c0000004900201111111111111111111111111111111111111111111111111111111111111111 InitialContextSetupRequest { mme: 1, enb: 1, rates: BitRates { dl: 1000000000, ul: 1000000000 }, bearers: ListOf { items: [ErabToSetup { id: 5, qci: 9, arp: 32, address: 3232235521, teid: 1, nas: None }] }, caps: SecCaps { eea: 49152, eia: 49152 }, key: ListOf { items: [17, 17, 17, 17, 17, 17, 17, 17, 17, 17, 17, 17, 17, 17, 17, 17, 17, 17, 17, 17, 17, 17, 17, 17, 17, 17, 17, 17, 17, 17, 17, 17] } }
# in the QoS: e e o p(5) with o = 1 is 20; the entry stands behind the priority
000900680000060000000200010008000200010042000a183b9aca00603b9aca000018001a000034001505200920000000074001aa0f80c0a8000100000001006b000518000c0000004900201111111111111111111111111111111111111111111111111111111111111111 000900610000060000000200010008000200010042000a183b9aca00603b9aca0000180013000034000e050009200f80c0a8000100000001006b000518000c0000004900201111111111111111111111111111111111111111111111111111111111111111 InitialContextSetupRequest { mme: 1, enb: 1, rates: BitRates { dl: 1000000000, ul: 1000000000 }, bearers: ListOf { items: [ErabToSetup { id: 5, qci: 9, arp: 32, address: 3232235521, teid: 1, nas: None }] }, caps: SecCaps { eea: 49152, eia: 49152 }, key: ListOf { items: [17, 17, 17, 17, 17, 17, 17, 17, 17, 17, 17, 17, 17, 17, 17, 17, 17, 17, 17, 17, 17, 17, 17, 17, 17, 17, 17, 17, 17, 17, 17, 17] } }
# in the item: e o o e 0101 with the second o = 1 is 25; the entry stands at the end
000900680000060000000200010008000200010042000a183b9aca00603b9aca000018001a0000340015250009200f80c0a8000100000001000000074001aa006b000518000c0000004900201111111111111111111111111111111111111111111111111111111111111111 000900610000060000000200010008000200010042000a183b9aca00603b9aca0000180013000034000e050009200f80c0a8000100000001006b000518000c0000004900201111111111111111111111111111111111111111111111111111111111111111 InitialContextSetupRequest { mme: 1, enb: 1, rates: BitRates { dl: 1000000000, ul: 1000000000 }, bearers: ListOf { items: [ErabToSetup { id: 5, qci: 9, arp: 32, address: 3232235521, teid: 1, nas: None }] }, caps: SecCaps { eea: 49152, eia: 49152 }, key: ListOf { items: [17, 17, 17, 17, 17, 17, 17, 17, 17, 17, 17, 17, 17, 17, 17, 17, 17, 17, 17, 17, 17, 17, 17, 17, 17, 17, 17, 17, 17, 17, 17, 17] } }
# in all three
000900770000060000000200010008000200010042000a183b9aca00603b9aca0000180029000034002425200960000000074001aa000000080001bb0f80c0a8000100000001000000098002ccdd006b000518000c0000004900201111111111111111111111111111111111111111111111111111111111111111 000900610000060000000200010008000200010042000a183b9aca00603b9aca0000180013000034000e050009200f80c0a8000100000001006b000518000c0000004900201111111111111111111111111111111111111111111111111111111111111111 InitialContextSetupRequest { mme: 1, enb: 1, rates: BitRates { dl: 1000000000, ul: 1000000000 }, bearers: ListOf { items: [ErabToSetup { id: 5, qci: 9, arp: 32, address: 3232235521, teid: 1, nas: None }] }, caps: SecCaps { eea: 49152, eia: 49152 }, key: ListOf { items: [17, 17, 17, 17, 17, 17, 17, 17, 17, 17, 17, 17, 17, 17, 17, 17, 17, 17, 17, 17, 17, 17, 17, 17, 17, 17, 17, 17, 17, 17, 17, 17] } }

# ---- pagings: 000a40 the header, 27 the length, 00 0004 the extension bit and the count of IEs; from octet 7 on the IE 80, ten bits of
# index; from 13 on 43, a choice of the S-TMSI; from 23 on 109, a bit; and from 28 on 46, a list of one item with a TAI
# index 0000000001 p(6) is 0040; the S-TMSI: choice e 0, e o 00000001 p(4) is 0010; ps is 0; a list of one, so 00; its item e o, and e o of the TAI
000a4027000004005040020040002b4006001000000001006d400100002e400b00002f40060002f8390001 = Paging { index: 1, id: Stmsi { mmec: 1, tmsi: 1 }, cs: false, tais: ListOf { items: [Tai { plmn: 194617, tac: 1 }] } }
# index 1023 is ffc0; the MME code 2, 00 00 00000010 p(4), is 0020; cs is 1; a list of two, so 01
000a403100000400504002ffc0002b4006002000000009006d400180002e401501002f40060002f8390001002f40060000f1100102 = Paging { index: 1023, id: Stmsi { mmec: 2, tmsi: 9 }, cs: true, tais: ListOf { items: [Tai { plmn: 194617, tac: 1 }, Tai { plmn: 61712, tac: 258 }] } }
# the IEs the other way round
000a4027000004002e400b00002f40060002f8390001006d400100002b4006001000000001005040020040 000a4027000004005040020040002b4006001000000001006d400100002e400b00002f40060002f8390001 Paging { index: 1, id: Stmsi { mmec: 1, tmsi: 1 }, cs: false, tais: ListOf { items: [Tai { plmn: 194617, tac: 1 }] } }
# with iE-Extensions in its item, 01 00, and in its TAI, 00 01: one entry with the id 7, to be ignored, of one octet
000a402e000004005040020040002b4006001000000001006d400100002e401200002f400d4002f8390001000000074001aa 000a4027000004005040020040002b4006001000000001006d400100002e400b00002f40060002f8390001 Paging { index: 1, id: Stmsi { mmec: 1, tmsi: 1 }, cs: false, tais: ListOf { items: [Tai { plmn: 194617, tac: 1 }] } }
000a402e000004005040020040002b4006001000000001006d400100002e401200002f400d1002f8390001000000074001aa 000a4027000004005040020040002b4006001000000001006d400100002e400b00002f40060002f8390001 Paging { index: 1, id: Stmsi { mmec: 1, tmsi: 1 }, cs: false, tais: ListOf { items: [Tai { plmn: 194617, tac: 1 }] } }
# with iE-Extensions in its S-TMSI, e o 00000001 with o = 1, so 0001 0000 0001 0000
000a402e000004005040020040002b400d101000000001000000074001aa006d400100002e400b00002f40060002f8390001 000a4027000004005040020040002b4006001000000001006d400100002e400b00002f40060002f8390001 Paging { index: 1, id: Stmsi { mmec: 1, tmsi: 1 }, cs: false, tais: ListOf { items: [Tai { plmn: 194617, tac: 1 }] } }
# with other criticalities: its own, those of the IEs 80, 43, 109 and 46, and that of the item
000a0027000004005040020040002b4006001000000001006d400100002e400b00002f40060002f8390001 000a4027000004005040020040002b4006001000000001006d400100002e400b00002f40060002f8390001 Paging { index: 1, id: Stmsi { mmec: 1, tmsi: 1 }, cs: false, tais: ListOf { items: [Tai { plmn: 194617, tac: 1 }] } }
000a4027000004005000020040002b8006001000000001006d000100002e800b00002f40060002f8390001 000a4027000004005040020040002b4006001000000001006d400100002e400b00002f40060002f8390001 Paging { index: 1, id: Stmsi { mmec: 1, tmsi: 1 }, cs: false, tais: ListOf { items: [Tai { plmn: 194617, tac: 1 }] } }
000a4027000004005040020040002b4006001000000001006d400100002e400b00002f00060002f8390001 000a4027000004005040020040002b4006001000000001006d400100002e400b00002f40060002f8390001 Paging { index: 1, id: Stmsi { mmec: 1, tmsi: 1 }, cs: false, tais: ListOf { items: [Tai { plmn: 194617, tac: 1 }] } }
000a4027000004005040020040002b4006001000000001006d400100002e400b00002f80060002f8390001 000a4027000004005040020040002b4006001000000001006d400100002e400b00002f40060002f8390001 Paging { index: 1, id: Stmsi { mmec: 1, tmsi: 1 }, cs: false, tais: ListOf { items: [Tai { plmn: 194617, tac: 1 }] } }
# with the IE 75, which is passed over
000a402f000005005040020040002b4006001000000001004b000400000000006d400100002e400b00002f40060002f8390001 000a4027000004005040020040002b4006001000000001006d400100002e400b00002f40060002f8390001 Paging { index: 1, id: Stmsi { mmec: 1, tmsi: 1 }, cs: false, tais: ListOf { items: [Tai { plmn: 194617, tac: 1 }] } }

# ---- E-RAB setups: 000500 the header of a request, and 200500 that of a response
# the IEs 0, 8, 16: one E-RAB, so 00; the item 17 of 31 octets: e o e 0110 e is 0c; o o p(6), QCI, 0009; e o 1000 0 0, e 00011111 p(7), 200f80;
# address, TEID; 16 octets of NAS-PDU
0005003700000300000002000100080002000100100024000011001f0c0009200f80c0a8000100000002106202c101090403696d7305010a2d8001 = ErabSetupRequest { mme: 1, enb: 1, rates: None, bearers: ListOf { items: [ErabToAdd { id: 6, qci: 9, arp: 32, address: 3232235521, teid: 2, nas: ListOf { items: [98, 2, 193, 1, 9, 4, 3, 105, 109, 115, 5, 1, 10, 45, 128, 1] } }] } }
# with the IE 66 in front, 1dcd6500 is 500000000; e o e 0111 e is 0e; QCI 05; e o 101001 is 29; the address c0a80003, the TEID 516; all differ
000500370000040000000200020008000200030042000a183b9aca00601dcd65000010001600001100110e0005290f80c0a8000300000204020746 = ErabSetupRequest { mme: 2, enb: 3, rates: Some(BitRates { dl: 1000000000, ul: 500000000 }), bearers: ListOf { items: [ErabToAdd { id: 7, qci: 5, arp: 41, address: 3232235523, teid: 516, nas: ListOf { items: [7, 70] } }] } }
# two of them: the count less 1, and items of 16 and of 17 octets with the E-RABs 6 and 15, e o e 1111 e is 1e; e o 1111 0 0 is 3c
0005003d0000030000000200010008000200010010002a01001100100c00053c0f800a000001000001020107001100111e0009200f80c0a8000100000002020746 = ErabSetupRequest { mme: 1, enb: 1, rates: None, bearers: ListOf { items: [ErabToAdd { id: 6, qci: 5, arp: 60, address: 167772161, teid: 258, nas: ListOf { items: [7] } }, ErabToAdd { id: 15, qci: 9, arp: 32, address: 3232235521, teid: 2, nas: ListOf { items: [7, 70] } }] } }
# the IEs the other way round
000500370000040010001600001100110e0005290f80c0a80003000002040207460042000a183b9aca00601dcd6500000800020003000000020002 000500370000040000000200020008000200030042000a183b9aca00601dcd65000010001600001100110e0005290f80c0a8000300000204020746 ErabSetupRequest { mme: 2, enb: 3, rates: Some(BitRates { dl: 1000000000, ul: 500000000 }), bearers: ListOf { items: [ErabToAdd { id: 7, qci: 5, arp: 41, address: 3232235523, teid: 516, nas: ListOf { items: [7, 70] } }] } }
# with other criticalities: its own, those of the IEs, and that of the item
0005403700000300008002000100084002000100104024000011401f0c0009200f80c0a8000100000002106202c101090403696d7305010a2d8001 0005003700000300000002000100080002000100100024000011001f0c0009200f80c0a8000100000002106202c101090403696d7305010a2d8001 ErabSetupRequest { mme: 1, enb: 1, rates: None, bearers: ListOf { items: [ErabToAdd { id: 6, qci: 9, arp: 32, address: 3232235521, teid: 2, nas: ListOf { items: [98, 2, 193, 1, 9, 4, 3, 105, 109, 115, 5, 1, 10, 45, 128, 1] } }] } }
000500370000040000000200020008000200030042400a183b9aca00601dcd65000010801600001180110e0005290f80c0a8000300000204020746 000500370000040000000200020008000200030042000a183b9aca00601dcd65000010001600001100110e0005290f80c0a8000300000204020746 ErabSetupRequest { mme: 2, enb: 3, rates: Some(BitRates { dl: 1000000000, ul: 500000000 }), bearers: ListOf { items: [ErabToAdd { id: 7, qci: 5, arp: 41, address: 3232235523, teid: 516, nas: ListOf { items: [7, 70] } }] } }
# with the IE 75, which is passed over
0005003f000004000000020001000800020001004b00040000000000100024000011001f0c0009200f80c0a8000100000002106202c101090403696d7305010a2d8001 0005003700000300000002000100080002000100100024000011001f0c0009200f80c0a8000100000002106202c101090403696d7305010a2d8001 ErabSetupRequest { mme: 1, enb: 1, rates: None, bearers: ListOf { items: [ErabToAdd { id: 6, qci: 9, arp: 32, address: 3232235521, teid: 2, nas: ListOf { items: [98, 2, 193, 1, 9, 4, 3, 105, 109, 115, 5, 1, 10, 45, 128, 1] } }] } }
# the IEs 0, 8, 28: one E-RAB, so 00; the item 39: e o e 0110 e is 0c, and 00011111 is 1f
20050022000003000040020001000840020001001c400f000027400a0c1fc0a8000200000003 = ErabSetupResponse { mme: 1, enb: 1, done: Some(ListOf { items: [ErabDone { id: 6, address: 3232235522, teid: 3 }] }) }
20050022000003000040020002000840020003001c400f000027400a0e1fc0a8000300000204 = ErabSetupResponse { mme: 2, enb: 3, done: Some(ListOf { items: [ErabDone { id: 7, address: 3232235523, teid: 516 }] }) }
# without the IE 28
2005000f000002000040020001000840020001 = ErabSetupResponse { mme: 1, enb: 1, done: None }
# two of them
20050030000003000040020001000840020001001c401d010027400a0a1fc0a80002000000020027400a0c1fc0a8000300000003 = ErabSetupResponse { mme: 1, enb: 1, done: Some(ListOf { items: [ErabDone { id: 5, address: 3232235522, teid: 2 }, ErabDone { id: 6, address: 3232235523, teid: 3 }] }) }
# the IEs the other way round; with other criticalities, as of a request; and with iE-Extensions in its item, 01 0 0110 0 is 4c
20050022000003001c400f000027400a0e1fc0a8000300000204000840020003000040020002 20050022000003000040020002000840020003001c400f000027400a0e1fc0a8000300000204 ErabSetupResponse { mme: 2, enb: 3, done: Some(ListOf { items: [ErabDone { id: 7, address: 3232235523, teid: 516 }] }) }
20054022000003000000020001000880020001001c000f000027000a0c1fc0a8000200000003 20050022000003000040020001000840020001001c400f000027400a0c1fc0a8000200000003 ErabSetupResponse { mme: 1, enb: 1, done: Some(ListOf { items: [ErabDone { id: 6, address: 3232235522, teid: 3 }] }) }
20050022000003000040020001000840020001001c800f000027800a0c1fc0a8000200000003 20050022000003000040020001000840020001001c400f000027400a0c1fc0a8000200000003 ErabSetupResponse { mme: 1, enb: 1, done: Some(ListOf { items: [ErabDone { id: 6, address: 3232235522, teid: 3 }] }) }
20050029000003000040020001000840020001001c401600002740114c1fc0a8000200000003000000074001aa 20050022000003000040020001000840020001001c400f000027400a0c1fc0a8000200000003 ErabSetupResponse { mme: 1, enb: 1, done: Some(ListOf { items: [ErabDone { id: 6, address: 3232235522, teid: 3 }] }) }
# a failure: the IE 29, a list of one item 35 with an E-RAB ID and a cause, is passed over; and so is the list 51 of another response
2005001b000003000040020001000840020001001d400800002340030c0000 2005000f000002000040020001000840020001 ErabSetupResponse { mme: 1, enb: 1, done: None }
200500220000030000400200010008400200010033400f000032400a0a1fc0a8000200000002 2005000f000002000040020001000840020001 ErabSetupResponse { mme: 1, enb: 1, done: None }
# uplink NAS transports around it: a PDN connectivity request, and an accept of the bearer
000d4034000005000000020001000800020001001a000b0a2700000000030202d011006440080002f83900000010004340060002f8390001 = UplinkNasTransport { mme: 1, enb: 1, nas: ListOf { items: [39, 0, 0, 0, 0, 3, 2, 2, 208, 17] }, cgi: Cgi { plmn: 194617, cell: 1 }, tai: Tai { plmn: 194617, tac: 1 } }
000d4033000005000000020001000800020001001a000a092700000000046200c2006440080002f83900000010004340060002f8390001 = UplinkNasTransport { mme: 1, enb: 1, nas: ListOf { items: [39, 0, 0, 0, 0, 4, 98, 0, 194] }, cgi: Cgi { plmn: 194617, cell: 1 }, tai: Tai { plmn: 194617, tac: 1 } }
";
