//! A PAGING, an E-RAB SETUP REQUEST and an E-RAB SETUP RESPONSE with each of their octets inverted, and cut at each of them.

use crate::s1ap_messages_refused::tell_refusal;
use echo_base::OutOfMemory;
use std::alloc::Global;
use std::test::Fail;

/// The worked ones, as they stand in `s1ap_messages_worked`, and what is told of each.
const CASES: [(&str, &str); 3] = [
    (
        "000a4027000004005040020040002b4006001000000001006d400100002e400b00002f40060002f8390001",
        PAGING,
    ),
    (
        "000500370000040000000200020008000200030042000a183b9aca00601dcd65000010001600001100110e0005290f80c0a8000300000204020746",
        REQUEST,
    ),
    (
        "20050022000003000040020001000840020001001c400f000027400a0c1fc0a8000200000003",
        RESPONSE,
    ),
];

/// The octets with that one at that place.
pub(crate) fn changed(
    alloc: Global,
    octets: &[u8],
    place: usize,
    value: u8,
) -> Result<Vec<u8>, OutOfMemory> {
    let mut changed = Vec::from_slice(alloc, octets)?;
    if let Some(octet) = changed.get_mut(place) {
        *octet = value;
    }
    Ok(changed)
}

/// So many of the octets, with the length of what is left of them.
fn cut(alloc: Global, octets: &[u8], left: usize) -> Result<Vec<u8>, OutOfMemory> {
    let mut shorter = Vec::from_slice(alloc, octets)?;
    shorter.truncate(left);
    if let Some(length) = shorter.get_mut(3) {
        *length = (left.saturating_sub(4) % 128) as u8;
    }
    Ok(shorter)
}

/// Writes what is told of the octets with each of them inverted, and cut behind the first four to all but one, a line each.
fn tell_changes(alloc: Global, text: &mut String, octets: &[u8]) -> Result<(), OutOfMemory> {
    for (place, octet) in octets.iter().enumerate() {
        tell_refusal(alloc, text, &changed(alloc, octets, place, !*octet)?)?;
        text.push('\n')?;
    }
    for left in 4..octets.len() {
        tell_refusal(alloc, text, &cut(alloc, octets, left)?)?;
        text.push('\n')?;
    }
    Ok(())
}

/// Writes what is told of each case, and in the other text what is wanted.
fn tell_all(alloc: Global, text: &mut String, wanted: &mut String) -> Result<(), Fail> {
    for (digits, told) in CASES {
        tell_changes(alloc, text, &hex::decode(alloc, digits)?)?;
        wanted.push_str(told)?;
    }
    Ok(())
}

#[test]
fn each_octet(rt: HostRuntime) -> Result<(), Fail> {
    let mut text = String::new(rt.alloc());
    let mut wanted = String::new(rt.alloc());
    tell_all(rt.alloc(), &mut text, &mut wanted)?;
    assert_eq!(rt; text.as_str(), wanted.as_str());
    Ok(())
}

/// What the octets of the PAGING are with each of them inverted, 43 lines, and why they are refused where they are cut, 39.
const PAGING: &str = "\
8 BadChoice at 0
9 OtherProcedure 245 at 1
3 NonZeroPadding at 2
6 TooLong at 3
7 SequenceExtension at 4
1 Truncated at 43
1 Truncated at 43
11 MissingIe 80 at 43
11 MissingIe 80 at 43
3 NonZeroPadding at 9
6 TooLong at 10
Paging { index: 1021, id: Stmsi { mmec: 1, tmsi: 1 }, cs: false, tais: ListOf { items: [Tai { plmn: 194617, tac: 1 }] } }
3 NonZeroPadding at 12
11 MissingIe 43 at 43
11 MissingIe 43 at 43
3 NonZeroPadding at 15
6 TooLong at 16
8 BadChoice at 17
3 NonZeroPadding at 18
Paging { index: 1, id: Stmsi { mmec: 1, tmsi: 4278190081 }, cs: false, tais: ListOf { items: [Tai { plmn: 194617, tac: 1 }] } }
Paging { index: 1, id: Stmsi { mmec: 1, tmsi: 16711681 }, cs: false, tais: ListOf { items: [Tai { plmn: 194617, tac: 1 }] } }
Paging { index: 1, id: Stmsi { mmec: 1, tmsi: 65281 }, cs: false, tais: ListOf { items: [Tai { plmn: 194617, tac: 1 }] } }
Paging { index: 1, id: Stmsi { mmec: 1, tmsi: 254 }, cs: false, tais: ListOf { items: [Tai { plmn: 194617, tac: 1 }] } }
11 MissingIe 109 at 43
11 MissingIe 109 at 43
3 NonZeroPadding at 25
6 TooLong at 26
3 NonZeroPadding at 27
11 MissingIe 46 at 43
11 MissingIe 46 at 43
3 NonZeroPadding at 30
6 TooLong at 31
1 Truncated at 43
11 MissingIe 47 at 33
11 MissingIe 47 at 33
3 NonZeroPadding at 35
6 TooLong at 36
7 SequenceExtension at 37
Paging { index: 1, id: Stmsi { mmec: 1, tmsi: 1 }, cs: false, tais: ListOf { items: [Tai { plmn: 16644153, tac: 1 }] } }
Paging { index: 1, id: Stmsi { mmec: 1, tmsi: 1 }, cs: false, tais: ListOf { items: [Tai { plmn: 132921, tac: 1 }] } }
Paging { index: 1, id: Stmsi { mmec: 1, tmsi: 1 }, cs: false, tais: ListOf { items: [Tai { plmn: 194758, tac: 1 }] } }
Paging { index: 1, id: Stmsi { mmec: 1, tmsi: 1 }, cs: false, tais: ListOf { items: [Tai { plmn: 194617, tac: 65281 }] } }
Paging { index: 1, id: Stmsi { mmec: 1, tmsi: 1 }, cs: false, tais: ListOf { items: [Tai { plmn: 194617, tac: 254 }] } }
1 Truncated at 4
1 Truncated at 5
1 Truncated at 5
1 Truncated at 7
1 Truncated at 7
1 Truncated at 9
1 Truncated at 10
1 Truncated at 10
1 Truncated at 10
1 Truncated at 13
1 Truncated at 13
1 Truncated at 15
1 Truncated at 16
1 Truncated at 16
1 Truncated at 16
1 Truncated at 16
1 Truncated at 16
1 Truncated at 16
1 Truncated at 16
1 Truncated at 23
1 Truncated at 23
1 Truncated at 25
1 Truncated at 26
1 Truncated at 26
1 Truncated at 28
1 Truncated at 28
1 Truncated at 30
1 Truncated at 31
1 Truncated at 31
1 Truncated at 31
1 Truncated at 31
1 Truncated at 31
1 Truncated at 31
1 Truncated at 31
1 Truncated at 31
1 Truncated at 31
1 Truncated at 31
1 Truncated at 31
1 Truncated at 31
";

/// The same of the E-RAB SETUP REQUEST: 59 lines, and 55.
const REQUEST: &str = "\
8 BadChoice at 0
9 OtherProcedure 250 at 1
10 BadCriticality at 2
6 TooLong at 3
7 SequenceExtension at 4
1 Truncated at 59
1 Truncated at 59
11 MissingIe 0 at 59
11 MissingIe 0 at 59
10 BadCriticality at 9
6 TooLong at 10
3 NonZeroPadding at 11
ErabSetupRequest { mme: 253, enb: 3, rates: Some(BitRates { dl: 1000000000, ul: 500000000 }), bearers: ListOf { items: [ErabToAdd { id: 7, qci: 5, arp: 41, address: 3232235523, teid: 516, nas: ListOf { items: [7, 70] } }] } }
11 MissingIe 8 at 59
11 MissingIe 8 at 59
10 BadCriticality at 15
6 TooLong at 16
5 OutOfRange at 17
ErabSetupRequest { mme: 2, enb: 252, rates: Some(BitRates { dl: 1000000000, ul: 500000000 }), bearers: ListOf { items: [ErabToAdd { id: 7, qci: 5, arp: 41, address: 3232235523, teid: 516, nas: ListOf { items: [7, 70] } }] } }
ErabSetupRequest { mme: 2, enb: 3, rates: None, bearers: ListOf { items: [ErabToAdd { id: 7, qci: 5, arp: 41, address: 3232235523, teid: 516, nas: ListOf { items: [7, 70] } }] } }
ErabSetupRequest { mme: 2, enb: 3, rates: None, bearers: ListOf { items: [ErabToAdd { id: 7, qci: 5, arp: 41, address: 3232235523, teid: 516, nas: ListOf { items: [7, 70] } }] } }
10 BadCriticality at 21
6 TooLong at 22
7 SequenceExtension at 23
ErabSetupRequest { mme: 2, enb: 3, rates: Some(BitRates { dl: 3298478592, ul: 500000000 }), bearers: ListOf { items: [ErabToAdd { id: 7, qci: 5, arp: 41, address: 3232235523, teid: 516, nas: ListOf { items: [7, 70] } }] } }
ErabSetupRequest { mme: 2, enb: 3, rates: Some(BitRates { dl: 996526592, ul: 500000000 }), bearers: ListOf { items: [ErabToAdd { id: 7, qci: 5, arp: 41, address: 3232235523, teid: 516, nas: ListOf { items: [7, 70] } }] } }
ErabSetupRequest { mme: 2, enb: 3, rates: Some(BitRates { dl: 999961856, ul: 500000000 }), bearers: ListOf { items: [ErabToAdd { id: 7, qci: 5, arp: 41, address: 3232235523, teid: 516, nas: ListOf { items: [7, 70] } }] } }
ErabSetupRequest { mme: 2, enb: 3, rates: Some(BitRates { dl: 1000000255, ul: 500000000 }), bearers: ListOf { items: [ErabToAdd { id: 7, qci: 5, arp: 41, address: 3232235523, teid: 516, nas: ListOf { items: [7, 70] } }] } }
3 NonZeroPadding at 28
ErabSetupRequest { mme: 2, enb: 3, rates: Some(BitRates { dl: 1000000000, ul: 3805111552 }), bearers: ListOf { items: [ErabToAdd { id: 7, qci: 5, arp: 41, address: 3232235523, teid: 516, nas: ListOf { items: [7, 70] } }] } }
ErabSetupRequest { mme: 2, enb: 3, rates: Some(BitRates { dl: 1000000000, ul: 489841920 }), bearers: ListOf { items: [ErabToAdd { id: 7, qci: 5, arp: 41, address: 3232235523, teid: 516, nas: ListOf { items: [7, 70] } }] } }
ErabSetupRequest { mme: 2, enb: 3, rates: Some(BitRates { dl: 1000000000, ul: 500013568 }), bearers: ListOf { items: [ErabToAdd { id: 7, qci: 5, arp: 41, address: 3232235523, teid: 516, nas: ListOf { items: [7, 70] } }] } }
ErabSetupRequest { mme: 2, enb: 3, rates: Some(BitRates { dl: 1000000000, ul: 500000255 }), bearers: ListOf { items: [ErabToAdd { id: 7, qci: 5, arp: 41, address: 3232235523, teid: 516, nas: ListOf { items: [7, 70] } }] } }
11 MissingIe 16 at 59
11 MissingIe 16 at 59
10 BadCriticality at 35
6 TooLong at 36
1 Truncated at 59
11 MissingIe 17 at 38
11 MissingIe 17 at 38
10 BadCriticality at 40
6 TooLong at 41
7 SequenceExtension at 42
5 OutOfRange at 43
ErabSetupRequest { mme: 2, enb: 3, rates: Some(BitRates { dl: 1000000000, ul: 500000000 }), bearers: ListOf { items: [ErabToAdd { id: 7, qci: 250, arp: 41, address: 3232235523, teid: 516, nas: ListOf { items: [7, 70] } }] } }
7 SequenceExtension at 45
5 OutOfRange at 46
5 OutOfRange at 46
ErabSetupRequest { mme: 2, enb: 3, rates: Some(BitRates { dl: 1000000000, ul: 500000000 }), bearers: ListOf { items: [ErabToAdd { id: 7, qci: 5, arp: 41, address: 1067974659, teid: 516, nas: ListOf { items: [7, 70] } }] } }
ErabSetupRequest { mme: 2, enb: 3, rates: Some(BitRates { dl: 1000000000, ul: 500000000 }), bearers: ListOf { items: [ErabToAdd { id: 7, qci: 5, arp: 41, address: 3226927107, teid: 516, nas: ListOf { items: [7, 70] } }] } }
ErabSetupRequest { mme: 2, enb: 3, rates: Some(BitRates { dl: 1000000000, ul: 500000000 }), bearers: ListOf { items: [ErabToAdd { id: 7, qci: 5, arp: 41, address: 3232300803, teid: 516, nas: ListOf { items: [7, 70] } }] } }
ErabSetupRequest { mme: 2, enb: 3, rates: Some(BitRates { dl: 1000000000, ul: 500000000 }), bearers: ListOf { items: [ErabToAdd { id: 7, qci: 5, arp: 41, address: 3232235772, teid: 516, nas: ListOf { items: [7, 70] } }] } }
ErabSetupRequest { mme: 2, enb: 3, rates: Some(BitRates { dl: 1000000000, ul: 500000000 }), bearers: ListOf { items: [ErabToAdd { id: 7, qci: 5, arp: 41, address: 3232235523, teid: 4278190596, nas: ListOf { items: [7, 70] } }] } }
ErabSetupRequest { mme: 2, enb: 3, rates: Some(BitRates { dl: 1000000000, ul: 500000000 }), bearers: ListOf { items: [ErabToAdd { id: 7, qci: 5, arp: 41, address: 3232235523, teid: 16712196, nas: ListOf { items: [7, 70] } }] } }
ErabSetupRequest { mme: 2, enb: 3, rates: Some(BitRates { dl: 1000000000, ul: 500000000 }), bearers: ListOf { items: [ErabToAdd { id: 7, qci: 5, arp: 41, address: 3232235523, teid: 64772, nas: ListOf { items: [7, 70] } }] } }
ErabSetupRequest { mme: 2, enb: 3, rates: Some(BitRates { dl: 1000000000, ul: 500000000 }), bearers: ListOf { items: [ErabToAdd { id: 7, qci: 5, arp: 41, address: 3232235523, teid: 763, nas: ListOf { items: [7, 70] } }] } }
6 TooLong at 56
ErabSetupRequest { mme: 2, enb: 3, rates: Some(BitRates { dl: 1000000000, ul: 500000000 }), bearers: ListOf { items: [ErabToAdd { id: 7, qci: 5, arp: 41, address: 3232235523, teid: 516, nas: ListOf { items: [248, 70] } }] } }
ErabSetupRequest { mme: 2, enb: 3, rates: Some(BitRates { dl: 1000000000, ul: 500000000 }), bearers: ListOf { items: [ErabToAdd { id: 7, qci: 5, arp: 41, address: 3232235523, teid: 516, nas: ListOf { items: [7, 185] } }] } }
1 Truncated at 4
1 Truncated at 5
1 Truncated at 5
1 Truncated at 7
1 Truncated at 7
1 Truncated at 9
1 Truncated at 10
1 Truncated at 10
1 Truncated at 10
1 Truncated at 13
1 Truncated at 13
1 Truncated at 15
1 Truncated at 16
1 Truncated at 16
1 Truncated at 16
1 Truncated at 19
1 Truncated at 19
1 Truncated at 21
1 Truncated at 22
1 Truncated at 22
1 Truncated at 22
1 Truncated at 22
1 Truncated at 22
1 Truncated at 22
1 Truncated at 22
1 Truncated at 22
1 Truncated at 22
1 Truncated at 22
1 Truncated at 22
1 Truncated at 33
1 Truncated at 33
1 Truncated at 35
1 Truncated at 36
1 Truncated at 36
1 Truncated at 36
1 Truncated at 36
1 Truncated at 36
1 Truncated at 36
1 Truncated at 36
1 Truncated at 36
1 Truncated at 36
1 Truncated at 36
1 Truncated at 36
1 Truncated at 36
1 Truncated at 36
1 Truncated at 36
1 Truncated at 36
1 Truncated at 36
1 Truncated at 36
1 Truncated at 36
1 Truncated at 36
1 Truncated at 36
1 Truncated at 36
1 Truncated at 36
1 Truncated at 36
";

/// The same of the E-RAB SETUP RESPONSE: 38 lines, and 34.
const RESPONSE: &str = "\
8 BadChoice at 0
9 OtherProcedure 250 at 1
10 BadCriticality at 2
6 TooLong at 3
7 SequenceExtension at 4
1 Truncated at 38
1 Truncated at 38
11 MissingIe 0 at 38
11 MissingIe 0 at 38
3 NonZeroPadding at 9
6 TooLong at 10
3 NonZeroPadding at 11
ErabSetupResponse { mme: 254, enb: 1, done: Some(ListOf { items: [ErabDone { id: 6, address: 3232235522, teid: 3 }] }) }
11 MissingIe 8 at 38
11 MissingIe 8 at 38
3 NonZeroPadding at 15
6 TooLong at 16
5 OutOfRange at 17
ErabSetupResponse { mme: 1, enb: 254, done: Some(ListOf { items: [ErabDone { id: 6, address: 3232235522, teid: 3 }] }) }
ErabSetupResponse { mme: 1, enb: 1, done: None }
ErabSetupResponse { mme: 1, enb: 1, done: None }
3 NonZeroPadding at 21
6 TooLong at 22
1 Truncated at 38
11 MissingIe 39 at 24
11 MissingIe 39 at 24
3 NonZeroPadding at 26
6 TooLong at 27
7 SequenceExtension at 28
5 OutOfRange at 29
ErabSetupResponse { mme: 1, enb: 1, done: Some(ListOf { items: [ErabDone { id: 6, address: 1067974658, teid: 3 }] }) }
ErabSetupResponse { mme: 1, enb: 1, done: Some(ListOf { items: [ErabDone { id: 6, address: 3226927106, teid: 3 }] }) }
ErabSetupResponse { mme: 1, enb: 1, done: Some(ListOf { items: [ErabDone { id: 6, address: 3232300802, teid: 3 }] }) }
ErabSetupResponse { mme: 1, enb: 1, done: Some(ListOf { items: [ErabDone { id: 6, address: 3232235773, teid: 3 }] }) }
ErabSetupResponse { mme: 1, enb: 1, done: Some(ListOf { items: [ErabDone { id: 6, address: 3232235522, teid: 4278190083 }] }) }
ErabSetupResponse { mme: 1, enb: 1, done: Some(ListOf { items: [ErabDone { id: 6, address: 3232235522, teid: 16711683 }] }) }
ErabSetupResponse { mme: 1, enb: 1, done: Some(ListOf { items: [ErabDone { id: 6, address: 3232235522, teid: 65283 }] }) }
ErabSetupResponse { mme: 1, enb: 1, done: Some(ListOf { items: [ErabDone { id: 6, address: 3232235522, teid: 252 }] }) }
1 Truncated at 4
1 Truncated at 5
1 Truncated at 5
1 Truncated at 7
1 Truncated at 7
1 Truncated at 9
1 Truncated at 10
1 Truncated at 10
1 Truncated at 10
1 Truncated at 13
1 Truncated at 13
1 Truncated at 15
1 Truncated at 16
1 Truncated at 16
1 Truncated at 16
1 Truncated at 19
1 Truncated at 19
1 Truncated at 21
1 Truncated at 22
1 Truncated at 22
1 Truncated at 22
1 Truncated at 22
1 Truncated at 22
1 Truncated at 22
1 Truncated at 22
1 Truncated at 22
1 Truncated at 22
1 Truncated at 22
1 Truncated at 22
1 Truncated at 22
1 Truncated at 22
1 Truncated at 22
1 Truncated at 22
1 Truncated at 22
";
