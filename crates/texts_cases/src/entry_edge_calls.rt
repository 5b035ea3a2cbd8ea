//! Traces over worked messages. The octets are worked out from the standards, and the wanted texts by hand.

use case_form::read_case;
use device_types::Message;
use entry_edge::{RefusedLine, admit, decode};
use std::alloc::Global;
use std::test::Fail;

/// Two subscribers, whose M-TMSIs are not their numbers. The line of a trace that stands behind them is line 5.
const ROWS: &str = "\
{\"imsi\":\"208930000000001\",\"tmsi\":23,\"rand\":\"000102030405060708090a0b0c0d0e0f\",\"autn\":\"101112131415161718191a1b1c1d1e1f\",\
\"res\":\"a0a1a2a3a4a5a6a7\",\"key\":\"1111111111111111111111111111111111111111111111111111111111111111\",\"apn\":\"internet\",\
\"ip\":\"0a2d0001\",\"sgw\":\"c0a80001\",\"teid\":1,\"ambr_dl\":1000000000,\"ambr_ul\":1000000000,\"forbidden\":[9]}
{\"imsi\":\"208930000000002\",\"tmsi\":1,\"rand\":\"000102030405060708090a0b0c0d0e0f\",\"autn\":\"101112131415161718191a1b1c1d1e1f\",\
\"res\":\"a0a1a2a3a4a5a6a7\",\"key\":\"1111111111111111111111111111111111111111111111111111111111111111\",\"apn\":\"internet\",\
\"ip\":\"0a2d0002\",\"sgw\":\"c0a80001\",\"teid\":2,\"ambr_dl\":1000000000,\"ambr_ul\":1000000000,\"forbidden\":[]}
";

/// Messages by their names, and at the end texts of other forms. They are on eNB UE S1AP ID 7, but for `moved` and `two`, which are on 9, and those of a number on MME UE S1AP ID 1. They
/// come from tracking area 258 of PLMN 208 93, two of them from area 9, and from a cell of PLMN 001 01. The five names in `-one` are on eNB UE S1AP ID 1, and
/// come from area 1 and a cell of PLMN 208 93.
const PDUS: &str = "\
attach 000c403e000005000800020007001a00161507417108298039000000001002e06000040205d011004300060002f8390102006440080000f110000000100086400130
other 000c403e000005000800020007001a00161507417108298039000000002002e06000040205d011004300060002f8390102006440080000f110000000100086400130
stranger 000c403e000005000800020007001a00161507417108298039000000003002e06000040205d011004300060002f8390102006440080000f110000000100086400130
moved 000c403e000005000800020009001a00161507417108298039000000001002e06000040205d011004300060002f8390102006440080000f110000000100086400130
service 000c4037000006000800020007001a000504c7000000004300060002f8390102006440080000f11000000010008640014000600006004000000017
guest 000c4037000006000800020007001a000504c7000000004300060002f8390102006440080000f11000000010008640014000600006004000000009
nameless 000c402d000005000800020007001a000504c7000000004300060002f8390102006440080000f110000000100086400140
area 000c4038000005000800020009001a00100f0748700bf602f83900010100000017004300060002f8390009006440080000f110000000100086400130
detach 000c4035000005000800020007001a000d0c074509082980390000000010004300060002f8390102006440080000f110000000100086400130
detach-on 000c4035000005000800020007001a000d0c074501082980390000000010004300060002f8390102006440080000f110000000100086400130
first-complete 000c4030000005000800020007001a000807074300035200c2004300060002f8390102006440080000f110000000100086400130
first-response 000c4034000005000800020007001a000c0b075308a0a1a2a3a4a5a6a7004300060002f8390102006440080000f110000000100086400130
first-secured 000c402b000005000800020007001a000302075e004300060002f8390102006440080000f110000000100086400130
first-rejected 000c402c000005000800020007001a000403075f17004300060002f8390102006440080000f110000000100086400130
first-short 000c402b000005000800020007001a0003020753004300060002f8390102006440080000f110000000100086400130
response 000d4035000005000000020001000800020007001a000c0b075308a0a1a2a3a4a5a6a7006440080000f11000000010004340060002f8390102
secured 000d4032000005000000020001000800020007001a000908470000000000075e006440080000f11000000010004340060002f8390102
rejected 000d402d000005000000020001000800020007001a000403075f17006440080000f11000000010004340060002f8390102
complete 000d4037000005000000020001000800020007001a000e0d270000000001074300035200c2006440080000f11000000010004340060002f8390102
later-area 000d4039000005000000020001000800020007001a00100f0748700bf602f83900010100000017006440080000f11000000010004340060002f8390009
later-detach 000d4036000005000000020001000800020007001a000d0c074501082980390000000010006440080000f11000000010004340060002f8390102
later-detach-off 000d4036000005000000020001000800020007001a000d0c074509082980390000000010006440080000f11000000010004340060002f8390102
later-attach 000d403f000005000000020001000800020007001a00161507417108298039000000001002e06000040205d011006440080000f11000000010004340060002f8390102
later-service 000d402e000005000000020001000800020007001a000504c7000000006440080000f11000000010004340060002f8390102
done 200900220000030000400200010008400200070033400f000032400a0a1fc0a8000200000002
done-six 200900220000030000400200010008400200070033400f000032400a0c1fc0a8000200000002
done-second 200900300000030000400200010008400200070033401d010032400a0c1fc0a80001000000010032400a0a1fc0a8000200000002
done-both 200900300000030000400200010008400200070033401d010032400a0a1fc0a80002000000020032400a0c1fc0a8000400000005
done-sixes 2009003e0000030000400200010008400200070033402b020032400a0a1fc0a80002000000020032400a0c1fc0a80004000000050032400a0c1fc0a8000600000007
done-twice 200900300000030000400200010008400200070033401d010032400a0a1fc0a80002000000020032400a0a1fc0a8000300000003
failure 40090015000003000040020001000840020007000240020280
capability 00164016000003000000020001000800020007004a4003020102
request 00124015000003000000020001000800020007000240020280
request-extended 00124015000003000000020001000800020007000240020850
two 00124015000003000000020001000800020009000240020280
released 2017000f000002000040020001000840020007
reject 000b4017000003000000020001000800020007001a000403074e0a
command 0017001000000200630004000100070002400122
setup 0009005f0000060000000200010008000200070042000800058002540be40000180013000034000e050009200f80c0a8000200000102006b000518000e0000004900200000000000000000000000000000000000000000000000000000000000000000
reject-behind 000b4017000003000000020001000800020007001a000403074e0a00
released-in-capitals 2017000F000002000040020001000840020007
paging 000a4027000004005040020040002b4006001000000001006d400100002e400b00002f40060002f8390001
first-pdn 000c402d000005000800020007001a0005040202d011004300060002f8390102006440080000f110000000100086400130
first-accept 000c402c000005000800020007001a0004036209c2004300060002f8390102006440080000f110000000100086400130
first-pdn-short 000c402c000005000800020007001a0004030202d0004300060002f8390102006440080000f110000000100086400130
pdn 000d402e000005000000020001000800020007001a0005045209d011006440080000f11000000010004340060002f8390102
pdn-short 000d402d000005000000020001000800020007001a0004030202d0006440080000f11000000010004340060002f8390102
accept 000d402d000005000000020001000800020007001a0004036209c2006440080000f11000000010004340060002f8390102
accept-five 000d402d000005000000020001000800020007001a0004035209c2006440080000f11000000010004340060002f8390102
accept-short 000d402c000005000000020001000800020007001a0003026209006440080000f11000000010004340060002f8390102
reject-of-six 000d402d000005000000020001000800020007001a0004036209c3006440080000f11000000010004340060002f8390102
added-six 20050022000003000040020001000840020007001c400f000027400a0c1fc0a8000400000005
added-five 20050022000003000040020001000840020007001c400f000027400a0a1fc0a8000300000004
added-both 20050030000003000040020001000840020007001c401d010027400a0a1fc0a80003000000040027400a0c1fc0a8000400000005
added-sixes 20050030000003000040020001000840020007001c401d010027400a0c1fc0a80004000000050027400a0c1fc0a8000600000007
added-none 2005000f000002000040020001000840020007
attach-one 000c403e000005000800020001001a00161507417108298039000000001002e0e000040201d011004300060002f8390001006440080002f839000000100086400130
pdn-one 000d4034000005000000020001000800020001001a000b0a2700000000030202d011006440080002f83900000010004340060002f8390001
added-one 20050022000003000040020001000840020001001c400f000027400a0c1fc0a8000200000003
accept-one 000d4033000005000000020001000800020001001a000a092700000000046200c2006440080002f83900000010004340060002f8390001
add-one 0005003700000300000002000100080002000100100024000011001f0c0009200f80c0a8000100000002106202c101090403696d7305010a2d8001
three-digits 000
no-digit 0g
one-octet 00
";

/// A trace, and behind ` = ` what it gives. A message is told by its device, its number, its base station and its eNB UE S1AP
/// ID, a refused line by its number.
const CASES: &str = "\
3 attach = 1.1 3/7 Attach { plmn: 194617, tac: 258, eea: 224, eia: 96, pti: 5 };
3 service, 3 area, 3 detach = 1.1 3/7 Service; 1.2 3/9 Area { first: true, plmn: 194617, tac: 9 }; 1.3 3/7 Detach { first: true, off: true };
3 service, 3 response, 3 secured = 1.1 3/7 Service; 1.2 3/7 Response { res: ListOf { items: [160, 161, 162, 163, 164, 165, 166, 167] } }; 1.3 3/7 Secured;
3 service, 3 rejected, 3 complete = 1.1 3/7 Service; 1.2 3/7 SecurityRefused; 1.3 3/7 AttachDone;
3 service, 3 later-area, 3 later-detach = 1.1 3/7 Service; 1.2 3/7 Area { first: false, plmn: 194617, tac: 9 }; 1.3 3/7 Detach { first: false, off: false };
3 service, 3 done, 3 done-six = 1.1 3/7 Service; 1.2 3/7 ContextDone { addr: 3232235522, teid: 2, second: None }; 1.3 3/7 ContextFailed;
3 service, 3 done-second, 3 done-twice, 3 failure = 1.1 3/7 Service; 1.2 3/7 ContextDone { addr: 3232235522, teid: 2, second: Some(Side { addr: 3232235521, teid: 1 }) }; 1.3 3/7 ContextDone { addr: 3232235522, teid: 2, second: None }; 1.4 3/7 ContextFailed;
3 service, 3 done-both, 3 done-sixes = 1.1 3/7 Service; 1.2 3/7 ContextDone { addr: 3232235522, teid: 2, second: Some(Side { addr: 3232235524, teid: 5 }) }; 1.3 3/7 ContextDone { addr: 3232235522, teid: 2, second: Some(Side { addr: 3232235524, teid: 5 }) };
3 service, 3 request, 3 capability = 1.1 3/7 Service; 1.2 3/7 ReleaseAsked { cause: CauseCode { group: 0, extended: false, index: 20 } }; 1.3 3/7 Capability { octets: ListOf { items: [1, 2] } };
3 service, 3 released, 3 released, 3 request = 1.1 3/7 Service; 1.2 3/7 Released; 7: 31 UnknownPair 3 7; 8: 31 UnknownPair 3 7;
3 service, 3 moved, 3 request, 3 two = 1.1 3/7 Service; 1.2 3/9 Attach { plmn: 194617, tac: 258, eea: 224, eia: 96, pti: 5 }; 1.3 3/9 ReleaseAsked { cause: CauseCode { group: 0, extended: false, index: 20 } }; 7: 31 UnknownPair 3 7;
3 service, 3 other, 3 request = 1.1 3/7 Service; 2.1 3/7 Attach { plmn: 194617, tac: 258, eea: 224, eia: 96, pti: 5 }; 7: 31 UnknownPair 3 7;
3 service, 4 request, 3 two, 3 released = 1.1 3/7 Service; 1.2 3/7 Released; 6: 31 UnknownPair 4 7; 7: 31 UnknownPair 3 9;
3 stranger, 3 request, 3 guest = 5: 30 UnknownDevice imsi 208930000000003; 6: 31 UnknownPair 3 7; 7: 30 UnknownDevice tmsi 9;
3 first-complete, 3 first-response, 3 first-secured, 3 first-rejected = 5: 17 NasKind 43; 6: 17 NasKind 53; 7: 17 NasKind 5e; 8: 17 NasKind 5f;
3 later-attach, 3 later-service, 3 first-short, 3 nameless = 5: 17 NasKind 41; 6: 17 NasKind c7; 7: 15 NasShort; 8: 11 MissingIe 96 at 49;
3 service, 3 detach-on, 3 later-detach-off, 3 request-extended = 1.1 3/7 Service; 1.2 3/7 Detach { first: true, off: false }; 1.3 3/7 Detach { first: false, off: true }; 1.4 3/7 ReleaseAsked { cause: CauseCode { group: 0, extended: true, index: 5 } };
3 service, 3 secured, 3 complete, 3 done-six, 3 capability, 3 failure, 3 request = 1.1 3/7 Service; 1.2 3/7 Secured; 1.3 3/7 AttachDone; 1.4 3/7 ContextFailed; 1.5 3/7 Capability { octets: ListOf { items: [1, 2] } }; 1.6 3/7 ContextFailed; 1.7 3/7 ReleaseAsked { cause: CauseCode { group: 0, extended: false, index: 20 } };
3 service, 3 command, 3 setup = 1.1 3/7 Service; 6: 14 WrongDirection at 1; 7: 14 WrongDirection at 1;
3 reject, 3 reject-behind, 3 three-digits, 3 no-digit, 3 one-octet = 5: 14 WrongDirection at 1; 6: 13 TrailingBytes at 27; 7: 29 BadHex; 8: 29 BadHex; 9: 1 Truncated at 1;
3 released-in-capitals = 5: 31 UnknownPair 3 7;
3 service, data 208930000000001, 3 request = 1.1 3/7 Service; 1.2 0/0 Data; 1.3 3/7 ReleaseAsked { cause: CauseCode { group: 0, extended: false, index: 20 } };
data 208930000000002, data 208930000000003, data 208930000000001, 3 request = 1.1 0/0 Data; 2.1 0/0 Data; 6: 30 UnknownDevice imsi 208930000000003; 8: 31 UnknownPair 3 7;
3 service, data 208930000000002, 3 request, 3 paging = 1.1 3/7 Service; 1.2 3/7 ReleaseAsked { cause: CauseCode { group: 0, extended: false, index: 20 } }; 2.1 0/0 Data; 8: 14 WrongDirection at 1;
3 attach-one, 3 pdn-one, 3 added-one, 3 accept-one, 3 add-one = 1.1 3/1 Attach { plmn: 194617, tac: 1, eea: 224, eia: 224, pti: 1 }; 1.2 3/1 PdnRequest { pti: 2 }; 1.3 3/1 SecondDone { addr: 3232235522, teid: 3 }; 1.4 3/1 PdnAccept; 9: 14 WrongDirection at 1;
3 service, 3 accept, 3 pdn = 1.1 3/7 Service; 1.2 3/7 PdnAccept; 1.3 3/7 PdnRequest { pti: 9 };
3 pdn, 3 accept, 3 added-six, 3 added-none = 5: 31 UnknownPair 3 7; 6: 31 UnknownPair 3 7; 7: 31 UnknownPair 3 7; 8: 31 UnknownPair 3 7;
3 service, 3 accept-five, 3 reject-of-six, 3 accept-short, 3 pdn-short = 1.1 3/7 Service; 6: 17 NasKind c2; 7: 17 NasKind c3; 8: 15 NasShort; 9: 15 NasShort;
3 first-pdn, 3 first-accept, 3 first-pdn-short = 5: 17 NasKind d0; 6: 17 NasKind c2; 7: 15 NasShort;
3 service, 3 added-six, 3 added-five, 3 added-both, 3 added-sixes, 3 added-none = 1.1 3/7 Service; 1.2 3/7 SecondDone { addr: 3232235524, teid: 5 }; 1.3 3/7 SecondRefused; 1.4 3/7 SecondDone { addr: 3232235524, teid: 5 }; 1.5 3/7 SecondDone { addr: 3232235524, teid: 5 }; 1.6 3/7 SecondRefused;
";

/// The hexadecimal text of that name.
fn named(name: &str) -> Result<&str, Fail> {
    for line in PDUS.lines() {
        let (other, text) = line.split_once(' ').ok_or("no octets")?;
        if other == name {
            return Ok(text);
        }
    }
    Err(Fail::new("no such message"))
}

/// What stands behind the first word of a line: of a notice the IMSI, and otherwise the text of the message of that name.
fn behind<'a>(first: &str, name: &'a str) -> Result<&'a str, Fail> {
    if first == "data" {
        return Ok(name);
    }
    named(name)
}

/// The case text of a trace: a line for each of its items, which are a base station and the name of a message, or a notice.
fn case_text(alloc: Global, trace: &str) -> Result<String, Fail> {
    let mut text = format!(in alloc; "[subscribers]\n{ROWS}[trace]\n")?;
    for item in trace.split(", ") {
        let (first, name) = item.split_once(' ').ok_or("no base station")?;
        let rest = behind(first, name)?;
        writeln!(text, "{first} {rest}")?;
    }
    Ok(text)
}

/// Writes a message: the device, its number, its base station and its eNB UE S1AP ID, and the body.
fn put_message(text: &mut String, device: usize, message: &Message) -> Result<(), Fail> {
    let Message {
        number,
        station,
        enb,
        body,
    } = message;
    write!(text, "{device}.{number} {station}/{enb} ")?;
    write!(text, "{body:?}; ")?;
    Ok(())
}

/// Writes the number of a refused line, and why it is refused.
fn put_refused(text: &mut String, refused: RefusedLine) -> Result<(), Fail> {
    let RefusedLine { line, refusal } = refused;
    write!(text, "{line}: {refusal}; ")?;
    Ok(())
}

/// Writes what `admit` gives for a trace: the messages of each device in turn, then the refused lines.
fn told(alloc: Global, trace: &str) -> Result<String, Fail> {
    let given = case_text(alloc, trace)?;
    let case = read_case(alloc, given.as_bytes())?;
    let admitted = admit(alloc, case.table(), case.trace())?;
    let mut text = String::new(alloc);
    for (i, messages) in admitted.book.items().iter().enumerate() {
        for message in messages.items() {
            put_message(&mut text, i + 1, message)?;
        }
    }
    for refused in &admitted.refused {
        put_refused(&mut text, *refused)?;
    }
    Ok(text)
}

/// Tells each trace of the table again, and what it gives.
fn tell_cases(alloc: Global, text: &mut String) -> Result<(), Fail> {
    for case in CASES.lines() {
        let (trace, _) = case.split_once(" = ").ok_or("no book")?;
        let told = told(alloc, trace)?;
        let told = told.trim_end();
        writeln!(text, "{trace} = {told}")?;
    }
    Ok(())
}

#[test]
fn traces_give_their_books(rt: HostRuntime) -> Result<(), Fail> {
    let mut text = String::new(rt.alloc());
    tell_cases(rt.alloc(), &mut text)?;
    assert_eq!(rt; text.as_str(), CASES);
    Ok(())
}

#[test]
fn no_text_is_no_octets(rt: HostRuntime) -> Result<(), Fail> {
    let alloc = rt.alloc();
    let answer = decode(alloc, b"");
    let text = format!(in alloc; "{answer:?}")?;
    assert_eq!(rt;
        text.as_str(),
        "Err(Refused(Refusal { reason: BadHex, place: 0 }))"
    );
    Ok(())
}
