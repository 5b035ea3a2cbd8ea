//! Octets worked out by hand from 3GPP TS 24.301: the messages that they are, or why they are refused. A line each: the octets in
//! hexadecimal, and behind a space the message type and the message, or the refusal.

use echo_base::Bad;
use nas_kinds::read_nas;
use std::alloc::{AllocError, Global};
use std::test::Fail;

/// Messages, to which octets behind them make no difference.
const MESSAGES: &str = "\
07417108298039000000001002e0c000040201d011 41 AttachRequest { identity: Imsi(208930000000001), eea: 224, eia: 192, pti: 1 }\n\
07417108298039000000001003e0f0c000030207d0 41 AttachRequest { identity: Imsi(208930000000001), eea: 224, eia: 240, pti: 7 }\n\
0741720bf602f8390001010000000703f070c000030205d0 41 AttachRequest { identity: Tmsi(7), eea: 240, eia: 112, pti: 5 }\n\
074300035200c2 43 AttachComplete\n\
07430000 43 AttachComplete\n\
0745710bf602f83900010100000001 45 DetachRequest { off: false, identity: Tmsi(1) }\n\
074579082980390000000010 45 DetachRequest { off: true, identity: Imsi(208930000000001) }\n\
0748700bf600f1108001fffffffffe 48 AreaRequest { identity: Tmsi(4294967294) }\n\
074870089999999999999999 48 AreaRequest { identity: Imsi(999999999999999) }\n\
074870080910325476981032 48 AreaRequest { identity: Imsi(1234567890123) }\n\
075304a0a1a2a3 53 AuthResponse { res: ListOf { items: [160, 161, 162, 163] } }\n\
075300 53 AuthResponse { res: ListOf { items: [] } }\n\
075e 5e SecurityComplete\n\
075f17 5f SecurityReject { cause: 23 }\n\
c7000000 c7 ServiceRequest\n\
17ffffffffff075301a0 53 AuthResponse { res: ListOf { items: [160] } }\n\
270000000001074300035200c2 43 AttachComplete\n\
370000000000075f17 5f SecurityReject { cause: 23 }\n\
470000000000075e 5e SecurityComplete\n\
";

/// Messages of session management (9.2: the bearer identity and 2): a PDN CONNECTIVITY REQUEST with each bearer identity, an ACTIVATE
/// DEFAULT EPS BEARER CONTEXT ACCEPT for bearer 6, and both behind each security header type.
const SESSION: &str = "\
0201d011 d0 PdnRequest { pti: 1 }\n\
1202d012 d0 PdnRequest { pti: 2 }\n\
2203d013 d0 PdnRequest { pti: 3 }\n\
3204d021 d0 PdnRequest { pti: 4 }\n\
4205d022 d0 PdnRequest { pti: 5 }\n\
5206d023 d0 PdnRequest { pti: 6 }\n\
6207d031 d0 PdnRequest { pti: 7 }\n\
7208d032 d0 PdnRequest { pti: 8 }\n\
8209d033 d0 PdnRequest { pti: 9 }\n\
920ad041 d0 PdnRequest { pti: 10 }\n\
a20bd042 d0 PdnRequest { pti: 11 }\n\
b20cd043 d0 PdnRequest { pti: 12 }\n\
c20dd000 d0 PdnRequest { pti: 13 }\n\
d2fed0ff d0 PdnRequest { pti: 254 }\n\
e2ffd0d0 d0 PdnRequest { pti: 255 }\n\
f200d0c2 d0 PdnRequest { pti: 0 }\n\
6204c2 c2 PdnAccept\n\
62c2c2 c2 PdnAccept\n\
17a1a2a3a4a50211d031 d0 PdnRequest { pti: 17 }\n\
2700000000030202d011 d0 PdnRequest { pti: 2 }\n\
37070707070f2212d0ff d0 PdnRequest { pti: 18 }\n\
4702020202020213d011 d0 PdnRequest { pti: 19 }\n\
17c2c2c2c2c26200c2 c2 PdnAccept\n\
2700000000046200c2 c2 PdnAccept\n\
37626262626262ffc2 c2 PdnAccept\n\
47d0d0d0d0d06201c2 c2 PdnAccept\n\
";

/// Octets that are no message: their first octets, message types, identities, capabilities and containers.
const REFUSED: &str = "\
570000000000075e 16 NasDiscriminator\n\
03 16 NasDiscriminator\n\
c8000000 16 NasDiscriminator\n\
270000000000175e 16 NasDiscriminator\n\
270000000000c2 15 NasShort\n\
2700000000006301c2 16 NasDiscriminator\n\
0742 17 NasKind 42\n\
27000000000007c7 17 NasKind c7\n\
07d011 17 NasKind d0\n\
07c2 17 NasKind c2\n\
270000000000079901c2 17 NasKind 99\n\
07487008a980390000000010 18 NasIdentity\n\
07487008298a390000000010 18 NasIdentity\n\
0748700829a0390000000010 18 NasIdentity\n\
07487008298039000000001a 18 NasIdentity\n\
0748700829803900000000f0 18 NasIdentity\n\
074870082180390000000010 18 NasIdentity\n\
074870082a80390000000010 18 NasIdentity\n\
0748700729803900000000 18 NasIdentity\n\
07487009298039000000001032 18 NasIdentity\n\
0748700af600f1108001ffffffff 18 NasIdentity\n\
0748700cf600f1108001fffffffffe00 18 NasIdentity\n\
0748700bf700f1108001fffffffffe 18 NasIdentity\n\
07487000 18 NasIdentity\n\
07487001f6 18 NasIdentity\n\
0741710129 18 NasIdentity\n\
0741710229 15 NasShort\n\
074870090000000000 15 NasShort\n\
0741710829803900000000100000030207d00000 15 NasShort\n\
07417108298039000000001001e000030207d00000 15 NasShort\n\
07417108298039000000001002e0f000000207d00000 15 NasShort\n\
07417108298039000000001002e0f000020207d00000 15 NasShort\n\
07417108298039000000001002e0f001030207d011 15 NasShort\n\
";

/// Messages of session management that are not read: an accept for another bearer than 6, and the message types beside those that are
/// read, of the network's answers, of mobility management, and of none.
const OTHERS: &str = "\
0204c2 17 NasKind c2\n\
1204c2 17 NasKind c2\n\
2204c2 17 NasKind c2\n\
3204c2 17 NasKind c2\n\
4204c2 17 NasKind c2\n\
5204c2 17 NasKind c2\n\
7204c2 17 NasKind c2\n\
8204c2 17 NasKind c2\n\
9204c2 17 NasKind c2\n\
a204c2 17 NasKind c2\n\
b204c2 17 NasKind c2\n\
c204c2 17 NasKind c2\n\
d204c2 17 NasKind c2\n\
e204c2 17 NasKind c2\n\
f206c2 17 NasKind c2\n\
2700000000055206c2 17 NasKind c2\n\
6204c1 17 NasKind c1\n\
6204c3 17 NasKind c3\n\
0201cf11 17 NasKind cf\n\
0201d111 17 NasKind d1\n\
0201d2 17 NasKind d2\n\
620141 17 NasKind 41\n\
020607 17 NasKind 07\n\
62d000 17 NasKind 00\n\
27000000000602d0c6 17 NasKind c6\n\
";

/// First octets whose security header type (9.3.1) is none that is read, reserved or a message of its own, or whose protocol
/// discriminator (9.2) is none of the two.
const HEADERS: &str = "\
57 16 NasDiscriminator\n\
67 16 NasDiscriminator\n\
77 16 NasDiscriminator\n\
87 16 NasDiscriminator\n\
97 16 NasDiscriminator\n\
a7 16 NasDiscriminator\n\
b7 16 NasDiscriminator\n\
d7 16 NasDiscriminator\n\
e7 16 NasDiscriminator\n\
f7 16 NasDiscriminator\n\
00 16 NasDiscriminator\n\
61 16 NasDiscriminator\n\
64 16 NasDiscriminator\n\
05 16 NasDiscriminator\n\
16 16 NasDiscriminator\n\
28 16 NasDiscriminator\n\
39 16 NasDiscriminator\n\
4a 16 NasDiscriminator\n\
5b 16 NasDiscriminator\n\
6c 16 NasDiscriminator\n\
7d 16 NasDiscriminator\n\
ce 16 NasDiscriminator\n\
6f 16 NasDiscriminator\n\
";

/// Writes what is read, as the tables have it.
fn tell(alloc: Global, text: &mut String, octets: &[u8]) -> Result<(), AllocError> {
    match read_nas(alloc, octets) {
        Ok(message) => {
            let kind = message.message_type();
            write!(text, "{kind:x} {message:?}\n")
        }
        Err(Bad::Refused(refusal)) => write!(text, "{refusal}\n"),
        Err(Bad::OutOfMemory) => Err(AllocError),
    }
}

/// The table, with what is read of each case, or of its octets with others behind them.
fn told(alloc: Global, table: &str, behind: &[u8]) -> Result<String, Fail> {
    let mut text = String::new(alloc);
    for line in table.lines() {
        let (digits, _) = line.split_once(' ').ok_or("no answer")?;
        let mut octets = hex::decode(alloc, digits)?;
        octets.extend_from_slice(behind)?;
        text.push_str(digits)?;
        text.push(' ')?;
        tell(alloc, &mut text, &octets)?;
    }
    Ok(text)
}

#[test]
fn reads_messages(rt: HostRuntime) -> Result<(), Fail> {
    assert_eq!(rt; told(rt.alloc(), MESSAGES, &[])?.as_str(), MESSAGES);
    assert_eq!(rt;
        told(rt.alloc(), MESSAGES, &[0xff, 0x00])?.as_str(),
        MESSAGES
    );
    Ok(())
}

#[test]
fn reads_session_management(rt: HostRuntime) -> Result<(), Fail> {
    assert_eq!(rt; told(rt.alloc(), SESSION, &[])?.as_str(), SESSION);
    assert_eq!(rt; told(rt.alloc(), SESSION, &[0x07])?.as_str(), SESSION);
    assert_eq!(rt; told(rt.alloc(), OTHERS, &[])?.as_str(), OTHERS);
    Ok(())
}

#[test]
fn refuses_what_is_no_message(rt: HostRuntime) -> Result<(), Fail> {
    assert_eq!(rt; told(rt.alloc(), REFUSED, &[])?.as_str(), REFUSED);
    assert_eq!(rt; told(rt.alloc(), HEADERS, &[])?.as_str(), HEADERS);
    Ok(())
}
