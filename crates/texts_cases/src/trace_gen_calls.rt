//! Made cases: the first whole, with its messages as the standards have them; the first visit of each kind, likewise; and others by their counts
//! and a hash, as an independent program has them.

use case_form::read_case;
use std::alloc::{AllocError, Global};
use std::str;
use std::test::Fail;
use trace_gen::make_case;

/// One device that attaches, of number 0. The draws below 2 are 1, 0, 1, 0, 1 and 1.
const FIRST: &str = r#"[subscribers]
{"imsi":"208930000000001","tmsi":1,"rand":"000102030405060708090a0b0c0d0e0f","autn":"101112131415161718191a1b1c1d1e1f","res":"a0a1a2a3a4a5a6a7","key":"1111111111111111111111111111111111111111111111111111111111111111","apn":"internet","ip":"0a2d0001","sgw":"c0a80001","teid":1000,"ambr_dl":1000000000,"ambr_ul":1000000000,"forbidden":[]}
[trace]
1 000c403e000005000800020001001a00161507417108298039000000001002e0e000040201d011004300060002f8390001006440080002f839000000100086400130
1 000d4035000005000000020001000800020001001a000c0b075308a0a1a2a3a4a5a6a7006440080002f83900000010004340060002f8390001
1 000d4032000005000000020001000800020001001a000908470000000000075e006440080002f83900000010004340060002f8390001
1 200900220000030000400200010008400200010033400f000032400a0a1fc0a8000200000002
1 00164016000003000000020001000800020001004a4003020102
1 000d4037000005000000020001000800020001001a000e0d270000000001074300035200c2006440080002f83900000010004340060002f8390001
[schedule]
send 1 1
take 2 1 1
take 1 1 1
read 2
read 1
write 2
write 1
reply 1 1
push 1 subscriber 1
effect 1 subscriber 1
effect 1 subscriber 1
answer 2 1 subscriber 1
read 2
stop 2
answer 1 1 subscriber 1
read 1
write 1
settle 1 subscriber 1
send 1 2
take 1 1 2
take 2 1 2
read 1
read 2
write 1
write 2
reply 1 2
send 1 3
take 2 1 3
take 1 1 3
read 2
read 1
write 2
write 1
reply 1 3
push 1 subscriber 2
effect 1 subscriber 2
effect 1 subscriber 2
answer 2 1 subscriber 2
read 2
stop 2
answer 1 1 subscriber 2
read 1
write 1
settle 1 subscriber 2
push 1 gateway 1
effect 1 gateway 1
effect 1 gateway 1
answer 2 1 gateway 1
read 2
stop 2
answer 1 1 gateway 1
read 1
write 1
settle 1 gateway 1
send 1 4
take 1 1 4
take 2 1 4
read 1
read 2
write 1
write 2
reply 1 4
send 1 5
take 2 1 5
take 1 1 5
read 2
read 1
write 2
write 1
reply 1 5
send 1 6
take 2 1 6
take 1 1 6
read 2
read 1
write 2
write 1
reply 1 6
push 1 gateway 2
effect 1 gateway 2
effect 1 gateway 2
answer 2 1 gateway 2
read 2
stop 2
answer 1 1 gateway 2
read 1
write 1
settle 1 gateway 2
"#;

/// Of the case of number 133 with three devices and one round: the row of the third device; the messages of the round, in which the first
/// device draws 0, the second 1 and the third 2; and their events, a message or a call a line.
const VISITS: &str =
    r#"{"imsi":"208930000000003","tmsi":3,"rand":"000102030405060708090a0b0c0d0e0f","autn":"101112131415161718191a1b1c1d1e1f","res":"a0a1a2a3a4a5a6a7","key":"1111111111111111111111111111111111111111111111111111111111111111","apn":"internet","ip":"0a2d0003","sgw":"c0a80001","teid":3000,"ambr_dl":1000000000,"ambr_ul":1000000000,"forbidden":[]}
1 00124015000003000000020001000800020001000240020280
1 2017000f000002000040020001000840020001
1 000c4037000006000800020001001a000504c7000000004300060002f8390001006440080002f83900000010008640014000600006004000000001
1 200900220000030000400200010008400200010033400f000032400a0a1fc0a8000200000002
1 00124015000003000000020002000800020002000240020280
1 2017000f000002000040020002000840020002
1 000c4038000005000800020002001a00100f0748700bf602f83900010100000002004300060002f8390001006440080002f839000000100086400130
1 2017000f000002000040020002000840020002
1 000c4037000006000800020002001a000504c7000000004300060002f8390001006440080002f83900000010008640014000600006004000000002
1 200900220000030000400200020008400200020033400f000032400a0a1fc0a8000200000002
1 000d4039000005000000020003000800020003001a00100f0745710bf602f83900010100000003006440080002f83900000010004340060002f8390001
1 2017000f000002000040020003000840020003
1 000c403e000005000800020003001a00161507417108298039000000003002e0e000040201d011004300060002f8390001006440080002f839000000100086400130
1 000d4035000005000000020003000800020003001a000c0b075308a0a1a2a3a4a5a6a7006440080002f83900000010004340060002f8390001
1 000d4032000005000000020003000800020003001a000908470000000000075e006440080002f83900000010004340060002f8390001
1 200900220000030000400200030008400200030033400f000032400a0a1fc0a8000200000002
1 00164016000003000000020003000800020003004a4003020102
1 000d4037000005000000020003000800020003001a000e0d270000000001074300035200c2006440080002f83900000010004340060002f8390001

send 1 7; take 2 1 7; take 1 1 7; read 2; read 1; write 2; write 1; reply 1 7
push 1 gateway 3; effect 1 gateway 3; effect 1 gateway 3; answer 2 1 gateway 3; read 2; stop 2; answer 1 1 gateway 3; read 1; write 1; settle 1 gateway 3
send 1 8; take 2 1 8; take 1 1 8; read 2; read 1; write 2; write 1; reply 1 8
send 1 9; take 2 1 9; take 1 1 9; read 2; read 1; write 2; write 1; reply 1 9
send 1 10; take 2 1 10; take 1 1 10; read 2; read 1; write 2; write 1; reply 1 10
push 1 gateway 4; effect 1 gateway 4; effect 1 gateway 4; answer 2 1 gateway 4; read 2; stop 2; answer 1 1 gateway 4; read 1; write 1; settle 1 gateway 4
send 2 7; take 1 2 7; take 2 2 7; read 1; read 2; write 1; write 2; reply 2 7
push 2 gateway 3; effect 2 gateway 3; effect 2 gateway 3; answer 1 2 gateway 3; read 1; stop 1; answer 2 2 gateway 3; read 2; write 2; settle 2 gateway 3
send 2 8; take 2 2 8; take 1 2 8; read 2; read 1; write 2; write 1; reply 2 8
send 2 9; take 1 2 9; take 2 2 9; read 1; read 2; write 1; write 2; reply 2 9
send 2 10; take 2 2 10; take 1 2 10; read 2; read 1; write 2; write 1; reply 2 10
send 2 11; take 2 2 11; take 1 2 11; read 2; read 1; write 2; write 1; reply 2 11
send 2 12; take 1 2 12; take 2 2 12; read 1; read 2; write 1; write 2; reply 2 12
push 2 gateway 4; effect 2 gateway 4; effect 2 gateway 4; answer 1 2 gateway 4; read 1; stop 1; answer 2 2 gateway 4; read 2; write 2; settle 2 gateway 4
send 3 7; take 2 3 7; take 1 3 7; read 2; read 1; write 2; write 1; reply 3 7
push 3 gateway 3; effect 3 gateway 3; effect 3 gateway 3; answer 2 3 gateway 3; read 2; stop 2; answer 1 3 gateway 3; read 1; write 1; settle 3 gateway 3
push 3 subscriber 3; effect 3 subscriber 3; settle 3 subscriber 3
send 3 8; take 1 3 8; take 2 3 8; read 1; read 2; write 1; write 2; reply 3 8
send 3 9; take 2 3 9; take 1 3 9; read 2; read 1; write 2; write 1; reply 3 9
push 3 subscriber 4; effect 3 subscriber 4; effect 3 subscriber 4; answer 2 3 subscriber 4; read 2; stop 2; answer 1 3 subscriber 4; read 1; write 1; settle 3 subscriber 4
send 3 10; take 2 3 10; take 1 3 10; read 2; read 1; write 2; write 1; reply 3 10
send 3 11; take 1 3 11; take 2 3 11; read 1; read 2; write 1; write 2; reply 3 11
push 3 subscriber 5; effect 3 subscriber 5; effect 3 subscriber 5; answer 1 3 subscriber 5; read 1; stop 1; answer 2 3 subscriber 5; read 2; write 2; settle 3 subscriber 5
push 3 gateway 4; effect 3 gateway 4; effect 3 gateway 4; answer 1 3 gateway 4; read 1; stop 1; answer 2 3 gateway 4; read 2; write 2; settle 3 gateway 4
send 3 12; take 1 3 12; take 2 3 12; read 1; read 2; write 1; write 2; reply 3 12
send 3 13; take 2 3 13; take 1 3 13; read 2; read 1; write 2; write 1; reply 3 13
send 3 14; take 1 3 14; take 2 3 14; read 1; read 2; write 1; write 2; reply 3 14
push 3 gateway 5; effect 3 gateway 5; effect 3 gateway 5; answer 1 3 gateway 5; read 1; stop 1; answer 2 3 gateway 5; read 2; write 2; settle 3 gateway 5"#;

/// Tells a line of events, behind the others of its message or call.
fn tell_event(text: &mut String, line: &str) -> Result<(), AllocError> {
    if line.starts_with("send") || line.starts_with("push") {
        text.push_str("\n")?;
    } else {
        text.push_str("; ")?;
    }
    text.push_str(line)
}

/// Tells the last row of a made case, and its messages and events behind so many.
fn tell_visits(text: &mut String, case: &str, messages: usize, events: usize) -> Result<(), Fail> {
    let (rows, rest) = case.split_once("[trace]\n").ok_or("no trace")?;
    let (trace, schedule) = rest.split_once("[schedule]\n").ok_or("no schedule")?;
    let row = rows.lines().last().ok_or("no row")?;
    writeln!(text, "{row}")?;
    for line in trace.lines().skip(messages) {
        writeln!(text, "{line}")?;
    }
    for line in schedule.lines().skip(events) {
        tell_event(text, line)?;
    }
    Ok(())
}

/// A number, devices and rounds, and what their case has: a visit is of 6 messages and 88 events in the first round, and later of 4 and 52, 6 and
/// 68, or 8 and 117. The hash of its octets is FNV-1a of 64 bits.
const CASES: &str = "\
3469389682 21 0: rows 21 messages 126 events 1848 octets 42570 hash 4558779344026827825
1515923159 37 0: rows 37 messages 222 events 3256 octets 75322 hash 3717498241037945573
1715749855 10 7: rows 10 messages 482 events 6349 octets 119629 hash 1383902332298600655
913683463 29 10: rows 29 messages 1922 events 25603 octets 488392 hash 11780608888469832002
1159478997 14 8: rows 14 messages 766 events 10281 octets 195275 hash 6186166042281200089
0 1 12: rows 1 messages 80 events 1085 octets 20367 hash 1748690119128545515
4294967295 266 2: rows 266 messages 4784 events 65426 octets 1347439 hash 16677628335723432618
7 1 799: rows 1 messages 4908 events 65283 octets 1258425 hash 1587253948444454209
";

/// The hash of octets.
fn hash_of(octets: &[u8]) -> u64 {
    let mut hash = 0xcbf2_9ce4_8422_2325_u64;
    for octet in octets {
        hash = (hash ^ u64::from(*octet)).wrapping_mul(0x100_0000_01b3);
    }
    hash
}

/// What the case of a number has, as it is read.
fn made(alloc: Global, number: u32, devices: u32, rounds: u32) -> Result<String, Fail> {
    if devices < 1 || devices > 800 || rounds > 799 {
        return Err(Fail::from("no such case"));
    }
    let visits = devices.checked_mul(rounds + 1).ok_or("many visits")?;
    if visits > 800 {
        return Err(Fail::from("many visits"));
    }
    let text = make_case(alloc, number, devices, rounds)?;
    let Ok(case) = read_case(alloc, text.octets()) else {
        return Err(Fail::from("a line is refused"));
    };
    let (rows, messages, events) = (
        case.table().rows().len(),
        case.trace().len(),
        case.schedule().len(),
    );
    let (octets, hash) = (text.octets().len(), hash_of(text.octets()));
    Ok(format!(in alloc;
        "rows {rows} messages {messages} events {events} octets {octets} hash {hash}"
    )?)
}

#[test]
fn makes_the_first_case(rt: HostRuntime) -> Result<(), Fail> {
    let text = make_case(rt.alloc(), 0, 1, 0)?;
    assert_eq!(rt; text.octets(), FIRST.as_bytes());
    Ok(())
}

#[test]
fn makes_visits_of_each_kind(rt: HostRuntime) -> Result<(), Fail> {
    let made = make_case(rt.alloc(), 133, 3, 1)?;
    let mut text = String::new(rt.alloc());
    tell_visits(&mut text, str::from_utf8(made.octets())?, 3 * 6, 3 * 88)?;
    assert_eq!(rt; text.as_str(), VISITS);
    Ok(())
}

/// Tells the cases of the table again, with what each has.
fn tell_cases(alloc: Global, text: &mut String) -> Result<(), Fail> {
    for line in CASES.lines() {
        let (case, _) = line.split_once(": ").ok_or("no counts")?;
        let (number, rest) = case.split_once(" ").ok_or("no devices")?;
        let (devices, rounds) = rest.split_once(" ").ok_or("no rounds")?;
        let made = made(alloc, number.parse()?, devices.parse()?, rounds.parse()?)?;
        writeln!(text, "{case}: {made}")?;
    }
    Ok(())
}

#[test]
fn makes_cases_that_are_read(rt: HostRuntime) -> Result<(), Fail> {
    let mut text = String::new(rt.alloc());
    tell_cases(rt.alloc(), &mut text)?;
    assert_eq!(rt; text.as_str(), CASES);
    Ok(())
}
