//! Messages of each kind that are damaged: cut at each octet, with each octet changed to each of its other values, with neighbours among
//! their IEs the other way round, and with an IE twice.

ghost use Rattle.s1ap_pdu.specs.Run.{IsRight};

use crate::s1ap_messages_changed::changed;
use crate::s1ap_messages_refused::tell_refusal;
use crate::s1ap_messages_usual::are_alike;
use crate::tables::is_told_again;
use echo_base::{Bad, OutOfMemory};
use s1ap_messages::{Pdu, read_pdu, write_pdu};
use std::alloc::Global;
use std::test::Fail;

/// A message a line: the octets in front of its length, and its IEs. Behind the colon:
/// - how many of its beginnings are Truncated, where they end in front of the length and else at the length: as many as it has octets.
/// - how many changes of an octet make a message, at 0, and how many are refused, at the number of the reason, of 255 an octet. A second
///   reader, in another language and of the grammar alone, counts the same; it tells all lines of `s1ap_messages_refused` and
///   `s1ap_messages_changed` too.
/// - how many swaps of neighbours among the IEs make the same message: one less than there are IEs.
/// - why it is refused that an IE stands once more behind all of them, where the message has ended.
const MESSAGES: &str = "\
# an INITIAL UE MESSAGE with an attach request
000c40 000800020001 001a00161507417108298039000000001002e0e000040201d011 004300060002f8390001 006440080002f83900000010 0086400130: 66 cut, changed 0:8510 1:1664 2:7 3:2117 5:176 6:504 7:384 8:160 9:249 10:384 11:2533 12:10 13:132 of 16830, 4 swapped; 12 RepeatedIe 8 at 66; 12 RepeatedIe 26 at 66; 12 RepeatedIe 67 at 66; 12 RepeatedIe 100 at 66; 12 RepeatedIe 134 at 66
# an UPLINK NAS TRANSPORT
000d40 000000020001 000800020001 001a000c0b075308a0a1a2a3a4a5a6a7 006440080002f83900000010 004340060002f8390001: 57 cut, changed 0:6148 1:1665 2:7 3:2289 5:64 6:504 7:384 8:160 9:249 10:384 11:2537 12:11 13:133 of 14535, 4 swapped; 12 RepeatedIe 0 at 57; 12 RepeatedIe 8 at 57; 12 RepeatedIe 26 at 57; 12 RepeatedIe 100 at 57; 12 RepeatedIe 67 at 57
# an INITIAL CONTEXT SETUP RESPONSE, and a FAILURE
200900 000040020001 000840020001 0033400f000032400a0a1fc0a8000200000002: 38 cut, changed 0:2577 1:1691 2:5 3:1606 5:415 6:320 7:256 8:160 9:253 10:320 11:2036 12:4 13:47 of 9690, 2 swapped; 12 RepeatedIe 0 at 38; 12 RepeatedIe 8 at 38; 12 RepeatedIe 51 at 38
400900 000040020001 000840020001 000240020280: 25 cut, changed 0:548 1:1254 2:4 3:1677 5:91 6:256 7:128 8:336 9:255 10:256 11:1526 12:4 13:40 of 6375, 2 swapped; 12 RepeatedIe 0 at 25; 12 RepeatedIe 8 at 25; 12 RepeatedIe 2 at 25
# a UE CAPABILITY INFO INDICATION
001640 000000020001 000800020001 004a4003020102: 26 cut, changed 0:1028 1:1440 2:5 3:1417 5:64 6:320 7:128 8:160 9:249 10:256 11:1532 12:4 13:27 of 6630, 2 swapped; 12 RepeatedIe 0 at 26; 12 RepeatedIe 8 at 26; 12 RepeatedIe 74 at 26
# a UE CONTEXT RELEASE REQUEST, and a COMPLETE
001240 000000020001 000800020001 000240020280: 25 cut, changed 0:548 1:1254 2:4 3:1677 5:91 6:256 7:128 8:336 9:249 10:256 11:1532 12:4 13:40 of 6375, 2 swapped; 12 RepeatedIe 0 at 25; 12 RepeatedIe 8 at 25; 12 RepeatedIe 2 at 25
201700 000040020001 000840020001: 19 cut, changed 0:517 1:1077 2:3 3:1228 5:64 6:192 7:128 8:160 9:254 10:192 11:1020 12:2 13:8 of 4845, 1 swapped; 12 RepeatedIe 0 at 19; 12 RepeatedIe 8 at 19
# a DOWNLINK NAS TRANSPORT
000b40 000000020001 000800020001 001a002524075200000102030405060708090a0b0c0d0e0f10101112131415161718191a1b1c1d1e1f: 60 cut, changed 0:9698 1:1282 2:5 3:1417 5:64 6:376 7:128 8:160 9:249 10:256 11:1532 12:4 13:129 of 15300, 2 swapped; 12 RepeatedIe 0 at 60; 12 RepeatedIe 8 at 60; 12 RepeatedIe 26 at 60
# an INITIAL CONTEXT SETUP REQUEST, whose length stands in two octets
000900 000000020001 000800020001 0042000a183b9aca00603b9aca00 001800360000340031450009200f80c0a800010000000122074201e0060002f839000100155201c101090908696e7465726e657405010a2d0001 006b000518000c0000 004900201111111111111111111111111111111111111111111111111111111111111111: 137 cut, changed 0:22450 1:2022 2:136 3:2894 4:2 5:917 6:632 7:895 8:160 9:247 10:528 11:3551 12:16 13:485 of 34935, 5 swapped; 12 RepeatedIe 0 at 137; 12 RepeatedIe 8 at 137; 12 RepeatedIe 66 at 137; 12 RepeatedIe 24 at 137; 12 RepeatedIe 107 at 137; 12 RepeatedIe 73 at 137
# a UE CONTEXT RELEASE COMMAND
001700 0063000400010001 0002400120: 20 cut, changed 0:535 1:1109 2:3 3:1073 5:87 6:192 7:160 8:464 9:248 10:192 11:1027 12:1 13:9 of 5100, 1 swapped; 12 RepeatedIe 99 at 20; 12 RepeatedIe 2 at 20
# a PAGING
000a40 005040020040 002b4006001000000001 006d400100 002e400b00002f40060002f8390001: 43 cut, changed 0:2596 1:1858 2:6 3:2160 6:384 7:352 8:352 9:249 10:384 11:2547 12:6 13:71 of 10965, 3 swapped; 12 RepeatedIe 80 at 43; 12 RepeatedIe 43 at 43; 12 RepeatedIe 109 at 43; 12 RepeatedIe 46 at 43
# an E-RAB SETUP REQUEST, and a RESPONSE
000500 000000020002 000800020003 0042000a183b9aca00601dcd6500 0010001600001100110e0005290f80c0a8000300000204020746: 59 cut, changed 0:5951 1:1949 2:7 3:2340 4:2 5:787 6:504 7:544 8:160 9:248 10:384 11:2040 12:7 13:122 of 15045, 3 swapped; 12 RepeatedIe 0 at 59; 12 RepeatedIe 8 at 59; 12 RepeatedIe 66 at 59; 12 RepeatedIe 16 at 59
200500 000040020001 000840020001 001c400f000027400a0c1fc0a8000200000003: 38 cut, changed 0:3084 1:1691 2:5 3:1606 5:415 6:320 7:256 8:160 9:254 10:320 11:1528 12:4 13:47 of 9690, 2 swapped; 12 RepeatedIe 0 at 38; 12 RepeatedIe 8 at 38; 12 RepeatedIe 28 at 38
";

/// The IEs with the one of that number behind the next one.
fn swapped(alloc: Global, ies: &str, number: usize) -> Result<String, Fail> {
    let next = number.saturating_add(1);
    let mut text = String::new(alloc);
    for place in 0..ies.split(' ').count() {
        let from = if place == number {
            next
        } else if place == next {
            number
        } else {
            place
        };
        let ie = ies.split(' ').nth(from).ok_or("no IE")?;
        write!(text, "{ie} ")?;
    }
    Ok(text)
}

/// The octets of a message with these IEs.
fn message_of(alloc: Global, head: &str, ies: &str) -> Result<Vec<u8>, Fail> {
    let mut body = String::new(alloc);
    for ie in ies.split_whitespace() {
        body.push_str(ie)?;
    }
    let count = ies.split_whitespace().count();
    let length = 3 + body.len() / 2;
    let form = if length < 128 { "" } else { "80" };
    let digits = format!(in alloc; "{head}{form}{length:02x}00{count:04x}{body}")?;
    Ok(hex::decode(alloc, digits.as_str())?)
}

/// What is told of the octets: the message, or why they are refused.
fn told_of(alloc: Global, octets: &[u8]) -> Result<String, OutOfMemory> {
    let mut text = String::new(alloc);
    tell_refusal(alloc, &mut text, octets)?;
    Ok(text)
}

/// Writes how many beginnings of the octets are refused for their length.
fn tell_cuts(alloc: Global, text: &mut String, octets: &[u8]) -> Result<(), OutOfMemory> {
    let mut count: usize = 0;
    for left in 0..octets.len() {
        let place = left.min(3);
        let wanted = format!(in alloc; "1 Truncated at {place}")?;
        if told_of(alloc, &octets[..left])?.as_str() == wanted.as_str() {
            count = count.saturating_add(1);
        }
    }
    write!(text, "{count} cut")
}

/// Are the octets that message?
fn is_message(alloc: Global, octets: &[u8], pdu: &Pdu) -> Result<bool, Fail> {
    are_alike(alloc, &read_pdu(alloc, octets)?, pdu)
}

/// Is the message that was read of the octets the same when it is written and read again? Of the same octets it is.
fn is_same(alloc: Global, octets: &[u8], pdu: &Pdu) -> Result<bool, Fail>
    requires { IsRight pdu.now }
{
    let written = write_pdu(alloc, pdu)?;
    Ok(written.items() == octets || is_message(alloc, written.items(), pdu)?)
}

/// What the octets come to: 0 for a message that is the same when it is written and read again, `OTHER` for one that is not, and the number
/// of the reason where they are refused.
fn outcome_of(alloc: Global, octets: &[u8]) -> Result<u8, Fail> {
    match read_pdu(alloc, octets) {
        Ok(pdu) => Ok(if is_same(alloc, octets, &pdu)? {
            0
        } else {
            OTHER
        }),
        Err(Bad::Refused(refusal)) => Ok(refusal.reason.number()),
        Err(Bad::OutOfMemory) => Err(OutOfMemory.into()),
    }
}

/// Behind the reasons that a message is refused for.
const OTHER: u8 = 15;

/// How many changes come to each outcome.
type Counts = [usize; 16];

/// Counts what each change of an octet comes to.
fn count_changes(alloc: Global, counts: &mut Counts, octets: &[u8]) -> Result<(), Fail> {
    for (place, octet) in octets.iter().enumerate() {
        for more in 1..=255 {
            let value = octet.wrapping_add(more);
            let outcome = outcome_of(alloc, &changed(alloc, octets, place, value)?)?;
            if let Some(count) = counts.get_mut(usize::from(outcome)) {
                *count = count.saturating_add(1);
            }
        }
    }
    Ok(())
}

/// Writes how many changes come to each outcome, and how many there are.
fn tell_counts(text: &mut String, counts: &Counts) -> Result<(), OutOfMemory> {
    let mut total: usize = 0;
    text.push_str(", changed")?;
    for (outcome, count) in counts.iter().enumerate() {
        if *count > 0 {
            write!(text, " {outcome}:{count}")?;
            total = total.saturating_add(*count);
        }
    }
    write!(text, " of {total}")
}

/// Writes what the changes of an octet come to.
fn tell_changes(alloc: Global, text: &mut String, octets: &[u8]) -> Result<(), Fail> {
    let mut counts = [0; 16];
    count_changes(alloc, &mut counts, octets)?;
    Ok(tell_counts(text, &counts)?)
}

/// Writes how many swaps of neighbours among the IEs make the message that is told so.
fn tell_swaps(
    alloc: Global,
    text: &mut String,
    head: &str,
    ies: &str,
    message: &str,
) -> Result<(), Fail> {
    let mut count: usize = 0;
    for number in 1..ies.split(' ').count() {
        let ies = swapped(alloc, ies, number - 1)?;
        let octets = message_of(alloc, head, ies.as_str())?;
        if told_of(alloc, &octets)?.as_str() == message {
            count = count.saturating_add(1);
        }
    }
    Ok(write!(text, ", {count} swapped")?)
}

/// Writes what is told of the message with each of its IEs once more behind them.
fn tell_twice(alloc: Global, text: &mut String, head: &str, ies: &str) -> Result<(), Fail> {
    for ie in ies.split(' ') {
        text.push_str("; ")?;
        let ies = format!(in alloc; "{ies} {ie}")?;
        tell_refusal(alloc, text, &message_of(alloc, head, ies.as_str())?)?;
    }
    Ok(())
}

/// Writes a case again, with what is told of its message.
fn tell_case(alloc: Global, text: &mut String, case: &str) -> Result<(), Fail> {
    let (words, _) = case.split_once(": ").ok_or("nothing told")?;
    let (head, ies) = words.split_once(' ').ok_or("no IEs")?;
    write!(text, "{words}: ")?;
    let octets = message_of(alloc, head, ies)?;
    tell_cuts(alloc, text, &octets)?;
    tell_changes(alloc, text, &octets)?;
    let message = told_of(alloc, &octets)?;
    tell_swaps(alloc, text, head, ies, message.as_str())?;
    tell_twice(alloc, text, head, ies)
}

#[test]
fn damaged_messages(rt: HostRuntime) -> Result<(), Fail> {
    is_told_again(&rt, rt.alloc(), MESSAGES, tell_case)
}
