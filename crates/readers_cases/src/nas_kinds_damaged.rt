//! Messages of a device that are damaged: cut at each octet, and with each octet changed to each of its other values.

use echo_base::{Bad, OutOfMemory, Reason};
use nas_kinds::{NasIn, read_nas};
use std::alloc::Global;
use std::test::Fail;

/// The letters of `letter_of` and `letter_of_reason`, in the order of the words of the table.
const LETTERS: &str = "sdkiACDURMJSPB";

/// The messages of `nas_kinds_calls`, a line each. The first word behind the octets tells of its beginnings, all NasShort, as many as it has
/// octets. A word for each octet tells of its 255 other values: letters of what is read, each behind how often. What is free, as an
/// algorithm, is read in all; a type by the fields behind it, which are those of another message, too; a length beyond what is there is
/// NasShort; of the digits of an IMSI two in an octet have 100 values, and the first of them, beside the 9, has ten; a first octet is one of
/// the 16 of session management, whose type is then two octets behind it, one of the four of a protected message, whose own begins six
/// behind it, c7, or NasDiscriminator.
const MESSAGES: &str = "\
07417108298039000000001002e0c000040201d011 s21 d238k16S1 s2k249D1U1M1J1 A255 s238i17 i246A9 i156A99 i156A99 i156A99 i156A99 i156A99 i156A99 i156A99 s255 A255 A255 s255 s254A1 A255 A255 A255 A255
07417108298039000000001003e0f0c000030207d0 s21 d238k16S1 s2k249D1U1M1J1 A255 s238i17 i246A9 i156A99 i156A99 i156A99 i156A99 i156A99 i156A99 i156A99 s255 A255 A255 A255 s255 s255 A255 A255 A255
0741720bf602f8390001010000000703f070c000030205d0 s24 d238k16S1 s2k249D1U1M1J1 A255 s235i20 i255 A255 A255 A255 A255 A255 A255 A255 A255 A255 A255 s255 A255 A255 A255 s255 s255 A255 A255 A255
074300035200c2 s7 s4d234k16S1 k249i3R1M1J1 s255 s252C3 C255 C255 C255
07430000 s4 s4d234k16S1 k249i3R1M1J1 s255 s255
0745710bf602f83900010100000001 s15 d238k16S1 s3k249U1M1J1 D255 s244i11 i255 D255 D255 D255 D255 D255 D255 D255 D255 D255 D255
074579082980390000000010 s12 d238k16S1 s3k249U1M1J1 D255 s247i8 i246D9 i156D99 i156D99 i156D99 i156D99 i156D99 i156D99 i156D99
0748700bf600f1108001fffffffffe s15 d238k16S1 s3k249D1M1J1 U255 s244i11 i255 U255 U255 U255 U255 U255 U255 U255 U255 U255 U255
074870089999999999999999 s12 d238k16S1 s3k249D1M1J1 U255 s247i8 i246U9 i156U99 i156U99 i156U99 i156U99 i156U99 i156U99 i156U99
074870080910325476981032 s12 d234k20S1 s3k249D1M1J1 U255 s247i8 i246U9 i156U99 i156U99 i156U99 i156U99 i156U99 i156U99 i156U99
075304a0a1a2a3 s7 d238k16S1 s4k249M1J1 s251R4 R255 R255 R255 R255
075300 s3 s5d234k16 s4k249M1J1 s255
075e s2 s21d234 s6k249
075f17 s3 s5d234k16 s5k249M1 J255
c7000000 s4 s4d234k17 S255 S255 S255
17ffffffffff075301a0 s10 d234k17R3S1 R255 R255 R255 R255 R255 d239k16 s4k249M1J1 s254R1 R255
270000000001074300035200c2 s13 d234k17C3S1 C255 C255 C255 C255 C255 d239k16 k249i3R1M1J1 s255 s252C3 C255 C255 C255
370000000000075f17 s9 d234k17J3S1 J255 J255 J255 J255 J255 d239k16 s5k249M1 J255
470000000000075e s8 d234k17M3S1 M255 M255 M255 M255 M255 s16d239 s6k249
0201d011 s4 s4d234k1S1P15 P255 k255 P255
1202d012 s4 s4d234k1S1P15 P255 k255 P255
2203d013 s4 s4d234k1S1P15 P255 k255 P255
3204d021 s4 s4d234k1S1P15 P255 k255 P255
4205d022 s4 s4d234k1S1P15 P255 k255 P255
5206d023 s4 s4d234k1S1P15 P255 k255 P255
6207d031 s4 s4d234k1S1P15 P255 k254B1 P255
7208d032 s4 s4d234k1S1P15 P255 k255 P255
8209d033 s4 s4d234k1S1P15 P255 k255 P255
920ad041 s4 s4d234k1S1P15 P255 k255 P255
a20bd042 s4 s4d234k1S1P15 P255 k255 P255
b20cd043 s4 s4d234k1S1P15 P255 k255 P255
c20dd000 s4 s4d234k1S1P15 P255 k255 P255
d2fed0ff s4 s4d234k1S1P15 P255 k255 P255
e2ffd0d0 s4 s4d234k1S1P15 P255 k255 P255
f200d0c2 s4 s4d234k1S1P15 P255 k255 P255
6204c2 s3 s5d234k16 B255 s1k254
62c2c2 s3 s5d234k16 B255 s1k254
17a1a2a3a4a50211d031 s10 d234k17S1P3 P255 P255 P255 P255 P255 d239k1P15 P255 k255 P255
2700000000030202d011 s10 d234k17S1P3 P255 P255 P255 P255 P255 d239k1P15 P255 k255 P255
37070707070f2212d0ff s10 d234k17S1P3 P255 P255 P255 P255 P255 d239k1P15 P255 k255 P255
4702020202020213d011 s10 d234k17S1P3 P255 P255 P255 P255 P255 d239k1P15 P255 k255 P255
17c2c2c2c2c26200c2 s9 d234k16S1B4 B255 B255 B255 B255 B255 d239k16 B255 s1k254
2700000000046200c2 s9 d234k17S1B3 B255 B255 B255 B255 B255 d239k16 B255 s1k254
37626262626262ffc2 s9 d234k17S1B3 B255 B255 B255 B255 B255 d239k16 B255 s1k254
47d0d0d0d0d06201c2 s9 d234k1S1P16B3 B255 B255 B255 B255 B255 d239k16 B255 s1k254
";

/// The letter of a message.
fn letter_of(message: &NasIn) -> char {
    match message {
        NasIn::AttachRequest { .. } => 'A',
        NasIn::AttachComplete => 'C',
        NasIn::DetachRequest { .. } => 'D',
        NasIn::AreaRequest { .. } => 'U',
        NasIn::AuthResponse { .. } => 'R',
        NasIn::SecurityComplete => 'M',
        NasIn::SecurityReject { .. } => 'J',
        NasIn::ServiceRequest => 'S',
        NasIn::PdnRequest { .. } => 'P',
        NasIn::PdnAccept => 'B',
    }
}

/// The letter of why octets are no message.
fn letter_of_reason(reason: Reason) -> char {
    match reason {
        Reason::NasShort => 's',
        Reason::NasDiscriminator => 'd',
        Reason::NasKind(_) => 'k',
        Reason::NasIdentity => 'i',
        _ => '?',
    }
}

/// Puts the letter of what the octets are read as behind the letters.
fn push_letter(alloc: Global, letters: &mut String, octets: &[u8]) -> Result<(), OutOfMemory> {
    match read_nas(alloc, octets) {
        Ok(message) => letters.push(letter_of(&message)),
        Err(Bad::Refused(refusal)) => letters.push(letter_of_reason(refusal.reason)),
        Err(Bad::OutOfMemory) => Err(OutOfMemory),
    }
}

/// Writes a word: each of the letters, and how often it is there.
fn tell_letters(text: &mut String, letters: &str) -> Result<(), OutOfMemory> {
    text.push(' ')?;
    for letter in LETTERS.chars() {
        let count = letters.split(letter).count().saturating_sub(1);
        if count > 0 {
            write!(text, "{letter}{count}")?;
        }
    }
    Ok(())
}

/// Writes the word of the beginnings of the octets.
fn tell_cuts(alloc: Global, text: &mut String, octets: &[u8]) -> Result<(), OutOfMemory> {
    let mut letters = String::new(alloc);
    for left in 0..octets.len() {
        push_letter(alloc, &mut letters, &octets[..left])?;
    }
    tell_letters(text, letters.as_str())
}

/// Writes the word of the octets with the one at that place one higher, two, and so on to 255: each of its other values.
fn tell_changes(
    alloc: Global,
    text: &mut String,
    octets: &[u8],
    place: usize,
) -> Result<(), OutOfMemory> {
    let mut letters = String::new(alloc);
    let mut changed = Vec::from_slice(alloc, octets)?;
    for _ in 0..255 {
        if let Some(octet) = changed.get_mut(place) {
            *octet = octet.wrapping_add(1);
        }
        push_letter(alloc, &mut letters, &changed)?;
    }
    tell_letters(text, letters.as_str())
}

/// Writes a line again: octets in digits, and the words of their beginnings and of each octet.
fn tell_line(alloc: Global, text: &mut String, line: &str) -> Result<(), Fail> {
    let (digits, _) = line.split_once(' ').ok_or("nothing told")?;
    let octets = hex::decode(alloc, digits)?;
    text.push_str(digits)?;
    tell_cuts(alloc, text, &octets)?;
    for place in 0..octets.len() {
        tell_changes(alloc, text, &octets, place)?;
    }
    Ok(text.push('\n')?)
}

#[test]
fn damaged_messages(rt: HostRuntime) -> Result<(), Fail> {
    let mut text = String::new(rt.alloc());
    for line in MESSAGES.lines() {
        tell_line(rt.alloc(), &mut text, line)?;
    }
    assert_eq!(rt; text.as_str(), MESSAGES);
    Ok(())
}
