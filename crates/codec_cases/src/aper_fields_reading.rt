//! Octets worked out by hand from ITU-T X.691, and what is read from them. A line of a table is the octets in hexadecimal, those
//! from the octet 10 of a PDU on; the piece that is read; and behind ` = ` its value, or the refusal with its place.

use crate::tables::is_told_again;
use aper_fields::{
    BitReader, Ranged, close, end, read_bits_fixed, read_enum, read_len, read_octet_string,
    read_octets_fixed, read_open,
};
use echo_base::{OutOfMemory, Refusal};
use std::alloc::Global;
use std::fmt::Debug;
use std::test::Fail;

/// Pieces at the start of an octet: numbers from the one to the other, lengths, enumerations of three roots without and with
/// an extension mark, octet strings, open types round a value of no bits; and an open type of five octets that holds a bit and,
/// aligned, a bit string of 28 bits, 0x01234567, with one behind it that does not fit. Then pieces behind one bit, so that an
/// aligned form has seven bits of padding before it.
const PIECES: &str = "\
0005 0..16777215 = 5
400100 0..16777215 = 256
80ffffff 0..16777215 = 16777215
0000 0..16777215 = 0
80000001 0..16777215 = 4 NotMinimal at 11
4000ff 0..16777215 = 4 NotMinimal at 11
81010000 0..16777215 = 3 NonZeroPadding at 10
800100 0..16777215 = 1 Truncated at 11
c001000000 0..16777215 = 5 OutOfRange at 10
00 length = 0
7f length = 127
8080 length = 128
bfff length = 16383
8001 length = 2 LongLength at 10
807f length = 2 LongLength at 10
c000 length = 6 TooLong at 10
80 length = 1 Truncated at 10
 length = 1 Truncated at 10
40 3 roots = EnumValue { extended: false, index: 1 }
40 3 roots .. = EnumValue { extended: false, index: 2 }
c0 3 roots = 5 OutOfRange at 10
c0 3 roots .. = 5 OutOfRange at 10
60 3 roots = EnumValue { extended: false, index: 1 }
60 3 roots .. = 5 OutOfRange at 10
85 3 roots = EnumValue { extended: false, index: 2 }
85 3 roots .. = EnumValue { extended: true, index: 5 }
00010203 0 to 3 octets = []
03010203 0 to 3 octets = [1, 2, 3]
0401020304 0 to 3 octets = 6 TooLong at 10
0201 0 to 3 octets = 1 Truncated at 10
800102 0 to 3 octets = 2 LongLength at 10
0100 no bits = ()
00 no bits = 1 Truncated at 11
0101 no bits = 3 NonZeroPadding at 11
020000 no bits = 13 TrailingBytes at 12
05801234567002ff container = 11 Ok(1) Ok(19088743) Ok(()) Err(Refusal { reason: Truncated, place: 15 }), 16 true Ok(2)
801234 bit, 7..7 = 7
801234 bit, 0..2 = 0
801234 bit, 0..254 = 0
801234 bit, 1..256 = 19
801234 bit, 0..65535 = 4660
801234 bit, 0..65536 = 18
ffffff bit, 7..7 = 7
ffffff bit, 0..2 = 5 OutOfRange at 10
ffffff bit, 0..254 = 5 OutOfRange at 10
ffffff bit, 1..256 = 3 NonZeroPadding at 10
ffffff bit, 0..65535 = 3 NonZeroPadding at 10
ffffff bit, 0..65536 = 5 OutOfRange at 10
80010000 bit, 0..256 = 256
80010180 bit, 0..256 = 5 OutOfRange at 11
800005 bit, 0..256 = 5
c0010000 bit, 0..256 = 3 NonZeroPadding at 10
8080 bit, 8 bits = 1
808100 bit, 16 bits = 258
80010000 bit, 17 bits = 512
80010180 bit, 17 bits = 515
800005 bit, 17 bits = 1 Truncated at 11
c0010000 bit, 17 bits = 3 NonZeroPadding at 10
00010203 bit, 3 octets = [1, 2, 3]
03010203 bit, 3 octets = 3 NonZeroPadding at 10
0401020304 bit, 3 octets = 3 NonZeroPadding at 10
0201 bit, 3 octets = 3 NonZeroPadding at 10
800102 bit, 3 octets = 1 Truncated at 11
80 bit, end = ()
00 bit, end = ()
81 bit, end = 3 NonZeroPadding at 10
8000 bit, end = 13 TrailingBytes at 11
";

/// Writes what was read, as the tables have it.
fn tell<T: Debug + Drop>(text: &mut String, read: Result<T, Refusal>) -> Result<(), Fail> {
    match read {
        Ok(value) => write!(text, "{value:?}")?,
        Err(refusal) => write!(text, "{refusal}")?,
    }
    Ok(())
}

/// The end of an open type round a value of no bits.
fn read_no_bits(r: &mut BitReader) -> Result<(), Refusal> {
    let content = read_open(r)?;
    let mut inside = content.ahead();
    Ranged::<7, 7>::read(&mut inside)?;
    close(&content, &inside)
}

/// Writes the place of what is in an open type, a bit, 28 bits, whether it ends there, and five bits more.
fn tell_inside(text: &mut String, inside: &mut BitReader) -> Result<(), OutOfMemory> {
    let place = inside.place();
    let bit = read_bits_fixed(inside, 1);
    let string = read_bits_fixed(inside, 28);
    let ends = end(inside);
    let more = read_bits_fixed(inside, 5);
    write!(text, "{place} {bit:?} {string:?} {ends:?} {more:?}, ")
}

/// Writes the place behind an open type, whether one more is refused, and the length that stands there.
fn tell_behind(text: &mut String, r: &mut BitReader) -> Result<(), OutOfMemory> {
    let place = r.place();
    let refused = read_open(r).is_err();
    let length = read_len(r);
    write!(text, "{place} {refused} {length:?}")
}

/// Writes what is read of an open type and behind it.
fn tell_open(text: &mut String, r: &mut BitReader) -> Result<(), Fail> {
    let mut inside = read_open(r)?;
    tell_inside(text, &mut inside)?;
    Ok(tell_behind(text, r)?)
}

/// Writes what is read of a piece that a table names. It fails where the table names no piece.
fn tell_piece(text: &mut String, r: &mut BitReader, piece: &str) -> Result<(), Fail> {
    match piece {
        "length" => tell(text, read_len(r)),
        "3 roots" => tell(text, read_enum(r, 3, false)),
        "3 roots .." => tell(text, read_enum(r, 3, true)),
        "0 to 3 octets" => tell(text, read_octet_string(r, 3)),
        "3 octets" => tell(text, read_octets_fixed(r, 3)),
        "8 bits" => tell(text, read_bits_fixed(r, 8)),
        "16 bits" => tell(text, read_bits_fixed(r, 16)),
        "17 bits" => tell(text, read_bits_fixed(r, 17)),
        "no bits" => tell(text, read_no_bits(r)),
        "end" => tell(text, end(r)),
        "container" => tell_open(text, r),
        _ => tell_number(text, r, piece),
    }
}

/// Writes what is read of a number of a range that a table names.
fn tell_number(text: &mut String, r: &mut BitReader, range: &str) -> Result<(), Fail> {
    match range {
        "7..7" => tell(text, Ranged::<7, 7>::read(r)),
        "0..2" => tell(text, Ranged::<0, 2>::read(r)),
        "0..254" => tell(text, Ranged::<0, 254>::read(r)),
        "1..256" => tell(text, Ranged::<1, 256>::read(r)),
        "0..256" => tell(text, Ranged::<0, 256>::read(r)),
        "0..65535" => tell(text, Ranged::<0, 65535>::read(r)),
        "0..65536" => tell(text, Ranged::<0, 65536>::read(r)),
        "0..16777215" => tell(text, Ranged::<0, 16777215>::read(r)),
        _ => Err(Fail::new("no piece")),
    }
}

/// Writes what is read of a piece behind a bit, where the table says so, and else at once.
fn tell_place(text: &mut String, r: &mut BitReader, piece: &str) -> Result<(), Fail> {
    match piece.strip_prefix("bit, ") {
        Some(piece) => {
            read_bits_fixed(r, 1)?;
            tell_piece(text, r, piece)
        }
        None => tell_piece(text, r, piece),
    }
}

/// Writes a case again, with what is read of its octets.
fn tell_case(alloc: Global, text: &mut String, line: &str) -> Result<(), Fail> {
    let (case, _) = line.split_once(" = ").ok_or("no value")?;
    let (digits, piece) = case.split_once(' ').ok_or("no piece")?;
    write!(text, "{case} = ")?;
    let octets = hex::decode(alloc, digits)?;
    tell_place(text, &mut BitReader::new(&octets, 10), piece)
}

#[test]
fn pieces(rt: HostRuntime) -> Result<(), Fail> {
    is_told_again(&rt, rt.alloc(), PIECES, tell_case)
}
