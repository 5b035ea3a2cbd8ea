//! What is written, against octets worked out by hand from ITU-T X.691.

ghost use Rattle.std.specs.Prelude.{◌≡◌, ◌<◌, ◌≤◌, ◌^◌, false};

use crate::tables::is_told_again;
use aper_fields::{
    BitWriter, EnumValue, Ranged, write_bits_fixed, write_enum, write_len, write_octet_string,
    write_octets_fixed, write_open,
};
use echo_base::OutOfMemory;
use std::alloc::Global;
use std::test::Fail;

/// A line each: the octets in hexadecimal, the piece, and the value that is written. Numbers from the one to the other, lengths,
/// enumerations of so many roots without and with an extension mark, and their values beyond the roots; and several pieces behind one
/// another: a number twice, each time in four octets, behind two bits, so 00 011 p(3) and 011 p(5); strings of 16 and 28 bits behind
/// a bit, and behind p(3) three octets; an octet string, and open types round no bits and round a bit; and three bits, with one behind
/// them in the place of 16 that were taken back.
const PIECES: &str = "
 5..5 5
9f 1..160 160
fe 0..254 254
07 0..255 7
ff 1..256 256
0100 0..256 256
0008 0..65535 8
80010000 0..65536 65536
80ffffff 0..16777215 16777215
0000 0..16777215 0
400100 0..16777215 256
0001 0..4294967295 1
00 length 0
7f length 127
8080 length 128
bfff length 16383
30 5 roots .. 3
60 5 roots 3
82 5 roots .. beyond 2
00 1 root .. 0
 1 root 0
183b9aca00603b9aca00 numbers 1000000000
ffff800abcdef0010203 strings 11259375
04c700000001000180 contents 1
b0 behind a mark 1
";

/// A value of an enumeration that is one of its roots.
fn root(index: u64) -> EnumValue
    requires { index < 64 }
    ensures extended { result.extended ≡ false }
    ensures index { result.index ≡ index }
{
    EnumValue {
        extended: false,
        index: index as u8,
    }
}

/// Writes a whole number from LOW to HIGH. It fails where the table has another value for the range.
fn write_ranged<const LOW: u64, const HIGH: u64>(w: &mut BitWriter, value: u64) -> Result<(), Fail>
    requires small { HIGH < 2 ^ 63 }
{
    if value < LOW || HIGH < value {
        return Err(Fail::new("no value"));
    }
    Ok(Ranged::<LOW, HIGH>::write(w, value)?)
}

/// Writes a number of a range that the table names.
fn write_in_range(w: &mut BitWriter, range: &str, value: u64) -> Result<(), Fail> {
    match range {
        "5..5" => write_ranged::<5, 5>(w, value),
        "1..160" => write_ranged::<1, 160>(w, value),
        "0..254" => write_ranged::<0, 254>(w, value),
        "0..255" => write_ranged::<0, 255>(w, value),
        "1..256" => write_ranged::<1, 256>(w, value),
        "0..256" => write_ranged::<0, 256>(w, value),
        "0..65535" => write_ranged::<0, 65535>(w, value),
        "0..65536" => write_ranged::<0, 65536>(w, value),
        "0..16777215" => write_ranged::<0, 16777215>(w, value),
        "0..4294967295" => write_ranged::<0, 4294967295>(w, value),
        _ => Err(Fail::new("no piece")),
    }
}

/// Writes a value of a piece that the table names.
fn write_piece(w: &mut BitWriter, piece: &str, value: u64) -> Result<(), Fail> {
    match piece {
        "length" if value < 16384 => Ok(write_len(w, value as usize)?),
        "5 roots" if value < 5 => Ok(write_enum(w, 5, false, root(value))?),
        "5 roots .." if value < 5 => Ok(write_enum(w, 5, true, root(value))?),
        "5 roots .. beyond" if value < 64 => {
            let beyond = EnumValue {
                extended: true,
                index: value as u8,
            };
            Ok(write_enum(w, 5, true, beyond)?)
        }
        "1 root" if value == 0 => Ok(write_enum(w, 1, false, root(0))?),
        "1 root .." if value == 0 => Ok(write_enum(w, 1, true, root(0))?),
        _ => write_in_range(w, piece, value),
    }
}

/// Writes the number twice, each time in as many octets as it has, behind two bits.
fn write_numbers(w: &mut BitWriter, value: u64) -> Result<(), OutOfMemory>
    requires { value ≤ 10000000000 }
{
    write_bits_fixed(w, 0, 2)?;
    Ranged::<0, 10000000000>::write(w, value)?;
    Ranged::<0, 10000000000>::write(w, value)
}

/// Writes strings of bits, the last of the value, and of octets behind a bit.
fn write_strings(w: &mut BitWriter, value: u64) -> Result<(), OutOfMemory>
    requires { value < 2 ^ 28 }
{
    write_bits_fixed(w, 1, 1)?;
    write_bits_fixed(w, 0xffff, 16)?;
    write_bits_fixed(w, value, 28)?;
    write_octets_fixed(w, b"\x01\x02\x03")
}

/// Writes an octet string, and open types round a value of no bits and of the bit.
#[tactic(auto, unfolding(aper_fields::specs::Bits::bits, aper_fields::specs::Run::fixed_bits_run))]
fn write_contents(alloc: Global, w: &mut BitWriter, bit: u64) -> Result<(), OutOfMemory>
    requires { bit < 2 }
{
    let mut body = BitWriter::new(alloc);
    write_octet_string(w, b"\xc7\x00\x00\x00")?;
    write_open(w, &body)?;
    write_bits_fixed(&mut body, bit, 1)?;
    write_open(w, &body)
}

/// Writes three bits, and the bit behind them in the place of others that are taken back.
fn write_again(w: &mut BitWriter, bit: u64) -> Result<(), OutOfMemory>
    requires { bit < 2 }
{
    write_bits_fixed(w, 0b101, 3)?;
    let mark = w.mark();
    write_bits_fixed(w, 0xffff, 16)?;
    w.back_to(mark);
    write_bits_fixed(w, bit, 1)
}

/// Writes several pieces that the table names, the last of the value.
fn write_pieces(alloc: Global, w: &mut BitWriter, pieces: &str, value: u64) -> Result<(), Fail> {
    match pieces {
        "numbers" if value <= 10_000_000_000 => Ok(write_numbers(w, value)?),
        "strings" if value < 0x1000_0000 => Ok(write_strings(w, value)?),
        "contents" if value < 2 => Ok(write_contents(alloc, w, value)?),
        "behind a mark" if value < 2 => Ok(write_again(w, value)?),
        _ => write_piece(w, pieces, value),
    }
}

/// Writes the octets of a piece and a value that the table names.
fn tell_piece(alloc: Global, text: &mut String, piece: &str, value: u64) -> Result<(), Fail> {
    let mut w = BitWriter::new(alloc);
    write_pieces(alloc, &mut w, piece, value)?;
    Ok(text.push_str(&hex::encode(alloc, w.bytes())?)?)
}

/// Writes a case again: the octets that are written, and behind them the piece and the value.
fn tell_case(alloc: Global, text: &mut String, line: &str) -> Result<(), Fail> {
    let (_, case) = line.split_once(' ').ok_or("no piece")?;
    let (piece, value) = case.rsplit_once(' ').ok_or("no value")?;
    tell_piece(alloc, text, piece, value.parse()?)?;
    text.push(' ')?;
    Ok(text.push_str(case)?)
}

#[test]
fn pieces(rt: HostRuntime) -> Result<(), Fail> {
    is_told_again(&rt, rt.alloc(), PIECES, tell_case)
}
