//! Writing AVPs (RFC 6733, 4.1) behind what was written.

ghost use Rattle.std.specs.Prelude.{◌≡◌, ◌%◌, ◌/◌, ◌^◌, ◌<◌, ◌≤◌, ◌++◌, OnOk, length, replicate};
ghost use Rattle.echo_base.specs.Field.{number_run};
ghost use Rattle.dia_avps.specs.Frame.{tgpp, head_run, frame_run};
ghost use Rattle.dia_avps.specs.Values.{unsigned, plmn, imsi, digit_run, imsi_run};

use crate::frame::{TGPP, padding};
use byteorder::{BigEndian, ByteOrder};
use echo_base::OutOfMemory;
use tlv_elements::{put_u24, put_u32};

/// The head of an AVP whose value has so many octets: mandatory, and with its vendor where it has one.
pub fn put_head(out: &mut Vec<u8>, code: u32, mark: u64, count: u32) -> Result<(), OutOfMemory>
    requires mark { mark ≤ 2 ^ 32 }
    requires count { count < 65536 }
    ensures { OnOk result (out.new.items ≡ out.old.items ++ head_run code mark count) }
{
    put_u32(out, code)?;
    if mark == 0 {
        out.push(0x40)?;
        return put_u24(out, 8 + count);
    }
    out.push(0xc0)?;
    put_u24(out, 12 + count)?;
    put_u32(out, (mark - 1) as u32)
}

/// So many zeros.
#[tactic(auto, using(crate::proofs::Frames::three_zeros))]
fn put_zeros(out: &mut Vec<u8>, count: u32) -> Result<(), OutOfMemory>
    requires { count < 4 }
    ensures { OnOk result (out.new.items ≡ out.old.items ++ replicate count 0) }
{
    match count {
        0 => Ok(()),
        1 => out.extend_from_slice(&[0]),
        2 => out.extend_from_slice(&[0, 0]),
        _ => out.extend_from_slice(&[0, 0, 0]),
    }
}

/// An AVP.
#[tactic(auto, unfolding(crate::specs::Frame::frame_run))]
pub fn put(out: &mut Vec<u8>, code: u32, mark: u64, value: &[u8]) -> Result<(), OutOfMemory>
    requires mark { mark ≤ 2 ^ 32 }
    requires count { length value.now < 65536 }
    ensures { OnOk result (out.new.items ≡ out.old.items ++ frame_run code mark value.now) }
{
    let count = value.len() as u32;
    put_head(out, code, mark, count)?;
    out.extend_from_slice(value)?;
    put_zeros(out, padding(count))
}

/// An AVP of a number (4.2, Unsigned32).
pub fn put_unsigned(out: &mut Vec<u8>, code: u32, mark: u64, n: u32) -> Result<(), OutOfMemory>
    requires { mark ≤ 2 ^ 32 }
    ensures { OnOk result (out.new.items ≡ out.old.items ++ frame_run code mark (unsigned.run n)) }
{
    let mut octets = [0; 4];
    BigEndian::write_u32(&mut octets, n);
    put(out, code, mark, &octets)
}

/// A Visited-PLMN-Id (TS 29.272, 7.3.9).
pub fn put_plmn(out: &mut Vec<u8>, n: u32) -> Result<(), OutOfMemory>
    requires { n < 2 ^ 24 }
    ensures { OnOk result (out.new.items ≡ out.old.items ++ frame_run 1407 tgpp (plmn.run n)) }
{
    let mut octets = [0; 3];
    BigEndian::write_u24(&mut octets, n);
    put(out, 1407, TGPP, &octets)
}

/// The digit of a number that counts so much.
fn digit(n: u64, unit: u64) -> u8
    requires { 1 ≤ unit }
    ensures { result ≡ digit_run (n / unit % 10) }
{
    48 + (n / unit % 10) as u8
}

/// The octets of an IMSI: its 15 digits.
fn imsi_octets(imsi: u64) -> [u8; 15]
    requires { imsi < 10 ^ 15 }
    ensures { result ≡ imsi_run imsi }
{
    [
        digit(imsi, 100_000_000_000_000),
        digit(imsi, 10_000_000_000_000),
        digit(imsi, 1_000_000_000_000),
        digit(imsi, 100_000_000_000),
        digit(imsi, 10_000_000_000),
        digit(imsi, 1_000_000_000),
        digit(imsi, 100_000_000),
        digit(imsi, 10_000_000),
        digit(imsi, 1_000_000),
        digit(imsi, 100_000),
        digit(imsi, 10_000),
        digit(imsi, 1_000),
        digit(imsi, 100),
        digit(imsi, 10),
        digit(imsi, 1),
    ]
}

/// A User-Name (RFC 6733, 8.14), which is an IMSI.
pub fn put_imsi(out: &mut Vec<u8>, n: u64) -> Result<(), OutOfMemory>
    requires { n < 10 ^ 15 }
    ensures { OnOk result (out.new.items ≡ out.old.items ++ frame_run 1 0 (imsi.run n)) }
{
    let octets = imsi_octets(n);
    put(out, 1, 0, &octets)
}
