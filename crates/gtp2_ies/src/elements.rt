//! Writing information elements (3GPP TS 29.274, 8), each of instance 0, behind what was written.

ghost use Rattle.std.specs.Prelude.{◌≡◌, ◌^◌, ◌<◌, ◌≤◌, [], ◌∷◌, ◌++◌, OnOk, length};
ghost use Rattle.echo_base.specs.Field.{number_run};
ghost use Rattle.gtp2_ies.specs.Frame.{frame_run};
ghost use Rattle.gtp2_ies.specs.Values.{cause, fteid, address, rates, qos, apn, imsi, pair_run, imsi_run};

use echo_base::OutOfMemory;
use tlv_elements::{put_u16, put_u32};

/// The head of an element of instance 0, whose value has so many octets.
pub fn put_head(out: &mut Vec<u8>, tag: u8, size: u16) -> Result<(), OutOfMemory>
    ensures { OnOk result (out.new.items ≡ out.old.items ++ tag ∷ (number_run 2 size ++ 0 ∷ [])) }
{
    out.push(tag)?;
    put_u16(out, size)?;
    out.push(0)?;
    Ok(())
}

/// An element of instance 0.
fn put(out: &mut Vec<u8>, tag: u8, value: &[u8]) -> Result<(), OutOfMemory>
    requires { length value.now < 65536 }
    ensures { OnOk result (out.new.items ≡ out.old.items ++ frame_run tag 0 value.now) }
{
    put_head(out, tag, value.len() as u16)?;
    out.extend_from_slice(value)
}

/// An F-TEID (8.22).
pub fn put_fteid(out: &mut Vec<u8>, whose: u8, teid: u32, addr: u32) -> Result<(), OutOfMemory>
    ensures { OnOk result (out.new.items ≡ out.old.items ++ frame_run 87 0 ((fteid whose).run (teid, addr))) }
{
    put_head(out, 87, 9)?;
    out.push(whose)?;
    put_u32(out, teid)?;
    put_u32(out, addr)
}

/// An element of one octet.
pub fn put_octet(out: &mut Vec<u8>, tag: u8, octet: u8) -> Result<(), OutOfMemory>
    ensures { OnOk result (out.new.items ≡ out.old.items ++ frame_run tag 0 (octet ∷ [])) }
{
    put_head(out, tag, 1)?;
    out.push(octet)?;
    Ok(())
}

/// A cause (8.4).
pub fn put_cause(out: &mut Vec<u8>, c: u8) -> Result<(), OutOfMemory>
    ensures { OnOk result (out.new.items ≡ out.old.items ++ frame_run 2 0 (cause.run c)) }
{
    put_head(out, 2, 2)?;
    out.push(c)?;
    out.push(0)?;
    Ok(())
}

/// An address allocation (8.14).
pub fn put_address(out: &mut Vec<u8>, addr: u32) -> Result<(), OutOfMemory>
    ensures { OnOk result (out.new.items ≡ out.old.items ++ frame_run 79 0 (address.run addr)) }
{
    put_head(out, 79, 5)?;
    out.push(1)?;
    put_u32(out, addr)
}

/// Bit rates (8.7).
pub fn put_rates(out: &mut Vec<u8>, ul: u32, dl: u32) -> Result<(), OutOfMemory>
    ensures { OnOk result (out.new.items ≡ out.old.items ++ frame_run 72 0 (rates.run (ul, dl))) }
{
    put_head(out, 72, 8)?;
    put_u32(out, ul)?;
    put_u32(out, dl)
}

/// A quality of service (8.15).
pub fn put_qos(out: &mut Vec<u8>) -> Result<(), OutOfMemory>
    ensures { OnOk result (out.new.items ≡ out.old.items ++ frame_run 80 0 (qos.run tt)) }
{
    put_head(out, 80, 22)?;
    out.extend_from_slice(&[
        0x20, 9, 0, 0, 0, 0, 0, 0, 0, 0, 0, 0, 0, 0, 0, 0, 0, 0, 0, 0, 0, 0,
    ])
}

/// An access point name (8.6).
pub fn put_apn(out: &mut Vec<u8>, text: &[u8]) -> Result<(), OutOfMemory>
    requires { length text.now ≤ 30 }
    ensures { OnOk result (out.new.items ≡ out.old.items ++ frame_run 71 0 (apn.run text.now)) }
{
    put_head(out, 71, text.len() as u16 + 1)?;
    out.push(text.len() as u8)?;
    out.extend_from_slice(text)
}

/// Two digits in an octet, the first in the low half.
fn pair(n: u64) -> u8
    requires { n < 100 }
    ensures { result ≡ pair_run n }
{
    (n / 10 + 16 * (n % 10)) as u8
}

/// The octets of an IMSI (8.3).
fn imsi_octets(imsi: u64) -> [u8; 8]
    requires { imsi < 10 ^ 15 }
    ensures { result ≡ imsi_run imsi }
{
    let n = imsi / 10;
    let a = pair(n / 1_000_000_000_000);
    let n = n % 1_000_000_000_000;
    let b = pair(n / 10_000_000_000);
    let n = n % 10_000_000_000;
    let c = pair(n / 100_000_000);
    let n = n % 100_000_000;
    let d = pair(n / 1_000_000);
    let n = n % 1_000_000;
    let e = pair(n / 10_000);
    let n = n % 10_000;
    let f = pair(n / 100);
    let g = pair(n % 100);
    let last = (imsi % 10 + 240) as u8;
    [a, b, c, d, e, f, g, last]
}

/// An IMSI.
pub fn put_imsi(out: &mut Vec<u8>, n: u64) -> Result<(), OutOfMemory>
    requires { n < 10 ^ 15 }
    ensures { OnOk result (out.new.items ≡ out.old.items ++ frame_run 1 0 (imsi.run n)) }
{
    let octets = imsi_octets(n);
    put(out, 1, &octets)
}
