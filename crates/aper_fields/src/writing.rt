//! Writing pieces: numbers, lengths, octets, bit strings, enumerations and open types.

ghost use Rattle.std.specs.Prelude.{◌≡◌, ◌-◌, ◌*◌, ◌%◌, ◌^◌, ◌<◌, ◌≤◌, length, take, drop, OnOk, OnErr, IfOk};
ghost use Rattle.aper_fields.specs.Kept.{Keeps};
ghost use Rattle.aper_fields.specs.Run.{then_written, number_run, counted_run, length_run, fixed_octets_run, octet_string_run, fixed_bits_run, enumerated_run, content_of, open_run};
ghost use Rattle.aper_fields.specs.Spelling.{IsEnumValue};

use crate::enumerated::EnumValue;
use crate::whole::all_or_nothing;
use crate::width::{octet_count, width};
use crate::writer::{BitWriter, Mark};
use std::alloc::AllocError;

/// Puts a number of at most `top` as the count of its octets less one, padding, and the least number of octets.
fn put_counted(w: &mut BitWriter, top: u64, n: u64) -> Result<(), AllocError>
    requires { n ≤ top }
    ensures ok { OnOk result (w.new ≡ then_written w.old (counted_run top n)) }
    ensures kept { OnErr result (Keeps w.old w.new) }
{
    let count = octet_count(n);
    let count_width = width(u64::from(octet_count(top) - 1));
    w.write_bits(u64::from(count - 1), count_width)?;
    w.write_padded_bits(n, 8 * count)
}

/// Writes a number of at most `top` as the count of its octets less one, padding, and the least number of octets
/// (ITU-T X.691, Encoding of a constrained whole number, the indefinite length case).
fn write_counted(w: &mut BitWriter, top: u64, n: u64) -> Result<(), AllocError>
    requires { n ≤ top }
    ensures ok { OnOk result (w.new ≡ then_written w.old (counted_run top n)) }
    ensures err { OnErr result (w.new ≡ w.old) }
{
    all_or_nothing(w, |w| put_counted(w, top, n))
}

/// Writes a whole number from `low` to `high`.
#[tactic(auto, unfolding(crate::specs::Run::number_run))]
pub(crate) fn write_number(w: &mut BitWriter, low: u64, high: u64, v: u64) -> Result<(), AllocError>
    requires low { low ≤ v }
    requires high { v ≤ high }
    ensures ok { OnOk result (w.new ≡ then_written w.old (number_run low (high - low) v)) }
    ensures err { OnErr result (w.new ≡ w.old) }
{
    let top = high - low;
    let n = v - low;
    if top == 0 {
        return Ok(());
    }
    if top < 255 {
        return w.write_bits(n, width(top));
    }
    if top < 65536 {
        return w.write_padded_bits(n, if top == 255 { 8 } else { 16 });
    }
    write_counted(w, top, n)
}

/// Writes a general length below 16,384: padding, and one octet below 128, else two that begin with the bits 10
/// (ITU-T X.691, General rules for encoding a length determinant). Where memory runs out, nothing is written.
pub fn write_len(w: &mut BitWriter, n: usize) -> Result<(), AllocError>
    requires { n < 2 ^ 14 }
    ensures ok { OnOk result (w.new ≡ then_written w.old (length_run n)) }
    ensures err { OnErr result (w.new ≡ w.old) }
{
    if n < 128 {
        w.write_padded_bits(n as u64, 8)
    } else {
        w.write_padded_bits(0x8000 + n as u64, 16)
    }
}

/// Writes an octet string of a fixed size above 2: padding and the octets (ITU-T X.691, Encoding the octetstring type).
/// Where memory runs out, nothing is written.
pub fn write_octets_fixed(w: &mut BitWriter, octets: &[u8]) -> Result<(), AllocError>
    requires { 2 < length octets.now }
    ensures ok { OnOk result (w.new ≡ then_written w.old (fixed_octets_run octets.now)) }
    ensures err { OnErr result (w.new ≡ w.old) }
{
    w.write_padded_octets(octets)
}

/// Puts the length of an octet string, and the octets.
fn put_octet_string(w: &mut BitWriter, octets: &[u8]) -> Result<(), AllocError>
    requires { length octets.now < 2 ^ 14 }
    ensures ok { OnOk result (w.new ≡ then_written w.old (octet_string_run octets.now)) }
    ensures kept { OnErr result (Keeps w.old w.new) }
{
    write_len(w, octets.len())?;
    w.write_padded_octets(octets)?;
    Ok(())
}

/// Writes an octet string of free size: its length and the octets (ITU-T X.691, Encoding the octetstring type).
/// Where memory runs out, nothing is written.
pub fn write_octet_string(w: &mut BitWriter, octets: &[u8]) -> Result<(), AllocError>
    requires { length octets.now < 2 ^ 14 }
    ensures ok { OnOk result (w.new ≡ then_written w.old (octet_string_run octets.now)) }
    ensures err { OnErr result (w.new ≡ w.old) }
{
    all_or_nothing(w, |w| put_octet_string(w, octets))
}

/// Writes a bit string of a fixed size of `n` bits, the number `v`: aligned above 16 bits (ITU-T X.691, Encoding the
/// bitstring type). Where memory runs out, nothing is written.
#[tactic(auto, unfolding(crate::specs::Run::fixed_bits_run))]
pub fn write_bits_fixed(w: &mut BitWriter, v: u64, n: u32) -> Result<(), AllocError>
    requires fits { v < 2 ^ n }
    requires some { 1 ≤ n }
    requires most { n ≤ 64 }
    ensures ok { OnOk result (w.new ≡ then_written w.old (fixed_bits_run n v)) }
    ensures err { OnErr result (w.new ≡ w.old) }
{
    if n > 16 {
        w.write_padded_bits(v, n)
    } else {
        w.write_bits(v, n)
    }
}

/// Writes a value of an enumeration of so many roots: with an extension mark one bit says whether the index is beyond
/// the roots, and such an index is a bit 0 and six bits (ITU-T X.691, Encoding the enumerated type). Where memory runs
/// out, nothing is written.
pub fn write_enum(
    w: &mut BitWriter,
    roots: u32,
    extensible: bool,
    v: EnumValue,
) -> Result<(), AllocError>
    requires some { 1 ≤ roots }
    requires most { roots ≤ 64 }
    requires value { IsEnumValue roots extensible v }
    ensures ok { OnOk result (w.new ≡ then_written w.old (enumerated_run roots extensible v)) }
    ensures err { OnErr result (w.new ≡ w.old) }
{
    let index = u64::from(v.index);
    if v.extended {
        // the bits 1 and 0 before six bits of the index
        return w.write_bits(0b1000_0000 + index, 8);
    }
    let index_width = width(u64::from(roots - 1));
    if extensible {
        // the extension bit 0 before the index
        w.write_bits(index, 1 + index_width)
    } else {
        w.write_bits(index, index_width)
    }
}

/// Writes an open type: the count of its octets, and the octets of a body, or one octet of zeros for an empty body
/// (ITU-T X.691, Open type fields). Where memory runs out, nothing is written.
pub fn write_open(w: &mut BitWriter, body: &BitWriter) -> Result<(), AllocError>
    requires { length (content_of body.now) < 8 * 2 ^ 14 }
    ensures ok { OnOk result (w.new ≡ then_written w.old (open_run body.now)) }
    ensures err { OnErr result (w.new ≡ w.old) }
{
    let octets = body.bytes();
    if octets.is_empty() {
        write_octet_string(w, &[0])
    } else {
        write_octet_string(w, octets)
    }
}

/// Writes the octet that stands before what an open type contains, up to `end_open`, and says where that begins: the content is
/// written behind it, in the same octets. Where memory runs out, nothing is written.
pub fn begin_open(w: &mut BitWriter) -> Result<Mark, AllocError>
    ensures ok { OnOk result (w.new ≡ then_written w.old (length_run 0)) }
    ensures place { IfOk result (λ start. start ≡ length w.new) }
    ensures whole { IfOk result (λ start. start % 8 ≡ 0) }
    ensures room { IfOk result (λ start. 8 ≤ start) }
    ensures err { OnErr result (w.new ≡ w.old) }
{
    write_len(w, 0)?;
    Ok(w.mark())
}

/// Makes an open type of what was written behind a place that `begin_open` gave: the octet before it becomes the count of its octets, one
/// more is put there where the count needs two (ITU-T X.691, Open type fields). Where memory runs out, nothing is changed.
pub fn end_open(w: &mut BitWriter, start: Mark) -> Result<(), AllocError>
    requires whole { start % 8 ≡ 0 }
    requires room { 8 ≤ start }
    requires within { start ≤ length w.old }
    requires few { length (content_of (drop start w.old)) < 8 * 2 ^ 14 }
    ensures ok { OnOk result (w.new ≡ then_written (take (start - 8) w.old) (open_run (drop start w.old))) }
    ensures err { OnErr result (w.new ≡ w.old) }
{
    w.put_count(start)
}
