//! Reading the pieces: each function moves the reader behind what it read, and leaves it where it was after a
//! refusal, which says why and at which octet of the PDU.

ghost use Rattle.std.specs.Prelude.{◌≡◌, ◌+◌, ◌-◌, ◌*◌, ◌^◌, ◌<◌, ◌≤◌, IfOk, OnOk, length, true, false};
ghost use Rattle.aper_fields.specs.Bits.{gap};
ghost use Rattle.aper_fields.specs.Reading.{Gives, GivesBy, width, within_at, counted_at, number_at, length_octets_at, length_at, fixed_octets_at, octet_string_at, fixed_bits_at, root_at, extended_at, enumerated_at, open_at, end_at, empty_at, close_at};
ghost use Rattle.aper_fields.specs.Spelling.{IsEnumValue};
ghost use Rattle.aper_fields.specs.Format.{ReadsExactly, ReadsExactlyBy, length_in, fixed_octets_in, octet_string_in, fixed_bits_in, enumerated_in, open_in, EndsExactly, ClosesExactly};

use crate::enumerated::EnumValue;
use crate::reader::BitReader;
use crate::width::width;
use echo_base::{Reason, Refusal};

/// `low` and a number of `count` bits, which is at most `top`.
#[tactic(auto, unfolding(crate::specs::Reading::within_at))]
#[inline(always)]
fn read_within(r: &mut BitReader, low: u64, top: u64, count: u32) -> Result<u64, Refusal>
    requires fits { low + top < 2 ^ 63 }
    requires small { count ≤ 64 }
    ensures read { Gives result r.old r.new (within_at low top count r.old) }
    ensures within { IfOk result (λ v. (low ≤ v) × (v ≤ low + top)) }
{
    let mut ahead = r.ahead();
    let value = ahead.read_bits(count)?;
    if value > top {
        return Err(r.refusal(Reason::OutOfRange));
    }
    *r = ahead;
    Ok(low + value)
}

/// The count of a number's octets, padding, and the least number of octets.
#[tactic(auto, unfolding(crate::specs::Reading::counted_at))]
fn read_counted(r: &mut BitReader, low: u64, top: u64, most: u32) -> Result<u64, Refusal>
    requires fits { low + top < 2 ^ 63 }
    requires some { 1 ≤ most }
    requires small { most ≤ 8 }
    ensures read { Gives result r.old r.new (counted_at low top most r.old) }
    ensures within { IfOk result (λ v. (low ≤ v) × (v ≤ low + top)) }
{
    let mut ahead = r.ahead();
    let more = u64::from(most - 1);
    let count = read_within(&mut ahead, 1, more, width(more))?;
    ahead.align()?;
    let start = ahead.ahead();
    let value = ahead.read_bits(8 * count as u32)?;
    let first = start.ahead().read_bits(8)?;
    if count > 1 && first == 0 {
        return Err(start.refusal(Reason::NotMinimal));
    }
    if value > top {
        return Err(start.refusal(Reason::OutOfRange));
    }
    *r = ahead;
    Ok(low + value)
}

/// A whole number from `low` to `low + top`.
#[tactic(auto, unfolding(crate::specs::Reading::number_at))]
#[inline(always)]
pub(crate) fn read_number(r: &mut BitReader, low: u64, top: u64) -> Result<u64, Refusal>
    requires { low + top < 2 ^ 63 }
    ensures read { Gives result r.old r.new (number_at low top r.old) }
    ensures within { IfOk result (λ v. (low ≤ v) × (v ≤ low + top)) }
{
    if top == 0 {
        return Ok(low);
    }
    if top < 255 {
        return read_within(r, low, top, width(top));
    }
    if top < 65536 {
        let mut ahead = r.ahead();
        ahead.align()?;
        let value = read_within(&mut ahead, low, top, if top == 255 { 8 } else { 16 })?;
        *r = ahead;
        return Ok(value);
    }
    read_counted(r, low, top, width(top).div_ceil(8))
}

/// A length at the start of an octet: one octet below 128, else two that begin with the bits 10.
#[tactic(auto, unfolding(crate::specs::Reading::length_octets_at))]
#[inline(always)]
fn length_octets(r: &mut BitReader) -> Result<usize, Refusal>
    ensures read { Gives result r.old r.new (length_octets_at r.old) }
    ensures small { IfOk result (λ n. n < 2 ^ 14) }
    ensures aligned { gap r.old.offset ≡ 0 → OnOk result (gap r.new.offset ≡ 0) }
{
    let mut ahead = r.ahead();
    if ahead.read_bits(1)? == 0 {
        let length = ahead.read_bits(7)?;
        *r = ahead;
        return Ok(length as usize);
    }
    if ahead.read_bits(1)? == 1 {
        return Err(ahead.refusal(Reason::TooLong));
    }
    let start = ahead.ahead();
    let length = ahead.read_bits(14)?;
    if length < 128 {
        return Err(start.refusal(Reason::LongLength));
    }
    *r = ahead;
    Ok(length as usize)
}

/// Reads a general length (ITU-T X.691, General rules for encoding a length determinant): padding, and one octet
/// below 128, else two that begin with the bits 10. Truncated, NonZeroPadding, LongLength where two octets hold
/// less than 128, and TooLong from 16,384 on.
#[tactic(auto, unfolding(crate::specs::Reading::length_at))]
pub fn read_len(r: &mut BitReader) -> Result<usize, Refusal>
    ensures read { Gives result r.old r.new (length_at r.old) }
    ensures exact { ReadsExactly length_in result r.old r.new }
    ensures small { IfOk result (λ n. n < 2 ^ 14) }
{
    let mut ahead = r.ahead();
    ahead.align()?;
    let length = length_octets(&mut ahead)?;
    *r = ahead;
    Ok(length)
}

/// Reads an octet string of the fixed size `n` above 2 (ITU-T X.691, Encoding the octetstring type): padding and
/// the octets. NonZeroPadding; Truncated at the padding, or at the string's first octet where its octets do not fit.
#[tactic(auto, unfolding(crate::specs::Reading::fixed_octets_at))]
#[inline(always)]
pub fn read_octets_fixed<'a>(r: &mut BitReader<'a>, n: usize) -> Result<&'a [u8], Refusal>
    requires { 2 < n }
    ensures read { GivesBy (λ x. x.now) result r.old r.new (fixed_octets_at n r.old) }
    ensures exact { ReadsExactlyBy (λ x. x.now) (fixed_octets_in n) result r.old r.new }
    ensures len { IfOk result (λ octets. length octets.now ≡ n) }
{
    let mut ahead = r.ahead();
    ahead.align()?;
    let start = ahead.ahead();
    let octets = ahead.read_octets(&start, n)?;
    *r = ahead;
    Ok(octets)
}

/// Reads an octet string of free size (ITU-T X.691, Encoding the octetstring type): its length and the octets. It
/// is refused as a length is, and its length is TooLong above `most`, and Truncated where the octets do not fit.
#[tactic(auto, unfolding(crate::specs::Reading::octet_string_at))]
#[inline(always)]
pub fn read_octet_string<'a>(r: &mut BitReader<'a>, most: usize) -> Result<&'a [u8], Refusal>
    ensures read { GivesBy (λ x. x.now) result r.old r.new (octet_string_at most r.old) }
    ensures exact { ReadsExactlyBy (λ x. x.now) (octet_string_in most) result r.old r.new }
    ensures len { IfOk result (λ octets. (length octets.now ≤ most) × (length octets.now < 2 ^ 14)) }
{
    let mut ahead = r.ahead();
    ahead.align()?;
    let start = ahead.ahead();
    let length = length_octets(&mut ahead)?;
    if length > most {
        return Err(start.refusal(Reason::TooLong));
    }
    let octets = ahead.read_octets(&start, length)?;
    *r = ahead;
    Ok(octets)
}

/// Reads a bit string of the fixed size `n` (ITU-T X.691, Encoding the bitstring type), the first bit highest:
/// padding above 16 bits, and the bits. NonZeroPadding, or Truncated.
#[tactic(auto, unfolding(crate::specs::Reading::fixed_bits_at))]
#[inline(always)]
pub fn read_bits_fixed(r: &mut BitReader, n: u32) -> Result<u64, Refusal>
    requires some { 1 ≤ n }
    requires most { n ≤ 64 }
    ensures read { Gives result r.old r.new (fixed_bits_at n r.old) }
    ensures exact { ReadsExactly (fixed_bits_in n) result r.old r.new }
    ensures fits { IfOk result (λ v. v < 2 ^ n) }
{
    if n <= 16 {
        return r.read_bits(n);
    }
    let mut ahead = r.ahead();
    ahead.align()?;
    let value = ahead.read_bits(n)?;
    *r = ahead;
    Ok(value)
}

/// A root of an ENUMERATED of `roots` roots: its index, as a number from 0 to `roots - 1` (ITU-T X.691, Encoding the
/// enumerated type).
#[inline(always)]
fn read_root(r: &mut BitReader, roots: u32) -> Result<EnumValue, Refusal>
    requires some { 1 ≤ roots }
    requires most { roots ≤ 64 }
    ensures read { Gives result r.old r.new (root_at roots r.old) }
    ensures root { IfOk result (λ v. (v.extended ≡ false) × (v.index < roots)) }
{
    let index = read_number(r, 0, u64::from(roots - 1))?;
    Ok(EnumValue {
        extended: false,
        index: index as u8,
    })
}

/// An index behind the extension bit: a bit 0 and six bits.
fn read_extended(r: &mut BitReader) -> Result<EnumValue, Refusal>
    ensures read { Gives result r.old r.new (extended_at r.old) }
    ensures beyond { IfOk result (λ v. (v.extended ≡ true) × (v.index < 64)) }
{
    let mut ahead = r.ahead();
    if ahead.read_bits(1)? == 1 {
        return Err(r.refusal(Reason::OutOfRange));
    }
    let index = ahead.read_bits(6)?;
    *r = ahead;
    Ok(EnumValue {
        extended: true,
        index: index as u8,
    })
}

/// Reads a value of an enumeration of so many roots (ITU-T X.691, Encoding the enumerated type), with an extension
/// mark or without: the extension bit, and the index of a root as a whole number, or a bit 0 and six bits.
/// Truncated, or OutOfRange where the index is beyond the roots, or not one below 64 behind the extension bit.
#[tactic(auto, unfolding(crate::specs::Reading::enumerated_at))]
#[inline(always)]
pub fn read_enum(r: &mut BitReader, roots: u32, extensible: bool) -> Result<EnumValue, Refusal>
    requires some { 1 ≤ roots }
    requires most { roots ≤ 64 }
    ensures read { Gives result r.old r.new (enumerated_at roots extensible r.old) }
    ensures exact { ReadsExactly (enumerated_in roots extensible) result r.old r.new }
    ensures fits { IfOk result (IsEnumValue roots extensible) }
{
    if !extensible {
        return read_root(r, roots);
    }
    let mut ahead = r.ahead();
    let value = if ahead.read_bits(1)? == 0 {
        read_root(&mut ahead, roots)?
    } else {
        read_extended(&mut ahead)?
    };
    *r = ahead;
    Ok(value)
}

/// Reads an open type (ITU-T X.691, Open type fields): its length, and the octets as a container of their own. It
/// is refused as a length is, and its length is Truncated where the octets do not fit.
#[tactic(auto, unfolding(crate::specs::Reading::open_at, crate::specs::Reading::content_at))]
#[inline(always)]
pub fn read_open<'a>(r: &mut BitReader<'a>) -> Result<BitReader<'a>, Refusal>
    ensures read { Gives result r.old r.new (open_at r.old) }
    ensures exact { ReadsExactly open_in result r.old r.new }
{
    let mut ahead = r.ahead();
    ahead.align()?;
    let start = ahead.ahead();
    let length = length_octets(&mut ahead)?;
    if !ahead.has_octets(length) {
        return Err(start.refusal(Reason::Truncated));
    }
    let inside = ahead.split(length);
    *r = ahead;
    Ok(inside)
}

/// The end of a container: zeros up to the next octet, else NonZeroPadding, and nothing more, else TrailingBytes.
#[tactic(auto, unfolding(crate::specs::Reading::end_at))]
#[inline(always)]
pub fn end(r: &BitReader) -> Result<(), Refusal>
    ensures read { Gives result r.now r.now (end_at r.now) }
    ensures exact { EndsExactly result r.now }
{
    let mut ahead = r.ahead();
    ahead.align()?;
    if !ahead.is_empty() {
        return Err(ahead.refusal(Reason::TrailingBytes));
    }
    Ok(())
}

/// The octet 00 that a value of no bits has in a container (ITU-T X.691, Complete encoding): Truncated, or NonZeroPadding.
#[tactic(auto, unfolding(crate::specs::Reading::empty_at))]
fn skip_empty(r: &mut BitReader) -> Result<u64, Refusal>
    ensures { Gives result r.old r.new (empty_at r.old) }
{
    let mut ahead = r.ahead();
    let octet = ahead.read_bits(8)?;
    if octet != 0 {
        return Err(r.refusal(Reason::NonZeroPadding));
    }
    *r = ahead;
    Ok(octet)
}

/// The end of a container behind what was read of it, as `end` gives it. A value of no bits has an octet of zeros in its
/// place (ITU-T X.691, Complete encoding), so where nothing was read that octet is passed over first: Truncated, or
/// NonZeroPadding.
#[tactic(auto, unfolding(crate::specs::Reading::close_at))]
pub fn close(content: &BitReader, r: &BitReader) -> Result<(), Refusal>
    ensures read { result ≡ close_at content.now r.now }
    ensures exact { ClosesExactly result content.now r.now }
{
    if r.is_at(content) {
        let mut ahead = r.ahead();
        skip_empty(&mut ahead)?;
        end(&ahead)?;
        return Ok(());
    }
    end(r)?;
    Ok(())
}
