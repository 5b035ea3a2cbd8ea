//! Pieces that begin at an octet, written one behind another.

ghost use Rattle.std.specs.Prelude.{◌≡◌, ◌+◌, ◌-◌, ◌*◌, ◌<◌, ◌≤◌, ◌∷◌, ◌++◌, IfNone, IfOk, IfSome, OnOk, length, take, drop};
ghost use Rattle.protocol_ies.specs.Criticalities.{criticality_number};
ghost use Rattle.aper_octets.specs.Octets.{count_octets, counted, least_octets, number_octets};

use device_types::Octets;
use s1ap_ies::Criticality;
use std::alloc::AllocError;

/// Puts a length (ITU-T X.691, 11.9): an octet where it is below 128, else two that begin with the bits 10.
#[inline(always)]
#[tactic(auto, unfolding(crate::specs::Octets::count_octets))]
fn put_count(out: &mut Vec<u8>, n: usize) -> Result<(), AllocError>
    requires { n < 16384 }
    ensures { OnOk result (out.new.items ≡ out.old.items ++ count_octets n) }
{
    if n < 128 {
        return out.extend_from_slice(&[n as u8]);
    }
    out.extend_from_slice(&[(128 + n / 256) as u8, (n % 256) as u8])
}

/// How many octets a length is.
#[inline(always)]
#[tactic(auto, unfolding(crate::specs::Octets::count_octets))]
pub fn count_len(n: usize) -> usize
    ensures len { result ≡ length (count_octets n) }
    ensures few { result ≤ 2 }
{
    if n < 128 { 1 } else { 2 }
}

/// How many octets those are with their length before them.
#[inline(always)]
#[tactic(auto, using(crate::proofs::Lengths::counted_length))]
pub fn counted_len(octets: &[u8]) -> usize
    requires { length octets.now < 16384 }
    ensures len { result ≡ length (counted octets.now) }
    ensures few { result ≤ length octets.now + 2 }
{
    count_len(octets.len()) + octets.len()
}

/// Puts an OCTET STRING of free size (ITU-T X.691, 17): its length, and its octets.
#[inline(always)]
#[tactic(auto, unfolding(crate::specs::Octets::counted))]
pub fn put_counted(out: &mut Vec<u8>, octets: &[u8]) -> Result<(), AllocError>
    requires { length octets.now < 16384 }
    ensures { OnOk result (out.new.items ≡ out.old.items ++ counted octets.now) }
{
    put_count(out, octets.len())?;
    out.extend_from_slice(octets)
}

/// Puts what stands before the content of an IE, or of an item of a list.
#[inline(always)]
#[tactic(auto, unfolding(crate::specs::Octets::count_octets))]
pub fn put_ie(
    out: &mut Vec<u8>,
    id: u16,
    criticality: Criticality,
    len: usize,
) -> Result<(), AllocError>
    requires id { id < 256 }
    requires len { len < 16384 }
    ensures { OnOk result (out.new.items ≡ out.old.items ++ 0 ∷ id ∷ 64 * criticality_number criticality ∷ count_octets len) }
{
    let criticality = 64 * criticality.number();
    if len < 128 {
        return out.extend_from_slice(&[0, id as u8, criticality, len as u8]);
    }
    let (high, low) = ((128 + len / 256) as u8, (len % 256) as u8);
    out.extend_from_slice(&[0, id as u8, criticality, high, low])
}

/// How many octets a number needs.
#[inline(always)]
#[tactic(auto, unfolding(crate::specs::Octets::least_octets))]
pub fn octets_in(n: u64) -> usize
    ensures count { result ≡ length (least_octets n) }
    ensures some { 1 ≤ result }
    ensures five { result ≤ 5 }
    ensures four { n < 4294967296 → result ≤ 4 }
{
    if n < 256 {
        1
    } else if n < 65536 {
        2
    } else if n < 16777216 {
        3
    } else if n < 4294967296 {
        4
    } else {
        5
    }
}

/// Puts a number in its least octets.
#[tactic(auto, using(crate::proofs::Numbers::least_one, crate::proofs::Numbers::put_last))]
fn put_least(out: &mut Vec<u8>, n: u64) -> Result<(), AllocError>
    requires { n < 1099511627776 }
    ensures { OnOk result (out.new.items ≡ out.old.items ++ least_octets n) }
{
    if n < 256 {
        return out.extend_from_slice(&[n as u8]);
    }
    put_least(out, n / 256)?;
    out.extend_from_slice(&[(n % 256) as u8])?;
    Ok(())
}

/// Puts a number behind the octet with the count of its octets less one. In that octet the count counts in units, and some bits
/// stand before it.
#[inline(always)]
#[tactic(auto, unfolding(crate::specs::Octets::number_octets), using(crate::proofs::Numbers::least_one))]
pub fn put_number(out: &mut Vec<u8>, before: u8, unit: u8, n: u64) -> Result<(), AllocError>
    requires fits { n < 1099511627776 }
    requires room { before + unit * (length (least_octets n) - 1) ≤ 255 }
    ensures { OnOk result (out.new.items ≡ out.old.items ++ number_octets before unit n) }
{
    if n < 256 {
        return out.extend_from_slice(&[before, n as u8]);
    }
    out.extend_from_slice(&[before + unit * (octets_in(n) - 1) as u8])?;
    put_least(out, n)
}

/// Puts, in place of the fourth octet, the length of what stands behind it; None where there are not four octets, or where it is
/// too long for two octets.
#[tactic(auto, using(crate::proofs::Lengths::short_body, crate::proofs::Lengths::long_body))]
pub fn finish(out: Vec<u8>) -> Result<Option<Octets>, AllocError>
    ensures octets { IfOk result (λ found. IfSome found (λ o. o ≡ take 3 out.items ++ counted (drop 4 out.items))) }
    ensures few { IfOk result (λ found. IfSome found (λ o. (4 ≤ length out.items) × (length out.items < 16388))) }
    ensures none { IfOk result (λ found. IfNone found (4 ≤ length out.items → 16388 ≤ length out.items)) }
{
    let mut out = out;
    if out.len() < 4 || out.len() >= 16388 {
        return Ok(None);
    }
    let count = out.len() - 4;
    if count < 128 {
        out[3] = count as u8;
        return Ok(Some(Octets::from(out)));
    }
    out[3] = (128 + count / 256) as u8;
    match out.insert(4, (count % 256) as u8) {
        Ok(()) => Ok(Some(Octets::from(out))),
        Err(_) => Err(AllocError),
    }
}
