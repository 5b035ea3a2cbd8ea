//! Octet strings in IEs, read from their octets and written as them.

ghost use Rattle.std.specs.Prelude.{◌≡◌, ◌<◌, ◌≤◌, ◌++◌, IfSome, OnOk, length};
ghost use Rattle.protocol_ies.specs.Criticalities.{criticality_number};
ghost use Rattle.s1ap_pdu.specs.declared.value.IeValue.TheVariants as value;
ghost use Rattle.aper_octets.specs.Octets.{counted, ie_octets};

use crate::usual::fields::Field;
use aper_octets::{counted, counted_len, put_counted, put_ie};
use device_types::Octets;
use s1ap_ies::{Criticality, names};
use std::alloc::{AllocError, Global};

/// A NAS-PDU (TS 36.413, 9.2.3.5), without its length.
#[derive(Clone, Copy)]
pub struct Nas<'a>(pub &'a [u8]);

/// A UE Radio Capability (TS 36.413, 9.2.1.27), without its length.
#[derive(Clone, Copy)]
pub struct Radio<'a>(pub &'a [u8]);

/// A Security Key (TS 36.413, 9.2.1.41), 32 octets.
#[derive(Clone, Copy)]
pub struct Key<'a>(pub &'a [u8]);

/// An octet string behind its length, where all of the octets are it.
#[inline(always)]
pub fn text(octets: &[u8]) -> Option<&[u8]>
    ensures octets { IfSome result (λ text. octets.now ≡ counted text.now) }
    ensures few { IfSome result (λ text. length text.now < 16384) }
{
    let (text, more) = counted(octets)?;
    if !more.is_empty() {
        return None;
    }
    Some(text)
}

/// Puts the IE of an OCTET STRING: the string's length, and its octets.
#[inline(always)]
fn put_text(
    out: &mut Vec<u8>,
    id: u16,
    criticality: Criticality,
    text: &[u8],
) -> Result<(), AllocError>
    requires id { id < 256 }
    requires few { length text.now ≤ 16000 }
    ensures { OnOk result (out.new.items ≡ out.old.items ++ ie_octets id (criticality_number criticality) (counted text.now)) }
{
    put_ie(out, id, criticality, counted_len(text))?;
    put_counted(out, text)?;
    Ok(())
}

impl<'a> Field<'a> for Nas<'a> {
    ghost meaning = { λ v. value.Nas v.0.now };

    #[inline(always)]
    fn read(octets: &'a [u8]) -> Option<Nas<'a>> {
        let nas = text(octets)?;
        if nas.len() > names::MOST_OCTETS_OF_NAS {
            return None;
        }
        Some(Nas(nas))
    }

    #[inline(always)]
    fn put(&self, out: &mut Vec<u8>, id: u16, criticality: Criticality) -> Result<(), AllocError> {
        put_text(out, id, criticality, self.0)
    }
}

impl<'a> Field<'a> for Radio<'a> {
    ghost meaning = { λ v. value.Radio v.0.now };

    #[inline(always)]
    fn read(octets: &'a [u8]) -> Option<Radio<'a>> {
        Some(Radio(text(octets)?))
    }

    #[inline(always)]
    fn put(&self, out: &mut Vec<u8>, id: u16, criticality: Criticality) -> Result<(), AllocError> {
        put_text(out, id, criticality, self.0)
    }
}

impl<'a> Field<'a> for Key<'a> {
    ghost meaning = { λ v. value.Key v.0.now };

    #[inline(always)]
    fn read(octets: &'a [u8]) -> Option<Key<'a>> {
        if octets.len() != names::SECURITY_KEY_OCTETS {
            return None;
        }
        Some(Key(octets))
    }

    #[inline(always)]
    #[tactic(auto, unfolding(aper_octets::specs::Octets::ie_octets, aper_octets::specs::Octets::counted))]
    fn put(&self, out: &mut Vec<u8>, id: u16, criticality: Criticality) -> Result<(), AllocError> {
        let key = self.0;
        put_ie(out, id, criticality, key.len())?;
        out.extend_from_slice(key)
    }
}

/// Octets in memory of their own, or None for want of memory.
#[inline(always)]
pub fn own(alloc: Global, octets: &[u8]) -> Option<Octets>
    ensures { IfSome result (λ o. o ≡ octets.now) }
{
    match Vec::from_slice(alloc, octets) {
        Ok(octets) => Some(Octets::from(octets)),
        Err(_) => None,
    }
}
