//! Lists of one E-RAB, read from their octets and written as them.

ghost use Rattle.std.specs.Prelude.{◌≡◌, ◌+◌, ◌<◌, ◌≤◌, ◌∷◌, [], ◌++◌, IfSome, OnOk, is_some, option_map, length, if◌then◌else◌};
ghost use Rattle.s1ap_ies.specs.Run.{IsErabDone, IsErabToSetup, IsNas};
ghost use Rattle.protocol_ies.specs.Criticalities.{criticality_number};
ghost use Rattle.s1ap_pdu.specs.declared.value.IeValue.TheVariants as value;
ghost use Rattle.aper_octets.specs.Octets.{ie_octets};
ghost use Rattle.s1ap_messages.specs.Usual.{nas_octets, done_octets, setup_octets};
ghost use Rattle.s1ap_messages.specs.Lent.{erab_of};

use crate::usual::fields::Field;
use crate::usual::strings::{Nas, own};
use aper_octets::{count_len, counted_len, four, ie, octets_of, one, put_counted, put_ie};
use device_types::ListOf;
use s1ap_ies::{Criticality, ErabDone, ErabToSetup, names};
use std::alloc::{AllocError, Global};

/// An E-RAB that is to be set up (TS 36.413, 9.1.4.1), as it lies in a message.
#[derive(Clone, Copy)]
pub struct LentErab<'a> {
    id: u8,
    qci: u8,
    arp: u8,
    address: u32,
    teid: u32,
    nas: Option<&'a [u8]>,
}

/// The one item of a list, where all of the octets are such a list.
#[inline(always)]
fn item(octets: &[u8], id: u16, criticality: Criticality) -> Option<&[u8]>
    ensures { IfSome result (λ x. octets.now ≡ 0 ∷ ie_octets id (criticality_number criticality) x.now) }
{
    let (count, items) = one(octets)?;
    let (item, more) = ie(items, id, criticality)?;
    if count != 0 || !more.is_empty() {
        return None;
    }
    Some(item)
}

/// A list of one, or None for want of memory.
#[inline(always)]
pub fn list_of<T: Drop>(alloc: Global, item: T) -> Option<ListOf<T>>
    ensures { IfSome result (λ list. list ≡ item ∷ []) }
{
    let mut list = ListOf::new(alloc);
    match list.push(item) {
        Ok(()) => Some(list),
        Err(_) => None,
    }
}

/// An E-RAB that was set up, where all of the octets are it.
#[inline(always)]
#[tactic(auto, unfolding(crate::specs::Usual::done_octets))]
fn done(octets: &[u8]) -> Option<ErabDone>
    ensures octets { IfSome result (λ erab. octets.now ≡ done_octets erab) }
    ensures right { IfSome result (λ erab. IsErabDone erab) }
{
    let [id, 31, a, b, c, d, t, u, v, w] = octets else {
        return None;
    };
    if *id >= 32 || *id % 2 != 0 {
        return None;
    }
    Some(ErabDone {
        id: *id / 2,
        address: four(*a, *b, *c, *d),
        teid: four(*t, *u, *v, *w),
    })
}

/// A list of one E-RAB that was set up (TS 36.413, 9.1.4.3).
impl<'a> Field<'a> for ErabDone {
    ghost meaning = { λ v. value.Done (v ∷ []) };

    #[tactic(auto, unfolding(crate::specs::Usual::erabs_octets, crate::specs::Usual::items_octets, s1ap_ies::specs::Values::erab_done, s1ap_ies::specs::Values::erab_id, s1ap_ies::specs::Values::address))]
    fn read(octets: &'a [u8]) -> Option<ErabDone> {
        done(item(octets, names::ERAB_SETUP_ITEM, Criticality::Ignore)?)
    }

    #[tactic(auto, unfolding(aper_octets::specs::Octets::ie_octets, aper_octets::specs::Octets::counted, aper_octets::specs::Octets::count_octets, crate::specs::Usual::erabs_octets, crate::specs::Usual::items_octets, crate::specs::Usual::done_octets, aper_octets::specs::Octets::four_octets, s1ap_ies::specs::Values::erab_done, s1ap_ies::specs::Values::erab_id, s1ap_ies::specs::Values::address))]
    #[rattlefmt::skip]
    fn put(&self, out: &mut Vec<u8>, id: u16, criticality: Criticality) -> Result<(), AllocError> {
        let [a, b, c, d] = octets_of(self.address);
        let [t, u, v, w] = octets_of(self.teid);
        let item = names::ERAB_SETUP_ITEM as u8;
        let ignore = 64 * Criticality::Ignore.number();
        out.extend_from_slice(&[0, id as u8, 64 * criticality.number(), 15, 0, 0, item, ignore, 10, 2 * self.id, 31, a, b, c, d, t, u, v, w])
    }
}

/// The NAS-PDU of an E-RAB that has one, where all of the octets are it.
#[inline(always)]
#[tactic(auto, unfolding(crate::specs::Usual::nas_octets))]
fn nas(octets: &[u8], present: bool) -> Option<Option<&[u8]>>
    ensures octets { IfSome result (λ nas. octets.now ≡ nas_octets (option_map (λ o. o.now) nas)) }
    ensures right { IfSome result (λ nas. IfSome (option_map (λ o. o.now) nas) IsNas) }
    ensures present { IfSome result (λ nas. is_some nas ≡ present) }
{
    if present {
        let Nas(nas) = Nas::read(octets)?;
        return Some(Some(nas));
    }
    if octets.is_empty() { Some(None) } else { None }
}

/// An E-RAB that is to be set up, where all of the octets are it.
#[tactic(auto, unfolding(crate::specs::Usual::setup_octets))]
#[rattlefmt::skip]
fn setup(octets: &[u8]) -> Option<LentErab<'_>>
    ensures octets { IfSome result (λ v. octets.now ≡ setup_octets (erab_of v)) }
    ensures right { IfSome result (λ v. IsErabToSetup (erab_of v)) }
{
    let [head, 0, qci, arp, 15, 128, a, b, c, d, t, u, v, w, rest @ ..] = octets else {
        return None;
    };
    if *arp >= 64 || *head % 64 >= 16 || *head >= 128 {
        return None;
    }
    let nas = nas(rest, *head >= 64)?;
    Some(LentErab {
        id: *head % 64,
        qci: *qci,
        arp: *arp,
        address: four(*a, *b, *c, *d),
        teid: four(*t, *u, *v, *w),
        nas,
    })
}

/// How many octets the NAS-PDU of an E-RAB is.
#[inline(always)]
#[tactic(auto, unfolding(crate::specs::Usual::nas_octets))]
fn nas_len(nas: Option<&[u8]>) -> usize
    requires { IfSome (option_map (λ o. o.now) nas) IsNas }
    ensures len { result ≡ length (nas_octets (option_map (λ o. o.now) nas.entry)) }
    ensures few { result ≤ 2050 }
{
    match nas {
        Some(nas) => counted_len(nas),
        None => 0,
    }
}

/// Puts the NAS-PDU of an E-RAB that is to be set up, its length and its octets, where it has one; else nothing.
#[inline(always)]
#[tactic(auto, unfolding(crate::specs::Usual::nas_octets))]
fn put_nas(out: &mut Vec<u8>, nas: Option<&[u8]>) -> Result<(), AllocError>
    requires { IfSome (option_map (λ o. o.now) nas) IsNas }
    ensures { OnOk result (out.new.items ≡ out.old.items ++ nas_octets (option_map (λ o. o.now) nas.entry)) }
{
    match nas {
        Some(nas) => put_counted(out, nas),
        None => Ok(()),
    }
}

/// Puts the fields of an E-RAB that is to be set up.
#[tactic(auto, unfolding(crate::specs::Usual::setup_octets, aper_octets::specs::Octets::four_octets))]
fn put_setup(out: &mut Vec<u8>, erab: &LentErab) -> Result<(), AllocError>
    requires { IsErabToSetup (erab_of erab.now) }
    ensures { OnOk result (out.new.items ≡ out.old.items ++ setup_octets (erab_of erab.now)) }
{
    let [a, b, c, d] = octets_of(erab.address);
    let [t, u, v, w] = octets_of(erab.teid);
    let head = if erab.nas.is_some() {
        64 + erab.id
    } else {
        erab.id
    };
    out.extend_from_slice(&[head, 0, erab.qci, erab.arp, 15, 128, a, b, c, d, t, u, v, w])?;
    put_nas(out, erab.nas)
}

/// A list of one E-RAB that is to be set up.
impl<'a> Field<'a> for LentErab<'a> {
    ghost meaning = { λ v. value.Bearers (erab_of v ∷ []) };

    #[tactic(auto, unfolding(crate::specs::Usual::erabs_octets, crate::specs::Usual::items_octets, s1ap_ies::specs::Values::erab_to_setup, s1ap_ies::specs::Values::erab_id, s1ap_ies::specs::Values::qos, s1ap_ies::specs::Values::arp, s1ap_ies::specs::Values::address))]
    fn read(octets: &'a [u8]) -> Option<LentErab<'a>> {
        setup(item(octets, names::ERAB_TO_SETUP_ITEM, Criticality::Reject)?)
    }

    #[tactic(auto, unfolding(s1ap_ies::specs::Values::erab_to_setup, s1ap_ies::specs::Values::erab_id, s1ap_ies::specs::Values::qos, s1ap_ies::specs::Values::arp, s1ap_ies::specs::Values::address))]
    fn put(&self, out: &mut Vec<u8>, id: u16, criticality: Criticality) -> Result<(), AllocError> {
        let len = nas_len(self.nas) + 14;
        put_ie(out, id, criticality, count_len(len) + len + 4)?;
        out.extend_from_slice(&[0])?;
        put_ie(out, names::ERAB_TO_SETUP_ITEM, Criticality::Reject, len)?;
        put_setup(out, self)?;
        Ok(())
    }
}

impl<'a> LentErab<'a> {
    /// The E-RAB, lent.
    #[inline(always)]
    pub fn lend(erab: &'a ErabToSetup) -> LentErab<'a>
        ensures { erab_of result ≡ erab.now }
    {
        LentErab {
            id: erab.id,
            qci: erab.qci,
            arp: erab.arp,
            address: erab.address,
            teid: erab.teid,
            nas: erab.nas.as_ref().map(|nas| nas.items()),
        }
    }

    /// The E-RAB in memory of its own, or None for want of memory.
    #[inline(always)]
    pub fn own(self, alloc: Global) -> Option<ErabToSetup>
        ensures { IfSome result (λ erab. erab ≡ erab_of self.entry) }
    {
        let nas = match self.nas {
            Some(nas) => Some(own(alloc, nas)?),
            None => None,
        };
        Some(ErabToSetup {
            id: self.id,
            qci: self.qci,
            arp: self.arp,
            address: self.address,
            teid: self.teid,
            nas,
        })
    }
}
