//! Values of IEs, read from their octets and written as them.

ghost use Rattle.std.specs.Prelude.{◌≡◌, ◌^◌, ◌<◌, ◌++◌, OnOk};
ghost use Rattle.s1ap_ies.specs.declared.ue_ids.UeIds.TheVariants.{Pair};
ghost use Rattle.protocol_ies.specs.Criticalities.{criticality_number};
ghost use Rattle.s1ap_pdu.specs.declared.value.IeValue.TheVariants as value;
ghost use Rattle.aper_octets.specs.Octets.{number_octets, ie_octets};
ghost use Rattle.s1ap_messages.specs.Usual.{ids_octets};

use crate::usual::fields::Field;
use aper_fields::EnumValue;
use aper_octets::{
    caps_of, cgi_of, four, id, nas_cause, number, octets_in, octets_of, put_ie, put_number,
    radio_cause, stmsi_of, tai_of,
};
use s1ap_ies::{BitRates, Cause, Cgi, Criticality, SecCaps, Stmsi, Tai, names};
use std::alloc::AllocError;

/// An MME UE S1AP ID (TS 36.413, 9.2.3.3).
#[derive(Clone, Copy)]
pub struct MmeId(pub u32);

/// An eNB UE S1AP ID (TS 36.413, 9.2.3.4).
#[derive(Clone, Copy)]
pub struct EnbId(pub u32);

/// The UE S1AP IDs that are both identities (TS 36.413, 9.1.4.6).
#[derive(Clone, Copy)]
pub struct BothIds {
    /// MME UE S1AP ID.
    pub mme: u32,
    /// eNB UE S1AP ID.
    pub enb: u32,
}

/// Puts the IE of an identity: the count of its octets less one in the two highest bits of an octet, and the number in as few
/// octets as it needs.
#[inline(always)]
fn put_id(out: &mut Vec<u8>, id: u16, criticality: Criticality, n: u64) -> Result<(), AllocError>
    requires id { id < 256 }
    requires fits { n < 2 ^ 32 }
    ensures { OnOk result (out.new.items ≡ out.old.items ++ ie_octets id (criticality_number criticality) (number_octets 0 64 n)) }
{
    put_ie(out, id, criticality, octets_in(n) + 1)?;
    put_number(out, 0, 64, n)?;
    Ok(())
}

impl<'a> Field<'a> for MmeId {
    ghost meaning = { λ v. value.Mme v.0 };

    #[inline(always)]
    fn read(octets: &'a [u8]) -> Option<MmeId> {
        let (mme, more) = id(octets, 0, 64)?;
        if !more.is_empty() {
            return None;
        }
        Some(MmeId(mme))
    }

    #[inline(always)]
    fn put(&self, out: &mut Vec<u8>, id: u16, criticality: Criticality) -> Result<(), AllocError> {
        put_id(out, id, criticality, u64::from(self.0))
    }
}

impl<'a> Field<'a> for EnbId {
    ghost meaning = { λ v. value.Enb v.0 };

    #[inline(always)]
    fn read(octets: &'a [u8]) -> Option<EnbId> {
        let (enb, more) = id(octets, 0, 64)?;
        if !more.is_empty() || u64::from(enb) > names::MOST_ENB_UE_S1AP_ID {
            return None;
        }
        Some(EnbId(enb))
    }

    #[inline(always)]
    fn put(&self, out: &mut Vec<u8>, id: u16, criticality: Criticality) -> Result<(), AllocError> {
        put_id(out, id, criticality, u64::from(self.0))
    }
}

/// Puts the IE of both identities: each as the count of its octets less one and the number in as few octets as it needs, behind
/// the bits 00 of the choice and 00 of the SEQUENCE.
fn put_pair(
    out: &mut Vec<u8>,
    id: u16,
    criticality: Criticality,
    mme: u64,
    enb: u64,
) -> Result<(), AllocError>
    requires id { id < 256 }
    requires mme { mme < 2 ^ 32 }
    requires enb { enb < 2 ^ 32 }
    ensures { OnOk result (out.new.items ≡ out.old.items ++ ie_octets id (criticality_number criticality) (ids_octets (Pair mme enb))) }
{
    put_ie(out, id, criticality, octets_in(mme) + octets_in(enb) + 2)?;
    put_number(out, 0, 4, mme)?;
    put_number(out, 0, 64, enb)?;
    Ok(())
}

impl<'a> Field<'a> for BothIds {
    ghost meaning = { λ v. value.Ids (Pair v.mme v.enb) };

    #[inline(always)]
    #[tactic(auto, unfolding(crate::specs::Usual::ids_octets))]
    fn read(octets: &'a [u8]) -> Option<BothIds> {
        let (mme, more) = id(octets, 0, 4)?;
        let EnbId(enb) = EnbId::read(more)?;
        Some(BothIds { mme, enb })
    }

    fn put(&self, out: &mut Vec<u8>, id: u16, criticality: Criticality) -> Result<(), AllocError> {
        put_pair(
            out,
            id,
            criticality,
            u64::from(self.mme),
            u64::from(self.enb),
        )
    }
}

impl<'a> Field<'a> for Tai {
    ghost meaning = { value.Tai };

    #[inline(always)]
    fn read(octets: &'a [u8]) -> Option<Tai> {
        let [0, a, b, c, d, e] = octets else {
            return None;
        };
        Some(tai_of(*a, *b, *c, *d, *e))
    }

    /// An octet 00, which says that nothing optional is there, the PLMN identity in three octets, the tracking area code in two
    /// (TS 36.413, 9.2.3.16).
    #[inline(always)]
    #[tactic(auto, unfolding(aper_octets::specs::Octets::ie_octets, aper_octets::specs::Octets::counted, aper_octets::specs::Octets::count_octets, aper_octets::specs::Values::tai_octets))]
    fn put(&self, out: &mut Vec<u8>, id: u16, criticality: Criticality) -> Result<(), AllocError> {
        out.extend_from_slice(&[
            0,
            id as u8,
            64 * criticality.number(),
            6,
            0,
            (self.plmn / 65536) as u8,
            (self.plmn / 256 % 256) as u8,
            (self.plmn % 256) as u8,
            (self.tac / 256) as u8,
            (self.tac % 256) as u8,
        ])
    }
}

impl<'a> Field<'a> for Cgi {
    ghost meaning = { value.Cgi };

    #[inline(always)]
    fn read(octets: &'a [u8]) -> Option<Cgi> {
        let [0, a, b, c, d, e, f, g] = octets else {
            return None;
        };
        if *g % 16 != 0 {
            return None;
        }
        Some(cgi_of(*a, *b, *c, *d, *e, *f, *g))
    }

    /// An octet 00, the PLMN identity in three octets, the cell identity in 28 bits, and four bits 0 (TS 36.413, 9.2.1.38).
    #[inline(always)]
    #[tactic(auto, unfolding(aper_octets::specs::Octets::ie_octets, aper_octets::specs::Octets::counted, aper_octets::specs::Octets::count_octets, aper_octets::specs::Values::cgi_octets))]
    fn put(&self, out: &mut Vec<u8>, id: u16, criticality: Criticality) -> Result<(), AllocError> {
        out.extend_from_slice(&[
            0,
            id as u8,
            64 * criticality.number(),
            8,
            0,
            (self.plmn / 65536) as u8,
            (self.plmn / 256 % 256) as u8,
            (self.plmn % 256) as u8,
            (self.cell / 1048576) as u8,
            (self.cell / 4096 % 256) as u8,
            (self.cell / 16 % 256) as u8,
            (self.cell % 16 * 16) as u8,
        ])
    }
}

/// An RRC Establishment Cause (TS 36.413, 9.2.1.3a) in an octet.
impl<'a> Field<'a> for EnumValue {
    ghost meaning = { value.Rrc };

    /// It is read where it is one of the roots.
    #[inline(always)]
    #[tactic(auto, unfolding(crate::specs::Usual::rrc_octets))]
    fn read(octets: &'a [u8]) -> Option<EnumValue> {
        let [a] = octets else {
            return None;
        };
        if *a % 16 != 0 || u32::from(*a / 16) >= names::RRC_CAUSE_ROOTS {
            return None;
        }
        Some(EnumValue {
            extended: false,
            index: *a / 16,
        })
    }

    /// A bit 0 and the root's index in three bits, and bits 0; or the bits 10 and an index beyond the roots in six.
    #[inline(always)]
    #[tactic(auto, unfolding(aper_octets::specs::Octets::ie_octets, aper_octets::specs::Octets::counted, aper_octets::specs::Octets::count_octets, crate::specs::Usual::rrc_octets))]
    fn put(&self, out: &mut Vec<u8>, id: u16, criticality: Criticality) -> Result<(), AllocError> {
        let criticality = 64 * criticality.number();
        if self.extended {
            return out.extend_from_slice(&[0, id as u8, criticality, 1, 128 + self.index]);
        }
        out.extend_from_slice(&[0, id as u8, criticality, 1, 16 * self.index])
    }
}

impl<'a> Field<'a> for Stmsi {
    ghost meaning = { value.Stmsi };

    #[inline(always)]
    fn read(octets: &'a [u8]) -> Option<Stmsi> {
        let [h, m, a, b, c, d] = octets else {
            return None;
        };
        if *h >= 64 || *m % 64 != 0 {
            return None;
        }
        Some(stmsi_of(*h, *m, four(*a, *b, *c, *d)))
    }

    /// Two bits 0, the MME code in eight bits, bits 0 up to the next octet, and the M-TMSI in four octets (TS 36.413, 9.2.3.6).
    #[inline(always)]
    #[tactic(auto, unfolding(aper_octets::specs::Octets::ie_octets, aper_octets::specs::Octets::counted, aper_octets::specs::Octets::count_octets, aper_octets::specs::Values::stmsi_octets, aper_octets::specs::Octets::four_octets))]
    fn put(&self, out: &mut Vec<u8>, id: u16, criticality: Criticality) -> Result<(), AllocError> {
        let [a, b, c, d] = octets_of(self.tmsi);
        let code = self.mmec;
        let criticality = 64 * criticality.number();
        out.extend_from_slice(&[
            0,
            id as u8,
            criticality,
            6,
            code / 4,
            code % 4 * 64,
            a,
            b,
            c,
            d,
        ])
    }
}

impl<'a> Field<'a> for BitRates {
    ghost meaning = { value.Rates };

    #[inline(always)]
    #[tactic(auto, unfolding(crate::specs::Usual::rates_octets))]
    fn read(octets: &'a [u8]) -> Option<BitRates> {
        let (dl, up) = number(octets, 0, 8)?;
        let (ul, more) = number(up, 0, 32)?;
        if dl > names::MOST_BIT_RATE || ul > names::MOST_BIT_RATE || !more.is_empty() {
            return None;
        }
        Some(BitRates { dl, ul })
    }

    /// Downlink, then uplink, each as the count of its octets less one and the bit/s in as few octets as they need (TS 36.413,
    /// 9.2.1.20).
    #[inline(always)]
    fn put(&self, out: &mut Vec<u8>, id: u16, criticality: Criticality) -> Result<(), AllocError> {
        put_ie(
            out,
            id,
            criticality,
            octets_in(self.dl) + octets_in(self.ul) + 2,
        )?;
        put_number(out, 0, 8, self.dl)?;
        put_number(out, 0, 32, self.ul)?;
        Ok(())
    }
}

impl<'a> Field<'a> for SecCaps {
    ghost meaning = { value.Caps };

    #[inline(always)]
    fn read(octets: &'a [u8]) -> Option<SecCaps> {
        let [a, b, c, d, e] = octets else {
            return None;
        };
        if *a >= 32 || *c % 32 >= 16 || *e % 16 != 0 {
            return None;
        }
        Some(caps_of(*a, *b, *c, *d, *e))
    }

    /// Two bits 0, then twice a bit 0 and 16 bits of algorithms, encryption before integrity protection, and four bits 0
    /// (TS 36.413, 9.2.1.40).
    #[inline(always)]
    #[tactic(auto, unfolding(aper_octets::specs::Octets::ie_octets, aper_octets::specs::Octets::counted, aper_octets::specs::Octets::count_octets, aper_octets::specs::Values::caps_octets))]
    fn put(&self, out: &mut Vec<u8>, id: u16, criticality: Criticality) -> Result<(), AllocError> {
        out.extend_from_slice(&[
            0,
            id as u8,
            64 * criticality.number(),
            5,
            (self.eea / 2048) as u8,
            (self.eea / 8 % 256) as u8,
            (self.eea % 8 * 32 + self.eia / 4096) as u8,
            (self.eia / 16 % 256) as u8,
            (self.eia % 16 * 16) as u8,
        ])
    }
}

/// A Cause (TS 36.413, 9.2.1.3) in one octet or two.
impl<'a> Field<'a> for Cause {
    ghost meaning = { value.Cause };

    /// It is read where it is a root of those of the radio network or of NAS.
    #[inline(always)]
    fn read(octets: &'a [u8]) -> Option<Cause> {
        match octets {
            [a] => nas_cause(*a),
            [a, b] => radio_cause(*a, *b),
            _ => None,
        }
    }

    /// A bit 0 and the group in three bits, then a bit 0 and the root's index in as many bits as the group's roots need, or the
    /// bits 10 and an index beyond them in six; bits 0 at the end.
    #[tactic(auto, unfolding(aper_octets::specs::Octets::ie_octets, aper_octets::specs::Octets::counted, aper_octets::specs::Octets::count_octets, aper_octets::specs::Values::cause_octets, device_types::specs::Cause::cause_roots))]
    fn put(&self, out: &mut Vec<u8>, id: u16, criticality: Criticality) -> Result<(), AllocError> {
        let id = id as u8;
        let criticality = 64 * criticality.number();
        let (group, i) = (16 * self.group, self.index);
        if self.extended {
            return out.extend_from_slice(&[0, id, criticality, 2, group + 8 + i / 16, i % 16 * 16]);
        }
        match self.group {
            0 => out.extend_from_slice(&[0, id, criticality, 2, i / 8, i % 8 * 32]),
            1 => out.extend_from_slice(&[0, id, criticality, 1, 16 + 4 * i]),
            2 => out.extend_from_slice(&[0, id, criticality, 1, 32 + 2 * i]),
            _ => out.extend_from_slice(&[0, id, criticality, 1, group + i]),
        }
    }
}
