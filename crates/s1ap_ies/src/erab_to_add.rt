//! E-RABs that are added to a context.

ghost use Rattle.std.specs.Prelude.{◌≡◌, OnOk, OnErr};
ghost use Rattle.echo_base.specs.Reading.{GivesBy};
ghost use Rattle.aper_fields.specs.Asn1.{reading};
ghost use Rattle.s1ap_ies.specs.Values.{erab_to_add};
ghost use Rattle.s1ap_ies.specs.Lent.{added_of};

use crate::bearer::{Bearer, Qos};
use crate::names::MOST_OCTETS_OF_NAS;
use aper_fields::{
    BitReader, BitWriter, read_octet_string, read_present, read_zero_bit, skip_extensions,
    write_bits_fixed, write_octet_string,
};
use aper_types::OwnedValue;
use device_types::Octets;
use echo_base::{Bad, OutOfMemory, Reason, Refusal};
use protocol_ies::Item;
use std::alloc::Global;

/// An E-RAB that is added to a context: the item of a request (TS 36.413, 9.1.3.1).
#[derive(Debug, Drop)]
pub struct ErabToAdd {
    /// The E-RAB ID, below 16.
    pub id: u8,
    /// QoS class identifier.
    pub qci: u8,
    /// Allocation and retention priority, below 64: four bits of priority, the highest, one of capability, one of vulnerability.
    pub arp: u8,
    /// The IPv4 address of the serving gateway, four octets as one number, the first octet highest.
    pub address: u32,
    /// The tunnel endpoint identifier of the serving gateway (9.2.2.2), four octets as one number, the first octet highest.
    pub teid: u32,
    /// A NAS-PDU for the device, of at most 2,048 octets.
    pub nas: Octets,
}

/// The fields, with the NAS-PDU where it lies in what is read.
#[derive(Drop)]
struct Parts<'a> {
    bearer: Bearer,
    nas: &'a [u8],
}

/// Reads the fields, and passes over the iE-Extensions.
#[tactic(auto, unfolding(aper_fields::specs::Asn1::reading, aper_fields::specs::Asn1::flags_at, aper_fields::specs::Asn1::fields_at, crate::specs::Values::erab_to_add))]
fn read_parts<'a>(r: &mut BitReader<'a>) -> Result<Parts<'a>, Refusal>
    ensures { GivesBy added_of result r.old r.new (reading erab_to_add r.old) }
{
    let mut ahead = r.ahead();
    read_zero_bit(&mut ahead, Reason::SequenceExtension)?;
    let more = read_present(&mut ahead)?;
    let bearer = Bearer::read(&mut ahead)?;
    let nas = read_octet_string(&mut ahead, MOST_OCTETS_OF_NAS)?;
    skip_extensions(&mut ahead, more)?;
    *r = ahead;
    Ok(Parts { bearer, nas })
}

impl OwnedValue for ErabToAdd {
    ghost asn1 = { erab_to_add };

    /// It is refused as an `ErabToSetup` is, whose NAS-PDU may be absent.
    fn read_pieces(alloc: Global, r: &mut BitReader) -> Result<ErabToAdd, Bad> {
        let mut ahead = r.ahead();
        let Parts { bearer, nas } = read_parts(&mut ahead)?;
        let nas = Octets::from(Vec::from_slice(alloc, nas)?);
        *r = ahead;
        Ok(ErabToAdd {
            id: bearer.id,
            qci: bearer.qos.qci,
            arp: bearer.qos.arp,
            address: bearer.address,
            teid: bearer.teid,
            nas,
        })
    }

    fn skip(r: &mut BitReader) -> Result<(), Refusal> {
        read_parts(r)?;
        Ok(())
    }

    #[tactic(auto, unfolding(aper_fields::specs::Asn1::run, aper_fields::specs::Asn1::flags_run, aper_fields::specs::Asn1::fields_run, crate::specs::Values::erab_to_add))]
    fn write_pieces(&self, w: &mut BitWriter) -> Result<(), OutOfMemory> {
        let qos = Qos {
            qci: self.qci,
            arp: self.arp,
        };
        let bearer = Bearer {
            id: self.id,
            qos,
            address: self.address,
            teid: self.teid,
        };
        write_bits_fixed(w, 0, 1)?;
        write_bits_fixed(w, 0, 1)?;
        bearer.write(w)?;
        write_octet_string(w, self.nas.items())
    }
}

impl Item for ErabToAdd {
    ghost use Rattle.s1ap_ies.specs.Values.{add_sound};

    ghost asn1 = { erab_to_add };

    fn skip_item(r: &mut BitReader) -> Result<(), Refusal> {
        ErabToAdd::skip(r)
    }

    fn read_item(alloc: Global, r: &mut BitReader) -> Result<ErabToAdd, Bad> {
        ErabToAdd::read(alloc, r)
    }

    fn write_item(&self, w: &mut BitWriter) -> Result<(), OutOfMemory> {
        self.write(w)
    }

    ghost sound = { add_sound };
}
