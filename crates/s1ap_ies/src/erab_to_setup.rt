//! E-RABs that are to be set up.

ghost use Rattle.std.specs.Prelude.{◌≡◌, IfOk, IfSome, OnOk, OnErr, option_map, length};
ghost use Rattle.echo_base.specs.Reading.{GivesBy};
ghost use Rattle.aper_fields.specs.Run.{then_written};
ghost use Rattle.aper_fields.specs.Kept.{Keeps};
ghost use Rattle.aper_fields.specs.Asn1.{reading, fields_at, fields_run, FieldsFit, optional};
ghost use Rattle.s1ap_ies.specs.Values.{erab_to_setup, nas_pdu};
ghost use Rattle.s1ap_ies.specs.Lent.{item_of};

use crate::bearer::{Bearer, Qos};
use crate::names::MOST_OCTETS_OF_NAS;
use aper_fields::{
    BitReader, BitWriter, read_octet_string, read_present, read_zero_bit, skip_extensions,
    write_bits_fixed, write_octet_string, write_present,
};
use aper_types::OwnedValue;
use device_types::Octets;
use echo_base::{Bad, OutOfMemory, Reason, Refusal};
use protocol_ies::Item;
use std::alloc::{AllocError, Global};

/// An E-RAB that is to be set up: the item of a request (TS 36.413, 9.1.4.1).
#[derive(Debug, Drop)]
pub struct ErabToSetup {
    /// The E-RAB ID, below 16.
    pub id: u8,
    /// QoS class identifier.
    pub qci: u8,
    /// Allocation and retention priority, below 64: four bits of priority, the highest, one of capability, one of vulnerability.
    pub arp: u8,
    /// The IPv4 address of the serving gateway, four octets as one number, the first octet highest.
    pub address: u32,
    /// The tunnel endpoint identifier of the serving gateway (9.2.2.2), four octets as one number, the first octet highest.
    pub teid: u32,
    /// A NAS-PDU for the device, of at most 2,048 octets.
    pub nas: Option<Octets>,
}

/// The fields, with the NAS-PDU where it lies in what is read.
#[derive(Drop)]
struct Parts<'a> {
    bearer: Bearer,
    nas: Option<&'a [u8]>,
}

/// Reads a NAS-PDU, where it is present.
#[tactic(auto, unfolding(aper_fields::specs::Asn1::reading, aper_fields::specs::Asn1::fields_at))]
fn read_nas<'a>(r: &mut BitReader<'a>, present: bool) -> Result<Option<&'a [u8]>, Refusal>
    ensures { GivesBy (λ nas. option_map (λ octets. octets.now) nas) result r.old r.new (fields_at (optional nas_pdu) present r.old) }
{
    if !present {
        return Ok(None);
    }
    let mut ahead = r.ahead();
    let nas = read_octet_string(&mut ahead, MOST_OCTETS_OF_NAS)?;
    *r = ahead;
    Ok(Some(nas))
}

/// Reads the fields, and passes over the iE-Extensions.
#[tactic(auto, unfolding(aper_fields::specs::Asn1::reading, aper_fields::specs::Asn1::flags_at, aper_fields::specs::Asn1::fields_at, crate::specs::Values::erab_to_setup))]
fn read_parts<'a>(r: &mut BitReader<'a>) -> Result<Parts<'a>, Refusal>
    ensures { GivesBy item_of result r.old r.new (reading erab_to_setup r.old) }
{
    let mut ahead = r.ahead();
    read_zero_bit(&mut ahead, Reason::SequenceExtension)?;
    let with_nas = read_present(&mut ahead)?;
    let more = read_present(&mut ahead)?;
    let bearer = Bearer::read(&mut ahead)?;
    let nas = read_nas(&mut ahead, with_nas)?;
    skip_extensions(&mut ahead, more)?;
    *r = ahead;
    Ok(Parts { bearer, nas })
}

/// The octets in memory of their own.
fn own(alloc: Global, octets: Option<&[u8]>) -> Result<Option<Octets>, AllocError>
    ensures { IfOk result (λ own. own ≡ option_map (λ lent. lent.now) octets.entry) }
{
    match octets {
        Some(octets) => Ok(Some(Octets::from(Vec::from_slice(alloc, octets)?))),
        None => Ok(None),
    }
}

/// Writes a NAS-PDU, where it is present.
#[tactic(auto, unfolding(aper_fields::specs::Asn1::run, aper_fields::specs::Asn1::fields_run))]
fn write_nas(w: &mut BitWriter, nas: &Option<Octets>) -> Result<(), OutOfMemory>
    requires { FieldsFit (λ octets. Unit {0}) (optional nas_pdu) nas.now }
    ensures ok { OnOk result (w.new ≡ then_written w.old (fields_run (optional nas_pdu) nas.now)) }
    ensures kept { OnErr result (Keeps w.old w.new) }
{
    match nas {
        Some(octets) => write_octet_string(w, octets.items()),
        None => Ok(()),
    }
}

impl ErabToSetup {
    /// The E-RAB without its NAS-PDU.
    fn bearer(&self) -> Bearer
        ensures { result ≡ record { id = self.now.id; qos = record { qci = self.now.qci; arp = self.now.arp }; address = self.now.address; teid = self.now.teid } }
    {
        Bearer {
            id: self.id,
            qos: Qos {
                qci: self.qci,
                arp: self.arp,
            },
            address: self.address,
            teid: self.teid,
        }
    }
}

impl OwnedValue for ErabToSetup {
    ghost use Rattle.s1ap_ies.specs.Values.{erab_to_setup};

    ghost asn1 = { erab_to_setup };

    /// It is refused for the first piece that is wrong: Truncated, NonZeroPadding, SequenceExtension
    /// where an extension bit of the item, its QoS or its priority is 1, OutOfRange where one of the E-RAB ID or of the
    /// address is 1, where there is GBR QoS Information, or the address has not 32 bits; at the NAS-PDU LongLength, and
    /// TooLong above 2,048 octets; in its iE-Extensions OutOfRange at their count, LongLength, TooLong,
    /// BadCriticality too. Where memory for the NAS-PDU runs out, nothing is read.
    fn read_pieces(alloc: Global, r: &mut BitReader) -> Result<ErabToSetup, Bad> {
        let mut ahead = r.ahead();
        let parts = read_parts(&mut ahead)?;
        let nas = own(alloc, parts.nas)?;
        *r = ahead;
        let Bearer {
            id,
            qos,
            address,
            teid,
        } = parts.bearer;
        Ok(ErabToSetup {
            id,
            qci: qos.qci,
            arp: qos.arp,
            address,
            teid,
            nas,
        })
    }

    fn skip(r: &mut BitReader) -> Result<(), Refusal> {
        read_parts(r)?;
        Ok(())
    }

    #[tactic(auto, unfolding(aper_fields::specs::Asn1::run, aper_fields::specs::Asn1::flags_run, aper_fields::specs::Asn1::fields_run, crate::specs::Values::erab_to_setup))]
    fn write_pieces(&self, w: &mut BitWriter) -> Result<(), OutOfMemory> {
        write_bits_fixed(w, 0, 1)?;
        write_present(w, self.nas.is_some())?;
        write_bits_fixed(w, 0, 1)?;
        self.bearer().write(w)?;
        write_nas(w, &self.nas)
    }
}

impl Item for ErabToSetup {
    ghost use Rattle.s1ap_ies.specs.Values.{erab_to_setup, setup_sound};

    ghost asn1 = { erab_to_setup };

    fn skip_item(r: &mut BitReader) -> Result<(), Refusal> {
        ErabToSetup::skip(r)
    }

    fn read_item(alloc: Global, r: &mut BitReader) -> Result<ErabToSetup, Bad> {
        ErabToSetup::read(alloc, r)
    }

    fn write_item(&self, w: &mut BitWriter) -> Result<(), OutOfMemory> {
        self.write(w)
    }

    ghost sound = { setup_sound };
}
