//! The values of IEs.

ghost use Rattle.std.specs.Prelude.{◌≡◌, IfOk, OnOk};
ghost use Rattle.echo_base.specs.Reading.{Gives};
ghost use Rattle.aper_fields.specs.Reading.{octet_string_at, fixed_octets_at};
ghost use Rattle.aper_fields.specs.Asn1.{reading};
ghost use Rattle.s1ap_pdu.specs.Values.{value_type, among, later_ies, last_ie, seen};
ghost use Rattle.aper_fields.specs.Run.{then_written};
ghost use Rattle.s1ap_pdu.specs.Run.{value_run, IsRightValue};

use crate::pdu::{ErabsDone, ErabsToAdd, ErabsToSetup, Tais};
use aper_fields::{
    BitReader, BitWriter, EnumValue, Ranged, read_bits_fixed, read_enum, read_octet_string,
    read_octets_fixed, read_present, write_bits_fixed, write_enum, write_octet_string,
    write_octets_fixed, write_present,
};
use device_types::Octets;
use echo_base::{OutOfMemory, Refusal};
use s1ap_ies::{
    BitRates, Cause, Cgi, Criticality, ErabDone, ErabToAdd, ErabToSetup, FoundList, PlainValue,
    SecCaps, Stmsi, Tai, UeIds, find_list, names, read_paging_id, write_list, write_paging_id,
};
use std::alloc::Global;
use std::marker::Model;

/// The value of an IE that a message has (TS 36.413, 9.2). Octets and lists lie in what is read where they were found, and are
/// lent where they are written.
#[derive(Drop)]
pub enum IeValue<O, S, D, T, A> {
    /// MME UE S1AP ID (9.2.3.3), the IE 0.
    Mme(u32),
    /// Cause (9.2.1.3), the IE 2.
    Cause(Cause),
    /// eNB UE S1AP ID (9.2.3.4), the IE 8.
    Enb(u32),
    /// E-RAB to be Setup List of bearers that are added (9.1.3.1), the IE 16.
    ToAdd(A),
    /// E-RAB to Be Setup List (9.1.4.1), the IE 24.
    Bearers(S),
    /// NAS-PDU (9.2.3.5), the IE 26.
    Nas(O),
    /// E-RAB Setup List of bearers that were added (9.1.3.2), the IE 28.
    Added(D),
    /// UE Paging Identity (9.2.3.13), the IE 43.
    Paging(Stmsi),
    /// List of TAIs (9.1.6), the IE 46.
    Tais(T),
    /// E-RAB Setup List (9.1.4.3), the IE 51.
    Done(D),
    /// UE Aggregate Maximum Bit Rate (9.2.1.20), the IE 66.
    Rates(BitRates),
    /// TAI (9.2.3.16), the IE 67.
    Tai(Tai),
    /// Security Key (9.2.1.41), the IE 73.
    Key(O),
    /// UE Radio Capability (9.2.1.27), the IE 74.
    Radio(O),
    /// UE Identity Index Value (9.2.3.10), the IE 80.
    Index(u16),
    /// S-TMSI (9.2.3.6), the IE 96.
    Stmsi(Stmsi),
    /// UE S1AP IDs (9.1.4.6), the IE 99.
    Ids(UeIds),
    /// E-UTRAN CGI (9.2.1.38), the IE 100.
    Cgi(Cgi),
    /// UE Security Capabilities (9.2.1.40), the IE 107.
    Caps(SecCaps),
    /// CN Domain (9.2.3.22), the IE 109: is it cs?
    Domain(bool),
    /// RRC Establishment Cause (9.2.1.3a), the IE 134.
    Rrc(EnumValue),
}

/// Octets where they lie in what is read.
#[derive(Drop)]
pub struct FoundOctets<'a> {
    octets: &'a [u8],
}

impl<'a> Model for FoundOctets<'a> {
    ghost use Rattle.std.specs.Prelude.{ℕ, List};

    ghost Value = { List ℕ };

    ghost view = { λ found. found.octets.now };
}

impl<'a> FoundOctets<'a> {
    /// The octets in memory of their own.
    pub fn own(&self, alloc: Global) -> Result<Octets, OutOfMemory>
        ensures { IfOk result (λ own. own ≡ self.now) }
    {
        Ok(Octets::from(Vec::from_slice(alloc, self.octets)?))
    }
}

/// A value as it was found.
pub type FoundValue<'a> = IeValue<
    FoundOctets<'a>,
    FoundList<'a, ErabToSetup>,
    FoundList<'a, ErabDone>,
    FoundList<'a, Tai>,
    FoundList<'a, ErabToAdd>,
>;

/// A value as it is written.
pub type LentValue<'a> = IeValue<
    &'a Octets,
    &'a ErabsToSetup,
    &'a ErabsDone,
    &'a Tais,
    &'a ErabsToAdd,
>;

/// Finds an octet string of at most so many octets.
fn find_text<'a>(r: &mut BitReader<'a>, most: usize) -> Result<FoundOctets<'a>, Refusal>
    ensures { Gives result r.old r.new (octet_string_at most r.old) }
{
    let octets = read_octet_string(r, most)?;
    Ok(FoundOctets { octets })
}

/// Finds a security key, a bit string of 256 bits.
fn find_key<'a>(r: &mut BitReader<'a>) -> Result<FoundOctets<'a>, Refusal>
    ensures { Gives result r.old r.new (fixed_octets_at 32 r.old) }
{
    let octets = read_octets_fixed(r, names::SECURITY_KEY_OCTETS)?;
    Ok(FoundOctets { octets })
}

/// Finds the value of the IE with that id, of those behind TAI in the order of ids; the last is an RRC Establishment Cause.
#[inline(always)]
#[tactic(auto, unfolding(aper_fields::specs::Asn1::reading))]
fn find_later_value<'a>(r: &mut BitReader<'a>, id: u16) -> Result<FoundValue<'a>, Refusal>
    ensures { Gives result r.old r.new (reading (among later_ies last_ie.ie id) r.old) }
{
    match id {
        names::SECURITY_KEY => Ok(IeValue::Key(find_key(r)?)),
        names::RADIO_CAPABILITY => Ok(IeValue::Radio(find_text(r, names::MOST_OCTETS)?)),
        names::UE_INDEX => Ok(IeValue::Index(read_bits_fixed(r, 10)? as u16)),
        names::STMSI => Ok(IeValue::Stmsi(Stmsi::read(r)?)),
        names::UE_IDS => Ok(IeValue::Ids(UeIds::read(r)?)),
        names::CGI => Ok(IeValue::Cgi(Cgi::read(r)?)),
        names::SEC_CAPS => Ok(IeValue::Caps(SecCaps::read(r)?)),
        names::CN_DOMAIN => Ok(IeValue::Domain(read_present(r)?)),
        _ => Ok(IeValue::Rrc(read_enum(r, names::RRC_CAUSE_ROOTS, true)?)),
    }
}

/// Finds the value of the IE with that id, by the IE's type (TS 36.413, 9.2). It is refused for the first piece that is
/// wrong, and then the reader has not moved.
#[tactic(auto, unfolding(aper_fields::specs::Asn1::reading, crate::specs::Values::value_type))]
pub fn find_value<'a>(r: &mut BitReader<'a>, id: u16) -> Result<FoundValue<'a>, Refusal>
    ensures { Gives result r.old r.new (reading (value_type id) r.old) }
{
    match id {
        names::MME_UE_S1AP_ID => Ok(IeValue::Mme(
            Ranged::<0, { names::MOST_MME_UE_S1AP_ID }>::read(r)? as u32,
        )),
        names::CAUSE => Ok(IeValue::Cause(Cause::read(r)?)),
        names::ENB_UE_S1AP_ID => Ok(IeValue::Enb(
            Ranged::<0, { names::MOST_ENB_UE_S1AP_ID }>::read(r)? as u32,
        )),
        names::ERABS_TO_ADD => Ok(IeValue::ToAdd(find_list(r, names::ERAB_TO_ADD_ITEM)?)),
        names::ERABS_TO_SETUP => Ok(IeValue::Bearers(find_list(r, names::ERAB_TO_SETUP_ITEM)?)),
        names::NAS_PDU => Ok(IeValue::Nas(find_text(r, names::MOST_OCTETS_OF_NAS)?)),
        names::ERABS_ADDED => Ok(IeValue::Added(find_list(r, names::ERAB_ADDED_ITEM)?)),
        names::PAGING_ID => Ok(IeValue::Paging(read_paging_id(r)?)),
        names::TAIS => Ok(IeValue::Tais(find_list(r, names::TAI_ITEM)?)),
        names::ERABS_DONE => Ok(IeValue::Done(find_list(r, names::ERAB_SETUP_ITEM)?)),
        names::BIT_RATES => Ok(IeValue::Rates(BitRates::read(r)?)),
        names::TAI => Ok(IeValue::Tai(Tai::read(r)?)),
        _ => find_later_value(r, id),
    }
}

/// Writes the value of an IE, which is what its open type contains (TS 36.413, 9.2). It fails for want of memory alone.
#[tactic(auto, unfolding(crate::specs::Run::value_run, aper_fields::specs::Asn1::run))]
pub fn write_value(w: &mut BitWriter, value: &LentValue) -> Result<(), OutOfMemory>
    requires { IsRightValue (seen value.now) }
    ensures { OnOk result (w.new ≡ then_written w.old (value_run (seen value.now))) }
{
    match value {
        IeValue::Mme(mme) => Ranged::<0, { names::MOST_MME_UE_S1AP_ID }>::write(w, u64::from(*mme)),
        IeValue::Cause(cause) => cause.write(w),
        IeValue::Enb(enb) => Ranged::<0, { names::MOST_ENB_UE_S1AP_ID }>::write(w, u64::from(*enb)),
        IeValue::ToAdd(bearers) => {
            write_list(w, names::ERAB_TO_ADD_ITEM, Criticality::Reject, bearers)
        }
        IeValue::Bearers(bearers) => {
            write_list(w, names::ERAB_TO_SETUP_ITEM, Criticality::Reject, bearers)
        }
        IeValue::Nas(nas) => write_octet_string(w, nas.items()),
        IeValue::Added(done) => { write_list(w, names::ERAB_ADDED_ITEM, Criticality::Ignore, done) }
        IeValue::Paging(stmsi) => write_paging_id(w, *stmsi),
        IeValue::Tais(tais) => write_list(w, names::TAI_ITEM, Criticality::Ignore, tais),
        IeValue::Done(done) => { write_list(w, names::ERAB_SETUP_ITEM, Criticality::Ignore, done) }
        IeValue::Rates(rates) => rates.write(w),
        IeValue::Tai(tai) => tai.write(w),
        IeValue::Key(key) => write_octets_fixed(w, key.items()),
        IeValue::Radio(radio) => write_octet_string(w, radio.items()),
        IeValue::Index(index) => write_bits_fixed(w, u64::from(*index), 10),
        IeValue::Stmsi(stmsi) => stmsi.write(w),
        IeValue::Ids(ids) => ids.write(w),
        IeValue::Cgi(cgi) => cgi.write(w),
        IeValue::Caps(caps) => caps.write(w),
        IeValue::Domain(cs) => write_present(w, *cs),
        IeValue::Rrc(rrc) => write_enum(w, names::RRC_CAUSE_ROOTS, true, *rrc),
    }
}
