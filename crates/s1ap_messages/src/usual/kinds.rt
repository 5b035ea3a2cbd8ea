//! The IEs of each kind of message, read from their octets.

ghost use Rattle.std.specs.Prelude.{IfSome};
ghost use Rattle.s1ap_pdu.specs.declared.tables.MessageKind.TheVariants as kind;
ghost use Rattle.s1ap_messages.specs.Usual.{AreFieldsOf, BeginsAs};

use crate::usual::bearers::{LentErab, list_of};
use crate::usual::fields::read_fields;
use crate::usual::strings::{Key, Nas, Radio, own};
use crate::usual::values::{BothIds, EnbId, MmeId};
use s1ap_ies::UeIds;
use s1ap_pdu::{MessageKind, Outcome, Pdu, header_of, kind_with};
use std::alloc::Global;

/// The IEs of an INITIAL UE MESSAGE.
fn initial_ue_message(alloc: Global, octets: &[u8], count: u8) -> Option<Pdu>
    ensures { IfSome result (AreFieldsOf kind.InitialUeMessage octets.now count) }
{
    let fields = read_fields(MessageKind::InitialUeMessage, octets, count)?;
    let (EnbId(enb), (Nas(nas), (tai, (cgi, (rrc, stmsi))))) = fields;
    Some(Pdu::InitialUeMessage {
        enb,
        nas: own(alloc, nas)?,
        tai,
        cgi,
        rrc,
        stmsi,
    })
}

/// The IEs of an UPLINK NAS TRANSPORT.
fn uplink_nas_transport(alloc: Global, octets: &[u8], count: u8) -> Option<Pdu>
    ensures { IfSome result (AreFieldsOf kind.UplinkNasTransport octets.now count) }
{
    let fields = read_fields(MessageKind::UplinkNasTransport, octets, count)?;
    let (MmeId(mme), (EnbId(enb), (Nas(nas), (cgi, (tai, ()))))) = fields;
    Some(Pdu::UplinkNasTransport {
        mme,
        enb,
        nas: own(alloc, nas)?,
        cgi,
        tai,
    })
}

/// The IEs of a DOWNLINK NAS TRANSPORT.
fn downlink_nas_transport(alloc: Global, octets: &[u8], count: u8) -> Option<Pdu>
    ensures { IfSome result (AreFieldsOf kind.DownlinkNasTransport octets.now count) }
{
    let fields = read_fields(MessageKind::DownlinkNasTransport, octets, count)?;
    let (MmeId(mme), (EnbId(enb), (Nas(nas), ()))) = fields;
    Some(Pdu::DownlinkNasTransport {
        mme,
        enb,
        nas: own(alloc, nas)?,
    })
}

/// The IEs of an INITIAL CONTEXT SETUP REQUEST.
fn initial_context_setup_request(alloc: Global, octets: &[u8], count: u8) -> Option<Pdu>
    ensures { IfSome result (AreFieldsOf kind.InitialContextSetupRequest octets.now count) }
{
    let fields = read_fields(MessageKind::InitialContextSetupRequest, octets, count)?;
    let (MmeId(mme), (EnbId(enb), (rates, (bearer, (caps, (Key(key), ())))))) = fields;
    let key = own(alloc, key)?;
    let bearers = list_of(alloc, LentErab::own(bearer, alloc)?)?;
    Some(Pdu::InitialContextSetupRequest {
        mme,
        enb,
        rates,
        bearers,
        caps,
        key,
    })
}

/// The IEs of an INITIAL CONTEXT SETUP RESPONSE.
fn initial_context_setup_response(alloc: Global, octets: &[u8], count: u8) -> Option<Pdu>
    ensures { IfSome result (AreFieldsOf kind.InitialContextSetupResponse octets.now count) }
{
    let fields = read_fields(MessageKind::InitialContextSetupResponse, octets, count)?;
    let (MmeId(mme), (EnbId(enb), (done, ()))) = fields;
    Some(Pdu::InitialContextSetupResponse {
        mme,
        enb,
        done: list_of(alloc, done)?,
    })
}

/// The IEs of a UE CONTEXT RELEASE REQUEST.
fn ue_context_release_request(octets: &[u8], count: u8) -> Option<Pdu>
    ensures { IfSome result (AreFieldsOf kind.UeContextReleaseRequest octets.now count) }
{
    let fields = read_fields(MessageKind::UeContextReleaseRequest, octets, count)?;
    let (MmeId(mme), (EnbId(enb), (cause, ()))) = fields;
    Some(Pdu::UeContextReleaseRequest { mme, enb, cause })
}

/// The IEs of a UE CONTEXT RELEASE COMMAND.
fn ue_context_release_command(octets: &[u8], count: u8) -> Option<Pdu>
    ensures { IfSome result (AreFieldsOf kind.UeContextReleaseCommand octets.now count) }
{
    let fields = read_fields(MessageKind::UeContextReleaseCommand, octets, count)?;
    let (BothIds { mme, enb }, (cause, ())) = fields;
    Some(Pdu::UeContextReleaseCommand {
        ids: UeIds::Pair { mme, enb },
        cause,
    })
}

/// The IEs of a UE CONTEXT RELEASE COMPLETE.
fn ue_context_release_complete(octets: &[u8], count: u8) -> Option<Pdu>
    ensures { IfSome result (AreFieldsOf kind.UeContextReleaseComplete octets.now count) }
{
    let fields = read_fields(MessageKind::UeContextReleaseComplete, octets, count)?;
    let (MmeId(mme), (EnbId(enb), ())) = fields;
    Some(Pdu::UeContextReleaseComplete { mme, enb })
}

/// The IEs of a UE CAPABILITY INFO INDICATION.
fn ue_capability_info_indication(alloc: Global, octets: &[u8], count: u8) -> Option<Pdu>
    ensures { IfSome result (AreFieldsOf kind.UeCapabilityInfoIndication octets.now count) }
{
    let fields = read_fields(MessageKind::UeCapabilityInfoIndication, octets, count)?;
    let (MmeId(mme), (EnbId(enb), (Radio(radio), ()))) = fields;
    Some(Pdu::UeCapabilityInfoIndication {
        mme,
        enb,
        radio: own(alloc, radio)?,
    })
}

/// The IEs of a kind of message. A message of any other kind goes piece by piece.
#[rattlefmt::skip]
pub fn fields(alloc: Global, kind: MessageKind, octets: &[u8], count: u8) -> Option<Pdu>
    ensures { IfSome result (AreFieldsOf kind octets.now count) }
{
    match kind {
        MessageKind::InitialUeMessage => initial_ue_message(alloc, octets, count),
        MessageKind::UplinkNasTransport => uplink_nas_transport(alloc, octets, count),
        MessageKind::DownlinkNasTransport => downlink_nas_transport(alloc, octets, count),
        MessageKind::InitialContextSetupRequest => initial_context_setup_request(alloc, octets, count),
        MessageKind::InitialContextSetupResponse => initial_context_setup_response(alloc, octets, count),
        MessageKind::UeContextReleaseRequest => ue_context_release_request(octets, count),
        MessageKind::UeContextReleaseCommand => ue_context_release_command(octets, count),
        MessageKind::UeContextReleaseComplete => ue_context_release_complete(octets, count),
        MessageKind::UeCapabilityInfoIndication => ue_capability_info_indication(alloc, octets, count),
        _ => None,
    }
}

/// The kind of message whose header has these octets, as it is written.
#[inline(always)]
pub fn kind_of_header(outcome: u8, code: u8, criticality: u8) -> Option<MessageKind>
    ensures { IfSome result (λ kind. BeginsAs kind outcome code criticality) }
{
    let kind = kind_with(Outcome::with_octet(outcome)?, code)?;
    if criticality != 64 * header_of(kind).criticality.number() {
        return None;
    }
    Some(kind)
}
