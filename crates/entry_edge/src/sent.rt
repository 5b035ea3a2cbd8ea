//! What a message says.

ghost use Rattle.std.specs.Prelude.{◌≡◌, length};
ghost use Rattle.echo_base.specs.Answer.{IsAnswer};
ghost use Rattle.nas_kinds.specs.Reading.{nas_of};
ghost use Rattle.entry_edge.specs.Sent.{request_of, onward_of, erab_of, side_of, context_of, second_of, code_of, notice, sent_of};

use device_types::{Body, CauseCode, Side};
use echo_base::{Bad, Identity, Reason, Refusal, refused};
use nas_kinds::{NasIn, read_nas};
use s1ap_ies::{Cause, ErabDone, Stmsi, Tai, names};
use s1ap_messages::{ErabsDone, Pdu};
use std::alloc::Global;

/// How a message says which device it is from.
#[derive(Clone, Copy, Debug, PartialEq, Eq)]
pub enum Claim {
    /// An INITIAL UE MESSAGE, by the device's identity.
    Named(Identity),
    /// Any other message, by the MME UE S1AP ID.
    Numbered(u32),
    /// A notice of the gateway, by the device's IMSI.
    Noticed(u64),
}

/// What a message says.
#[derive(Debug, Drop)]
pub struct Sent {
    /// Which device it is from.
    pub claim: Claim,
    /// The eNB UE S1AP ID.
    pub enb: u32,
    /// What it is about.
    pub body: Body,
}

/// Reads the NAS message that a NAS-PDU contains, and is refused as `read_nas` is.
fn read_nas_pdu(alloc: Global, octets: &[u8]) -> Result<NasIn, Bad>
    ensures { IsAnswer (nas_of octets.now) result }
{
    read_nas(alloc, octets)
}

/// The device and the body of the request that an INITIAL UE MESSAGE of `end` octets contains. A SERVICE REQUEST needs the S-TMSI,
/// which is told as missing at the end of the PDU; a NAS message that begins no procedure is refused as NasKind.
fn request_of(
    end: u64,
    tai: Tai,
    stmsi: Option<Stmsi>,
    nas: NasIn,
) -> Result<(Identity, Body), Refusal>
    ensures { result ≡ request_of end tai stmsi nas }
{
    let Tai { plmn, tac } = tai;
    let kind = nas.message_type();
    match nas {
        NasIn::AttachRequest {
            identity,
            eea,
            eia,
            pti,
        } => Ok((
            identity,
            Body::Attach {
                plmn,
                tac,
                eea,
                eia,
                pti,
            },
        )),
        NasIn::DetachRequest { off, identity } => {
            Ok((identity, Body::Detach { first: true, off }))
        }
        NasIn::AreaRequest { identity } => Ok((
            identity,
            Body::Area {
                first: true,
                plmn,
                tac,
            },
        )),
        NasIn::ServiceRequest => match stmsi {
            Some(stmsi) => Ok((Identity::Tmsi(stmsi.tmsi), Body::Service)),
            None => Err(Refusal {
                reason: Reason::MissingIe(names::STMSI),
                place: end,
            }),
        },
        NasIn::AttachComplete
        | NasIn::AuthResponse { .. }
        | NasIn::SecurityComplete
        | NasIn::SecurityReject { .. }
        | NasIn::PdnRequest { .. }
        | NasIn::PdnAccept => Err(refused(Reason::NasKind(kind))),
    }
}

/// The body of the NAS message that an UPLINK NAS TRANSPORT contains; one that only an INITIAL UE MESSAGE contains is refused as
/// NasKind.
fn onward_of(tai: Tai, nas: NasIn) -> Result<Body, Refusal>
    ensures { result ≡ onward_of tai nas }
{
    let Tai { plmn, tac } = tai;
    let kind = nas.message_type();
    match nas {
        NasIn::AttachComplete => Ok(Body::AttachDone),
        NasIn::DetachRequest { off, .. } => Ok(Body::Detach { first: false, off }),
        NasIn::AreaRequest { .. } => Ok(Body::Area {
            first: false,
            plmn,
            tac,
        }),
        NasIn::AuthResponse { res } => Ok(Body::Response { res }),
        NasIn::SecurityComplete => Ok(Body::Secured),
        NasIn::SecurityReject { .. } => Ok(Body::SecurityRefused),
        NasIn::PdnRequest { pti } => Ok(Body::PdnRequest { pti }),
        NasIn::PdnAccept => Ok(Body::PdnAccept),
        NasIn::AttachRequest { .. } | NasIn::ServiceRequest => {
            Err(refused(Reason::NasKind(kind)))
        }
    }
}

/// The first with that E-RAB ID among the E-RABs that were set up.
fn erab_of(done: &[ErabDone], id: u8) -> Option<ErabDone>
    ensures { result ≡ erab_of id done.now }
{
    done.iter().copied().find(|erab| erab.id == id)
}

/// The base station's side of an E-RAB.
fn side_of(erab: ErabDone) -> Side
    ensures { result ≡ side_of erab }
{
    Side {
        addr: erab.address,
        teid: erab.teid,
    }
}

/// The body of an INITIAL CONTEXT SETUP RESPONSE (TS 36.413, 9.1.4.3): the base station's side of the default bearer, and of the
/// second one where that was set up too, or that the context failed where the default bearer was not set up.
fn context_of(done: &[ErabDone]) -> Body
    ensures { result ≡ context_of done.now }
{
    let second = erab_of(done, names::SECOND_ERAB).map(side_of);
    match erab_of(done, names::DEFAULT_ERAB) {
        Some(erab) => Body::ContextDone {
            addr: erab.address,
            teid: erab.teid,
            second,
        },
        None => Body::ContextFailed,
    }
}

/// The body of an E-RAB SETUP RESPONSE (TS 36.413, 9.1.3.2): the base station's side of the second bearer, or that this bearer was
/// not set up, as where none was.
fn second_of(done: Option<ErabsDone>) -> Body
    ensures { result ≡ second_of done }
{
    let Some(done) = done else {
        return Body::SecondRefused;
    };
    match erab_of(done.items(), names::SECOND_ERAB) {
        Some(erab) => Body::SecondDone {
            addr: erab.address,
            teid: erab.teid,
        },
        None => Body::SecondRefused,
    }
}

/// The cause as a device keeps it.
fn code_of(cause: Cause) -> CauseCode
    ensures { result ≡ code_of cause }
{
    CauseCode {
        group: cause.group,
        extended: cause.extended,
        index: cause.index,
    }
}

/// A notice that data waits for the device with that IMSI. It has no eNB UE S1AP ID, for which 0 stands.
pub fn notice(imsi: u64) -> Sent
    ensures { result ≡ notice imsi }
{
    Sent {
        claim: Claim::Noticed(imsi),
        enb: 0,
        body: Body::Data,
    }
}

/// A message by the number of its device.
fn numbered(mme: u32, enb: u32, body: Body) -> Sent
    ensures { result ≡ record { claim = Claim.Numbered mme; enb = enb; body = body } }
{
    Sent {
        claim: Claim::Numbered(mme),
        enb,
        body,
    }
}

/// What a message of so many octets says.
#[tactic(auto, unfolding(crate::specs::Sent::sent_of))]
#[rattlefmt::skip]
pub fn sent_of(alloc: Global, end: u64, pdu: Pdu) -> Result<Sent, Bad>
    ensures { IsAnswer (sent_of end pdu) result }
{
    match pdu {
        Pdu::InitialUeMessage { enb, nas, tai, cgi: _, rrc: _, stmsi } => {
            let nas = read_nas_pdu(alloc, nas.octets())?;
            let (identity, body) = request_of(end, tai, stmsi, nas)?;
            Ok(Sent { claim: Claim::Named(identity), enb, body })
        }
        Pdu::UplinkNasTransport { mme, enb, nas, cgi: _, tai } => {
            let nas = read_nas_pdu(alloc, nas.octets())?;
            let body = onward_of(tai, nas)?;
            Ok(numbered(mme, enb, body))
        }
        Pdu::InitialContextSetupResponse { mme, enb, done } => Ok(numbered(mme, enb, context_of(done.items()))),
        Pdu::ErabSetupResponse { mme, enb, done } => Ok(numbered(mme, enb, second_of(done))),
        Pdu::InitialContextSetupFailure { mme, enb, cause: _ } => Ok(numbered(mme, enb, Body::ContextFailed)),
        Pdu::UeContextReleaseRequest { mme, enb, cause } => {
            Ok(numbered(mme, enb, Body::ReleaseAsked { cause: code_of(cause) }))
        }
        Pdu::UeContextReleaseComplete { mme, enb } => Ok(numbered(mme, enb, Body::Released)),
        Pdu::UeCapabilityInfoIndication { mme, enb, radio } => {
            Ok(numbered(mme, enb, Body::Capability { octets: radio }))
        }
        _ => Err(Bad::Refused(Refusal { reason: Reason::WrongDirection, place: 1 })),
    }
}
