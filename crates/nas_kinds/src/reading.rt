//! Reading whole messages.

ghost use Rattle.std.specs.Prelude.{◌≡◌, Err, ⊤};
ghost use Rattle.echo_base.specs.declared.reason.Reason.TheVariants.{NasKind};
ghost use Rattle.echo_base.specs.declared.refusal.Refusal.{Refusal};
ghost use Rattle.echo_base.specs.declared.refusal.Bad.TheVariants.{Refused};
ghost use Rattle.echo_base.specs.Answer.{refused, Answers, IsAnswerTaking};
ghost use Rattle.echo_base.specs.Reading.{GivesOrEnds, GivesTaking};
ghost use Rattle.nas_kinds.specs.declared.nas_in.NasIn.{NasIn};
ghost use Rattle.nas_kinds.specs.Reading.{identity_at, capability_at, container_at, attach_request_at, attach_complete_at, detach_request_at, area_request_at, security_reject_at, auth_response_at, kind_at, fields_at, mobility_at, session_kind_at, pdn_request_at, session_fields_at, session_at, message_at, security_at, protected_at, behind_at, protocol_at, header_at, service_at, nas_at, nas_of};
ghost use Rattle.nas_kinds.specs.Kinds.{NasSpells, NasRefuses, IsResponse, SpellsResponse};

use crate::identity::identity_of;
use crate::kind::{
    Header, Kind, Protocol, SessionKind, header_of, kind_of, protocol_of, session_kind_of,
};
use crate::nas_in::NasIn;
use crate::reader::NasReader;
use device_types::Octets;
use echo_base::{Bad, Identity, Reason, Refusal, refused};
use std::alloc::Global;

/// An EPS mobile identity (9.9.3.12).
#[tactic(auto, unfolding(crate::specs::Reading::identity_at))]
fn read_identity(r: &mut NasReader) -> Result<Identity, Refusal>
    ensures { GivesOrEnds result r.new (identity_at r.old) }
{
    let octets = r.counted()?;
    let Some(identity) = identity_of(octets) else {
        return Err(refused(Reason::NasIdentity));
    };
    Ok(identity)
}

/// The first two octets of a UE network capability (9.9.3.34): the encryption and the integrity algorithms.
#[tactic(auto, unfolding(crate::specs::Reading::capability_at))]
fn read_capability(r: &mut NasReader) -> Result<(u8, u8), Refusal>
    ensures { GivesOrEnds result r.new (capability_at r.old) }
{
    let [eea, eia, ..] = r.counted()? else {
        return Err(refused(Reason::NasShort));
    };
    Ok((*eea, *eia))
}

/// The procedure transaction identity of the ESM message in a container (9.9.3.15).
#[tactic(auto, unfolding(crate::specs::Reading::container_at))]
fn read_container(r: &mut NasReader) -> Result<u8, Refusal>
    ensures { GivesOrEnds result r.new (container_at r.old) }
{
    let [_bearer, pti, _kind, ..] = r.long_counted()? else {
        return Err(refused(Reason::NasShort));
    };
    Ok(*pti)
}

/// The fields of an ATTACH REQUEST (8.2.4).
#[tactic(auto, unfolding(crate::specs::Reading::attach_request_at))]
fn read_attach_request(r: &mut NasReader) -> Result<NasIn, Refusal>
    ensures { GivesOrEnds result r.new (attach_request_at r.old) }
{
    r.octet()?;
    let identity = read_identity(r)?;
    let (eea, eia) = read_capability(r)?;
    let pti = read_container(r)?;
    Ok(NasIn::AttachRequest {
        identity,
        eea,
        eia,
        pti,
    })
}

/// The fields of an ATTACH COMPLETE (8.2.2).
#[tactic(auto, unfolding(crate::specs::Reading::attach_complete_at))]
fn read_attach_complete(r: &mut NasReader) -> Result<NasIn, Refusal>
    ensures { GivesOrEnds result r.new (attach_complete_at r.old) }
{
    r.long_counted()?;
    Ok(NasIn::AttachComplete)
}

/// The fields of a DETACH REQUEST (8.2.11.1).
#[tactic(auto, using(crate::proofs::Digits::fourth_bit), unfolding(crate::specs::Reading::detach_request_at))]
fn read_detach_request(r: &mut NasReader) -> Result<NasIn, Refusal>
    ensures { GivesOrEnds result r.new (detach_request_at r.old) }
{
    let detach_type = r.octet()?;
    let identity = read_identity(r)?;
    Ok(NasIn::DetachRequest {
        off: detach_type & 0x08 != 0,
        identity,
    })
}

/// The fields of a TRACKING AREA UPDATE REQUEST (8.2.29).
#[tactic(auto, unfolding(crate::specs::Reading::area_request_at))]
fn read_area_request(r: &mut NasReader) -> Result<NasIn, Refusal>
    ensures { GivesOrEnds result r.new (area_request_at r.old) }
{
    r.octet()?;
    let identity = read_identity(r)?;
    Ok(NasIn::AreaRequest { identity })
}

/// The fields of an AUTHENTICATION RESPONSE (8.2.8), with RES in memory of its own.
#[tactic(auto, unfolding(crate::specs::Reading::auth_response_at))]
fn read_auth_response(alloc: Global, r: &mut NasReader) -> Result<NasIn, Bad>
    ensures { GivesTaking IsResponse result r.new (auth_response_at r.old) }
{
    let res = r.counted()?;
    let res = Octets::from(Vec::from_slice(alloc, res)?);
    Ok(NasIn::AuthResponse { res })
}

/// The fields of a SECURITY MODE REJECT (8.2.22).
#[tactic(auto, unfolding(crate::specs::Reading::security_reject_at))]
fn read_security_reject(r: &mut NasReader) -> Result<NasIn, Refusal>
    ensures { GivesOrEnds result r.new (security_reject_at r.old) }
{
    let cause = r.octet()?;
    Ok(NasIn::SecurityReject { cause })
}

/// The mandatory fields of a message.
fn read_fields(alloc: Global, r: &mut NasReader, kind: Kind) -> Result<NasIn, Bad>
    ensures { GivesTaking IsResponse result r.new (fields_at kind r.old) }
{
    match kind {
        Kind::AttachRequest => Ok(read_attach_request(r)?),
        Kind::AttachComplete => Ok(read_attach_complete(r)?),
        Kind::DetachRequest => Ok(read_detach_request(r)?),
        Kind::AreaRequest => Ok(read_area_request(r)?),
        Kind::AuthResponse => read_auth_response(alloc, r),
        Kind::SecurityComplete => Ok(NasIn::SecurityComplete),
        Kind::SecurityReject => Ok(read_security_reject(r)?),
    }
}

/// The refusal of a message type that is none of the table's.
fn no_kind(octet: u8) -> Refusal
    ensures { result ≡ refused (NasKind octet) }
{
    refused(Reason::NasKind(octet))
}

/// The message type of a message of mobility management (9.8).
#[tactic(auto, unfolding(crate::specs::Reading::kind_at))]
fn read_kind(r: &mut NasReader) -> Result<Kind, Refusal>
    ensures { GivesOrEnds result r.new (kind_at r.old) }
{
    let octet = r.octet()?;
    let Some(kind) = kind_of(octet) else {
        return Err(no_kind(octet));
    };
    Ok(kind)
}

/// What is behind the first octet of a message of mobility management: a message type, and the fields of its message.
#[tactic(auto, unfolding(crate::specs::Reading::mobility_at))]
fn read_mobility(alloc: Global, r: &mut NasReader) -> Result<NasIn, Bad>
    ensures { GivesTaking IsResponse result r.new (mobility_at r.old) }
{
    let kind = read_kind(r)?;
    read_fields(alloc, r, kind)
}

/// The message type of a message of session management for that bearer.
#[tactic(auto, unfolding(crate::specs::Reading::session_kind_at))]
fn read_session_kind(r: &mut NasReader, bearer: u8) -> Result<SessionKind, Refusal>
    ensures { GivesOrEnds result r.new (session_kind_at bearer r.old) }
{
    let octet = r.octet()?;
    let Some(kind) = session_kind_of(bearer, octet) else {
        return Err(no_kind(octet));
    };
    Ok(kind)
}

/// The fields of a PDN CONNECTIVITY REQUEST (8.3.20).
#[tactic(auto, unfolding(crate::specs::Reading::pdn_request_at))]
fn read_pdn_request(r: &mut NasReader, pti: u8) -> Result<NasIn, Refusal>
    ensures { GivesOrEnds result r.new (pdn_request_at pti r.old) }
{
    r.octet()?;
    Ok(NasIn::PdnRequest { pti })
}

/// The mandatory fields of a message of session management.
fn read_session_fields(r: &mut NasReader, pti: u8, kind: SessionKind) -> Result<NasIn, Refusal>
    ensures { GivesOrEnds result r.new (session_fields_at pti kind r.old) }
{
    match kind {
        SessionKind::PdnRequest => read_pdn_request(r, pti),
        SessionKind::PdnAccept => Ok(NasIn::PdnAccept),
    }
}

/// What is behind the first octet of a message of session management: a procedure transaction identity, a message type, and the
/// fields of its message.
#[tactic(auto, unfolding(crate::specs::Reading::session_at))]
fn read_session(r: &mut NasReader, bearer: u8) -> Result<NasIn, Refusal>
    ensures { GivesOrEnds result r.new (session_at bearer r.old) }
{
    let pti = r.octet()?;
    let kind = read_session_kind(r, bearer)?;
    read_session_fields(r, pti, kind)
}

/// What is behind the first octet of a plain message.
fn read_message(alloc: Global, r: &mut NasReader, protocol: Protocol) -> Result<NasIn, Bad>
    ensures { GivesTaking IsResponse result r.new (message_at protocol r.old) }
{
    match protocol {
        Protocol::Mobility => read_mobility(alloc, r),
        Protocol::Session { bearer } => Ok(read_session(r, bearer)?),
    }
}

/// The first octet of a plain message.
#[tactic(auto, unfolding(crate::specs::Reading::protocol_at))]
fn read_protocol(r: &mut NasReader) -> Result<Protocol, Refusal>
    ensures { GivesOrEnds result r.new (protocol_at r.old) }
{
    let octet = r.octet()?;
    let Some(protocol) = protocol_of(octet) else {
        return Err(refused(Reason::NasDiscriminator));
    };
    Ok(protocol)
}

/// What is in front of the plain message in a protected one (8.2.23): a message authentication code and a sequence number.
#[tactic(auto, unfolding(crate::specs::Reading::security_at))]
fn skip_security(r: &mut NasReader) -> Result<(), Refusal>
    ensures { GivesOrEnds result r.new (security_at r.old) }
{
    r.octets(4)?;
    r.octet()?;
    Ok(())
}

/// What is behind the first octet of a protected message.
#[tactic(auto, unfolding(crate::specs::Reading::protected_at))]
fn read_protected(alloc: Global, r: &mut NasReader) -> Result<NasIn, Bad>
    ensures { GivesTaking IsResponse result r.new (protected_at r.old) }
{
    skip_security(r)?;
    let protocol = read_protocol(r)?;
    read_message(alloc, r, protocol)
}

/// The fields of a SERVICE REQUEST (8.2.25).
#[tactic(auto, unfolding(crate::specs::Reading::service_at))]
fn read_service(r: &mut NasReader) -> Result<NasIn, Refusal>
    ensures { GivesOrEnds result r.new (service_at r.old) }
{
    r.octets(3)?;
    Ok(NasIn::ServiceRequest)
}

/// What is behind the first octet.
fn read_behind(alloc: Global, r: &mut NasReader, header: Header) -> Result<NasIn, Bad>
    ensures { GivesTaking IsResponse result r.new (behind_at header r.old) }
{
    match header {
        Header::Plain(protocol) => read_message(alloc, r, protocol),
        Header::Protected => read_protected(alloc, r),
        Header::Service => Ok(read_service(r)?),
    }
}

/// The first octet of a message.
#[tactic(auto, unfolding(crate::specs::Reading::header_at))]
fn read_header(r: &mut NasReader) -> Result<Header, Refusal>
    ensures { GivesOrEnds result r.new (header_at r.old) }
{
    let octet = r.octet()?;
    let Some(header) = header_of(octet) else {
        return Err(refused(Reason::NasDiscriminator));
    };
    Ok(header)
}

/// A message from its first octet on.
#[tactic(auto, unfolding(crate::specs::Reading::nas_at))]
fn read_whole(alloc: Global, r: &mut NasReader) -> Result<NasIn, Bad>
    ensures { GivesTaking IsResponse result r.new (nas_at r.old) }
{
    let header = read_header(r)?;
    read_behind(alloc, r, header)
}

/// Reads the message that the octets begin with; what follows its mandatory fields is passed over. It is refused for the
/// first field that is wrong: NasShort where a field is not whole, or too short for what is used of it; NasDiscriminator
/// for the first octet, and for that of the plain message in a protected one; NasKind, with the octet, for a message type
/// that is none of the table's, or is not read for its bearer; NasIdentity for an identity that is neither an IMSI of 15 digits
/// nor a GUTI. Only RES takes memory.
///
/// ```rust
/// let message = read_nas(alloc, b"\x07\x5f\x17")?;
/// assert_eq!(rt; message.message_type(), 0x5f);
/// assert!(rt; matches!(message, NasIn::SecurityReject { cause: 23 }));
/// ```
pub fn read_nas(alloc: Global, octets: &[u8]) -> Result<NasIn, Bad>
    ensures reading { IsAnswerTaking IsResponse (nas_of octets.now) result }
    ensures read { Answers (NasSpells octets.now) (NasRefuses octets.now) (SpellsResponse octets.now) result }
    ensures only { (message : NasIn) → NasSpells octets.now message → Answers (λ read. read ≡ message) (λ e. ⊥) ⊤ result }
    ensures refused { (e : Refusal) → NasRefuses octets.now e → result ≡ Err (Refused e) }
{
    let mut r = NasReader::new(octets);
    read_whole(alloc, &mut r)
}
