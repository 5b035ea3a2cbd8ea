//! Reading messages.

ghost use Rattle.std.specs.Prelude.{◌≡◌, ◌+◌, ◌^◌, ◌<◌, ◌≤◌, Err, IfOk, IfSome, ⊤};
ghost use Rattle.echo_base.specs.declared.refusal.Refusal.{Refusal};
ghost use Rattle.echo_base.specs.declared.refusal.Bad.TheVariants.{Refused};
ghost use Rattle.echo_base.specs.Answer.{Answers, IsAnswerTaking};
ghost use Rattle.echo_base.specs.Reading.{GivesOrEnds, GivesTaking};
ghost use Rattle.tlv_elements.specs.Reading.{or_wrong};
ghost use Rattle.gtp2_wire.specs.declared.gtp.Gtp.{Gtp};
ghost use Rattle.gtp2_wire.specs.declared.gtp.GtpBody.TheVariants.{Rejected};
ghost use Rattle.gtp2_wire.specs.Kinds.{type_of};
ghost use Rattle.gtp2_wire.specs.Shapes.{shape_of};
ghost use Rattle.gtp2_wire.specs.Messages.{rejection, body_at, header_at, gtp_at, gtp_of, GtpSpells, GtpRefuses, IsCreate, TakesMemory, SpellsTaking};
ghost use Rattle.gtp2_wire.specs.Written.{IsBody, IsGtp};

use crate::gtp::{Gtp, GtpBody};
use crate::header::Header;
use crate::kind::{Kind, is_answer, kind_of, type_of};
use crate::picking::{pick_create, pick_created, pick_delete, pick_modified, pick_modify};
use crate::tables::read_elements;
use echo_base::{Bad, Reason, Refusal};
use gtp2_ies::rejecting;
use std::alloc::Global;
use tlv_elements::{Left, truncated};

/// What would be told of a value that is missing in octets that are right: none ever is.
const NEVER: Refusal = Refusal {
    reason: Reason::Truncated,
    place: 0,
};

/// The cause of an answer that rejects.
fn rejection(kind: Kind, end: u64, octets: &[u8]) -> Option<u8>
    ensures cause { result ≡ rejection kind end octets.now }
    ensures written { IfSome result (λ cause. IsBody (Rejected (type_of kind) cause)) }
{
    if is_answer(kind) {
        return rejecting(end, octets);
    }
    None
}

/// What was picked, which always is there.
fn picked(body: Option<GtpBody>) -> Result<GtpBody, Refusal>
    requires { IfSome body IsBody }
    ensures picked { result ≡ or_wrong body }
    ensures written { IfOk result IsBody }
{
    let Some(body) = body else {
        return Err(NEVER);
    };
    Ok(body)
}

/// What a message of that kind says: that of a Create Session Request with its access point name in memory of its own.
fn pick(alloc: Global, kind: Kind, end: u64, octets: &[u8]) -> Result<GtpBody, Bad>
    ensures picked { IsAnswerTaking IsCreate (or_wrong ((shape_of kind).pick end octets.now)) result }
    ensures written { IfOk result IsBody }
{
    match kind {
        Kind::Create => {
            let Some(parts) = pick_create(end, octets) else {
                return Err(Bad::Refused(NEVER));
            };
            parts.own(alloc)
        }
        Kind::Created => Ok(picked(pick_created(end, octets))?),
        Kind::Modify => Ok(picked(pick_modify(end, octets))?),
        Kind::Modified => Ok(picked(pick_modified(end, octets))?),
        Kind::Delete => Ok(picked(pick_delete(end, octets))?),
        Kind::Deleted => Ok(GtpBody::Deleted),
        Kind::Release => Ok(GtpBody::Release),
        Kind::Released => Ok(GtpBody::Released),
    }
}

/// What stands behind the header of a message of that kind.
#[tactic(auto, unfolding(crate::specs::Messages::body_at, tlv_elements::specs::Reading::table_at))]
fn read_body(
    alloc: Global,
    kind: Kind,
    end: u64,
    behind: bool,
    octets: &[u8],
) -> Result<GtpBody, Bad>
    ensures read { IsAnswerTaking IsCreate (body_at kind end behind octets.now) result }
    ensures written { IfOk result IsBody }
{
    if let Some(cause) = rejection(kind, end, octets) {
        read_elements(kind, false, end, behind, octets)?;
        let kind = type_of(kind);
        return Ok(GtpBody::Rejected { kind, cause });
    }
    read_elements(kind, true, end, behind, octets)?;
    pick(alloc, kind, end, octets)
}

/// The header (5.1), and the octets that its length counts behind it.
#[tactic(auto, unfolding(crate::specs::Messages::header_at))]
fn read_header<'a>(left: &mut Left<'a>) -> Result<Header<'a>, Refusal>
    ensures read { GivesOrEnds result left.new (header_at left.old) }
    ensures range { IfOk result (λ header. header.seq < 2 ^ 24) }
{
    let first = left.octet(truncated(0))?;
    if first != 0x48 {
        return Err(Refusal {
            reason: Reason::GtpHeader,
            place: 0,
        });
    }
    let octet = left.octet(truncated(1))?;
    let Some(kind) = kind_of(octet) else {
        return Err(Refusal {
            reason: Reason::GtpType(octet),
            place: 1,
        });
    };
    let short = truncated(2);
    let size = left.u16(short)?;
    if size < 8 {
        return Err(short);
    }
    let teid = left.u32(short)?;
    let seq = left.u24(short)?;
    left.octet(short)?;
    let octets = left.octets(short, usize::from(size - 8))?;
    Ok(Header {
        kind,
        teid,
        seq,
        end: u64::from(size) + 4,
        octets,
    })
}

/// Reads a message, and stands behind it.
#[tactic(auto, unfolding(crate::specs::Messages::gtp_at))]
fn read_message(alloc: Global, left: &mut Left) -> Result<Gtp, Bad>
    ensures read { GivesTaking TakesMemory result left.new (gtp_at left.old) }
    ensures written { IfOk result IsGtp }
{
    let header = read_header(left)?;
    let behind = !left.is_empty();
    let body = read_body(alloc, header.kind, header.end, behind, header.octets)?;
    Ok(Gtp {
        teid: header.teid,
        seq: header.seq,
        body,
    })
}

/// Reads the message that the octets are. It is refused for the first piece that is wrong: Truncated for a piece that is not
/// whole, at the place of a header octet or an element, and at 2 for a length that is below 8 or not all there; GtpHeader and
/// GtpType for the first two octets; GtpValue, RepeatedIe and MissingIe for elements; TrailingBytes for octets behind the length.
pub fn read_gtp(alloc: Global, octets: &[u8]) -> Result<Gtp, Bad>
    ensures reading { IsAnswerTaking TakesMemory (gtp_of octets.now) result }
    ensures read { Answers (GtpSpells octets.now) (GtpRefuses octets.now) (SpellsTaking octets.now) result }
    ensures only { (g : Gtp) → GtpSpells octets.now g → Answers (λ read. read ≡ g) (λ e. ⊥) ⊤ result }
    ensures refused { (e : Refusal) → GtpRefuses octets.now e → result ≡ Err (Refused e) }
    ensures written { IfOk result IsGtp }
{
    let mut left = Left::new(octets);
    read_message(alloc, &mut left)
}
