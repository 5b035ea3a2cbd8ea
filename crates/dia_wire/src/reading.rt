//! Reading messages.

ghost use Rattle.std.specs.Prelude.{◌≡◌, ◌≤◌, Err, IfOk, IfSome, ⊤};
ghost use Rattle.echo_base.specs.declared.refusal.Refusal.{Refusal};
ghost use Rattle.echo_base.specs.declared.refusal.Bad.TheVariants.{Refused};
ghost use Rattle.echo_base.specs.Answer.{Answers, IsAnswerTaking};
ghost use Rattle.echo_base.specs.Reading.{GivesOrEnds, GivesTaking};
ghost use Rattle.tlv_elements.specs.Reading.{or_wrong};
ghost use Rattle.dia_wire.specs.declared.dia.Dia.{Dia};
ghost use Rattle.dia_wire.specs.Shapes.{shape_of};
ghost use Rattle.dia_wire.specs.Messages.{kind_of, RejectsBy, said_at, rest_at, header_at, dia_at, dia_of, DiaSpells, DiaRefuses, KeepsSession, TakesMemory, SpellsTaking};
ghost use Rattle.dia_wire.specs.Written.{IsSaid, IsDia};

use crate::dia::Dia;
use crate::header::Header;
use crate::kind::{Kind, asking, command_of, granting};
use crate::picking::{
    pick_ask_location, pick_ask_purge, pick_ask_vectors, pick_located, pick_purged, pick_rejected,
    pick_vectors,
};
use crate::said::{PlainParts, Said, VectorsParts};
use crate::tables::read_avps;
use dia_avps::succeeded;
use echo_base::{Bad, Reason, Refusal};
use std::alloc::Global;
use tlv_elements::{Left, truncated};

/// What would be told of a value that is missing in octets that are right: none ever is.
const NEVER: Refusal = Refusal {
    reason: Reason::Truncated,
    place: 0,
};

/// The kind of a message with that header.
fn kind_of(header: &Header) -> Kind
    ensures kind { result ≡ kind_of header.now }
    ensures rejects { RejectsBy result header.now.end header.now.octets }
{
    let command = header.command;
    if header.request {
        return asking(command);
    }
    if succeeded(header.end, header.octets) {
        return granting(command);
    }
    Kind::Rejected(command)
}

/// What was picked, in memory of its own.
fn owned(alloc: Global, said: Option<PlainParts>) -> Result<Said, Bad>
    ensures owned { IsAnswerTaking KeepsSession (or_wrong said.entry) result }
    ensures written { IfSome said.entry IsSaid → IfOk result IsSaid }
{
    match said {
        Some(said) => Ok(said.own(alloc)?),
        None => Err(Bad::Refused(NEVER)),
    }
}

/// The vectors that were picked, in memory of their own.
fn owned_vectors(alloc: Global, said: Option<VectorsParts>) -> Result<Said, Bad>
    ensures owned { IsAnswerTaking KeepsSession (or_wrong said.entry) result }
    ensures written { IfSome said.entry IsSaid → IfOk result IsSaid }
{
    match said {
        Some(said) => Ok(said.own(alloc)?),
        None => Err(Bad::Refused(NEVER)),
    }
}

/// What a message of that kind says.
fn pick(alloc: Global, kind: Kind, end: u64, octets: &[u8]) -> Result<Said, Bad>
    requires { RejectsBy kind end octets.now }
    ensures picked { IsAnswerTaking KeepsSession (or_wrong ((shape_of kind).pick end octets.now)) result }
    ensures written { IfOk result IsSaid }
{
    match kind {
        Kind::AskVectors => owned(alloc, pick_ask_vectors(end, octets)),
        Kind::AskLocation => owned(alloc, pick_ask_location(end, octets)),
        Kind::AskPurge => owned(alloc, pick_ask_purge(end, octets)),
        Kind::Vectors => owned_vectors(alloc, pick_vectors(end, octets)),
        Kind::Located => owned(alloc, pick_located(end, octets)),
        Kind::Purged => owned(alloc, pick_purged(end, octets)),
        Kind::Rejected(command) => owned(alloc, pick_rejected(command, end, octets)),
    }
}

/// What stands behind the header of a message of that kind.
#[tactic(auto, unfolding(crate::specs::Messages::said_at, tlv_elements::specs::Reading::table_at))]
fn read_said(alloc: Global, kind: Kind, end: u64, behind: bool, octets: &[u8]) -> Result<Said, Bad>
    requires { RejectsBy kind end octets.now }
    ensures read { IsAnswerTaking KeepsSession (said_at kind end behind octets.now) result }
    ensures written { IfOk result IsSaid }
{
    read_avps(kind, end, behind, octets)?;
    pick(alloc, kind, end, octets)
}

/// What is behind the length of a header, and the octets that this counts.
#[tactic(auto, unfolding(crate::specs::Messages::rest_at))]
fn read_rest<'a>(left: &mut Left<'a>, size: u32) -> Result<Header<'a>, Refusal>
    requires { 20 ≤ size }
    ensures { GivesOrEnds result left.new (rest_at size left.old) }
{
    let short = truncated(1);
    let flags = left.octet(short)?;
    let code = left.u24(short)?;
    let Some(command) = command_of(code) else {
        return Err(Refusal {
            reason: Reason::DiaCommand(code),
            place: 5,
        });
    };
    let application = left.u32(short)?;
    if application != 0x0100_0023 {
        return Err(Refusal {
            reason: Reason::DiaHeader,
            place: 8,
        });
    }
    let hop = left.u32(short)?;
    let end_to_end = left.u32(short)?;
    let octets = left.octets(short, (size - 20) as usize)?;
    Ok(Header {
        command,
        request: flags >= 128,
        hop,
        end_to_end,
        end: u64::from(size),
        octets,
    })
}

/// The header (RFC 6733, 3), and the octets that its length counts behind it.
#[tactic(auto, unfolding(crate::specs::Messages::header_at))]
fn read_header<'a>(left: &mut Left<'a>) -> Result<Header<'a>, Refusal>
    ensures { GivesOrEnds result left.new (header_at left.old) }
{
    let version = left.octet(truncated(0))?;
    if version != 1 {
        return Err(Refusal {
            reason: Reason::DiaHeader,
            place: 0,
        });
    }
    let short = truncated(1);
    let size = left.u24(short)?;
    if size < 20 {
        return Err(short);
    }
    left.room(short, (size - 4) as usize)?;
    read_rest(left, size)
}

/// Reads a message, and stands behind it.
#[tactic(auto, unfolding(crate::specs::Messages::dia_at))]
fn read_message(alloc: Global, left: &mut Left) -> Result<Dia, Bad>
    ensures read { GivesTaking TakesMemory result left.new (dia_at left.old) }
    ensures written { IfOk result IsDia }
{
    let header = read_header(left)?;
    let behind = !left.is_empty();
    let kind = kind_of(&header);
    let Said { session, body } = read_said(alloc, kind, header.end, behind, header.octets)?;
    Ok(Dia {
        hop: header.hop,
        end: header.end_to_end,
        session,
        body,
    })
}

/// Reads the message that the octets are. It is refused for the first piece that is wrong: Truncated for a piece that is not whole, at
/// the place of a header octet or an AVP, and at 1 for a length that is below 20 or not all there; DiaHeader for the version and the
/// application, DiaCommand for the command; DiaAvp, RepeatedAvp and MissingAvp for AVPs; TrailingBytes for octets behind the length.
pub fn read_dia(alloc: Global, octets: &[u8]) -> Result<Dia, Bad>
    ensures reading { IsAnswerTaking TakesMemory (dia_of octets.now) result }
    ensures read { Answers (DiaSpells octets.now) (DiaRefuses octets.now) (SpellsTaking octets.now) result }
    ensures only { (d : Dia) → DiaSpells octets.now d → Answers (λ read. read ≡ d) (λ e. ⊥) ⊤ result }
    ensures refused { (e : Refusal) → DiaRefuses octets.now e → result ≡ Err (Refused e) }
    ensures written { IfOk result IsDia }
{
    let mut left = Left::new(octets);
    read_message(alloc, &mut left)
}
