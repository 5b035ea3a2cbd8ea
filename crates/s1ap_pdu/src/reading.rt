//! Reading messages.

ghost use Rattle.std.specs.Prelude.{◌≡◌, ◌≤◌, ◌<◌, IfOk, IfSome, length};
ghost use Rattle.echo_base.specs.Reading.{Gives};
ghost use Rattle.aper_fields.specs.Reading.{whole_at};
ghost use Rattle.s1ap_pdu.specs.Messages.{rows_of};
ghost use Rattle.protocol_ies.specs.Slots.{empty};
ghost use Rattle.s1ap_pdu.specs.Reading.{ie_at, fields_at, ies_at, pdu_at};
ghost use Rattle.s1ap_pdu.specs.Grammar.{start};
ghost use Rattle.s1ap_pdu.specs.Built.{message_at, uplink_at};
ghost use Rattle.s1ap_pdu.specs.Memory.{IsFound, IsRead};

use crate::build::message;
use crate::header::read_header;
use crate::pdu::Pdu;
use crate::slots::Slots;
use crate::tables::{MessageKind, ies_of, is_downlink};
use crate::value::{FoundValue, find_value};
use aper_fields::{BitReader, Ranged, close, read_criticality, read_open, read_zero_bit};
use echo_base::{Bad, Reason, Refusal};
use protocol_ies::{IeRow, place_of, rows};
use std::alloc::Global;

/// Reads an IE behind others, and what its table names with its place.
#[tactic(auto, unfolding(crate::specs::Reading::ie_at, aper_fields::specs::Reading::whole_at))]
fn read_ie<'a>(
    r: &mut BitReader<'a>,
    rows: &[IeRow],
    slots: &Slots,
) -> Result<Option<(usize, FoundValue<'a>)>, Refusal>
    requires { length rows.now ≤ 6 }
    ensures read { Gives result r.old r.new (ie_at rows.now slots.now r.old) }
    ensures within { IfOk result (λ found. IfSome found (λ f. f.0 < 6)) }
{
    let mut ahead = r.ahead();
    let id = Ranged::<0, 65535>::read(&mut ahead)? as u16;
    let place = place_of(rows, id);
    if slots.values().is_filled(place) {
        return Err(r.refusal(Reason::RepeatedIe(id)));
    }
    read_criticality(&mut ahead)?;
    let mut content = read_open(&mut ahead)?;
    let Some(place) = place else {
        *r = ahead;
        return Ok(None);
    };
    let start = content.ahead();
    let value = find_value(&mut content, id)?;
    close(&start, &content)?;
    *r = ahead;
    Ok(Some((place, value)))
}

/// Reads `count` IEs of the table `rows`, in any order, each into the slot of its row; an IE of no row is passed over. They
/// are refused for the first that is wrong, as `read_ie` refuses it.
#[tactic(auto, unfolding(crate::specs::Reading::fields_at))]
fn read_fields<'a>(r: &mut BitReader<'a>, rows: &[IeRow], count: u64) -> Result<Slots<'a>, Refusal>
    requires { length rows.now ≤ 6 }
    ensures { Gives result r.old r.new (fields_at rows.now count empty r.old) }
{
    let mut ahead = r.ahead();
    let mut slots = Slots::new();
    let mut left = count;
    while left > 0 {
        let found = read_ie(&mut ahead, rows, &slots)?;
        slots.note(found);
        left -= 1;
    }
    *r = ahead;
    Ok(slots)
}

/// Reads the SEQUENCE of IEs of that kind of message.
#[tactic(auto, unfolding(crate::specs::Reading::ies_at))]
fn read_ies<'a>(r: &mut BitReader<'a>, kind: MessageKind) -> Result<Slots<'a>, Refusal>
    ensures { Gives result r.old r.new (ies_at kind r.old) }
{
    let mut ahead = r.ahead();
    read_zero_bit(&mut ahead, Reason::SequenceExtension)?;
    let count = Ranged::<0, 65535>::read(&mut ahead)?;
    let table = ies_of(kind);
    let slots = read_fields(&mut ahead, rows(&table), count)?;
    *r = ahead;
    Ok(slots)
}

/// Reads the header, and the open type that contains the IEs.
#[tactic(auto, unfolding(crate::specs::Reading::pdu_at, aper_fields::specs::Reading::whole_at, aper_fields::specs::Reading::contained_at))]
fn read_parts<'a>(r: &mut BitReader<'a>) -> Result<(MessageKind, Slots<'a>), Refusal>
    ensures { Gives result r.old r.new (pdu_at r.old) }
{
    let mut ahead = r.ahead();
    let kind = read_header(&mut ahead)?;
    let mut content = read_open(&mut ahead)?;
    let start = content.ahead();
    let slots = read_ies(&mut content, kind)?;
    close(&start, &content)?;
    *r = ahead;
    Ok((kind, slots))
}

/// Reads a header and IEs that are all of the octets.
#[tactic(auto, unfolding(aper_fields::specs::Reading::whole_at))]
fn read_whole(bytes: &[u8]) -> Result<(MessageKind, Slots<'_>), Refusal>
    ensures { result ≡ whole_at pdu_at (start bytes.now) }
{
    let start = BitReader::new(bytes, 0);
    let mut r = start.ahead();
    let parts = read_parts(&mut r)?;
    close(&start, &r)?;
    Ok(parts)
}

/// Finds the message that is all of the octets: its kind, and all values that it needs. It takes no memory.
#[tactic(auto, using(crate::proofs::Found::wrong_parts, crate::proofs::Found::found_whole, crate::proofs::Found::found_lacking))]
fn find_message(bytes: &[u8]) -> Result<(MessageKind, Slots<'_>), Refusal>
    ensures { IsFound (message_at bytes.now) result }
{
    let (kind, slots) = read_whole(bytes)?;
    if let Some(id) = slots.values().lacking(rows(&ies_of(kind))) {
        return Err(Refusal {
            reason: Reason::MissingIe(id),
            place: bytes.len() as u64,
        });
    }
    Ok((kind, slots))
}

/// Reads the message that all of the octets are piece by piece, whatever they are: refused for the first piece that is wrong,
/// and MissingIe at their end where none is and an IE is lacking (TS 36.413, 9.1). It fails for want of memory only where the
/// message takes some.
#[tactic(auto, using(crate::proofs::Found::found_ok, crate::proofs::Found::found_short, crate::proofs::Found::found_made))]
pub fn read_pieces(alloc: Global, bytes: &[u8]) -> Result<Pdu, Bad>
    ensures { IsRead (message_at bytes.now) result }
{
    let (kind, slots) = find_message(bytes)?;
    Ok(message(alloc, kind, &slots)?)
}

/// Reads a message that an MME receives piece by piece: refused as `read_pieces` refuses, and WrongDirection at octet 1 for one
/// that an MME sends.
#[tactic(auto, using(crate::proofs::Found::uplink_ok, crate::proofs::Found::uplink_other, crate::proofs::Found::uplink_short, crate::proofs::Found::uplink_refused, crate::proofs::Found::found_made))]
pub fn receive_pieces(alloc: Global, bytes: &[u8]) -> Result<Pdu, Bad>
    ensures { IsRead (uplink_at bytes.now) result }
{
    let (kind, slots) = find_message(bytes)?;
    if is_downlink(kind) {
        return Err(Bad::Refused(Refusal {
            reason: Reason::WrongDirection,
            place: 1,
        }));
    }
    Ok(message(alloc, kind, &slots)?)
}
