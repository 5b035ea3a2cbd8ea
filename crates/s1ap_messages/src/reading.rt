//! Reading messages.

ghost use Rattle.std.specs.Prelude.{◌≡◌, true, IfOk, Ok, Err, ⊤};
ghost use Rattle.echo_base.specs.declared.refusal.Refusal.{Refusal};
ghost use Rattle.echo_base.specs.declared.refusal.Bad.TheVariants as bad;
ghost use Rattle.s1ap_pdu.specs.declared.pdu.Pdu.{Pdu};
ghost use Rattle.s1ap_pdu.specs.Grammar.{Spells, Refused, SpellsUplink, RefusedUplink};
ghost use Rattle.s1ap_pdu.specs.Run.{IsRight};
ghost use Rattle.s1ap_pdu.specs.Built.{message_at, uplink_at};
ghost use Rattle.echo_base.specs.Answer.{Answers, IsAnswer};
ghost use Rattle.s1ap_pdu.specs.Memory.{takes_memory, IsRead};

use crate::usual::read_usual;
use echo_base::{Bad, Refusal};
use s1ap_pdu::{Pdu, is_downlink, read_pieces, receive_pieces};
use std::alloc::Global;

/// Reads a message that is all of the octets: one that the short way knows at once, and any other piece by piece.
fn read_message(alloc: Global, bytes: &[u8]) -> Result<Pdu, Bad>
    ensures { IsRead (message_at bytes.now) result }
{
    if let Some(pdu) = read_usual(alloc, bytes) {
        return Ok(pdu);
    }
    read_pieces(alloc, bytes)
}

/// Reads a message that an MME receives: one that the short way knows at once, and any other piece by piece.
#[tactic(auto, unfolding(s1ap_pdu::specs::Built::uplink_at))]
fn read_received(alloc: Global, bytes: &[u8]) -> Result<Pdu, Bad>
    ensures { IsRead (uplink_at bytes.now) result }
{
    if let Some(pdu) = read_usual(alloc, bytes) {
        if !is_downlink(pdu.kind()) {
            return Ok(pdu);
        }
    }
    receive_pieces(alloc, bytes)
}

/// Reads the message that all of the octets are. It is refused for the first piece that is wrong, at its octet: Truncated,
/// LongLength, NonZeroPadding, NotMinimal, OutOfRange, TooLong, SequenceExtension, BadChoice, BadCriticality, TrailingBytes as
/// the pieces are (ITU-T X.691); OtherProcedure at octet 1 for an outcome and procedure code of no message; RepeatedIe at the
/// second id; MissingIe at the id of an item that is not one of its list; and where no piece is wrong MissingIe at the end of the octets, for the first IE of the message's table that it
/// needs. IEs may stand in any order and with any criticality, and other IEs are passed over. Memory is taken once
/// the message is found right, for its NAS-PDU, key, radio capability and lists of E-RABs.
///
/// ```rust
/// let octets = hex::decode(alloc, "2017000f000002000040020001000840020001")?;
/// let pdu = read_pdu(alloc, &octets)?;
/// assert_eq!(rt; pdu.kind(), MessageKind::UeContextReleaseComplete);
/// ```
pub fn read_pdu(alloc: Global, bytes: &[u8]) -> Result<Pdu, Bad>
    // What is read is spelled so, and what is refused is refused for the refusal that is due.
    ensures answers { Answers (Spells bytes.now) (Refused bytes.now) ⊤ result }
    // The message that the octets are is read, unless memory runs out.
    ensures only { (p : Pdu) → Spells bytes.now p → IsAnswer (Ok p) result }
    // The refusal that is due is given, whatever memory there is.
    ensures refused { (e : Refusal) → Refused bytes.now e → result ≡ Err (bad.Refused e) }
    // Memory runs out only for a message with a field that takes some.
    ensures memory { result ≡ Err bad.OutOfMemory
        → (p : Pdu) × Spells bytes.now p × (takes_memory p ≡ true) }
    // What is read can be written again.
    ensures right { IfOk result IsRight }
    // The answer is a function of the octets.
    ensures reading { IsAnswer (message_at bytes.now) result }
{
    read_message(alloc, bytes)
}

/// Reads the message that all of the octets are, of those that an MME receives: refused as `read_pdu` refuses, and
/// WrongDirection at octet 1 for a message that an MME sends.
pub fn read_uplink(alloc: Global, bytes: &[u8]) -> Result<Pdu, Bad>
    ensures answers { Answers (SpellsUplink bytes.now) (RefusedUplink bytes.now) ⊤ result }
    ensures only { (p : Pdu) → SpellsUplink bytes.now p → IsAnswer (Ok p) result }
    ensures refused { (e : Refusal) → RefusedUplink bytes.now e → result ≡ Err (bad.Refused e) }
    ensures memory { result ≡ Err bad.OutOfMemory
        → (p : Pdu) × SpellsUplink bytes.now p × (takes_memory p ≡ true) }
    ensures right { IfOk result IsRight }
    ensures reading { IsAnswer (uplink_at bytes.now) result }
{
    read_received(alloc, bytes)
}
