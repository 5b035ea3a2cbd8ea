//! The checks of a line.

ghost use Rattle.std.specs.Prelude.{◌≡◌, ℕ, List, length, IfOk, OnOk, Ok, Err};
ghost use Rattle.device_types.specs.Numbers.{IsWithin};
ghost use Rattle.echo_base.specs.Answer.{IsAnswer};
ghost use Rattle.entry_edge.specs.Sent.{octets_of, said_by};
ghost use Rattle.entry_edge.specs.Trace.{Turn, said_in, station_in, known, device_of_identity, bound, agreed, device_for, taken_at};
ghost use Rattle.entry_edge.specs.Kept.{Keeps};

use crate::bindings::{Bindings, Pair};
use crate::sent::{Claim, Sent, notice, sent_of};
use case_form::{TraceKind, TraceLine};
use device_types::{DeviceId, Octets};
use echo_base::{Bad, Identity, Reason, Refusal, read_hex, refused};
use s1ap_messages::read_pdu;
use std::alloc::Global;
use subs_table::SubsTable;

/// A message that is admitted.
#[derive(Debug, Drop)]
pub struct Taken {
    /// The device that it is from.
    pub device: DeviceId,
    /// The base station that it came from, or 0 for a notice.
    pub station: u16,
    /// What it says.
    pub sent: Sent,
}

/// Puts the octets, at least one, that hexadecimal text in either case stands for in place of what the vector holds. The text is
/// refused as BadHex, with place 0.
#[tactic(auto, unfolding(crate::specs::Sent::octets_of))]
fn read_octets(octets: &mut Vec<u8>, text: &[u8]) -> Result<(), Bad>
    ensures octets { OnOk result (octets_of text.now ≡ Ok octets.new.items) }
    ensures refused { (e : Refusal) → result ≡ Err (Bad.Refused e) → octets_of text.now ≡ Err e }
{
    if !read_hex(octets, text)? || octets.is_empty() {
        return Err(refused(Reason::BadHex).into());
    }
    Ok(())
}

/// The octets, at least one, that hexadecimal text in either case stands for. It is refused as BadHex, with place 0.
pub fn decode(alloc: Global, text: &[u8]) -> Result<Octets, Bad>
    ensures { IsAnswer (octets_of text.now) result }
{
    let mut octets = Vec::new(alloc);
    read_octets(&mut octets, text)?;
    Ok(Octets::from(octets))
}

/// What a line says, whatever came before it. Its octets go into the vector.
#[tactic(auto, unfolding(crate::specs::Sent::said_by))]
fn read_line(alloc: Global, octets: &mut Vec<u8>, text: &[u8]) -> Result<Sent, Bad>
    ensures { IsAnswer (said_by text.now) result }
{
    read_octets(octets, text)?;
    let pdu = read_pdu(alloc, octets)?;
    sent_of(alloc, octets.len() as u64, pdu)
}

/// What a line of that kind says, whatever came before it. Its octets go into the vector.
fn read_kind(alloc: Global, octets: &mut Vec<u8>, kind: &TraceKind) -> Result<Sent, Bad>
    ensures { IsAnswer (said_in kind.now) result }
{
    match kind {
        TraceKind::Pdu { text, .. } => read_line(alloc, octets, text.octets()),
        TraceKind::Data { imsi } => Ok(notice(*imsi)),
    }
}

/// The base station that a line of that kind names; a notice comes from none, for which 0 stands.
fn station_of(kind: &TraceKind) -> u16
    ensures { result ≡ station_in kind.now }
{
    match kind {
        TraceKind::Pdu { station, .. } => *station,
        TraceKind::Data { .. } => 0,
    }
}

/// The device with that identity.
fn known(table: &SubsTable, identity: Identity) -> Result<DeviceId, Refusal>
    ensures known { result ≡ known identity (device_of_identity table.now identity) }
    ensures within { IfOk result (λ d. IsWithin (length table.now) d.0) }
{
    let found = match identity {
        Identity::Imsi(imsi) => table.by_imsi(imsi),
        Identity::Tmsi(tmsi) => table.by_tmsi(tmsi),
    };
    found.ok_or(refused(Reason::UnknownDevice(identity)))
}

/// The device of that number, if the pair is bound to it.
fn agreed(bindings: &Bindings, pair: Pair, mme: u32) -> Result<DeviceId, Refusal>
    ensures agreed { (rows : ℕ) (H : List Turn) → Keeps rows H bindings.now → result ≡ agreed pair mme (bound pair H) }
    ensures within { (rows : ℕ) (H : List Turn) → Keeps rows H bindings.now → IfOk result (λ d. IsWithin rows d.0) }
{
    if !bindings.is_bound(pair, mme) {
        return Err(refused(Reason::UnknownPair(pair.0, pair.1)));
    }
    Ok(DeviceId(mme))
}

/// The device that a message is from.
fn device_for(
    table: &SubsTable,
    bindings: &Bindings,
    pair: Pair,
    claim: Claim,
) -> Result<DeviceId, Refusal>
    ensures device { (H : List Turn) → Keeps (length table.now) H bindings.now → result ≡ device_for table.now H pair claim }
    ensures within { (H : List Turn) → Keeps (length table.now) H bindings.now → IfOk result (λ d. IsWithin (length table.now) d.0) }
{
    match claim {
        Claim::Named(identity) => known(table, identity),
        Claim::Numbered(mme) => agreed(bindings, pair, mme),
        Claim::Noticed(imsi) => known(table, Identity::Imsi(imsi)),
    }
}

/// The checks of a line. Its octets go into the vector.
#[tactic(auto, unfolding(crate::specs::Trace::taken_at))]
pub fn check(
    alloc: Global,
    octets: &mut Vec<u8>,
    table: &SubsTable,
    bindings: &Bindings,
    line: &TraceLine,
) -> Result<Taken, Bad>
    ensures taken { (H : List Turn) → Keeps (length table.now) H bindings.now → IsAnswer (taken_at table.now H line.now) result }
    ensures within { (H : List Turn) → Keeps (length table.now) H bindings.now → IfOk result (λ t. IsWithin (length table.now) t.device.0) }
{
    let sent = read_kind(alloc, octets, &line.kind)?;
    let station = station_of(&line.kind);
    let pair = (station, sent.enb);
    let device = device_for(table, bindings, pair, sent.claim)?;
    Ok(Taken {
        device,
        station,
        sent,
    })
}
