//! The calls of devices to a peer and its answers, as text.

ghost use Rattle.std.specs.Prelude.{◌≡◌, ◌≢◌, ◌≤◌, ◌<◌, ◌+◌, ◌^◌, ℕ, List, [], ◌∷◌, ◌++◌, length, replicate, codes, All, OnOk, IfOk, string_bytes};
ghost use Rattle.device_types.specs.Numbers.{IsWithin};
ghost use Rattle.device_types.specs.Subscriber.{IsSubscriber};
ghost use Rattle.peer_calls.specs.Calls.{calls_of, with_call};
ghost use Rattle.report_text.specs.Lines.{ended};
ghost use Rattle.report_text.specs.Calls.{Wire, imsi_line, wire_line, exchange, device_calls, calls_at, calls_text, AreCallers};

use crate::device::Imsi;
use device_types::{DeviceEnd, DeviceId, Octets, Subscriber};
use echo_base::{OutOfMemory, encode_hex};
use std::alloc::{AllocError, Global};
use subs_table::SubsTable;

/// A peer that devices call, with the octets of their calls and of its answers.
pub(crate) trait Peer: Sized + Drop {
    /// A call.
    type Call: Copy;

    /// The calls that were accepted, a list for each device.
    ghost accepted: { Self → List (List Self.Call) };

    /// Which calls a device made, and what is written of them and of the answers.
    ghost wire: { Wire Self.Call };

    /// One that has accepted no call of so many devices.
    fn open(alloc: Global, devices: u32) -> Result<Self, AllocError>
        ensures { IfOk result (λ peer. accepted peer ≡ replicate devices []) };

    /// The calls that a device made.
    fn calls_in(end: &DeviceEnd) -> &[Self::Call]
        ensures { result.now ≡ wire.calls end.now };

    /// The octets of call `k` of the row's device.
    fn call_octets(
        alloc: Global,
        row: &Subscriber,
        k: u64,
        call: &Self::Call,
    ) -> Result<Octets, OutOfMemory>
        requires row { IsSubscriber row.now }
        requires number { k < 2 ^ 24 }
        requires may { wire.MayMake row.now call.now }
        ensures { IfOk result (λ octets. octets ≡ wire.call row.now k call.now) };

    /// Accepts call `k` of the row's device, which is the next one, and gives the octets of the answer.
    fn answer_octets(
        &mut self,
        alloc: Global,
        row: &Subscriber,
        k: u64,
        call: Self::Call,
    ) -> Result<Octets, OutOfMemory>
        requires row { IsSubscriber row.now }
        requires device { IsWithin (length (accepted self.old)) row.now.number }
        requires next { k ≡ length (calls_of (accepted self.old) row.now.number) + 1 }
        requires number { k < 2 ^ 24 }
        ensures octets { IfOk result (λ octets. octets ≡ wire.answer row.now k (calls_of (accepted self.old) row.now.number ++ call ∷ [])) }
        ensures accepted { OnOk result (accepted self.new ≡ with_call (accepted self.old) row.now.number call) };
}

/// Puts the line of a device behind a text.
fn put_imsi(text: &mut String, imsi: u64) -> Result<(), OutOfMemory>
    ensures { OnOk result (string_bytes text.new ≡ string_bytes text.old ++ ended (imsi_line imsi)) }
{
    let imsi = Imsi(imsi);
    writeln!(text, "device {imsi}")
}

/// Puts the line of a call or an answer behind a text.
fn put_octets(
    alloc: Global,
    text: &mut String,
    word: &str,
    number: u64,
    octets: &[u8],
) -> Result<(), OutOfMemory>
    ensures { OnOk result (string_bytes text.new ≡ string_bytes text.old ++ ended (wire_line word.now number octets.now)) }
{
    let digits = encode_hex(alloc, octets)?;
    writeln!(text, "{word} {number} {digits}")
}

/// Puts call `k` of the row's device to the peer, and the lines of it and of the answer behind a text.
fn put_exchange<P: Peer>(
    alloc: Global,
    text: &mut String,
    peer: &mut P,
    row: &Subscriber,
    k: u64,
    call: P::Call,
) -> Result<(), OutOfMemory>
    requires row { IsSubscriber row.now }
    requires device { IsWithin (length (P.accepted peer.old)) row.now.number }
    requires next { k ≡ length (calls_of (P.accepted peer.old) row.now.number) + 1 }
    requires number { k < 2 ^ 24 }
    requires may { P.wire.MayMake row.now call }
    ensures text { OnOk result (string_bytes text.new ≡ string_bytes text.old
        ++ ended (exchange P.wire row.now (calls_of (P.accepted peer.old) row.now.number ++ call ∷ []) k call)) }
    ensures accepted { OnOk result (P.accepted peer.new ≡ with_call (P.accepted peer.old) row.now.number call) }
{
    let asked = P::call_octets(alloc, row, k, &call)?;
    let answered = peer.answer_octets(alloc, row, k, call)?;
    put_octets(alloc, text, "call", k, asked.octets())?;
    put_octets(alloc, text, "answer", k, answered.octets())
}

/// Puts the calls of the row's device to the peer, which has accepted none of it, and the line of the device and those of the calls and
/// the answers behind a text. The calls are numbered from 1.
fn put_device<P: Peer>(
    alloc: Global,
    text: &mut String,
    peer: &mut P,
    row: &Subscriber,
    calls: &[P::Call],
) -> Result<(), OutOfMemory>
    requires row { IsSubscriber row.now }
    requires device { IsWithin (length (P.accepted peer.old)) row.now.number }
    requires none { calls_of (P.accepted peer.old) row.now.number ≡ [] }
    requires few { length calls.now < 2 ^ 24 }
    requires may { All (P.wire.MayMake row.now) calls.now }
    ensures text { OnOk result (string_bytes text.new ≡ string_bytes text.old ++ device_calls P.wire row.now calls.now) }
    ensures devices { OnOk result (length (P.accepted peer.new) ≡ length (P.accepted peer.old)) }
    ensures others { OnOk result ((d : ℕ) → 1 ≤ d → d ≢ row.now.number → calls_of (P.accepted peer.new) d ≡ calls_of (P.accepted peer.old) d) }
{
    put_imsi(text, row.imsi)?;
    let mut number = 0;
    for call in calls {
        number += 1;
        put_exchange(alloc, text, peer, row, number, *call)?;
    }
    Ok(())
}

/// Puts what a device called, and what the peer answers, behind a text.
fn put_at<P: Peer>(
    alloc: Global,
    text: &mut String,
    peer: &mut P,
    table: &SubsTable,
    finals: &[DeviceEnd],
    device: DeviceId,
) -> Result<(), OutOfMemory>
    requires device { IsWithin (length table.now) device.0 }
    requires ends { AreCallers P.wire table.now finals.now }
    requires devices { length (P.accepted peer.old) ≡ length table.now }
    requires none { calls_of (P.accepted peer.old) device.0 ≡ [] }
    ensures text { OnOk result (string_bytes text.new ≡ string_bytes text.old ++ calls_at P.wire table.now finals.now device) }
    ensures devices { OnOk result (length (P.accepted peer.new) ≡ length (P.accepted peer.old)) }
    ensures others { OnOk result ((d : ℕ) → 1 ≤ d → d ≢ device.0 → calls_of (P.accepted peer.new) d ≡ calls_of (P.accepted peer.old) d) }
{
    let row = table.row(device);
    let end = &finals[device.index()];
    put_device(alloc, text, peer, row, P::calls_in(end))
}

/// For each device, in the order of their IMSIs, a line `device IMSI`, and for each of its calls to a peer, numbered from 1, the
/// lines `call K HEX` and `answer K HEX`.
pub(crate) fn calls_text<P: Peer>(
    alloc: Global,
    table: &SubsTable,
    finals: &[DeviceEnd],
) -> Result<Octets, OutOfMemory>
    requires { AreCallers P.wire table.now finals.now }
    ensures { IfOk result (λ text. text ≡ calls_text P.wire table.now finals.now) }
{
    let mut peer = P::open(alloc, table.len())?;
    let mut text = String::new(alloc);
    let devices = table.in_imsi_order(alloc)?;
    for device in &devices {
        put_at(alloc, &mut text, &mut peer, table, finals, *device)?;
    }
    Ok(Octets::from(text.into_bytes()))
}
