//! The messages of a device.

ghost use Rattle.std.specs.Prelude.{◌≡◌, ◌++◌, ◌<◌, ◌≤◌, ◌^◌, length, codes, false, IfOk, OnOk, IfSome, string_bytes};
ghost use Rattle.hex.specs.Hex.{encode_lower};
ghost use Rattle.s1ap_ies.specs.Run.{IsStmsi};
ghost use Rattle.s1ap_pdu.specs.Run.{written};
ghost use Rattle.s1ap_pdu.specs.Small.{IsSmall};
ghost use Rattle.trace_gen.specs.Made.{ended};
ghost use Rattle.trace_gen.specs.Messages.{initial, uplink, context_made, inactivity, message_of, trace_line};

use crate::nas;
use crate::script::{Sending, Sent};
use crate::subscribers::imsi_of;
use aper_fields::EnumValue;
use device_types::Octets;
use echo_base::{OutOfMemory, encode_hex};
use s1ap_ies::{Cause, Cgi, ErabDone, Stmsi, Tai, names};
use s1ap_messages::{ErabsDone, Pdu, small_is_right, write_pdu};
use std::alloc::Global;

/// The PLMN identity of PLMN 208 93 (3GPP TS 23.003, 12.1), as one number.
const PLMN: u32 = 0x02f839;

/// The index of mo-Signalling among the RRC establishment causes (3GPP TS 36.413, 9.2.1.3a).
const SIGNALLING: u8 = 3;

/// The index of mo-Data.
const DATA_WANTED: u8 = 4;

/// Octets in memory of their own.
fn owned(alloc: Global, octets: &[u8]) -> Result<Octets, OutOfMemory>
    ensures { IfOk result (λ own. own ≡ octets.now) }
{
    Ok(Octets::from(Vec::from_slice(alloc, octets)?))
}

/// INITIAL UE MESSAGE (9.1.7.1) with a NAS message.
fn initial(
    alloc: Global,
    device: u32,
    message: &[u8],
    cause: u8,
    stmsi: Option<Stmsi>,
) -> Result<Pdu, OutOfMemory>
    requires device { device < 2 ^ 24 }
    requires message { length message.now ≤ 2048 }
    requires cause { cause < 5 }
    requires stmsi { IfSome stmsi IsStmsi }
    ensures message { IfOk result (λ p. p ≡ initial device message.now (record { extended = false; index = cause }) stmsi) }
    ensures small { IfOk result IsSmall }
{
    Ok(Pdu::InitialUeMessage {
        enb: device,
        nas: owned(alloc, message)?,
        tai: Tai { plmn: PLMN, tac: 1 },
        cgi: Cgi {
            plmn: PLMN,
            cell: 1,
        },
        rrc: EnumValue {
            extended: false,
            index: cause,
        },
        stmsi,
    })
}

/// UPLINK NAS TRANSPORT (9.1.7.3) with a NAS message.
fn uplink(alloc: Global, device: u32, message: &[u8]) -> Result<Pdu, OutOfMemory>
    requires device { device < 2 ^ 24 }
    requires message { length message.now ≤ 2048 }
    ensures message { IfOk result (λ p. p ≡ uplink device message.now) }
    ensures small { IfOk result IsSmall }
{
    Ok(Pdu::UplinkNasTransport {
        mme: device,
        enb: device,
        nas: owned(alloc, message)?,
        cgi: Cgi {
            plmn: PLMN,
            cell: 1,
        },
        tai: Tai { plmn: PLMN, tac: 1 },
    })
}

/// INITIAL CONTEXT SETUP RESPONSE (9.1.4.3) with the default bearer.
#[tactic(auto, unfolding(s1ap_ies::specs::Values::erab_done, s1ap_ies::specs::Values::erab_id, s1ap_ies::specs::Values::address))]
fn context_made(alloc: Global, device: u32) -> Result<Pdu, OutOfMemory>
    requires device { device < 2 ^ 24 }
    ensures message { IfOk result (λ p. p ≡ context_made device) }
    ensures small { IfOk result IsSmall }
{
    let mut done = ErabsDone::new(alloc);
    done.push(ErabDone {
        id: names::DEFAULT_ERAB,
        address: 0xc0a80002,
        teid: 2,
    })?;
    Ok(Pdu::InitialContextSetupResponse {
        mme: device,
        enb: device,
        done,
    })
}

/// UE CAPABILITY INFO INDICATION (9.1.10).
fn radio_capability(alloc: Global, device: u32) -> Result<Pdu, OutOfMemory>
    requires device { device < 2 ^ 24 }
    ensures message { IfOk result (λ p. p ≡ message_of device Sending.RadioCapability) }
    ensures small { IfOk result IsSmall }
{
    Ok(Pdu::UeCapabilityInfoIndication {
        mme: device,
        enb: device,
        radio: owned(alloc, &[0x01, 0x02])?,
    })
}

/// UE CONTEXT RELEASE REQUEST (9.1.4.5) for inactivity.
#[tactic(auto, unfolding(device_types::specs::Cause::cause_roots))]
fn release_request(device: u32) -> Pdu
    requires device { device < 2 ^ 24 }
    ensures message { result ≡ message_of device Sending.ReleaseRequest }
    ensures small { IsSmall result }
{
    Pdu::UeContextReleaseRequest {
        mme: device,
        enb: device,
        cause: Cause {
            group: 0,
            extended: false,
            index: 20,
        },
    }
}

/// The message that a device sends.
fn message_of(alloc: Global, device: u32, sending: Sending) -> Result<Pdu, OutOfMemory>
    requires device { device < 2 ^ 24 }
    ensures message { IfOk result (λ p. p ≡ message_of device sending) }
    ensures small { IfOk result IsSmall }
{
    match sending {
        Sending::AttachRequest => {
            let message = nas::attach_request(imsi_of(device));
            initial(alloc, device, &message, SIGNALLING, None)
        }
        Sending::AuthenticationResponse => uplink(alloc, device, &nas::AUTHENTICATION_RESPONSE),
        Sending::SecurityComplete => uplink(alloc, device, &nas::SECURITY_COMPLETE),
        Sending::AttachContext | Sending::ServiceContext => context_made(alloc, device),
        Sending::RadioCapability => radio_capability(alloc, device),
        Sending::AttachComplete => uplink(alloc, device, &nas::ATTACH_COMPLETE),
        Sending::ReleaseRequest => Ok(release_request(device)),
        Sending::ReleaseComplete => Ok(Pdu::UeContextReleaseComplete {
            mme: device,
            enb: device,
        }),
        Sending::ServiceRequest => {
            let stmsi = Stmsi {
                mmec: 1,
                tmsi: device,
            };
            initial(
                alloc,
                device,
                &nas::SERVICE_REQUEST,
                DATA_WANTED,
                Some(stmsi),
            )
        }
        Sending::AreaRequest => {
            let message = nas::area_request(device);
            initial(alloc, device, &message, SIGNALLING, None)
        }
        Sending::DetachRequest => uplink(alloc, device, &nas::detach_request(device)),
    }
}

/// Puts a line of the octets of a message behind a text.
fn put_octets(alloc: Global, text: &mut String, octets: &[u8]) -> Result<(), OutOfMemory>
    ensures { OnOk result (string_bytes text.new ≡ string_bytes text.old ++ ended (codes "1 " ++ encode_lower octets.now)) }
{
    let digits = encode_hex(alloc, octets)?;
    writeln!(text, "1 {digits}")
}

/// Puts the line of a message behind a text.
pub fn put_trace_line(alloc: Global, text: &mut String, sent: Sent) -> Result<(), OutOfMemory>
    requires device { sent.device < 2 ^ 24 }
    ensures { OnOk result (string_bytes text.new ≡ string_bytes text.old ++ ended (trace_line sent)) }
{
    let message = message_of(alloc, sent.device, sent.sending)?;
    // a message of fields in their ranges and of a short NAS-PDU fits into its open types
    small_is_right();
    let octets = write_pdu(alloc, &message)?;
    put_octets(alloc, text, octets.octets())
}
