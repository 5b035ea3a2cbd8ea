//! What the program keeps of each kind of message (3GPP TS 36.413, 9.1): its information elements in order, how it begins, who
//! sends it, and its name.

ghost use Rattle.std.specs.Prelude.{◌≡◌, ◌≤◌, ◌-◌, ◌++◌, map, length, replicate, eqb};
ghost use Rattle.std.specs.List.{IsDistinct};
ghost use Rattle.protocol_ies.specs.Tables.{no_row};
ghost use Rattle.s1ap_pdu.specs.Tables.{by_mme};
ghost use Rattle.s1ap_pdu.specs.Messages.{outcome_index, rows_of, header_of, is_downlink, name_of};
ghost use Rattle.s1ap_pdu.specs.Grammar.{kind_with};

use crate::header::{Header, Outcome};
use protocol_ies::{IeTable, ignore, optional, optional_ignore, reject, table};
use s1ap_ies::{Criticality, names};

/// A kind of message (3GPP TS 36.413, 9.1).
#[derive(Clone, Copy, Debug, PartialEq, Eq)]
pub enum MessageKind {
    /// INITIAL UE MESSAGE (9.1.7.1).
    InitialUeMessage,
    /// UPLINK NAS TRANSPORT (9.1.7.3).
    UplinkNasTransport,
    /// DOWNLINK NAS TRANSPORT (9.1.7.2).
    DownlinkNasTransport,
    /// INITIAL CONTEXT SETUP REQUEST (9.1.4.1).
    InitialContextSetupRequest,
    /// INITIAL CONTEXT SETUP RESPONSE (9.1.4.3).
    InitialContextSetupResponse,
    /// INITIAL CONTEXT SETUP FAILURE (9.1.4.4).
    InitialContextSetupFailure,
    /// UE CONTEXT RELEASE REQUEST (9.1.4.5).
    UeContextReleaseRequest,
    /// UE CONTEXT RELEASE COMMAND (9.1.4.6).
    UeContextReleaseCommand,
    /// UE CONTEXT RELEASE COMPLETE (9.1.4.7).
    UeContextReleaseComplete,
    /// UE CAPABILITY INFO INDICATION (9.1.10).
    UeCapabilityInfoIndication,
    /// PAGING (9.1.6).
    Paging,
    /// E-RAB SETUP REQUEST (9.1.3.1).
    ErabSetupRequest,
    /// E-RAB SETUP RESPONSE (9.1.3.2).
    ErabSetupResponse,
}

/// Who sends a message.
#[derive(Clone, Copy)]
enum Sender {
    /// A base station.
    Up,
    /// The MME.
    Down,
}

impl Sender {
    /// Is it the MME?
    const fn is_mme(self) -> bool
        ensures { result ≡ by_mme self }
    {
        matches!(self, Sender::Down)
    }
}

/// What the program keeps of a kind of message.
#[derive(Clone, Copy)]
struct MessageRow {
    /// Its name, as 3GPP TS 36.413, 9.3.3 spells it, with Erab for E-RAB.
    name: &'static str,
    /// Whether an MME sends it, and does not receive it.
    downlink: bool,
    /// How it begins.
    header: Header,
    /// Its information elements.
    ies: IeTable,
}

/// A row of these parts.
#[inline(always)]
const fn row(
    name: &'static str,
    sender: Sender,
    outcome: Outcome,
    code: u8,
    criticality: Criticality,
    ies: IeTable,
) -> MessageRow
    ensures name { result.name.now ≡ name.now }
    ensures downlink { result.downlink ≡ by_mme sender }
    ensures header { result.header ≡ record { outcome = outcome; code = code; criticality = criticality } }
    ensures ies { result.ies ≡ ies }
{
    MessageRow {
        name,
        downlink: sender.is_mme(),
        header: Header {
            outcome,
            code,
            criticality,
        },
        ies,
    }
}

/// The row of a kind of message: its name, who sends it, how it begins, and its information elements.
#[inline(always)]
#[rattlefmt::skip]
fn row_of(kind: MessageKind) -> MessageRow
    ensures name { result.name.now ≡ name_of kind }
    ensures downlink { result.downlink ≡ is_downlink kind }
    ensures header { result.header ≡ header_of kind }
    ensures len { result.ies.len ≡ length (rows_of kind) }
    ensures rows { result.ies.rows ≡ rows_of kind ++ replicate (6 - length (rows_of kind)) no_row }
{
    use Criticality::{Ignore, Reject};
    use MessageKind::*;
    use Outcome::{Initiating, Successful, Unsuccessful};
    use Sender::{Down, Up};
    match kind {
        InitialUeMessage => row("InitialUEMessage", Up, Initiating, names::INITIAL_UE_MESSAGE, Ignore, table!(reject(names::ENB_UE_S1AP_ID), reject(names::NAS_PDU), reject(names::TAI), ignore(names::CGI), ignore(names::RRC_CAUSE), optional(names::STMSI))),
        UplinkNasTransport => row("UplinkNASTransport", Up, Initiating, names::UPLINK_NAS_TRANSPORT, Ignore, table!(reject(names::MME_UE_S1AP_ID), reject(names::ENB_UE_S1AP_ID), reject(names::NAS_PDU), ignore(names::CGI), ignore(names::TAI))),
        DownlinkNasTransport => row("DownlinkNASTransport", Down, Initiating, names::DOWNLINK_NAS_TRANSPORT, Ignore, table!(reject(names::MME_UE_S1AP_ID), reject(names::ENB_UE_S1AP_ID), reject(names::NAS_PDU))),
        InitialContextSetupRequest => row("InitialContextSetupRequest", Down, Initiating, names::INITIAL_CONTEXT_SETUP, Reject, table!(reject(names::MME_UE_S1AP_ID), reject(names::ENB_UE_S1AP_ID), reject(names::BIT_RATES), reject(names::ERABS_TO_SETUP), reject(names::SEC_CAPS), reject(names::SECURITY_KEY))),
        InitialContextSetupResponse => row("InitialContextSetupResponse", Up, Successful, names::INITIAL_CONTEXT_SETUP, Reject, table!(ignore(names::MME_UE_S1AP_ID), ignore(names::ENB_UE_S1AP_ID), ignore(names::ERABS_DONE))),
        InitialContextSetupFailure => row("InitialContextSetupFailure", Up, Unsuccessful, names::INITIAL_CONTEXT_SETUP, Reject, table!(ignore(names::MME_UE_S1AP_ID), ignore(names::ENB_UE_S1AP_ID), ignore(names::CAUSE))),
        UeContextReleaseRequest => row("UEContextReleaseRequest", Up, Initiating, names::UE_CONTEXT_RELEASE_REQUEST, Ignore, table!(reject(names::MME_UE_S1AP_ID), reject(names::ENB_UE_S1AP_ID), ignore(names::CAUSE))),
        UeContextReleaseCommand => row("UEContextReleaseCommand", Down, Initiating, names::UE_CONTEXT_RELEASE, Reject, table!(reject(names::UE_IDS), ignore(names::CAUSE))),
        UeContextReleaseComplete => row("UEContextReleaseComplete", Up, Successful, names::UE_CONTEXT_RELEASE, Reject, table!(ignore(names::MME_UE_S1AP_ID), ignore(names::ENB_UE_S1AP_ID))),
        UeCapabilityInfoIndication => row("UECapabilityInfoIndication", Up, Initiating, names::UE_CAPABILITY_INFO_INDICATION, Ignore, table!(reject(names::MME_UE_S1AP_ID), reject(names::ENB_UE_S1AP_ID), ignore(names::RADIO_CAPABILITY))),
        Paging => row("Paging", Down, Initiating, names::PAGING, Ignore, table!(ignore(names::UE_INDEX), ignore(names::PAGING_ID), ignore(names::CN_DOMAIN), ignore(names::TAIS))),
        ErabSetupRequest => row("ErabSetupRequest", Down, Initiating, names::ERAB_SETUP, Reject, table!(reject(names::MME_UE_S1AP_ID), reject(names::ENB_UE_S1AP_ID), optional(names::BIT_RATES), reject(names::ERABS_TO_ADD))),
        ErabSetupResponse => row("ErabSetupResponse", Up, Successful, names::ERAB_SETUP, Reject, table!(ignore(names::MME_UE_S1AP_ID), ignore(names::ENB_UE_S1AP_ID), optional_ignore(names::ERABS_ADDED))),
    }
}

/// The information elements of that kind of message.
#[tactic(auto, using(crate::proofs::Distinct::ids_distinct))]
pub fn ies_of(kind: MessageKind) -> IeTable
    ensures len { result.len ≡ length (rows_of kind) }
    ensures rows { result.rows ≡ rows_of kind ++ replicate (6 - length (rows_of kind)) no_row }
    ensures distinct { IsDistinct eqb (map (λ row. row.id) (rows_of kind)) }
{
    row_of(kind).ies
}

/// How a message of that kind begins.
pub fn header_of(kind: MessageKind) -> Header
    ensures { result ≡ header_of kind }
{
    row_of(kind).header
}

/// The kind of message that begins with that outcome and procedure code.
#[tactic(auto, unfolding(crate::specs::Grammar::kind_among))]
#[rattlefmt::skip]
pub fn kind_with(outcome: Outcome, code: u8) -> Option<MessageKind>
    ensures { result ≡ kind_with (outcome_index outcome) code }
{
    use Outcome::{Initiating, Successful, Unsuccessful};
    match (outcome, code) {
        (Initiating, names::INITIAL_UE_MESSAGE) => Some(MessageKind::InitialUeMessage),
        (Initiating, names::UPLINK_NAS_TRANSPORT) => Some(MessageKind::UplinkNasTransport),
        (Initiating, names::DOWNLINK_NAS_TRANSPORT) => Some(MessageKind::DownlinkNasTransport),
        (Initiating, names::INITIAL_CONTEXT_SETUP) => Some(MessageKind::InitialContextSetupRequest),
        (Successful, names::INITIAL_CONTEXT_SETUP) => Some(MessageKind::InitialContextSetupResponse),
        (Unsuccessful, names::INITIAL_CONTEXT_SETUP) => Some(MessageKind::InitialContextSetupFailure),
        (Initiating, names::UE_CONTEXT_RELEASE_REQUEST) => Some(MessageKind::UeContextReleaseRequest),
        (Initiating, names::UE_CONTEXT_RELEASE) => Some(MessageKind::UeContextReleaseCommand),
        (Successful, names::UE_CONTEXT_RELEASE) => Some(MessageKind::UeContextReleaseComplete),
        (Initiating, names::UE_CAPABILITY_INFO_INDICATION) => Some(MessageKind::UeCapabilityInfoIndication),
        (Initiating, names::PAGING) => Some(MessageKind::Paging),
        (Initiating, names::ERAB_SETUP) => Some(MessageKind::ErabSetupRequest),
        (Successful, names::ERAB_SETUP) => Some(MessageKind::ErabSetupResponse),
        _ => None,
    }
}

/// Is it a message that an MME sends, and does not receive?
pub fn is_downlink(kind: MessageKind) -> bool
    ensures { result ≡ is_downlink kind }
{
    row_of(kind).downlink
}

/// The name of a message, as 3GPP TS 36.413, 9.3.3 spells it, with Erab for E-RAB.
pub fn message_name(kind: MessageKind) -> &'static str
    ensures { result.now ≡ name_of kind }
{
    row_of(kind).name
}
