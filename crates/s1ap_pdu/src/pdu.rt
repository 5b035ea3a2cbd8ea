//! The messages.

ghost use Rattle.std.specs.Prelude.{◌≡◌, ◌∷◌, [], Some, None, option_map};
ghost use Rattle.s1ap_pdu.specs.declared.value.IeValue.TheVariants as value;
ghost use Rattle.s1ap_pdu.specs.Values.{seen};

use crate::tables::MessageKind;
use crate::value::{IeValue, LentValue};
use aper_fields::EnumValue;
use device_types::{ListOf, Octets};
use s1ap_ies::{
    BitRates, Cause, Cgi, ErabDone, ErabToAdd, ErabToSetup, SecCaps, Stmsi, Tai, UeIds,
};

/// E-RABs that are to be set up, 1 to 256 of them (TS 36.413, 9.1.4.1).
pub type ErabsToSetup = ListOf<ErabToSetup>;

/// E-RABs that are added to a context, 1 to 256 of them (TS 36.413, 9.1.3.1).
pub type ErabsToAdd = ListOf<ErabToAdd>;

/// E-RABs that were set up, 1 to 256 of them (TS 36.413, 9.1.3.2 and 9.1.4.3).
pub type ErabsDone = ListOf<ErabDone>;

/// Tracking area identities, 1 to 256 of them (TS 36.413, 9.1.6).
pub type Tais = ListOf<Tai>;

/// A message of S1AP (TS 36.413, 9.1). `mme` is the MME UE S1AP ID, `enb` the eNB UE S1AP ID, below 2^24, and `nas` a
/// NAS-PDU of at most 2,048 octets.
#[derive(Debug, Drop)]
pub enum Pdu {
    /// INITIAL UE MESSAGE (9.1.7.1), from the base station.
    InitialUeMessage {
        /// eNB UE S1AP ID.
        enb: u32,
        /// NAS-PDU.
        nas: Octets,
        /// The tracking area of the UE.
        tai: Tai,
        /// The cell of the UE.
        cgi: Cgi,
        /// RRC Establishment Cause, one of 5 roots or an extended one.
        rrc: EnumValue,
        /// S-TMSI, where the UE has one.
        stmsi: Option<Stmsi>,
    },
    /// UPLINK NAS TRANSPORT (9.1.7.3), from the base station.
    UplinkNasTransport {
        /// MME UE S1AP ID.
        mme: u32,
        /// eNB UE S1AP ID.
        enb: u32,
        /// NAS-PDU.
        nas: Octets,
        /// The cell of the UE.
        cgi: Cgi,
        /// The tracking area of the UE.
        tai: Tai,
    },
    /// DOWNLINK NAS TRANSPORT (9.1.7.2), from the MME.
    DownlinkNasTransport {
        /// MME UE S1AP ID.
        mme: u32,
        /// eNB UE S1AP ID.
        enb: u32,
        /// NAS-PDU.
        nas: Octets,
    },
    /// INITIAL CONTEXT SETUP REQUEST (9.1.4.1), from the MME.
    InitialContextSetupRequest {
        /// MME UE S1AP ID.
        mme: u32,
        /// eNB UE S1AP ID.
        enb: u32,
        /// UE Aggregate Maximum Bit Rate.
        rates: BitRates,
        /// The E-RABs that are to be set up.
        bearers: ErabsToSetup,
        /// UE Security Capabilities.
        caps: SecCaps,
        /// Security Key, 32 octets.
        key: Octets,
    },
    /// INITIAL CONTEXT SETUP RESPONSE (9.1.4.3), from the base station.
    InitialContextSetupResponse {
        /// MME UE S1AP ID.
        mme: u32,
        /// eNB UE S1AP ID.
        enb: u32,
        /// The E-RABs that were set up.
        done: ErabsDone,
    },
    /// INITIAL CONTEXT SETUP FAILURE (9.1.4.4), from the base station.
    InitialContextSetupFailure {
        /// MME UE S1AP ID.
        mme: u32,
        /// eNB UE S1AP ID.
        enb: u32,
        /// Cause.
        cause: Cause,
    },
    /// UE CONTEXT RELEASE REQUEST (9.1.4.5), from the base station.
    UeContextReleaseRequest {
        /// MME UE S1AP ID.
        mme: u32,
        /// eNB UE S1AP ID.
        enb: u32,
        /// Cause.
        cause: Cause,
    },
    /// UE CONTEXT RELEASE COMMAND (9.1.4.6), from the MME.
    UeContextReleaseCommand {
        /// UE S1AP IDs.
        ids: UeIds,
        /// Cause.
        cause: Cause,
    },
    /// UE CONTEXT RELEASE COMPLETE (9.1.4.7), from the base station.
    UeContextReleaseComplete {
        /// MME UE S1AP ID.
        mme: u32,
        /// eNB UE S1AP ID.
        enb: u32,
    },
    /// UE CAPABILITY INFO INDICATION (9.1.10), from the base station.
    UeCapabilityInfoIndication {
        /// MME UE S1AP ID.
        mme: u32,
        /// eNB UE S1AP ID.
        enb: u32,
        /// UE Radio Capability, as long as the IEs of the message have at most 16,383 octets.
        radio: Octets,
    },
    /// PAGING (9.1.6), from the MME.
    Paging {
        /// UE Identity Index Value, below 1024.
        index: u16,
        /// The S-TMSI of the UE.
        id: Stmsi,
        /// Is the CN domain cs?
        cs: bool,
        /// The tracking areas.
        tais: Tais,
    },
    /// E-RAB SETUP REQUEST (9.1.3.1), from the MME.
    ErabSetupRequest {
        /// MME UE S1AP ID.
        mme: u32,
        /// eNB UE S1AP ID.
        enb: u32,
        /// UE Aggregate Maximum Bit Rate, where it changes.
        rates: Option<BitRates>,
        /// The E-RABs that are added.
        bearers: ErabsToAdd,
    },
    /// E-RAB SETUP RESPONSE (9.1.3.2), from the base station.
    ErabSetupResponse {
        /// MME UE S1AP ID.
        mme: u32,
        /// eNB UE S1AP ID.
        enb: u32,
        /// The E-RABs that were added, where there are some.
        done: Option<ErabsDone>,
    },
}

/// The values of a message of both identities and at most one IE more.
fn with_ids<'a>(mme: u32, enb: u32, third: Option<LentValue<'a>>) -> [Option<LentValue<'a>>; 6]
    ensures { result ≡ Some (IeValue.Mme mme) ∷ Some (IeValue.Enb enb) ∷ third.entry ∷ None ∷ None ∷ None ∷ [] }
{
    [
        Some(IeValue::Mme(mme)),
        Some(IeValue::Enb(enb)),
        third,
        None,
        None,
        None,
    ]
}

/// The value of an S-TMSI, where there is one.
fn stmsi_value<'a>(stmsi: &Option<Stmsi>) -> Option<LentValue<'a>>
    ensures { result ≡ option_map value.Stmsi stmsi.now }
{
    match stmsi {
        Some(stmsi) => Some(IeValue::Stmsi(*stmsi)),
        None => None,
    }
}

/// The value of bit rates, where there are some.
fn rates_value<'a>(rates: &Option<BitRates>) -> Option<LentValue<'a>>
    ensures { result ≡ option_map value.Rates rates.now }
{
    match rates {
        Some(rates) => Some(IeValue::Rates(*rates)),
        None => None,
    }
}

/// The value of a list of E-RABs that were added, where there is one.
fn added_value<'a>(done: &'a Option<ErabsDone>) -> Option<LentValue<'a>>
    ensures { option_map seen result ≡ option_map value.Added done.now }
{
    match done {
        Some(done) => Some(IeValue::Added(done)),
        None => None,
    }
}

impl Pdu {
    ghost use Rattle.s1ap_pdu.specs.Messages.{kind_of};
    ghost use Rattle.std.specs.Prelude.{◌++◌, ◌-◌, replicate, None, length};
    ghost use Rattle.s1ap_pdu.specs.Messages.{rows_of};
    ghost use Rattle.s1ap_pdu.specs.Messages.{values_of};
    ghost use Rattle.s1ap_pdu.specs.Values.{all_seen};

    /// The values of its IEs in the order of its table, and behind them none.
    #[rattlefmt::skip]
    pub(crate) fn values(&self) -> [Option<LentValue<'_>>; 6]
        ensures { all_seen result ≡ values_of self.now ++ replicate (6 - length (rows_of (kind_of self.now))) None }
    {
        use IeValue::*;
        match self {
            Pdu::InitialUeMessage { enb, nas, tai, cgi, rrc, stmsi } => {
                [Some(Enb(*enb)), Some(Nas(nas)), Some(Tai(*tai)), Some(Cgi(*cgi)), Some(Rrc(*rrc)), stmsi_value(stmsi)]
            }
            Pdu::UplinkNasTransport { mme, enb, nas, cgi, tai } => {
                [Some(Mme(*mme)), Some(Enb(*enb)), Some(Nas(nas)), Some(Cgi(*cgi)), Some(Tai(*tai)), None]
            }
            Pdu::DownlinkNasTransport { mme, enb, nas } => with_ids(*mme, *enb, Some(Nas(nas))),
            Pdu::InitialContextSetupRequest { mme, enb, rates, bearers, caps, key } => {
                [Some(Mme(*mme)), Some(Enb(*enb)), Some(Rates(*rates)), Some(Bearers(bearers)), Some(Caps(*caps)), Some(Key(key))]
            }
            Pdu::InitialContextSetupResponse { mme, enb, done } => with_ids(*mme, *enb, Some(Done(done))),
            Pdu::InitialContextSetupFailure { mme, enb, cause } => with_ids(*mme, *enb, Some(Cause(*cause))),
            Pdu::UeContextReleaseRequest { mme, enb, cause } => with_ids(*mme, *enb, Some(Cause(*cause))),
            Pdu::UeContextReleaseCommand { ids, cause } => {
                [Some(Ids(*ids)), Some(Cause(*cause)), None, None, None, None]
            }
            Pdu::UeContextReleaseComplete { mme, enb } => with_ids(*mme, *enb, None),
            Pdu::UeCapabilityInfoIndication { mme, enb, radio } => with_ids(*mme, *enb, Some(Radio(radio))),
            Pdu::Paging { index, id, cs, tais } => {
                [Some(Index(*index)), Some(Paging(*id)), Some(Domain(*cs)), Some(Tais(tais)), None, None]
            }
            Pdu::ErabSetupRequest { mme, enb, rates, bearers } => {
                [Some(Mme(*mme)), Some(Enb(*enb)), rates_value(rates), Some(ToAdd(bearers)), None, None]
            }
            Pdu::ErabSetupResponse { mme, enb, done } => with_ids(*mme, *enb, added_value(done)),
        }
    }

    /// What kind of message it is.
    pub fn kind(&self) -> MessageKind
        ensures { result ≡ kind_of self.now }
    {
        match self {
            Pdu::InitialUeMessage { .. } => MessageKind::InitialUeMessage,
            Pdu::UplinkNasTransport { .. } => MessageKind::UplinkNasTransport,
            Pdu::DownlinkNasTransport { .. } => MessageKind::DownlinkNasTransport,
            Pdu::InitialContextSetupRequest { .. } => MessageKind::InitialContextSetupRequest,
            Pdu::InitialContextSetupResponse { .. } => MessageKind::InitialContextSetupResponse,
            Pdu::InitialContextSetupFailure { .. } => MessageKind::InitialContextSetupFailure,
            Pdu::UeContextReleaseRequest { .. } => MessageKind::UeContextReleaseRequest,
            Pdu::UeContextReleaseCommand { .. } => MessageKind::UeContextReleaseCommand,
            Pdu::UeContextReleaseComplete { .. } => MessageKind::UeContextReleaseComplete,
            Pdu::UeCapabilityInfoIndication { .. } => MessageKind::UeCapabilityInfoIndication,
            Pdu::Paging { .. } => MessageKind::Paging,
            Pdu::ErabSetupRequest { .. } => MessageKind::ErabSetupRequest,
            Pdu::ErabSetupResponse { .. } => MessageKind::ErabSetupResponse,
        }
    }
}
