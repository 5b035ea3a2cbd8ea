//! Messages, written as octets before the length of their body is known.

ghost use Rattle.std.specs.Prelude.{◌≡◌, ◌≤◌, true, ◌∷◌, [], ◌++◌, OnOk, length};
ghost use Rattle.s1ap_ies.specs.declared.ue_ids.UeIds.TheVariants.{Pair};
ghost use Rattle.s1ap_pdu.specs.declared.pdu.Pdu.TheVariants.{InitialUeMessage, UplinkNasTransport, DownlinkNasTransport, InitialContextSetupRequest, InitialContextSetupResponse, UeContextReleaseRequest, UeContextReleaseCommand, UeContextReleaseComplete, UeCapabilityInfoIndication};
ghost use Rattle.s1ap_pdu.specs.Run.{IsRight};
ghost use Rattle.s1ap_messages.specs.Usual.{unfinished_octets, IsPut};

use crate::usual::bearers::LentErab;
use crate::usual::fields::put_fields;
use crate::usual::strings::{Key, Nas, Radio};
use crate::usual::values::{BothIds, EnbId, MmeId};
use aper_fields::EnumValue;
use s1ap_ies::{BitRates, Cause, Cgi, ErabDone, ErabToSetup, SecCaps, Stmsi, Tai, UeIds};
use s1ap_pdu::{MessageKind, Pdu};
use std::alloc::AllocError;

/// Is a message put octet by octet? Any other goes piece by piece.
pub fn is_put(p: &Pdu) -> bool
    ensures { result ≡ true → IsPut p.now }
{
    match p {
        Pdu::InitialUeMessage { .. } => true,
        Pdu::UplinkNasTransport { .. } => true,
        Pdu::DownlinkNasTransport { .. } => true,
        Pdu::InitialContextSetupRequest { bearers, .. } => bearers.items().len() == 1,
        Pdu::InitialContextSetupResponse { done, .. } => done.items().len() == 1,
        Pdu::UeContextReleaseRequest { .. } => true,
        Pdu::UeContextReleaseCommand {
            ids: UeIds::Pair { .. },
            ..
        } => true,
        Pdu::UeContextReleaseComplete { .. } => true,
        Pdu::UeCapabilityInfoIndication { radio, .. } => radio.items().len() <= 16000,
        _ => false,
    }
}

/// Puts an INITIAL UE MESSAGE.
#[tactic(auto, unfolding(crate::specs::Usual::unfinished_octets))]
#[rattlefmt::skip]
fn initial_ue_message(out: &mut Vec<u8>, enb: u32, nas: &[u8], tai: &Tai, cgi: &Cgi, rrc: &EnumValue, stmsi: &Option<Stmsi>) -> Result<(), AllocError>
    requires right { IsRight (InitialUeMessage enb nas.now tai.now cgi.now rrc.now stmsi.now) }
    ensures { OnOk result (out.new.items ≡ out.old.items ++ unfinished_octets (InitialUeMessage enb nas.now tai.now cgi.now rrc.now stmsi.now)) }
{
    put_fields(out, MessageKind::InitialUeMessage, (EnbId(enb), (Nas(nas), (*tai, (*cgi, (*rrc, *stmsi))))))
}

/// Puts an UPLINK NAS TRANSPORT.
#[tactic(auto, unfolding(crate::specs::Usual::unfinished_octets))]
#[rattlefmt::skip]
fn uplink_nas_transport(out: &mut Vec<u8>, mme: u32, enb: u32, nas: &[u8], cgi: &Cgi, tai: &Tai) -> Result<(), AllocError>
    requires right { IsRight (UplinkNasTransport mme enb nas.now cgi.now tai.now) }
    ensures { OnOk result (out.new.items ≡ out.old.items ++ unfinished_octets (UplinkNasTransport mme enb nas.now cgi.now tai.now)) }
{
    put_fields(out, MessageKind::UplinkNasTransport, (MmeId(mme), (EnbId(enb), (Nas(nas), (*cgi, (*tai, ()))))))
}

/// Puts a DOWNLINK NAS TRANSPORT.
#[tactic(auto, unfolding(crate::specs::Usual::unfinished_octets))]
#[rattlefmt::skip]
fn downlink_nas_transport(out: &mut Vec<u8>, mme: u32, enb: u32, nas: &[u8]) -> Result<(), AllocError>
    requires right { IsRight (DownlinkNasTransport mme enb nas.now) }
    ensures { OnOk result (out.new.items ≡ out.old.items ++ unfinished_octets (DownlinkNasTransport mme enb nas.now)) }
{
    put_fields(out, MessageKind::DownlinkNasTransport, (MmeId(mme), (EnbId(enb), (Nas(nas), ()))))
}

/// Puts an INITIAL CONTEXT SETUP REQUEST with one E-RAB.
#[tactic(auto, unfolding(crate::specs::Usual::unfinished_octets))]
#[rattlefmt::skip]
fn initial_context_setup_request(out: &mut Vec<u8>, mme: u32, enb: u32, rates: &BitRates, erab: &ErabToSetup, caps: &SecCaps, key: &[u8]) -> Result<(), AllocError>
    requires right { IsRight (InitialContextSetupRequest mme enb rates.now (erab.now ∷ []) caps.now key.now) }
    ensures { OnOk result (out.new.items ≡ out.old.items ++ unfinished_octets (InitialContextSetupRequest mme enb rates.now (erab.now ∷ []) caps.now key.now)) }
{
    put_fields(out, MessageKind::InitialContextSetupRequest, (MmeId(mme), (EnbId(enb), (*rates, (LentErab::lend(erab), (*caps, (Key(key), ())))))))
}

/// Puts an INITIAL CONTEXT SETUP RESPONSE with one E-RAB.
#[tactic(auto, unfolding(crate::specs::Usual::unfinished_octets))]
#[rattlefmt::skip]
fn initial_context_setup_response(out: &mut Vec<u8>, mme: u32, enb: u32, erab: &ErabDone) -> Result<(), AllocError>
    requires right { IsRight (InitialContextSetupResponse mme enb (erab.now ∷ [])) }
    ensures { OnOk result (out.new.items ≡ out.old.items ++ unfinished_octets (InitialContextSetupResponse mme enb (erab.now ∷ []))) }
{
    put_fields(out, MessageKind::InitialContextSetupResponse, (MmeId(mme), (EnbId(enb), (*erab, ()))))
}

/// Puts a UE CONTEXT RELEASE REQUEST.
#[tactic(auto, unfolding(crate::specs::Usual::unfinished_octets))]
#[rattlefmt::skip]
fn ue_context_release_request(out: &mut Vec<u8>, mme: u32, enb: u32, cause: &Cause) -> Result<(), AllocError>
    requires right { IsRight (UeContextReleaseRequest mme enb cause.now) }
    ensures { OnOk result (out.new.items ≡ out.old.items ++ unfinished_octets (UeContextReleaseRequest mme enb cause.now)) }
{
    put_fields(out, MessageKind::UeContextReleaseRequest, (MmeId(mme), (EnbId(enb), (*cause, ()))))
}

/// Puts a UE CONTEXT RELEASE COMMAND with both identities.
#[tactic(auto, unfolding(crate::specs::Usual::unfinished_octets))]
#[rattlefmt::skip]
fn ue_context_release_command(out: &mut Vec<u8>, mme: u32, enb: u32, cause: &Cause) -> Result<(), AllocError>
    requires right { IsRight (UeContextReleaseCommand (Pair mme enb) cause.now) }
    ensures { OnOk result (out.new.items ≡ out.old.items ++ unfinished_octets (UeContextReleaseCommand (Pair mme enb) cause.now)) }
{
    put_fields(out, MessageKind::UeContextReleaseCommand, (BothIds { mme, enb }, (*cause, ())))
}

/// Puts a UE CONTEXT RELEASE COMPLETE.
#[tactic(auto, unfolding(crate::specs::Usual::unfinished_octets))]
#[rattlefmt::skip]
fn ue_context_release_complete(out: &mut Vec<u8>, mme: u32, enb: u32) -> Result<(), AllocError>
    requires right { IsRight (UeContextReleaseComplete mme enb) }
    ensures { OnOk result (out.new.items ≡ out.old.items ++ unfinished_octets (UeContextReleaseComplete mme enb)) }
{
    put_fields(out, MessageKind::UeContextReleaseComplete, (MmeId(mme), (EnbId(enb), ())))
}

/// Puts a UE CAPABILITY INFO INDICATION.
#[tactic(auto, unfolding(crate::specs::Usual::unfinished_octets))]
#[rattlefmt::skip]
fn ue_capability_info_indication(out: &mut Vec<u8>, mme: u32, enb: u32, radio: &[u8]) -> Result<(), AllocError>
    requires right { IsRight (UeCapabilityInfoIndication mme enb radio.now) }
    requires brief { length radio.now ≤ 16000 }
    ensures { OnOk result (out.new.items ≡ out.old.items ++ unfinished_octets (UeCapabilityInfoIndication mme enb radio.now)) }
{
    put_fields(out, MessageKind::UeCapabilityInfoIndication, (MmeId(mme), (EnbId(enb), (Radio(radio), ()))))
}

/// Puts a message, without the length of its body.
#[rattlefmt::skip]
pub fn put(out: &mut Vec<u8>, p: &Pdu) -> Result<(), AllocError>
    requires right { IsRight p.now }
    requires put { IsPut p.now }
    ensures { OnOk result (out.new.items ≡ out.old.items ++ unfinished_octets p.now) }
{
    match p {
        Pdu::InitialUeMessage { enb, nas, tai, cgi, rrc, stmsi } => initial_ue_message(out, *enb, nas.items(), tai, cgi, rrc, stmsi),
        Pdu::UplinkNasTransport { mme, enb, nas, cgi, tai } => uplink_nas_transport(out, *mme, *enb, nas.items(), cgi, tai),
        Pdu::DownlinkNasTransport { mme, enb, nas } => downlink_nas_transport(out, *mme, *enb, nas.items()),
        Pdu::InitialContextSetupRequest { mme, enb, rates, bearers, caps, key } => {
            let [erab] = bearers.items() else {
                return Ok(());
            };
            initial_context_setup_request(out, *mme, *enb, rates, erab, caps, key.items())
        }
        Pdu::InitialContextSetupResponse { mme, enb, done } => {
            let [erab] = done.items() else {
                return Ok(());
            };
            initial_context_setup_response(out, *mme, *enb, erab)
        }
        Pdu::UeContextReleaseRequest { mme, enb, cause } => ue_context_release_request(out, *mme, *enb, cause),
        Pdu::UeContextReleaseCommand { ids: UeIds::Pair { mme, enb }, cause } => ue_context_release_command(out, *mme, *enb, cause),
        Pdu::UeContextReleaseComplete { mme, enb } => ue_context_release_complete(out, *mme, *enb),
        Pdu::UeCapabilityInfoIndication { mme, enb, radio } => ue_capability_info_indication(out, *mme, *enb, radio.items()),
        _ => Ok(()),
    }
}
