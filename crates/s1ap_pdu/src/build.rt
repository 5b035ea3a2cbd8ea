//! Messages of the values that were read: memory is taken here alone.

ghost use Rattle.std.specs.Prelude.{◌≡◌, IsOk, Ok};
ghost use Rattle.s1ap_pdu.specs.Messages.{initial_ue_message, uplink_nas_transport, downlink_nas_transport, initial_context_setup_request, initial_context_setup_response, initial_context_setup_failure, ue_context_release_request, ue_context_release_command, ue_context_release_complete, ue_capability_info_indication, paging, erab_setup_request, erab_setup_response, made_from, message_from};
ghost use Rattle.s1ap_pdu.specs.Memory.{IsMade};

use crate::pdu::Pdu;
use crate::slots::Slots;
use crate::tables::MessageKind;
use crate::value::IeValue;
use echo_base::OutOfMemory;
use std::alloc::Global;

/// Binds what stands in a slot by the name, where the slot holds that variant; by the function's condition it does.
macro_rules! find {
    ($slots:ident, $place:literal, $variant:ident($name:ident)) => {
        let Some(IeValue::$variant($name)) = $slots.at($place) else {
            unreachable!()
        };
    };
}

/// Binds the identity that stands in a slot by its name; by the function's condition it does.
macro_rules! find_id {
    ($slots:ident, $place:literal, $name:ident) => {
        let Some($name) = $slots.$name($place) else {
            unreachable!()
        };
    };
}

#[tactic(auto, unfolding(crate::specs::Rows::fields_from))]
fn initial_ue_message(alloc: Global, slots: &Slots) -> Result<Pdu, OutOfMemory>
    requires { IsOk (made_from initial_ue_message slots.now) }
    ensures { IsMade (made_from initial_ue_message slots.now) result }
{
    find_id!(slots, 0, enb);
    find!(slots, 1, Nas(nas));
    find!(slots, 2, Tai(tai));
    find!(slots, 3, Cgi(cgi));
    find!(slots, 4, Rrc(rrc));
    let stmsi = match slots.at(5) {
        Some(IeValue::Stmsi(stmsi)) => Some(*stmsi),
        _ => None,
    };
    let nas = nas.own(alloc)?;
    Ok(Pdu::InitialUeMessage {
        enb,
        nas,
        tai: *tai,
        cgi: *cgi,
        rrc: *rrc,
        stmsi,
    })
}

#[tactic(auto, unfolding(crate::specs::Rows::fields_from))]
fn uplink_nas_transport(alloc: Global, slots: &Slots) -> Result<Pdu, OutOfMemory>
    requires { IsOk (made_from uplink_nas_transport slots.now) }
    ensures { IsMade (made_from uplink_nas_transport slots.now) result }
{
    find_id!(slots, 0, mme);
    find_id!(slots, 1, enb);
    find!(slots, 2, Nas(nas));
    find!(slots, 3, Cgi(cgi));
    find!(slots, 4, Tai(tai));
    let nas = nas.own(alloc)?;
    Ok(Pdu::UplinkNasTransport {
        mme,
        enb,
        nas,
        cgi: *cgi,
        tai: *tai,
    })
}

#[tactic(auto, unfolding(crate::specs::Rows::fields_from))]
fn downlink_nas_transport(alloc: Global, slots: &Slots) -> Result<Pdu, OutOfMemory>
    requires { IsOk (made_from downlink_nas_transport slots.now) }
    ensures { IsMade (made_from downlink_nas_transport slots.now) result }
{
    find_id!(slots, 0, mme);
    find_id!(slots, 1, enb);
    find!(slots, 2, Nas(nas));
    let nas = nas.own(alloc)?;
    Ok(Pdu::DownlinkNasTransport { mme, enb, nas })
}

#[tactic(auto, unfolding(crate::specs::Rows::fields_from))]
fn initial_context_setup_request(alloc: Global, slots: &Slots) -> Result<Pdu, OutOfMemory>
    requires { IsOk (made_from initial_context_setup_request slots.now) }
    ensures { IsMade (made_from initial_context_setup_request slots.now) result }
{
    find_id!(slots, 0, mme);
    find_id!(slots, 1, enb);
    find!(slots, 2, Rates(rates));
    find!(slots, 3, Bearers(bearers));
    find!(slots, 4, Caps(caps));
    find!(slots, 5, Key(key));
    let bearers = bearers.own(alloc)?;
    let key = key.own(alloc)?;
    Ok(Pdu::InitialContextSetupRequest {
        mme,
        enb,
        rates: *rates,
        bearers,
        caps: *caps,
        key,
    })
}

#[tactic(auto, unfolding(crate::specs::Rows::fields_from))]
fn initial_context_setup_response(alloc: Global, slots: &Slots) -> Result<Pdu, OutOfMemory>
    requires { IsOk (made_from initial_context_setup_response slots.now) }
    ensures { IsMade (made_from initial_context_setup_response slots.now) result }
{
    find_id!(slots, 0, mme);
    find_id!(slots, 1, enb);
    find!(slots, 2, Done(done));
    let done = done.own(alloc)?;
    Ok(Pdu::InitialContextSetupResponse { mme, enb, done })
}

#[tactic(auto, unfolding(crate::specs::Rows::fields_from))]
fn initial_context_setup_failure(slots: &Slots) -> Pdu
    requires { IsOk (made_from initial_context_setup_failure slots.now) }
    ensures { made_from initial_context_setup_failure slots.now ≡ Ok result }
{
    find_id!(slots, 0, mme);
    find_id!(slots, 1, enb);
    find!(slots, 2, Cause(cause));
    Pdu::InitialContextSetupFailure {
        mme,
        enb,
        cause: *cause,
    }
}

#[tactic(auto, unfolding(crate::specs::Rows::fields_from))]
fn ue_context_release_request(slots: &Slots) -> Pdu
    requires { IsOk (made_from ue_context_release_request slots.now) }
    ensures { made_from ue_context_release_request slots.now ≡ Ok result }
{
    find_id!(slots, 0, mme);
    find_id!(slots, 1, enb);
    find!(slots, 2, Cause(cause));
    Pdu::UeContextReleaseRequest {
        mme,
        enb,
        cause: *cause,
    }
}

#[tactic(auto, unfolding(crate::specs::Rows::fields_from))]
fn ue_context_release_command(slots: &Slots) -> Pdu
    requires { IsOk (made_from ue_context_release_command slots.now) }
    ensures { made_from ue_context_release_command slots.now ≡ Ok result }
{
    find!(slots, 0, Ids(ids));
    find!(slots, 1, Cause(cause));
    Pdu::UeContextReleaseCommand {
        ids: *ids,
        cause: *cause,
    }
}

#[tactic(auto, unfolding(crate::specs::Rows::fields_from))]
fn ue_context_release_complete(slots: &Slots) -> Pdu
    requires { IsOk (made_from ue_context_release_complete slots.now) }
    ensures { made_from ue_context_release_complete slots.now ≡ Ok result }
{
    find_id!(slots, 0, mme);
    find_id!(slots, 1, enb);
    Pdu::UeContextReleaseComplete { mme, enb }
}

#[tactic(auto, unfolding(crate::specs::Rows::fields_from))]
fn ue_capability_info_indication(alloc: Global, slots: &Slots) -> Result<Pdu, OutOfMemory>
    requires { IsOk (made_from ue_capability_info_indication slots.now) }
    ensures { IsMade (made_from ue_capability_info_indication slots.now) result }
{
    find_id!(slots, 0, mme);
    find_id!(slots, 1, enb);
    find!(slots, 2, Radio(radio));
    let radio = radio.own(alloc)?;
    Ok(Pdu::UeCapabilityInfoIndication { mme, enb, radio })
}

#[tactic(auto, unfolding(crate::specs::Rows::fields_from))]
fn paging(alloc: Global, slots: &Slots) -> Result<Pdu, OutOfMemory>
    requires { IsOk (made_from paging slots.now) }
    ensures { IsMade (made_from paging slots.now) result }
{
    find!(slots, 0, Index(index));
    find!(slots, 1, Paging(id));
    find!(slots, 2, Domain(cs));
    find!(slots, 3, Tais(tais));
    let tais = tais.own(alloc)?;
    Ok(Pdu::Paging {
        index: *index,
        id: *id,
        cs: *cs,
        tais,
    })
}

#[tactic(auto, unfolding(crate::specs::Rows::fields_from))]
fn erab_setup_request(alloc: Global, slots: &Slots) -> Result<Pdu, OutOfMemory>
    requires { IsOk (made_from erab_setup_request slots.now) }
    ensures { IsMade (made_from erab_setup_request slots.now) result }
{
    find_id!(slots, 0, mme);
    find_id!(slots, 1, enb);
    find!(slots, 3, ToAdd(bearers));
    let rates = match slots.at(2) {
        Some(IeValue::Rates(rates)) => Some(*rates),
        _ => None,
    };
    let bearers = bearers.own(alloc)?;
    Ok(Pdu::ErabSetupRequest {
        mme,
        enb,
        rates,
        bearers,
    })
}

#[tactic(auto, unfolding(crate::specs::Rows::fields_from))]
fn erab_setup_response(alloc: Global, slots: &Slots) -> Result<Pdu, OutOfMemory>
    requires { IsOk (made_from erab_setup_response slots.now) }
    ensures { IsMade (made_from erab_setup_response slots.now) result }
{
    find_id!(slots, 0, mme);
    find_id!(slots, 1, enb);
    let done = match slots.at(2) {
        Some(IeValue::Added(done)) => Some(done.own(alloc)?),
        _ => None,
    };
    Ok(Pdu::ErabSetupResponse { mme, enb, done })
}

/// The message of that kind with the values in the slots, none of which is missing, its octets and lists in memory of their own.
#[tactic(auto, unfolding(crate::specs::Messages::message_from))]
pub fn message(alloc: Global, kind: MessageKind, slots: &Slots) -> Result<Pdu, OutOfMemory>
    requires { IsOk (message_from kind slots.now) }
    ensures { IsMade (message_from kind slots.now) result }
{
    match kind {
        MessageKind::InitialUeMessage => initial_ue_message(alloc, slots),
        MessageKind::UplinkNasTransport => uplink_nas_transport(alloc, slots),
        MessageKind::DownlinkNasTransport => downlink_nas_transport(alloc, slots),
        MessageKind::InitialContextSetupRequest => initial_context_setup_request(alloc, slots),
        MessageKind::InitialContextSetupResponse => initial_context_setup_response(alloc, slots),
        MessageKind::InitialContextSetupFailure => Ok(initial_context_setup_failure(slots)),
        MessageKind::UeContextReleaseRequest => Ok(ue_context_release_request(slots)),
        MessageKind::UeContextReleaseCommand => Ok(ue_context_release_command(slots)),
        MessageKind::UeContextReleaseComplete => Ok(ue_context_release_complete(slots)),
        MessageKind::UeCapabilityInfoIndication => ue_capability_info_indication(alloc, slots),
        MessageKind::Paging => paging(alloc, slots),
        MessageKind::ErabSetupRequest => erab_setup_request(alloc, slots),
        MessageKind::ErabSetupResponse => erab_setup_response(alloc, slots),
    }
}
