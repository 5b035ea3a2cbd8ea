//! The messages to base stations, octet for octet.

ghost use Rattle.std.specs.Prelude.{◌≡◌, ◌^◌, ◌<◌, ◌≤◌, ◌∷◌, [], None, length, IfOk, IfSome, IsSome};
ghost use Rattle.device_types.specs.Cause.{IsCauseCode};
ghost use Rattle.device_types.specs.Down.{IsAccept, IsDown};
ghost use Rattle.device_types.specs.Message.{IsArea};
ghost use Rattle.device_types.specs.Nas.{IsNasOut};
ghost use Rattle.device_types.specs.Subscriber.{IsSubscriber};
ghost use Rattle.s1ap_ies.specs.Run.{IsNas, IsBitRates};
ghost use Rattle.s1ap_pdu.specs.Run.{written, IsRightValue};
ghost use Rattle.s1ap_pdu.specs.Small.{IsSmall};
ghost use Rattle.s1ap_pdu.specs.declared.value.IeValue.TheVariants as value;
ghost use Rattle.nas_kinds.specs.Written.{nas_written};
ghost use Rattle.entry_edge.specs.Down.{cause_of, algorithms_of, accept_of, bearer_of, default_of, both_of, setup_of, activate_of, added_of, paging_of, message_of};

use device_types::{Accept, CauseCode, Down, NasOut, Octets, Subscriber, TryCopy};
use echo_base::OutOfMemory;
use nas_kinds::write_nas;
use s1ap_ies::{BitRates, Cause, ErabToAdd, ErabToSetup, SecCaps, Stmsi, Tai, UeIds, names};
use s1ap_messages::{ErabsToAdd, ErabsToSetup, Pdu, Tais, small_is_right, write_pdu};
use std::alloc::Global;

/// A NAS message to the device.
fn nas_message(alloc: Global, mme: u32, enb: u32, nas: &NasOut) -> Result<Pdu, OutOfMemory>
    requires enb { enb < 2 ^ 24 }
    requires nas { IsNasOut nas.now }
    ensures message { IfOk result (λ p. p ≡ Pdu.DownlinkNasTransport mme enb (nas_written nas.now)) }
    ensures small { IfOk result IsSmall }
{
    let nas = write_nas(alloc, nas)?;
    Ok(Pdu::DownlinkNasTransport { mme, enb, nas })
}

/// A context to be released.
#[tactic(auto, using(crate::proofs::Causes::cause_right))]
fn release_message(mme: u32, enb: u32, cause: CauseCode) -> Pdu
    requires enb { enb < 2 ^ 24 }
    requires cause { IsCauseCode cause }
    ensures message { result ≡ Pdu.UeContextReleaseCommand (UeIds.Pair mme enb) (cause_of cause) }
    ensures small { IsSmall result }
{
    Pdu::UeContextReleaseCommand {
        ids: UeIds::Pair { mme, enb },
        cause: Cause {
            group: cause.group,
            extended: cause.extended,
            index: cause.index,
        },
    }
}

/// The ATTACH ACCEPT in a setup, where it has one.
fn accept_octets(
    alloc: Global,
    row: &Subscriber,
    accept: Accept,
) -> Result<Option<Octets>, OutOfMemory>
    requires row { IsSubscriber row.now }
    requires accept { IsAccept accept }
    ensures accept { IfOk result (λ nas. nas ≡ accept_of row.now accept) }
    ensures short { IfOk result (λ nas. IfSome nas IsNas) }
{
    match accept {
        Accept::No => Ok(None),
        Accept::Yes { plmn, tac, pti, ip } => {
            let apn = row.apn.copy()?;
            let nas = NasOut::AttachAccept {
                plmn,
                tac,
                pti,
                apn,
                ip,
            };
            Ok(Some(write_nas(alloc, &nas)?))
        }
    }
}

/// The algorithms behind the first, in 16 bits.
fn algorithms_of(octet: u8) -> u16
    ensures { result ≡ algorithms_of octet }
{
    (u16::from(octet) * 2 % 256) * 256
}

/// A bearer of a setup, of QCI 9, to the gateway's tunnel.
fn bearer_of(id: u8, sgw: u32, teid: u32, nas: Option<Octets>) -> ErabToSetup
    ensures { result ≡ bearer_of id sgw teid nas }
{
    ErabToSetup {
        id,
        qci: 9,
        arp: 32,
        address: sgw,
        teid,
        nas,
    }
}

/// The list of a setup's one E-RAB, the device's default bearer (TS 36.413, 9.1.4.1). It fails for want of memory alone.
#[tactic(auto, unfolding(s1ap_ies::specs::Values::erab_to_setup, s1ap_ies::specs::Values::erab_id, s1ap_ies::specs::Values::qos, s1ap_ies::specs::Values::arp, s1ap_ies::specs::Values::address))]
fn default_bearer(
    alloc: Global,
    sgw: u32,
    teid: u32,
    nas: Option<Octets>,
) -> Result<ErabsToSetup, OutOfMemory>
    requires nas { IfSome nas IsNas }
    ensures bearers { IfOk result (λ bearers. bearers ≡ default_of sgw teid nas) }
    ensures right { IfOk result (λ bearers. IsRightValue (value.Bearers bearers)) }
{
    let mut bearers = ErabsToSetup::new(alloc);
    bearers.push(bearer_of(names::DEFAULT_ERAB, sgw, teid, nas))?;
    Ok(bearers)
}

/// The list of a setup's two E-RABs, the device's default bearer and its second one, each to a tunnel of the gateway. It fails for
/// want of memory alone.
#[tactic(auto, unfolding(s1ap_ies::specs::Values::erab_to_setup, s1ap_ies::specs::Values::erab_id, s1ap_ies::specs::Values::qos, s1ap_ies::specs::Values::arp, s1ap_ies::specs::Values::address))]
fn both_bearers(
    alloc: Global,
    sgw: u32,
    teid: u32,
    sgw2: u32,
    teid2: u32,
) -> Result<ErabsToSetup, OutOfMemory>
    ensures bearers { IfOk result (λ bearers. bearers ≡ both_of sgw teid sgw2 teid2) }
    ensures right { IfOk result (λ bearers. IsRightValue (value.Bearers bearers)) }
{
    let mut bearers = default_bearer(alloc, sgw, teid, None)?;
    bearers.push(bearer_of(names::SECOND_ERAB, sgw2, teid2, None))?;
    Ok(bearers)
}

/// What a device supports: its algorithms of encryption and of integrity protection (TS 36.413, 9.2.1.40).
fn caps_of(eea: u8, eia: u8) -> SecCaps
    ensures { result ≡ record { eea = algorithms_of eea; eia = algorithms_of eia } }
{
    SecCaps {
        eea: algorithms_of(eea),
        eia: algorithms_of(eia),
    }
}

/// The message of a setup.
#[tactic(auto, unfolding(s1ap_ies::specs::Values::erab_to_setup))]
fn setup_message(
    alloc: Global,
    mme: u32,
    enb: u32,
    rates: BitRates,
    bearers: ErabsToSetup,
    caps: SecCaps,
    key: &[u8],
) -> Result<Pdu, OutOfMemory>
    requires enb { enb < 2 ^ 24 }
    requires rates { IsBitRates rates }
    requires bearers { IsRightValue (value.Bearers bearers) }
    requires few { length bearers ≤ 2 }
    requires key { length key.now ≡ 32 }
    ensures message { IfOk result (λ p. p ≡ Pdu.InitialContextSetupRequest mme enb rates bearers caps key.now) }
    ensures small { IfOk result IsSmall }
{
    Ok(Pdu::InitialContextSetupRequest {
        mme,
        enb,
        rates,
        bearers,
        caps,
        key: Octets::from(Vec::from_slice(alloc, key)?),
    })
}

/// The ACTIVATE DEFAULT EPS BEARER CONTEXT REQUEST of a device's second connection, with the row's second access point name.
fn activate_octets(alloc: Global, row: &Subscriber, pti: u8, ip: u32) -> Result<Octets, OutOfMemory>
    requires row { IsSubscriber row.now }
    requires apn { IsSome row.now.apn2 }
    ensures activate { IfOk result (λ nas. nas ≡ activate_of row.now pti ip) }
    ensures short { IfOk result IsNas }
{
    let Some(apn) = &row.apn2 else { unreachable!() };
    let apn = apn.copy()?;
    write_nas(alloc, &NasOut::Activate { pti, apn, ip })
}

/// The second bearer as it is added to a context, to the gateway's tunnel (TS 36.413, 9.1.3.1), with a NAS message to the device.
#[tactic(auto, unfolding(s1ap_ies::specs::Values::erab_to_add, s1ap_ies::specs::Values::erab_id, s1ap_ies::specs::Values::qos, s1ap_ies::specs::Values::arp, s1ap_ies::specs::Values::address))]
fn erab_message(
    alloc: Global,
    mme: u32,
    enb: u32,
    sgw: u32,
    teid: u32,
    nas: Octets,
) -> Result<Pdu, OutOfMemory>
    requires enb { enb < 2 ^ 24 }
    requires nas { IsNas nas }
    ensures message { IfOk result (λ p. p ≡ Pdu.ErabSetupRequest mme enb None (added_of sgw teid nas ∷ [])) }
    ensures small { IfOk result IsSmall }
{
    let mut bearers = ErabsToAdd::new(alloc);
    bearers.push(ErabToAdd {
        id: names::SECOND_ERAB,
        qci: 9,
        arp: 32,
        address: sgw,
        teid,
        nas,
    })?;
    Ok(Pdu::ErabSetupRequest {
        mme,
        enb,
        rates: None,
        bearers,
    })
}

/// The MME code of this MME, as the identities that it gives have it (3GPP TS 23.003, 2.8).
const MME_CODE: u8 = 1;

/// The paging of a row's device in a tracking area, for its packet domain. Its index is the IMSI modulo 1024 (3GPP TS 36.304, 7.1).
#[tactic(auto, unfolding(s1ap_ies::specs::Values::tai_item))]
fn paging_message(alloc: Global, row: &Subscriber, plmn: u32, tac: u16) -> Result<Pdu, OutOfMemory>
    requires row { IsSubscriber row.now }
    requires area { IsArea plmn tac }
    ensures message { IfOk result (λ p. p ≡ paging_of row.now plmn tac) }
    ensures small { IfOk result IsSmall }
{
    let mut tais = Tais::new(alloc);
    tais.push(Tai { plmn, tac })?;
    Ok(Pdu::Paging {
        index: (row.imsi % 1024) as u16,
        id: Stmsi {
            mmec: MME_CODE,
            tmsi: row.tmsi,
        },
        cs: false,
        tais,
    })
}

/// The message of a down.
#[rattlefmt::skip]
fn message_of(alloc: Global, row: &Subscriber, down: &Down) -> Result<Pdu, OutOfMemory>
    requires row { IsSubscriber row.now }
    requires down { IsDown row.now down.now }
    ensures message { IfOk result (λ p. p ≡ message_of row.now down.now) }
    ensures small { IfOk result IsSmall }
{
    let mme = row.number;
    match down {
        Down::Nas { enb, nas, .. } => nas_message(alloc, mme, *enb, nas),
        Down::Release { enb, cause, .. } => Ok(release_message(mme, *enb, *cause)),
        Down::Page { plmn, tac } => paging_message(alloc, row, *plmn, *tac),
        Down::Erab { enb, sgw, teid, pti, ip, .. } => {
            let (sgw, teid) = (*sgw, *teid);
            let nas = activate_octets(alloc, row, *pti, *ip)?;
            erab_message(alloc, mme, *enb, sgw, teid, nas)
        }
        Down::Setup { enb, dl, ul, sgw, teid, eea, eia, key, accept, .. } => {
            let (sgw, teid) = (*sgw, *teid);
            let nas = accept_octets(alloc, row, *accept)?;
            let bearers = default_bearer(alloc, sgw, teid, nas)?;
            let rates = BitRates { dl: *dl, ul: *ul };
            setup_message(alloc, mme, *enb, rates, bearers, caps_of(*eea, *eia), key.octets())
        }
        Down::SetupTwo { enb, dl, ul, sgw, teid, eea, eia, key, sgw2, teid2, .. } => {
            let (sgw, teid, sgw2, teid2) = (*sgw, *teid, *sgw2, *teid2);
            let bearers = both_bearers(alloc, sgw, teid, sgw2, teid2)?;
            let rates = BitRates { dl: *dl, ul: *ul };
            setup_message(alloc, mme, *enb, rates, bearers, caps_of(*eea, *eia), key.octets())
        }
    }
}

/// The octets of a message to the device of a row, in aligned PER: DOWNLINK NAS TRANSPORT (TS 36.413, 9.1.7.2), INITIAL CONTEXT
/// SETUP REQUEST (9.1.4.1) with the default bearer, of QCI 9, to the gateway's tunnel, or with the second one too, E-RAB SETUP
/// REQUEST (9.1.3.1) with the second one, UE CONTEXT RELEASE COMMAND (9.1.4.6), and PAGING (9.1.6) in one area, with the IMSI modulo
/// 1024 as its index. The MME UE S1AP ID is the row's number, the access point name of an ATTACH ACCEPT the row's, and that of an
/// ACTIVATE DEFAULT EPS BEARER CONTEXT REQUEST in an E-RAB SETUP REQUEST the row's second one.
pub fn down_bytes(alloc: Global, row: &Subscriber, down: &Down) -> Result<Octets, OutOfMemory>
    requires row { IsSubscriber row.now }
    // The row of an E-RAB SETUP REQUEST has a second access point name.
    requires down { IsDown row.now down.now }
    ensures { IfOk result (λ octets. octets ≡ written (message_of row.now down.now)) }
{
    let message = message_of(alloc, row, down)?;
    // a message of fields in their ranges, of one or two bearers and of a short NAS-PDU fits into its open types
    small_is_right();
    write_pdu(alloc, &message)
}
