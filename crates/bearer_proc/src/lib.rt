//! What the procedures of a device share: its S1 connection, its bearers, and what is sent to it.
#![tactic(auto)]

ghost use Rattle.std.specs.Prelude.{◌≡◌, [], ◌∷◌, IfOk};
ghost use Rattle.device_types.specs.Acts.{made, station_of, enb_of, nas_to, told, setup, second_setup, page, release, releases, left_behind, moves_connection, drops_ue, frees_bearers};

use device_types::{
    Accept, Bearer, CauseCode, Down, Effect, Effects, GwCall, Link, NasOut, Session, Stage, Step,
    TryCopy,
};
use std::alloc::{AllocError, Global};

/// The group of the causes of NAS (3GPP TS 36.413, 9.2.1.3).
const NAS: u8 = 2;

/// The cause "normal release" of NAS.
pub const NORMAL_RELEASE: CauseCode = CauseCode {
    group: NAS,
    extended: false,
    index: 0,
};

/// The cause "authentication failure" of NAS.
pub const AUTHENTICATION_FAILURE: CauseCode = CauseCode {
    group: NAS,
    extended: false,
    index: 1,
};

/// The cause "detach" of NAS.
pub const DETACH: CauseCode = CauseCode {
    group: NAS,
    extended: false,
    index: 2,
};

/// The cause "unspecified" of NAS.
pub const UNSPECIFIED: CauseCode = CauseCode {
    group: NAS,
    extended: false,
    index: 3,
};

/// The EMM cause "UE identity cannot be derived by the network" (3GPP TS 24.301, 9.9.3.9).
pub const IDENTITY_NOT_DERIVED: u8 = 9;

/// The EMM cause "implicitly detached".
pub const IMPLICITLY_DETACHED: u8 = 10;

/// The EMM cause "tracking area not allowed".
pub const AREA_NOT_ALLOWED: u8 = 12;

/// A NAS message to a device, by the S1 connection to this base station, where its eNB-UE-S1AP-ID is `enb`.
pub fn nas_to(station: u16, enb: u32, nas: NasOut) -> Effect
    ensures { result ≡ nas_to station enb nas }
{
    Effect::Down(Down::Nas { station, enb, nas })
}

/// The base station of the session's S1 connection and the device's eNB-UE-S1AP-ID there. Where there is none, both are 0, which are
/// no base station's.
fn receiver(session: &Session) -> (u16, u32)
    ensures { result ≡ (station_of session.now.link, enb_of session.now.link) }
{
    match session.link {
        Link::On { station, enb } => (station, enb),
        Link::Off => (0, 0),
    }
}

/// A NAS message on the session's S1 connection.
pub fn nas_message(session: &Session, nas: NasOut) -> Effect
    ensures { result ≡ told nas session.now }
{
    let (station, enb) = receiver(session);
    nas_to(station, enb, nas)
}

/// The setup of the device's context with its bearer, on the session's S1 connection.
pub fn context_setup(session: &Session, accept: Accept) -> Result<Effect, AllocError>
    ensures { IfOk result (λ effect. effect ≡ setup accept session.now) }
{
    let (station, enb) = receiver(session);
    Ok(Effect::Down(Down::Setup {
        station,
        enb,
        dl: session.dl,
        ul: session.ul,
        sgw: session.sgw,
        teid: session.teid,
        eea: session.eea,
        eia: session.eia,
        key: session.key.copy()?,
        accept,
    }))
}

/// The setup of the second bearer, on the session's S1 connection (TS 23.401, 5.10.2, step 7).
pub fn second_setup(session: &Session) -> Effect
    ensures { result ≡ second_setup session.now }
{
    let (station, enb) = receiver(session);
    Effect::Down(Down::Erab {
        station,
        enb,
        sgw: session.sgw2,
        teid: session.teid2,
        pti: session.pti2,
        ip: session.ip2,
    })
}

/// The paging of the device in its tracking area (TS 23.401, 5.3.4.3, step 3).
pub fn paging(session: &Session) -> Effect
    ensures { result ≡ page session.now }
{
    Effect::Down(Down::Page {
        plmn: session.plmn,
        tac: session.tac,
    })
}

/// The release of the device's context, on the session's S1 connection and for the session's cause.
pub fn context_release(session: &Session) -> Effect
    ensures { result ≡ release session.now }
{
    let (station, enb) = receiver(session);
    Effect::Down(Down::Release {
        station,
        enb,
        cause: session.cause,
    })
}

/// This one effect.
pub fn only(alloc: Global, effect: Effect) -> Result<Effects, AllocError>
    ensures { IfOk result (λ effects. effects ≡ effect ∷ []) }
{
    let mut effects = Effects::new(alloc);
    effects.push(effect)?;
    Ok(effects)
}

/// The device's context is released (TS 23.401, 5.3.5, step 4).
pub fn release_context(session: &mut Session) -> Result<Effects, AllocError>
    ensures { IfOk result (λ effects. made session.new effects ≡ releases session.old) }
{
    let effects = only(session.alloc(), context_release(session))?;
    session.stage = Stage::Releasing;
    Ok(effects)
}

/// Moves the S1 connection: the device is on this one now, and another one that it had is released.
#[tactic(auto, unfolding(device_types::specs::Acts::moves_connection))]
pub fn move_link_in_place(
    session: &mut Session,
    station: u16,
    enb: u32,
) -> Result<Effects, AllocError>
    ensures { IfOk result (λ effects. made session.new effects ≡ moves_connection station enb session.old) }
{
    let effects = left_behind(session, station, enb)?;
    session.link = Link::On { station, enb };
    Ok(effects)
}

/// The step of `move_link_in_place`. For want of memory the session is dropped.
pub fn move_link(s: Session, station: u16, enb: u32) -> Result<Step, AllocError>
    ensures { IfOk result (λ step. step ≡ moves_connection station enb s) }
{
    let mut session = s;
    let effects = move_link_in_place(&mut session, station, enb)?;
    Step::new(session, effects)
}

/// What releases another S1 connection of the device.
fn left_behind(session: &Session, station: u16, enb: u32) -> Result<Effects, AllocError>
    ensures { IfOk result (λ effects. effects ≡ left_behind session.now.link station enb) }
{
    let mut effects = Effects::new(session.alloc());
    if let Link::On {
        station: was_station,
        enb: was_enb,
    } = session.link
    {
        if was_station == station && was_enb == enb {
            return Ok(effects);
        }
        effects.push(Effect::Down(Down::Release {
            station: was_station,
            enb: was_enb,
            cause: NORMAL_RELEASE,
        }))?;
    }
    Ok(effects)
}

/// Drops the UE: it is not registered. Its session at the gateway is deleted first, where it has one, and then its context is
/// released.
#[tactic(auto, unfolding(device_types::specs::Acts::drops_ue))]
pub fn drop_device_in_place(session: &mut Session, cause: CauseCode) -> Result<Effects, AllocError>
    ensures { IfOk result (λ effects. made session.new effects ≡ drops_ue cause session.old) }
{
    session.cause = cause;
    session.registered = false;
    match session.bearer {
        Bearer::None => release_context(session),
        Bearer::Made | Bearer::Active => {
            session.off = true;
            session.stage = Stage::AwaitDelete;
            only(session.alloc(), Effect::Gateway(GwCall::Delete))
        }
    }
}

/// The step of `drop_device_in_place`. For want of memory the session is dropped.
pub fn drop_device(s: Session, cause: CauseCode) -> Result<Step, AllocError>
    ensures { IfOk result (λ step. step ≡ drops_ue cause s) }
{
    let mut session = s;
    let effects = drop_device_in_place(&mut session, cause)?;
    Step::new(session, effects)
}

/// Frees the radio bearers: the gateway lets go of the base station first, where it has one, and then the device's context is
/// released (TS 23.401, 5.3.5).
#[tactic(auto, unfolding(device_types::specs::Acts::frees_bearers))]
pub fn free_link_in_place(session: &mut Session, cause: CauseCode) -> Result<Effects, AllocError>
    ensures { IfOk result (λ effects. made session.new effects ≡ frees_bearers cause session.old) }
{
    session.cause = cause;
    match session.bearer {
        Bearer::None | Bearer::Made => release_context(session),
        Bearer::Active => {
            session.stage = Stage::AwaitRelease;
            only(session.alloc(), Effect::Gateway(GwCall::Release))
        }
    }
}

/// The step of `free_link_in_place`. For want of memory the session is dropped.
pub fn free_link(s: Session, cause: CauseCode) -> Result<Step, AllocError>
    ensures { IfOk result (λ step. step ≡ frees_bearers cause s) }
{
    let mut session = s;
    let effects = free_link_in_place(&mut session, cause)?;
    Step::new(session, effects)
}
