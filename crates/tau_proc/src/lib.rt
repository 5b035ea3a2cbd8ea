//! The tracking area update (3GPP TS 23.401, 5.3.3).
#![tactic(auto)]

ghost use Rattle.std.specs.Prelude.{◌≡◌, ◌∷◌, [], IfOk, true, false};
ghost use Rattle.bearer_proc.specs.Taking.{Takes};
ghost use Rattle.device_types.specs.Acts.{made, run, sets, tells, tells_to, moves_connection, frees_bearers, normal_release};
ghost use Rattle.device_types.specs.AreaUpdate.{area_message};
ghost use Rattle.device_types.specs.Rule.{fitting};
ghost use Rattle.device_types.specs.StepTable.{area_rules};
ghost use Rattle.device_types.specs.declared.message.Body.TheVariants as bodies;
ghost use Rattle.device_types.specs.declared.nas_out.NasOut.TheVariants.{AreaReject, AreaAccept};

use bearer_proc::{
    AREA_NOT_ALLOWED, IDENTITY_NOT_DERIVED, NORMAL_RELEASE, free_link_in_place, move_link_in_place,
    nas_message, nas_to, only,
};
use device_types::{
    Body, Effects, Input, Message, NasOut, Session, Stage, Step, Subscriber, TryCopy,
};
use std::alloc::AllocError;

/// Takes the step of the tracking area update: the effects, where one of its rows fits, of the step of that row; where none does, the
/// session stays. For want of memory it may have changed.
pub fn tau_step_in_place(
    row: &Subscriber,
    session: &mut Session,
    input: &Input,
) -> Result<Option<Effects>, AllocError>
    ensures { IfOk result (Takes session.old session.new (fitting (area_rules row.now session.old input.now) session.old)) }
{
    match input {
        Input::Message(message) => on_message(row, session, message),
        Input::Answer { .. } => Ok(None),
    }
}

/// The step of a tracking area update: Some exactly where one of its rows fits, and then that row's step.
pub fn tau_step(
    row: &Subscriber,
    session: &Session,
    input: &Input,
) -> Result<Option<Step>, AllocError>
    ensures { IfOk result (λ step. step ≡ fitting (area_rules row.now session.now input.now) session.now) }
{
    let mut session = session.copy()?;
    let Some(effects) = tau_step_in_place(row, &mut session, input)? else {
        return Ok(None);
    };
    Ok(Some(Step::new(session, effects)?))
}

fn on_message(
    row: &Subscriber,
    session: &mut Session,
    message: &Message,
) -> Result<Option<Effects>, AllocError>
    ensures { IfOk result (Takes session.old session.new (fitting (area_message row.now session.old message.now message.now.body) session.old)) }
{
    match &message.body {
        Body::Area { first, plmn, tac } => {
            if *first {
                first_update(row, session, message, *plmn, *tac)
            } else {
                later_update(row, session, message, *plmn, *tac)
            }
        }
        _ => Ok(None),
    }
}

/// An update of a device that was idle, on any S1 connection.
fn first_update(
    row: &Subscriber,
    session: &mut Session,
    message: &Message,
    plmn: u32,
    tac: u16,
) -> Result<Option<Effects>, AllocError>
    ensures { IfOk result (Takes session.old session.new (fitting (area_message row.now session.old message.now (bodies.Area true plmn tac)) session.old)) }
{
    if session.is_held() {
        if row.is_forbidden(tac) {
            return Ok(Some(reject_idle(session, message)?));
        }
        return Ok(Some(accept_idle(session, message, plmn, tac)?));
    }
    if session.is_settled() {
        return Ok(Some(reject_detached(session, message)?));
    }
    Ok(None)
}

/// The area of a device that was idle is one where it is not served.
fn reject_idle(session: &mut Session, message: &Message) -> Result<Effects, AllocError>
    ensures { IfOk result (λ effects. made session.new effects ≡ run (moves_connection message.now.station message.now.enb ∷ tells (AreaReject 12) ∷ frees_bearers normal_release ∷ []) session.old) }
{
    let mut effects = move_link_in_place(session, message.station, message.enb)?;
    let reject = NasOut::AreaReject {
        cause: AREA_NOT_ALLOWED,
    };
    effects.push(nas_message(session, reject))?;
    effects.append(free_link_in_place(session, NORMAL_RELEASE)?)?;
    Ok(effects)
}

/// The area of a device that was idle is taken.
fn accept_idle(
    session: &mut Session,
    message: &Message,
    plmn: u32,
    tac: u16,
) -> Result<Effects, AllocError>
    ensures { IfOk result (λ effects. made session.new effects ≡ run (moves_connection message.now.station message.now.enb ∷ sets (λ t. record t { plmn = plmn; tac = tac }) ∷ tells AreaAccept ∷ frees_bearers normal_release ∷ []) session.old) }
{
    let mut effects = move_link_in_place(session, message.station, message.enb)?;
    session.plmn = plmn;
    session.tac = tac;
    effects.push(nas_message(session, NasOut::AreaAccept))?;
    effects.append(free_link_in_place(session, NORMAL_RELEASE)?)?;
    Ok(effects)
}

/// The device is not registered: its identity is of no use here.
fn reject_detached(session: &mut Session, message: &Message) -> Result<Effects, AllocError>
    ensures { IfOk result (λ effects. made session.new effects ≡ run (tells_to message.now.station message.now.enb (AreaReject 9) ∷ []) session.old) }
{
    let reject = NasOut::AreaReject {
        cause: IDENTITY_NOT_DERIVED,
    };
    let effect = nas_to(message.station, message.enb, reject);
    only(session.alloc(), effect)
}

/// An update of a device that is connected.
fn later_update(
    row: &Subscriber,
    session: &mut Session,
    message: &Message,
    plmn: u32,
    tac: u16,
) -> Result<Option<Effects>, AllocError>
    ensures { IfOk result (Takes session.old session.new (fitting (area_message row.now session.old message.now (bodies.Area false plmn tac)) session.old)) }
{
    if !(session.is_here(message) && session.is_at(Stage::Connected)) {
        return Ok(None);
    }
    if row.is_forbidden(tac) {
        return Ok(Some(reject_here(session)?));
    }
    Ok(Some(accept_here(session, plmn, tac)?))
}

/// The area of a connected device is one where it is not served.
fn reject_here(session: &mut Session) -> Result<Effects, AllocError>
    ensures { IfOk result (λ effects. made session.new effects ≡ run (tells (AreaReject 12) ∷ []) session.old) }
{
    let reject = NasOut::AreaReject {
        cause: AREA_NOT_ALLOWED,
    };
    only(session.alloc(), nas_message(session, reject))
}

/// The area of a connected device is taken.
fn accept_here(session: &mut Session, plmn: u32, tac: u16) -> Result<Effects, AllocError>
    ensures { IfOk result (λ effects. made session.new effects ≡ run (sets (λ t. record t { plmn = plmn; tac = tac }) ∷ tells AreaAccept ∷ []) session.old) }
{
    session.plmn = plmn;
    session.tac = tac;
    only(session.alloc(), nas_message(session, NasOut::AreaAccept))
}
