//! Detach (3GPP TS 23.401, 5.3.8.2).
#![tactic(auto)]

ghost use Rattle.std.specs.Prelude.{◌≡◌, ◌∷◌, [], IfOk, true, false};
ghost use Rattle.bearer_proc.specs.Taking.{Takes};
ghost use Rattle.device_types.specs.Acts.{made, run, tells_unless, releases, asks};
ghost use Rattle.device_types.specs.Detach.{detach_message, detach_answer, deletes, leaves};
ghost use Rattle.device_types.specs.Rule.{fitting};
ghost use Rattle.device_types.specs.StepTable.{detach_rules};
ghost use Rattle.device_types.specs.declared.effect.SubCall.TheVariants as subscriber;
ghost use Rattle.device_types.specs.declared.input.Answer.TheVariants as answers;
ghost use Rattle.device_types.specs.declared.message.Body.TheVariants as bodies;
ghost use Rattle.device_types.specs.declared.nas_out.NasOut.TheVariants.{DetachAccept};

use bearer_proc::{
    DETACH, context_release, drop_device_in_place, move_link_in_place, nas_message, nas_to, only,
};
use device_types::{
    Answer, Bearer, Body, Effect, Effects, GwCall, Input, Message, NasOut, Session, Stage, Step,
    SubCall, TryCopy,
};
use std::alloc::AllocError;

/// Takes the step of detach: the effects, where one of its rows fits, of the step of that row; where none does, the session stays. For
/// want of memory it may have changed.
pub fn detach_step_in_place(
    session: &mut Session,
    input: &Input,
) -> Result<Option<Effects>, AllocError>
    ensures { IfOk result (Takes session.old session.new (fitting (detach_rules session.old input.now) session.old)) }
{
    match input {
        Input::Message(message) => on_message(session, message),
        Input::Answer { answer, .. } => on_answer(session, answer),
    }
}

/// The step of detach: Some exactly where one of its rows fits, and then that row's step.
pub fn detach_step(session: &Session, input: &Input) -> Result<Option<Step>, AllocError>
    ensures { IfOk result (λ step. step ≡ fitting (detach_rules session.now input.now) session.now) }
{
    let mut session = session.copy()?;
    let Some(effects) = detach_step_in_place(&mut session, input)? else {
        return Ok(None);
    };
    Ok(Some(Step::new(session, effects)?))
}

fn on_message(session: &mut Session, message: &Message) -> Result<Option<Effects>, AllocError>
    ensures { IfOk result (Takes session.old session.new (fitting (detach_message session.old message.now message.now.body) session.old)) }
{
    match &message.body {
        Body::Detach { first, off } => {
            if *first {
                first_detach(session, message, *off)
            } else {
                later_detach(session, message, *off)
            }
        }
        _ => Ok(None),
    }
}

/// A request on any S1 connection.
fn first_detach(
    session: &mut Session,
    message: &Message,
    off: bool,
) -> Result<Option<Effects>, AllocError>
    ensures { IfOk result (Takes session.old session.new (fitting (detach_message session.old message.now (bodies.Detach true off)) session.old)) }
{
    if session.is_gone() {
        if off {
            return Ok(Some(Effects::new(session.alloc())));
        }
        let effect = nas_to(message.station, message.enb, NasOut::DetachAccept);
        return Ok(Some(only(session.alloc(), effect)?));
    }
    if session.is_settled() {
        let mut effects = move_link_in_place(session, message.station, message.enb)?;
        effects.append(leave(session, off)?)?;
        return Ok(Some(effects));
    }
    Ok(None)
}

/// A request on the device's own S1 connection.
fn later_detach(
    session: &mut Session,
    message: &Message,
    off: bool,
) -> Result<Option<Effects>, AllocError>
    ensures { IfOk result (Takes session.old session.new (fitting (detach_message session.old message.now (bodies.Detach false off)) session.old)) }
{
    if session.is_here(message) && session.is_served() {
        return Ok(Some(leave(session, off)?));
    }
    Ok(None)
}

/// The device leaves, switched off or not: where it has a session at the gateway, that is deleted first.
fn leave(session: &mut Session, off: bool) -> Result<Effects, AllocError>
    ensures { IfOk result (λ effects. made session.new effects ≡ leaves off session.old) }
{
    match session.bearer {
        Bearer::None => {
            if off {
                return drop_device_in_place(session, DETACH);
            }
            let mut effects = Effects::new(session.alloc());
            effects.push(nas_message(session, NasOut::DetachAccept))?;
            effects.append(drop_device_in_place(session, DETACH)?)?;
            Ok(effects)
        }
        Bearer::Made | Bearer::Active => delete_bearer(session, off),
    }
}

/// The device's session at the gateway is deleted before it leaves.
fn delete_bearer(session: &mut Session, off: bool) -> Result<Effects, AllocError>
    ensures { IfOk result (λ effects. made session.new effects ≡ run (deletes off) session.old) }
{
    session.cause = DETACH;
    session.registered = false;
    session.off = off;
    session.stage = Stage::AwaitDelete;
    only(session.alloc(), Effect::Gateway(GwCall::Delete))
}

fn on_answer(session: &mut Session, answer: &Answer) -> Result<Option<Effects>, AllocError>
    ensures { IfOk result (Takes session.old session.new (fitting (detach_answer session.old answer.now) session.old)) }
{
    match answer {
        Answer::Deleted => deleted(session),
        _ => Ok(None),
    }
}

/// The gateway has deleted the session.
fn deleted(session: &mut Session) -> Result<Option<Effects>, AllocError>
    ensures { IfOk result (Takes session.old session.new (fitting (detach_answer session.old answers.Deleted) session.old)) }
{
    if !session.is_at(Stage::AwaitDelete) {
        return Ok(None);
    }
    let effects = farewell(session)?;
    session.bearer = Bearer::None;
    session.stage = Stage::Releasing;
    Ok(Some(effects))
}

/// What is told of a device whose session at the gateway is deleted: to the subscriber server, to the device where it is not switched
/// off, and to its base station.
fn farewell(session: &Session) -> Result<Effects, AllocError>
    ensures { IfOk result (λ effects. effects ≡ (run (asks subscriber.Purge ∷ tells_unless session.now.off DetachAccept ∷ releases ∷ []) session.now).effects) }
{
    let mut effects = Effects::new(session.alloc());
    effects.push(Effect::Subscriber(SubCall::Purge))?;
    if !session.off {
        effects.push(nas_message(session, NasOut::DetachAccept))?;
    }
    effects.push(context_release(session))?;
    Ok(effects)
}
