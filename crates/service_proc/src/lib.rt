//! The service request, data that waits, and the release of the S1 connection (3GPP TS 23.401, 5.3.4.1, 5.3.4.3 and 5.3.5).
#![tactic(auto)]

ghost use Rattle.std.specs.Prelude.{◌≡◌, ◌^◌, ◌-◌, ◌∷◌, [], min, length, IfOk, Option};
ghost use Rattle.bearer_proc.specs.Taking.{Takes};
ghost use Rattle.device_types.specs.Acts.{made, run, enters, tells_to, sets_up, pages, moves_connection};
ghost use Rattle.device_types.specs.Rule.{rule, fitting, at};
ghost use Rattle.device_types.specs.Service.{service_message, service_answer};
ghost use Rattle.device_types.specs.StepTable.{service_rules};
ghost use Rattle.device_types.specs.declared.down.Accept.TheVariants.{No};
ghost use Rattle.device_types.specs.declared.message.Body.TheVariants as bodies;
ghost use Rattle.device_types.specs.declared.message.Side.{Side};
ghost use Rattle.device_types.specs.declared.nas_out.NasOut.TheVariants.{ServiceReject};
ghost use Rattle.device_types.specs.declared.session.Stage.TheVariants.{Connecting, Idle};

use bearer_proc::{
    IMPLICITLY_DETACHED, UNSPECIFIED, context_setup, free_link_in_place, move_link_in_place,
    nas_to, only, paging, release_context,
};
use device_types::{
    Accept, Answer, Bearer, Body, CauseCode, Effect, Effects, GwCall, Input, Link, Message, NasOut,
    Octets, Session, Stage, Step, TryCopy,
};
use std::alloc::AllocError;

/// Takes the step of the service request and of the release: the effects, where one of their rows fits, of the step of that row; where
/// none does, the session stays. For want of memory it may have changed.
pub fn service_step_in_place(
    session: &mut Session,
    input: &Input,
) -> Result<Option<Effects>, AllocError>
    ensures { IfOk result (Takes session.old session.new (fitting (service_rules session.old input.now) session.old)) }
{
    match input {
        Input::Message(message) => on_message(session, message),
        Input::Answer { answer, .. } => on_answer(session, answer),
    }
}

/// The step of a service request: Some exactly where one of its rows fits, and then that row's step.
pub fn service_step(session: &Session, input: &Input) -> Result<Option<Step>, AllocError>
    ensures { IfOk result (λ step. step ≡ fitting (service_rules session.now input.now) session.now) }
{
    let mut session = session.copy()?;
    let Some(effects) = service_step_in_place(&mut session, input)? else {
        return Ok(None);
    };
    Ok(Some(Step::new(session, effects)?))
}

fn on_message(session: &mut Session, message: &Message) -> Result<Option<Effects>, AllocError>
    ensures { IfOk result (Takes session.old session.new (fitting (service_message session.old message.now message.now.body) session.old)) }
{
    match &message.body {
        Body::Service => request(session, message),
        Body::ContextDone { addr, teid, .. } => context_done(session, message, *addr, *teid),
        Body::ContextFailed => context_failed(session, message),
        Body::ReleaseAsked { cause } => release_asked(session, message, *cause),
        Body::Released => released(session, message),
        Body::Capability { octets } => capability(session, message, octets),
        Body::Data => data_waits(session),
        _ => Ok(None),
    }
}

/// The request, on any S1 connection.
fn request(session: &mut Session, message: &Message) -> Result<Option<Effects>, AllocError>
    ensures { IfOk result (Takes session.old session.new (fitting (service_message session.old message.now bodies.Service) session.old)) }
{
    if session.is_held() {
        return Ok(Some(set_up(session, message)?));
    }
    if session.is_settled() {
        return Ok(Some(reject(session, message)?));
    }
    Ok(None)
}

/// The device is registered: its context is set up on the connection of the request.
fn set_up(session: &mut Session, message: &Message) -> Result<Effects, AllocError>
    ensures { IfOk result (λ effects. made session.new effects ≡ run (moves_connection message.now.station message.now.enb ∷ sets_up No ∷ enters Connecting ∷ []) session.old) }
{
    let mut effects = move_link_in_place(session, message.station, message.enb)?;
    effects.push(context_setup(session, Accept::No)?)?;
    session.stage = Stage::Connecting;
    Ok(effects)
}

/// The device is not registered.
fn reject(session: &mut Session, message: &Message) -> Result<Effects, AllocError>
    ensures { IfOk result (λ effects. made session.new effects ≡ run (tells_to message.now.station message.now.enb (ServiceReject 10) ∷ []) session.old) }
{
    let reject = NasOut::ServiceReject {
        cause: IMPLICITLY_DETACHED,
    };
    only(
        session.alloc(),
        nas_to(message.station, message.enb, reject),
    )
}

/// The base station has set up the context, whatever it says of a second bearer.
fn context_done(
    session: &mut Session,
    message: &Message,
    addr: u32,
    teid: u32,
) -> Result<Option<Effects>, AllocError>
    ensures { (second : Option Side) → IfOk result (Takes session.old session.new (fitting (service_message session.old message.now (bodies.ContextDone addr teid second)) session.old)) }
{
    if !(session.is_here(message) && session.is_at(Stage::Connecting)) {
        return Ok(None);
    }
    session.side_addr = addr;
    session.side_teid = teid;
    session.stage = Stage::AwaitModify;
    let modify = Effect::Gateway(GwCall::Modify(addr, teid));
    Ok(Some(only(session.alloc(), modify)?))
}

/// The base station could not set up the context.
fn context_failed(session: &mut Session, message: &Message) -> Result<Option<Effects>, AllocError>
    ensures { IfOk result (Takes session.old session.new (fitting (service_message session.old message.now bodies.ContextFailed) session.old)) }
{
    if session.is_here(message) && session.is_at(Stage::Connecting) {
        return Ok(Some(free_link_in_place(session, UNSPECIFIED)?));
    }
    Ok(None)
}

/// The base station asks for the release.
fn release_asked(
    session: &mut Session,
    message: &Message,
    cause: CauseCode,
) -> Result<Option<Effects>, AllocError>
    ensures { IfOk result (Takes session.old session.new (fitting (service_message session.old message.now (bodies.ReleaseAsked cause)) session.old)) }
{
    if session.is_here(message)
        && (session.is_at(Stage::Connecting) || session.is_at(Stage::Connected))
    {
        return Ok(Some(free_link_in_place(session, cause)?));
    }
    Ok(None)
}

/// The base station has released the context.
fn released(session: &mut Session, message: &Message) -> Result<Option<Effects>, AllocError>
    ensures { IfOk result (Takes session.old session.new (fitting (service_message session.old message.now bodies.Released) session.old)) }
{
    if !(session.is_here(message) && session.is_at(Stage::Releasing)) {
        return Ok(None);
    }
    session.link = Link::Off;
    session.stage = if session.registered {
        Stage::Idle
    } else {
        Stage::Detached
    };
    Ok(Some(Effects::new(session.alloc())))
}

/// The base station tells the device's radio capability.
fn capability(
    session: &mut Session,
    message: &Message,
    octets: &Octets,
) -> Result<Option<Effects>, AllocError>
    ensures { IfOk result (Takes session.old session.new (fitting (service_message session.old message.now (bodies.Capability octets.now)) session.old)) }
{
    if !(session.is_here(message) && session.is_settled()) {
        return Ok(None);
    }
    session.radio = at_most_u32(octets.items().len());
    Ok(Some(Effects::new(session.alloc())))
}

/// The gateway has data for the device: it is paged where it is idle.
fn data_waits(session: &mut Session) -> Result<Option<Effects>, AllocError>
    ensures { IfOk result (Takes session.old session.new (fitting (rule (at Idle session.old) (pages ∷ []) ∷ []) session.old)) }
{
    if !session.is_at(Stage::Idle) {
        return Ok(None);
    }
    Ok(Some(only(session.alloc(), paging(session))?))
}

/// The number, or the greatest `u32` if it is greater.
fn at_most_u32(n: usize) -> u32
    ensures { result ≡ min n (2 ^ 32 - 1) }
{
    if n < u32::MAX as usize {
        n as u32
    } else {
        u32::MAX
    }
}

fn on_answer(session: &mut Session, answer: &Answer) -> Result<Option<Effects>, AllocError>
    ensures { IfOk result (Takes session.old session.new (fitting (service_answer session.old answer.now) session.old)) }
{
    match answer {
        Answer::Freed => {
            if !session.is_at(Stage::AwaitRelease) {
                return Ok(None);
            }
            session.bearer = Bearer::Made;
            Ok(Some(release_context(session)?))
        }
        _ => Ok(None),
    }
}
