//! Attach (3GPP TS 23.401, 5.3.2.1).
#![tactic(auto)]

ghost use Rattle.std.specs.Prelude.{◌≡◌, ◌∷◌, [], IfOk, Option, false};
ghost use Rattle.bearer_proc.specs.Taking.{Takes};
ghost use Rattle.device_types.specs.Acts.{made, run, sets, enters, tells, asks, moves_connection, drops_ue, normal_release, authentication_failure};
ghost use Rattle.device_types.specs.Attach.{attach_message, attach_answer};
ghost use Rattle.device_types.specs.Rule.{fitting};
ghost use Rattle.device_types.specs.StepTable.{attach_rules};
ghost use Rattle.device_types.specs.declared.effect.SubCall.TheVariants as subscriber;
ghost use Rattle.device_types.specs.declared.input.Answer.TheVariants as answers;
ghost use Rattle.device_types.specs.declared.message.Body.TheVariants as bodies;
ghost use Rattle.device_types.specs.declared.message.Side.{Side};
ghost use Rattle.device_types.specs.declared.nas_out.NasOut.TheVariants.{AuthReject, SecurityCommand, AttachReject};
ghost use Rattle.device_types.specs.declared.session.Stage.TheVariants.{AwaitVectors, Securing};
ghost use Rattle.device_types.specs.declared.subscriber.Subscriber.{Subscriber};

use bearer_proc::{
    AREA_NOT_ALLOWED, AUTHENTICATION_FAILURE, NORMAL_RELEASE, UNSPECIFIED, context_setup,
    drop_device_in_place, move_link_in_place, nas_message, only,
};
use device_types::{
    Accept, Answer, Bearer, Body, CauseCode, Effect, Effects, GwCall, Input, Key, Message, NasOut,
    Octets, Session, ShortOctets, Stage, Step, SubCall, Subscriber, TryCopy,
};
use std::alloc::AllocError;

/// Takes the step of attach: the effects, where one of its rows fits, of the step of that row; where none does, the session stays. For
/// want of memory it may have changed.
pub fn attach_step_in_place(
    row: &Subscriber,
    session: &mut Session,
    input: &Input,
) -> Result<Option<Effects>, AllocError>
    ensures { IfOk result (Takes session.old session.new (fitting (attach_rules row.now session.old input.now) session.old)) }
{
    match input {
        Input::Message(message) => on_message(row, session, message),
        Input::Answer { answer, .. } => on_answer(session, answer),
    }
}

/// The step of attach: Some exactly where one of its rows fits, and then that row's step.
pub fn attach_step(
    row: &Subscriber,
    session: &Session,
    input: &Input,
) -> Result<Option<Step>, AllocError>
    ensures { IfOk result (λ step. step ≡ fitting (attach_rules row.now session.now input.now) session.now) }
{
    let mut session = session.copy()?;
    let Some(effects) = attach_step_in_place(row, &mut session, input)? else {
        return Ok(None);
    };
    Ok(Some(Step::new(session, effects)?))
}

fn on_message(
    row: &Subscriber,
    session: &mut Session,
    message: &Message,
) -> Result<Option<Effects>, AllocError>
    ensures { IfOk result (Takes session.old session.new (fitting (attach_message row.now session.old message.now message.now.body) session.old)) }
{
    match &message.body {
        Body::Attach {
            plmn,
            tac,
            eea,
            eia,
            pti,
        } => request(row, session, message, *plmn, *tac, *eea, *eia, *pti),
        Body::Response { res } => response(session, message, res),
        Body::Secured => secured(session, message),
        Body::SecurityRefused => security_refused(session, message),
        Body::ContextDone { addr, teid, .. } => context_done(session, message, *addr, *teid),
        Body::AttachDone => attach_done(session, message),
        Body::ContextFailed => context_failed(session, message),
        Body::ReleaseAsked { cause } => release_asked(session, message, *cause),
        _ => Ok(None),
    }
}

/// The request, on any S1 connection.
fn request(
    row: &Subscriber,
    session: &mut Session,
    message: &Message,
    plmn: u32,
    tac: u16,
    eea: u8,
    eia: u8,
    pti: u8,
) -> Result<Option<Effects>, AllocError>
    ensures { IfOk result (Takes session.old session.new (fitting (attach_message row.now session.old message.now (bodies.Attach plmn tac eea eia pti)) session.old)) }
{
    if !session.is_settled() {
        return Ok(None);
    }
    if row.is_forbidden(tac) {
        return Ok(Some(reject_area(session, message)?));
    }
    Ok(Some(accept_request(session, message, plmn, tac, eea, eia, pti)?))
}

/// The area is one where the device is not served.
fn reject_area(session: &mut Session, message: &Message) -> Result<Effects, AllocError>
    ensures { IfOk result (λ effects. made session.new effects ≡ run (moves_connection message.now.station message.now.enb ∷ tells (AttachReject 12) ∷ drops_ue normal_release ∷ []) session.old) }
{
    let mut effects = move_link_in_place(session, message.station, message.enb)?;
    let reject = NasOut::AttachReject {
        cause: AREA_NOT_ALLOWED,
    };
    effects.push(nas_message(session, reject))?;
    effects.append(drop_device_in_place(session, NORMAL_RELEASE)?)?;
    Ok(effects)
}

/// The request is taken: the subscriber server is asked for an authentication vector.
fn accept_request(
    session: &mut Session,
    message: &Message,
    plmn: u32,
    tac: u16,
    eea: u8,
    eia: u8,
    pti: u8,
) -> Result<Effects, AllocError>
    ensures { IfOk result (λ effects. made session.new effects ≡ run (moves_connection message.now.station message.now.enb ∷ sets (λ t. record t { plmn = plmn; tac = tac; eea = eea; eia = eia; pti = pti; registered = false }) ∷ asks subscriber.Vectors ∷ enters AwaitVectors ∷ []) session.old) }
{
    let mut effects = move_link_in_place(session, message.station, message.enb)?;
    session.plmn = plmn;
    session.tac = tac;
    session.eea = eea;
    session.eia = eia;
    session.pti = pti;
    session.registered = false;
    session.stage = Stage::AwaitVectors;
    effects.push(Effect::Subscriber(SubCall::Vectors))?;
    Ok(effects)
}

/// The response to the challenge.
fn response(
    session: &mut Session,
    message: &Message,
    res: &Octets,
) -> Result<Option<Effects>, AllocError>
    ensures { (row : Subscriber) → IfOk result (Takes session.old session.new (fitting (attach_message row session.old message.now (bodies.Response res.now)) session.old)) }
{
    if !(session.is_here(message) && session.is_at(Stage::Authenticating)) {
        return Ok(None);
    }
    if res.octets() == session.res.octets() {
        return Ok(Some(choose_algorithms(session)?));
    }
    Ok(Some(reject_response(session)?))
}

/// The device is who it says: the algorithms that it can are chosen.
fn choose_algorithms(session: &mut Session) -> Result<Effects, AllocError>
    ensures { IfOk result (λ effects. made session.new effects ≡ run (tells (SecurityCommand session.old.eea session.old.eia) ∷ enters Securing ∷ []) session.old) }
{
    session.stage = Stage::Securing;
    let command = NasOut::SecurityCommand {
        eea: session.eea,
        eia: session.eia,
    };
    only(session.alloc(), nas_message(session, command))
}

/// The device is not who it says.
fn reject_response(session: &mut Session) -> Result<Effects, AllocError>
    ensures { IfOk result (λ effects. made session.new effects ≡ run (tells AuthReject ∷ drops_ue authentication_failure ∷ []) session.old) }
{
    let mut effects = Effects::new(session.alloc());
    effects.push(nas_message(session, NasOut::AuthReject))?;
    effects.append(drop_device_in_place(session, AUTHENTICATION_FAILURE)?)?;
    Ok(effects)
}

/// The device has taken the algorithms.
fn secured(session: &mut Session, message: &Message) -> Result<Option<Effects>, AllocError>
    ensures { (row : Subscriber) → IfOk result (Takes session.old session.new (fitting (attach_message row session.old message.now bodies.Secured) session.old)) }
{
    if !(session.is_here(message) && session.is_at(Stage::Securing)) {
        return Ok(None);
    }
    session.stage = Stage::AwaitLocation;
    Ok(Some(only(session.alloc(), Effect::Subscriber(SubCall::Location))?))
}

/// The device has refused the algorithms.
fn security_refused(session: &mut Session, message: &Message) -> Result<Option<Effects>, AllocError>
    ensures { (row : Subscriber) → IfOk result (Takes session.old session.new (fitting (attach_message row session.old message.now bodies.SecurityRefused) session.old)) }
{
    if session.is_here(message) && session.is_at(Stage::Securing) {
        return Ok(Some(drop_device_in_place(session, UNSPECIFIED)?));
    }
    Ok(None)
}

/// The base station could not set up the context.
fn context_failed(session: &mut Session, message: &Message) -> Result<Option<Effects>, AllocError>
    ensures { (row : Subscriber) → IfOk result (Takes session.old session.new (fitting (attach_message row session.old message.now bodies.ContextFailed) session.old)) }
{
    if session.is_here(message)
        && (session.is_at(Stage::Accepting) || session.is_at(Stage::AcceptingDone))
    {
        return Ok(Some(drop_device_in_place(session, UNSPECIFIED)?));
    }
    Ok(None)
}

/// The base station asks for the release.
fn release_asked(
    session: &mut Session,
    message: &Message,
    cause: CauseCode,
) -> Result<Option<Effects>, AllocError>
    ensures { (row : Subscriber) → IfOk result (Takes session.old session.new (fitting (attach_message row session.old message.now (bodies.ReleaseAsked cause)) session.old)) }
{
    if session.is_here(message) && session.is_attaching() {
        return Ok(Some(drop_device_in_place(session, cause)?));
    }
    Ok(None)
}

/// The base station has set up the context, whatever it says of a second bearer.
fn context_done(
    session: &mut Session,
    message: &Message,
    addr: u32,
    teid: u32,
) -> Result<Option<Effects>, AllocError>
    ensures { (row : Subscriber) (second : Option Side) → IfOk result (Takes session.old session.new (fitting (attach_message row session.old message.now (bodies.ContextDone addr teid second)) session.old)) }
{
    if !session.is_here(message) {
        return Ok(None);
    }
    if session.is_at(Stage::Accepting) {
        session.side_addr = addr;
        session.side_teid = teid;
        session.stage = Stage::AcceptingContext;
        return Ok(Some(Effects::new(session.alloc())));
    }
    if session.is_at(Stage::AcceptingDone) {
        session.side_addr = addr;
        session.side_teid = teid;
        session.stage = Stage::AwaitModify;
        return Ok(Some(only(session.alloc(), Effect::Gateway(GwCall::Modify(addr, teid)))?));
    }
    Ok(None)
}

/// The device has accepted.
fn attach_done(session: &mut Session, message: &Message) -> Result<Option<Effects>, AllocError>
    ensures { (row : Subscriber) → IfOk result (Takes session.old session.new (fitting (attach_message row session.old message.now bodies.AttachDone) session.old)) }
{
    if !session.is_here(message) {
        return Ok(None);
    }
    if session.is_at(Stage::Accepting) {
        session.stage = Stage::AcceptingDone;
        return Ok(Some(Effects::new(session.alloc())));
    }
    if session.is_at(Stage::AcceptingContext) {
        session.stage = Stage::AwaitModify;
        let call = GwCall::Modify(session.side_addr, session.side_teid);
        return Ok(Some(only(session.alloc(), Effect::Gateway(call))?));
    }
    Ok(None)
}

fn on_answer(session: &mut Session, answer: &Answer) -> Result<Option<Effects>, AllocError>
    ensures { IfOk result (Takes session.old session.new (fitting (attach_answer session.old answer.now) session.old)) }
{
    match answer {
        Answer::Vectors(rand, autn, res, key) => vectors(session, rand, autn, res, key),
        Answer::Located(dl, ul) => {
            if !session.is_at(Stage::AwaitLocation) {
                return Ok(None);
            }
            session.dl = *dl;
            session.ul = *ul;
            session.stage = Stage::AwaitCreate;
            Ok(Some(only(session.alloc(), Effect::Gateway(GwCall::Create))?))
        }
        Answer::Created(sgw, teid, ip) => created(session, *sgw, *teid, *ip),
        Answer::Modified => {
            if !session.is_at(Stage::AwaitModify) {
                return Ok(None);
            }
            session.bearer = Bearer::Active;
            session.registered = true;
            session.stage = Stage::Connected;
            Ok(Some(Effects::new(session.alloc())))
        }
        _ => Ok(None),
    }
}

/// The authentication vector has come.
fn vectors(
    session: &mut Session,
    rand: &Octets,
    autn: &Octets,
    res: &Octets,
    key: &Octets,
) -> Result<Option<Effects>, AllocError>
    ensures { IfOk result (Takes session.old session.new (fitting (attach_answer session.old (answers.Vectors rand.now autn.now res.now key.now)) session.old)) }
{
    if !session.is_at(Stage::AwaitVectors) {
        return Ok(None);
    }
    session.res = ShortOctets::from_slice(session.alloc(), res.octets())?;
    session.key = Key::new(session.alloc(), key.octets())?;
    session.stage = Stage::Authenticating;
    let request = NasOut::AuthRequest {
        rand: rand.copy()?,
        autn: autn.copy()?,
    };
    let effect = nas_message(session, request);
    Ok(Some(only(session.alloc(), effect)?))
}

/// The gateway has made the session.
fn created(
    session: &mut Session,
    sgw: u32,
    teid: u32,
    ip: u32,
) -> Result<Option<Effects>, AllocError>
    ensures { IfOk result (Takes session.old session.new (fitting (attach_answer session.old (answers.Created sgw teid ip)) session.old)) }
{
    if !session.is_at(Stage::AwaitCreate) {
        return Ok(None);
    }
    session.sgw = sgw;
    session.teid = teid;
    session.ip = ip;
    session.bearer = Bearer::Made;
    session.stage = Stage::Accepting;
    let accept = Accept::Yes {
        plmn: session.plmn,
        tac: session.tac,
        pti: session.pti,
        ip,
    };
    let effect = context_setup(session, accept)?;
    Ok(Some(only(session.alloc(), effect)?))
}
