//! A second PDN connection (3GPP TS 23.401, 5.10.2).
#![tactic(auto)]

ghost use Rattle.std.specs.List.{list_any};
ghost use Rattle.std.specs.Prelude.{◌≡◌, ◌∷◌, [], List, map, IfOk};
ghost use Rattle.bearer_proc.specs.Taking.{Takes};
ghost use Rattle.device_types.specs.Acts.{made, run, sets, enters, tells, calls};
ghost use Rattle.device_types.specs.Rule.{fitting};
ghost use Rattle.device_types.specs.Second.{missing_name, request_rules, side_rules, accept_rules, second_message, second_answer, second_rules, with_both, is_setup, sets_up_both, notes_side, tells_side, changed_message, changed_answer, changed, second_of};
ghost use Rattle.device_types.specs.declared.effect.Effect.{Effect};
ghost use Rattle.device_types.specs.declared.effect.GwCall.TheVariants as gateway;
ghost use Rattle.device_types.specs.declared.input.Answer.TheVariants as answers;
ghost use Rattle.device_types.specs.declared.nas_out.NasOut.TheVariants.{PdnReject};
ghost use Rattle.device_types.specs.declared.session.Stage.TheVariants.{AwaitSecond, AwaitSecondModify};

use bearer_proc::{nas_message, only, second_setup};
use device_types::{
    Answer, Body, Down, Effect, Effects, GwCall, Input, Message, NasOut, Second, Session, Side,
    Stage, Step, Subscriber, TryCopy,
};
use std::alloc::AllocError;

/// The ESM cause "missing or unknown APN" (3GPP TS 24.301, 9.9.4.4).
const MISSING_NAME: u8 = 27;

/// Takes the step of a row of the second connection: the effects, where one fits, of the step of that row; where none does, the session
/// stays. For want of memory it may have changed.
pub fn second_step_in_place(
    row: &Subscriber,
    session: &mut Session,
    input: &Input,
) -> Result<Option<Effects>, AllocError>
    ensures { IfOk result (Takes session.old session.new (fitting (second_rules row.now session.old input.now) session.old)) }
{
    match input {
        Input::Message(message) => on_message(row, session, message),
        Input::Answer { answer, .. } => on_answer(session, answer),
    }
}

fn on_message(
    row: &Subscriber,
    session: &mut Session,
    message: &Message,
) -> Result<Option<Effects>, AllocError>
    ensures { IfOk result (Takes session.old session.new (fitting (second_message row.now session.old message.now message.now.body) session.old)) }
{
    match &message.body {
        Body::PdnRequest { pti } => request(row, session, message, *pti),
        Body::SecondDone { addr, teid } => bearer_done(session, message, *addr, *teid),
        Body::PdnAccept => accepted(session, message),
        _ => Ok(None),
    }
}

/// The device asks for a second connection.
fn request(
    row: &Subscriber,
    session: &mut Session,
    message: &Message,
    pti: u8,
) -> Result<Option<Effects>, AllocError>
    ensures { IfOk result (Takes session.old session.new (fitting (request_rules row.now session.old message.now pti) session.old)) }
{
    if !(session.is_here(message)
        && session.is_at(Stage::Connected)
        && session.is_second_at(Second::None))
    {
        return Ok(None);
    }
    if row.has_both() {
        return Ok(Some(ask_gateway(session, pti)?));
    }
    Ok(Some(reject(session, pti)?))
}

/// The session of the second connection is asked for.
fn ask_gateway(session: &mut Session, pti: u8) -> Result<Effects, AllocError>
    ensures { IfOk result (λ effects. made session.new effects ≡ run (sets (λ t. record t { pti2 = pti }) ∷ calls gateway.SecondCreate ∷ enters AwaitSecond ∷ []) session.old) }
{
    session.pti2 = pti;
    session.stage = Stage::AwaitSecond;
    only(session.alloc(), Effect::Gateway(GwCall::SecondCreate))
}

/// The subscriber has no second connection.
fn reject(session: &mut Session, pti: u8) -> Result<Effects, AllocError>
    ensures { IfOk result (λ effects. made session.new effects ≡ run (tells (PdnReject pti missing_name) ∷ []) session.old) }
{
    let reject = NasOut::PdnReject {
        pti,
        cause: MISSING_NAME,
    };
    let effect = nas_message(session, reject);
    only(session.alloc(), effect)
}

/// The base station has set up the second bearer.
fn bearer_done(
    session: &mut Session,
    message: &Message,
    addr: u32,
    teid: u32,
) -> Result<Option<Effects>, AllocError>
    ensures { IfOk result (Takes session.old session.new (fitting (side_rules session.old message.now addr teid) session.old)) }
{
    if !(session.is_here(message) && session.is_at(Stage::Connected)) {
        return Ok(None);
    }
    if session.is_second_at(Second::Made) {
        set_side(session, addr, teid);
        session.second = Second::Radio;
        return Ok(Some(Effects::new(session.alloc())));
    }
    if session.is_second_at(Second::Accepted) {
        set_side(session, addr, teid);
        return Ok(Some(tell_gateway(session)?));
    }
    Ok(None)
}

/// Notes the base station's side of the second bearer.
fn set_side(session: &mut Session, addr: u32, teid: u32)
    ensures { session.new ≡ record session.old { side2_addr = addr; side2_teid = teid } }
{
    session.side2_addr = addr;
    session.side2_teid = teid;
}

/// The device has accepted the second connection.
fn accepted(session: &mut Session, message: &Message) -> Result<Option<Effects>, AllocError>
    ensures { IfOk result (Takes session.old session.new (fitting (accept_rules session.old message.now) session.old)) }
{
    if !(session.is_here(message) && session.is_at(Stage::Connected)) {
        return Ok(None);
    }
    if session.is_second_at(Second::Made) {
        session.second = Second::Accepted;
        return Ok(Some(Effects::new(session.alloc())));
    }
    if session.is_second_at(Second::Radio) {
        return Ok(Some(tell_gateway(session)?));
    }
    Ok(None)
}

/// The gateway is told the base station's side of the second bearer.
fn tell_gateway(session: &mut Session) -> Result<Effects, AllocError>
    ensures { IfOk result (λ effects. made session.new effects ≡ run (calls (gateway.SecondModify session.old.side2_addr session.old.side2_teid) ∷ enters AwaitSecondModify ∷ []) session.old) }
{
    let call = GwCall::SecondModify(session.side2_addr, session.side2_teid);
    session.stage = Stage::AwaitSecondModify;
    only(session.alloc(), Effect::Gateway(call))
}

fn on_answer(session: &mut Session, answer: &Answer) -> Result<Option<Effects>, AllocError>
    ensures { IfOk result (Takes session.old session.new (fitting (second_answer session.old answer.now) session.old)) }
{
    match answer {
        Answer::SecondCreated(sgw, teid, ip) => created(session, *sgw, *teid, *ip),
        Answer::SecondModified => modified(session),
        _ => Ok(None),
    }
}

/// The gateway has the session of the second connection: its bearer is set up at the base station.
fn created(
    session: &mut Session,
    sgw: u32,
    teid: u32,
    ip: u32,
) -> Result<Option<Effects>, AllocError>
    ensures { IfOk result (Takes session.old session.new (fitting (second_answer session.old (answers.SecondCreated sgw teid ip)) session.old)) }
{
    if !session.is_at(Stage::AwaitSecond) {
        return Ok(None);
    }
    session.sgw2 = sgw;
    session.teid2 = teid;
    session.ip2 = ip;
    session.second = Second::Made;
    session.stage = Stage::Connected;
    let effect = second_setup(session);
    Ok(Some(only(session.alloc(), effect)?))
}

/// The gateway sends downlink data of the second connection to the base station.
fn modified(session: &mut Session) -> Result<Option<Effects>, AllocError>
    ensures { IfOk result (Takes session.old session.new (fitting (second_answer session.old answers.SecondModified) session.old)) }
{
    if !session.is_at(Stage::AwaitSecondModify) {
        return Ok(None);
    }
    session.second = Second::Active;
    session.stage = Stage::Connected;
    Ok(Some(Effects::new(session.alloc())))
}

/// What a second connection changes of a step of the step table, whose session and effects these are; nothing where the session before
/// the step has none. For want of memory the session may have changed.
pub fn change_step(
    before: &Session,
    session: &mut Session,
    input: &Input,
    effects: Effects,
) -> Result<Effects, AllocError>
    ensures { IfOk result (λ all. made session.new all ≡ changed before.now input.now (made session.old effects)) }
{
    if before.is_second_at(Second::None) {
        return Ok(effects);
    }
    match input {
        Input::Message(message) => change_by_message(before, session, &message.body, effects),
        Input::Answer { answer, .. } => change_by_answer(before, session, answer, effects),
    }
}

/// The step of a row of the second connection; where none fits, that of the step table, `base`, with what a second connection changes
/// of it. None exactly where no row of the second connection fits and `base` is None.
pub fn second_step(
    row: &Subscriber,
    session: &Session,
    input: &Input,
    base: Option<Step>,
) -> Result<Option<Step>, AllocError>
    ensures { IfOk result (λ step. step ≡ second_of row.now session.now input.now base) }
{
    let mut own = session.copy()?;
    match (second_step_in_place(row, &mut own, input)?, base) {
        (Some(effects), _) => Ok(Some(Step::new(own, effects)?)),
        (None, Some(step)) => Ok(Some(change(session, input, step)?)),
        (None, None) => Ok(None),
    }
}

/// The same of a step that stands by itself.
fn change(before: &Session, input: &Input, step: Step) -> Result<Step, AllocError>
    ensures { IfOk result (λ all. all ≡ changed before.now input.now step) }
{
    let Step { session, effects } = step;
    let mut session = session.get().copy()?;
    let effects = change_step(before, &mut session, input, effects)?;
    Step::new(session, effects)
}

fn change_by_message(
    before: &Session,
    session: &mut Session,
    body: &Body,
    effects: Effects,
) -> Result<Effects, AllocError>
    ensures { IfOk result (λ all. made session.new all ≡ changed_message before.now body.now (made session.old effects)) }
{
    match body {
        Body::Service => set_up_both(before, session, effects),
        Body::ContextDone { second, .. } => {
            if let Some(side) = second {
                note_side(before, session, side);
            }
            Ok(effects)
        }
        _ => Ok(effects),
    }
}

/// A setup of the device's context is one of both bearers.
fn set_up_both(
    before: &Session,
    session: &mut Session,
    effects: Effects,
) -> Result<Effects, AllocError>
    ensures { IfOk result (λ all. made session.new all ≡ sets_up_both before.now (made session.old effects)) }
{
    if !has_setup(&effects) {
        return Ok(effects);
    }
    session.second = Second::Made;
    with_both(before, effects)
}

/// Is the setup of the device's context with one bearer among the effects?
fn has_setup(effects: &Effects) -> bool
    ensures { result ≡ list_any is_setup effects.now }
{
    effects.items().iter().any(|effect| is_setup(effect))
}

/// Is it the setup of the device's context with one bearer?
fn is_setup(effect: &Effect) -> bool
    ensures { result ≡ is_setup effect.now }
{
    match effect {
        Effect::Down(Down::Setup { .. }) => true,
        _ => false,
    }
}

/// The effects, with each setup one of both bearers.
fn with_both(session: &Session, effects: Effects) -> Result<Effects, AllocError>
    ensures { IfOk result (λ both. both ≡ map (with_both session.now) effects) }
{
    let mut both = Effects::new(session.alloc());
    for effect in effects.into_items() {
        both.push(of_both(session, effect))?;
    }
    Ok(both)
}

/// The effect, where a setup is one of both bearers.
fn of_both(session: &Session, effect: Effect) -> Effect
    ensures { result ≡ with_both session.now effect }
{
    match effect {
        Effect::Down(
            Down::Setup {
                station,
                enb,
                dl,
                ul,
                sgw,
                teid,
                eea,
                eia,
                key,
                accept: _,
            },
        ) => Effect::Down(Down::SetupTwo {
            station,
            enb,
            dl,
            ul,
            sgw,
            teid,
            eea,
            eia,
            key,
            sgw2: session.sgw2,
            teid2: session.teid2,
        }),
        effect => effect,
    }
}

/// The base station has set up the second bearer with the device's context.
fn note_side(before: &Session, session: &mut Session, side: &Side)
    ensures { (effects : List Effect) → made session.new effects ≡ notes_side before.now side.now (made session.old effects) }
{
    if before.is_at(Stage::Connecting) {
        set_side(session, side.addr, side.teid);
        session.second = Second::Radio;
    }
}

fn change_by_answer(
    before: &Session,
    session: &mut Session,
    answer: &Answer,
    effects: Effects,
) -> Result<Effects, AllocError>
    ensures { IfOk result (λ all. made session.new all ≡ changed_answer before.now answer.now (made session.old effects)) }
{
    match answer {
        Answer::Created(_, _, _) | Answer::Deleted => session.second = Second::None,
        Answer::Freed => session.second = Second::Made,
        Answer::Modified => return tell_side(before, session, effects),
        _ => {}
    }
    Ok(effects)
}

/// Behind the first bearer's side the gateway is told the second's, where the base station has it.
fn tell_side(
    before: &Session,
    session: &mut Session,
    mut effects: Effects,
) -> Result<Effects, AllocError>
    ensures { IfOk result (λ all. made session.new all ≡ tells_side before.now (made session.old effects)) }
{
    if !before.is_second_at(Second::Radio) {
        return Ok(effects);
    }
    let call = GwCall::SecondModify(before.side2_addr, before.side2_teid);
    effects.push(Effect::Gateway(call))?;
    session.stage = Stage::AwaitSecondModify;
    Ok(effects)
}
