//! The steps of a device whose calls are answered at once.
ghost use Rattle.std.specs.Prelude.{◌≡◌, ◌+◌, ◌*◌, ◌^◌, ◌<◌, ◌≤◌, suc, if◌then◌else◌, [], length, map, count_by, option_map, slice_get, IfOk, OnOk, IsFalse, None};
ghost use Rattle.device_types.specs.declared.input.Input.TheVariants as inputs;
ghost use Rattle.device_types.specs.Alone.{alone_of, alone_to, is_created};
ghost use Rattle.device_types.specs.Awaited.{awaited_by};
ghost use Rattle.device_types.specs.Journal.{is_message, is_on};
ghost use Rattle.device_machine.specs.Course.{course_of, last_on, answer_for, input_for, noted, GoesOn};

use crate::stepping::step_in_place;
use device_types::{
    Answer, Effect, Effects, Input, Lane, Message, Session, Stage, Step, Subscriber, TryCopy,
};
use std::alloc::{AllocError, Global};

/// What is known after some entries: the session, how many messages were taken and creates answered, and how many calls of each peer
/// were made.
#[derive(Drop)]
pub struct Course {
    pub session: Session,
    taken: usize,
    created: u32,
    gateway: u64,
    subscriber: u64,
}

impl Course {
    /// Before the first entry.
    pub fn new(alloc: Global) -> Course
        ensures { result ≡ course_of [] }
    {
        Course {
            session: Session::opening(alloc),
            taken: 0,
            created: 0,
            gateway: 0,
            subscriber: 0,
        }
    }

    /// The number of the last call of a lane.
    fn last_on(&self, lane: Lane) -> u64
        ensures { result ≡ last_on self.now lane }
    {
        match lane {
            Lane::Down => 0,
            Lane::Gateway => self.gateway,
            Lane::Subscriber => self.subscriber,
        }
    }

    /// Notes one more entry, whose step the session has taken.
    fn note(&mut self, input: &Input, effects: &[Effect])
        requires taken { self.old.taken + 1 < 2 ^ 32 }
        requires created { self.old.created + 1 < 2 ^ 32 }
        requires gateway { self.old.gateway + length effects.now < 2 ^ 32 }
        requires subscriber { self.old.subscriber + length effects.now < 2 ^ 32 }
        ensures { self.new ≡ noted self.old input.now effects.now }
    {
        self.taken += messages_in(input);
        self.created += creates_in(input);
        self.gateway += count_on(effects, Lane::Gateway);
        self.subscriber += count_on(effects, Lane::Subscriber);
    }
}

/// How many of the effects are on the lane.
fn count_on(effects: &[Effect], lane: Lane) -> u64
    requires { length effects.now < 2 ^ 32 }
    ensures count { result ≡ count_by (is_on lane) effects.now }
    ensures most { result ≤ length effects.now }
{
    effects.iter().filter(|effect| is_on(effect, lane)).count() as u64
}

fn is_on(effect: &Effect, lane: Lane) -> bool
    ensures { result ≡ is_on lane effect.now }
{
    match (effect, lane) {
        (Effect::Down(_), Lane::Down) => true,
        (Effect::Gateway(_), Lane::Gateway) => true,
        (Effect::Subscriber(_), Lane::Subscriber) => true,
        _ => false,
    }
}

/// One where the input is a message, or else none.
fn messages_in(input: &Input) -> usize
    ensures value { result ≡ (if is_message input.now then 1 else 0) }
    ensures most { result ≤ 1 }
{
    match input {
        Input::Message(_) => 1,
        Input::Answer { .. } => 0,
    }
}

/// One where the input is the answer to a call that creates, or else none.
fn creates_in(input: &Input) -> u32
    ensures value { result ≡ (if is_created input.now then 1 else 0) }
    ensures most { result ≤ 1 }
{
    match input {
        Input::Answer {
            answer: Answer::Created(_, _, _) | Answer::SecondCreated(_, _, _),
            ..
        } => 1,
        _ => 0,
    }
}

/// The steps of a device of the core that never fails: its messages are taken one by one, and each call is answered at once.
pub fn alone(row: &Subscriber, messages: &[Message]) -> Result<Vec<Step>, AllocError>
    requires tunnel { row.now.teid ≤ 4000000000 }
    requires count { length messages.now ≤ 100000 }
    ensures { IfOk result (λ steps. steps.items ≡ map (λ e. e.step) (alone_of row.now messages.now)) }
{
    let mut course = Course::new(row.rand.alloc());
    let mut steps = Vec::new(row.rand.alloc());
    for v in 0..3 * messages.len() {
        let Some(effects) = advance(row, messages, v, &mut course)? else {
            return Ok(steps);
        };
        let session = course.session.copy()?;
        steps.push(Step::new(session, effects)?)?;
    }
    Ok(steps)
}

/// Makes the next entry, and gives the effects of its step; None where none comes.
pub fn advance(
    row: &Subscriber,
    messages: &[Message],
    v: usize,
    course: &mut Course,
) -> Result<Option<Effects>, AllocError>
    requires course { course.old ≡ course_of (alone_to row.now messages.now v) }
    requires tunnel { row.now.teid ≤ 4000000000 }
    requires count { v < 300000 }
    ensures { IfOk result (GoesOn row.now messages.now v course.new) }
{
    let Some(input) = next_input(row, messages, course)? else {
        return Ok(None);
    };
    let effects = step_in_place(row, &mut course.session, &input)?;
    course.note(&input, effects.items());
    Ok(Some(effects))
}

/// The input that comes next: the answer to the awaited call, or else the next message.
fn next_input(
    row: &Subscriber,
    messages: &[Message],
    course: &Course,
) -> Result<Option<Input>, AllocError>
    requires { row.now.teid + course.now.created < 2 ^ 32 }
    ensures { IfOk result (λ input. input ≡ input_for row.now messages.now course.now) }
{
    match answer_for(row, &course.session, course.created)? {
        Some((lane, answer)) => Ok(Some(Input::Answer {
            lane,
            k: course.last_on(lane),
            answer,
        })),
        None => next_message(messages, course.taken),
    }
}

/// The message behind so many, if there is one.
fn next_message(messages: &[Message], taken: usize) -> Result<Option<Input>, AllocError>
    ensures { IfOk result (λ input. input ≡ option_map inputs.Message (slice_get messages.now taken)) }
{
    match messages.get(taken) {
        Some(message) => Ok(Some(Input::Message(message.copy()?))),
        None => Ok(None),
    }
}

/// The answer that the session awaits, with the lane of its call, where so many creates were answered.
fn answer_for(
    row: &Subscriber,
    session: &Session,
    created: u32,
) -> Result<Option<(Lane, Answer)>, AllocError>
    requires { row.now.teid + created < 2 ^ 32 }
    ensures { IfOk result (λ answer. answer ≡ answer_for row.now created (awaited_by session.now)) }
{
    Ok(match session.stage {
        Stage::AwaitVectors => Some((
            Lane::Subscriber,
            Answer::Vectors(
                row.rand.copy()?,
                row.autn.copy()?,
                row.res.copy()?,
                row.key.copy()?,
            ),
        )),
        Stage::AwaitLocation => Some((Lane::Subscriber, Answer::Located(row.ambr_dl, row.ambr_ul))),
        Stage::AwaitCreate => Some((
            Lane::Gateway,
            Answer::Created(row.sgw, row.teid + created, row.ip),
        )),
        Stage::AwaitModify => Some((Lane::Gateway, Answer::Modified)),
        Stage::AwaitRelease => Some((Lane::Gateway, Answer::Freed)),
        Stage::AwaitDelete => Some((Lane::Gateway, Answer::Deleted)),
        Stage::AwaitSecond => Some((
            Lane::Gateway,
            Answer::SecondCreated(row.sgw, row.teid + created, row.ip2.unwrap_or(0)),
        )),
        Stage::AwaitSecondModify => Some((Lane::Gateway, Answer::SecondModified)),
        _ => None,
    })
}
