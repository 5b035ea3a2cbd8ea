//! The entries of a device that is alone with its messages, and whose calls its peers answer at once.
ghost use Rattle.std.specs.Prelude.{◌≡◌, ◌≤◌, ◌<◌, ◌*◌, suc, if◌then◌else◌, ℕ, List, length, option_map, slice_get, true, false, IfOk, None};
ghost use Rattle.std.specs.Option.{option_map_or};
ghost use Rattle.device_types.specs.declared.input.Input.TheVariants as inputs;
ghost use Rattle.device_types.specs.declared.message.Message.{Message};
ghost use Rattle.device_types.specs.Alone.{alone_of, alone_to, next_input};
ghost use Rattle.device_types.specs.Journal.{is_message, last_of};
ghost use Rattle.crash_run.specs.Course.{peer_at, IsCourse};

use crate::peers::Peers;
use device_machine::step;
use device_types::{
    DeviceId, Entry, Input, Lane, ListOf, Message, Session, Stage, Subscriber, TryCopy,
};
use std::alloc::AllocError;

/// A peer.
#[derive(Clone, Copy)]
pub(crate) enum Peer {
    /// The gateway.
    Gateway,
    /// The subscriber server.
    Server,
}

/// What is known of a device after some entries: these, how many messages were taken, and the peers, which were offered its calls.
#[derive(Drop)]
pub struct Course {
    opening: Session,
    entries: ListOf<Entry>,
    taken: usize,
    peers: Peers,
}

/// The peer whose answer a stage awaits.
fn peer_at(stage: Stage) -> Option<Peer>
    ensures { result ≡ peer_at stage }
{
    match stage {
        Stage::AwaitVectors | Stage::AwaitLocation => Some(Peer::Server),
        Stage::AwaitCreate
        | Stage::AwaitModify
        | Stage::AwaitRelease
        | Stage::AwaitDelete
        | Stage::AwaitSecond
        | Stage::AwaitSecondModify => Some(Peer::Gateway),
        _ => None,
    }
}

/// The message behind so many, if there is one.
fn next_message(messages: &[Message], taken: usize) -> Result<Option<Input>, AllocError>
    ensures { IfOk result (λ input. input ≡ option_map inputs.Message (slice_get messages.now taken)) }
{
    match messages.get(taken) {
        Some(message) => Ok(Some(Input::Message(message.copy()?))),
        None => Ok(None),
    }
}

/// How many messages an input is.
fn messages_in(input: &Input) -> usize
    ensures value { result ≡ (if is_message input.now then 1 else 0) }
    ensures most { result ≤ 1 }
{
    match input {
        Input::Message(_) => 1,
        Input::Answer { .. } => 0,
    }
}

impl Course {
    /// Before the first entry.
    fn new(row: &Subscriber) -> Result<Course, AllocError>
        requires { 1 ≤ row.now.number }
        ensures { (messages : List Message) → IfOk result (IsCourse row.now messages 0) }
    {
        let alloc = row.rand.alloc();
        Ok(Course {
            opening: Session::opening(alloc),
            entries: ListOf::new(alloc),
            taken: 0,
            peers: Peers::new(alloc, row.number)?,
        })
    }

    /// The session of the last step, or the opening one.
    fn session(&self) -> &Session
        ensures { result.now ≡ option_map_or (λ entry. entry.step.session) (last_of self.now.entries) self.now.opening }
    {
        match self.entries.items().last() {
            Some(entry) => entry.step.session.get(),
            None => &self.opening,
        }
    }

    /// The input that comes next: the answer to the last call of the peer whose answer is awaited, or else the next message.
    fn next_input(
        &self,
        row: &Subscriber,
        messages: &[Message],
        v: usize,
    ) -> Result<Option<Input>, AllocError>
        requires course { IsCourse row.now messages.now v self.now }
        requires tunnel { row.now.teid ≤ 4000000000 }
        requires count { v < 300000 }
        ensures { IfOk result (λ input. input ≡ next_input row.now messages.now (alone_to row.now messages.now v)) }
    {
        let d = DeviceId(row.number);
        match peer_at(self.session().stage) {
            Some(Peer::Gateway) => {
                let k = self.peers.gateway.accepted(d);
                Ok(Some(Input::Answer {
                    lane: Lane::Gateway,
                    k,
                    answer: self.peers.gateway.answer(row, k),
                }))
            }
            Some(Peer::Server) => {
                let k = self.peers.server.accepted(d);
                Ok(Some(Input::Answer {
                    lane: Lane::Subscriber,
                    k,
                    answer: self.peers.server.answer(row, k)?,
                }))
            }
            None => next_message(messages, self.taken),
        }
    }

    /// Makes entry `v`, from 0; false where none comes.
    fn advance(
        &mut self,
        row: &Subscriber,
        messages: &[Message],
        v: usize,
    ) -> Result<bool, AllocError>
        requires course { IsCourse row.now messages.now v self.old }
        requires tunnel { row.now.teid ≤ 4000000000 }
        requires count { v < 300000 }
        ensures more { IfOk result (λ more. more ≡ true → IsCourse row.now messages.now (suc v) self.new) }
        ensures end { IfOk result (λ more. more ≡ false → IsCourse row.now messages.now v self.new × (next_input row.now messages.now (alone_to row.now messages.now v) ≡ None)) }
    {
        let Some(input) = self.next_input(row, messages, v)? else {
            return Ok(false);
        };
        let step = step(row, self.session(), &input)?;
        self.peers.offer_all(row, &step)?;
        self.taken += messages_in(&input);
        self.entries
            .push(Entry::new(row.rand.alloc(), input, step)?)?;
        Ok(true)
    }
}

/// The entries of a device that is alone: its messages are taken one by one, and each call is answered at once.
pub(crate) fn entries_of(
    row: &Subscriber,
    messages: &[Message],
) -> Result<ListOf<Entry>, AllocError>
    requires number { 1 ≤ row.now.number }
    requires tunnel { row.now.teid ≤ 4000000000 }
    requires count { length messages.now ≤ 100000 }
    ensures { IfOk result (λ entries. entries ≡ alone_of row.now messages.now) }
{
    let mut course = Course::new(row)?;
    for v in 0..3 * messages.len() {
        if !course.advance(row, messages, v)? {
            return Ok(course.entries);
        }
    }
    Ok(course.entries)
}
