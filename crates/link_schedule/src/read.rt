//! A replica reads the row of what it has taken.
ghost use Rattle.std.specs.Prelude.{◌≡◌, length, IfOk, IfSome, OnOk, OnErr, IsSomeAnd};
ghost use Rattle.replica_worker.specs.Cache.{AreSessionsOf};
ghost use Rattle.replica_worker.specs.Hands.{held_in, CanBeRead, hand_after};
ghost use Rattle.session_store.specs.Rows.{IsDevice, journal_of};
ghost use Rattle.schedule_laws.specs.Answer.{look_answer, IsEvent};
ghost use Rattle.link_schedule.specs.Told.{version_in, device_held, seen_answer, IsStillReady};
ghost use Rattle.link_schedule.specs.World.{Answers};

use crate::world::{World, row_at};
use device_types::{DeviceId, Event, EventAnswer, Look, Subscriber};
use replica_worker::{Hand, Replica};
use session_store::{EchoLaw, Store};
use std::alloc::AllocError;

/// The version that was read, of a hand with a step.
fn version_in(hand: &Hand) -> u64
    ensures { result ≡ version_in hand.now }
{
    match hand {
        Hand::Empty | Hand::Taken { .. } => 0,
        Hand::Ready { version, .. } => *version,
    }
}

/// What the row says to what arrived, as the answer to the event, where the version that was read is that.
fn look_answer(version: u64, look: Look) -> EventAnswer
    ensures { result ≡ look_answer version look }
{
    match look {
        Look::Ready => EventAnswer::Ready(version),
        Look::Repeat(n) => EventAnswer::Repeat(n),
        Look::Settled(n) => EventAnswer::Settled(n),
        Look::Ahead(taken) => EventAnswer::Ahead(taken),
        Look::Waiting(lane, k) => EventAnswer::Waiting(lane, k),
        Look::Old(lane, k) => EventAnswer::OldCall(lane, k),
        Look::NotAwaited(k) => EventAnswer::Ahead(k),
    }
}

/// The version for which a hand has a step, where its row still has that version: a read would make the same step of it.
fn still_ready(hand: &Hand, store: &Store<EchoLaw>) -> Option<u64>
    requires { IfSome (device_held hand.now) (λ d. IsDevice (length store.now.rows) d.0) }
    ensures { IfSome result (IsStillReady store.now.rows hand.now) }
{
    match hand {
        Hand::Ready { d, version, .. } if store.row(*d).version() == *version => Some(*version),
        _ => None,
    }
}

/// What a replica is told of its input, as the answer to the event. Every row is as before. For want of memory so is the replica.
fn told(
    replica: &mut Replica,
    row: &Subscriber,
    store: &mut Store<EchoLaw>,
) -> Result<EventAnswer, AllocError>
    requires held { CanBeRead (length store.old.rows) (held_in replica.old.hand) }
    requires remembers { AreSessionsOf store.old.charter replica.old.cache }
    ensures charter { store.new.charter ≡ store.old.charter }
    ensures store { store.new.rows ≡ store.old.rows }
    ensures remembers { AreSessionsOf store.new.charter replica.new.cache }
    ensures hand { OnOk result (IsSomeAnd (held_in replica.old.hand) (λ held. replica.new.hand ≡ hand_after row.now held.0 held.1 (journal_of store.old.rows held.0.0))) }
    ensures answer { IfOk result (λ answer. IsSomeAnd (held_in replica.old.hand) (λ held. answer ≡ seen_answer (journal_of store.old.rows held.0.0) held.1)) }
    ensures err { OnErr result (replica.new ≡ replica.old) }
{
    let look = replica.read(row, store)?.look;
    Ok(look_answer(version_in(replica.hand()), look))
}

/// The device of what is held, if something is.
fn device_held(hand: &Hand) -> Option<DeviceId>
    ensures { result ≡ device_held hand.now }
{
    match hand {
        Hand::Empty => None,
        Hand::Taken { d, .. } | Hand::Ready { d, .. } => Some(*d),
    }
}

impl World {
    /// A replica reads the row of what it holds: where it has a step for the row's version it is told that alone, since nothing has
    /// changed. For want of memory the world is as before, but that the store may count a read more.
    pub(crate) fn read(&mut self, r: u32) -> Result<EventAnswer, AllocError>
        requires { IsEvent self.old.setting (Event.Read r) }
        ensures ok { IfOk result (Answers self.old self.new (Event.Read r)) }
        ensures err { OnErr result (self.new ≡ self.old) }
    {
        let event = Event::Read { r };
        if r > self.count {
            return Ok(self.log.noted(event, EventAnswer::VoidReplica));
        }
        let index = r as usize - 1;
        let hand = self.replicas[index].hand();
        let Some(d) = device_held(hand) else {
            return Ok(self.log.noted(event, EventAnswer::VoidHand));
        };
        if let Some(version) = still_ready(hand, &self.store) {
            return Ok(self.log.noted(event, EventAnswer::Ready(version)));
        }
        let row = row_at(&self.law, d);
        let answer = told(&mut self.replicas[index], row, &mut self.store)?;
        Ok(self.log.noted(event, answer))
    }
}
