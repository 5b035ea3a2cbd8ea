//! A replica.
ghost use Rattle.std.specs.Prelude.{◌≡◌, ◌↔◌, ℕ, [], IfOk, OnOk, OnErr, IsSome, IsSomeAnd};
ghost use Rattle.replica_worker.specs.Cache.{AreSessionsOf, cache_written};
ghost use Rattle.replica_worker.specs.Hands.{held_in, CanBeRead, hand_after};
ghost use Rattle.replica_worker.specs.Replica.{ReplicaState, Remembers, MayCount};
ghost use Rattle.replica_worker.specs.Replies.{reply_when, told_in};
ghost use Rattle.replica_worker.specs.Writes.{OwnsHeld, MayWrite, IsReady, IsWritten, WritesHeld, written_reply, TookMessage};
ghost use Rattle.session_store.specs.Rows.{Begins};
ghost use Rattle.session_store.specs.Seen.{IsRepeat, asked_of, look_to, repeated_reply};

use crate::cache::{Cache, cached_when};
use crate::hand::{Hand, hand_of, into_held, written_session};
use crate::replies::{Told, reply_when, told_in};
use crate::sight::{Sight, see};
use device_types::{DeviceId, Input, Look, NoRoom, Reply, Shared, Subscriber};
use session_row::Commit;
use session_store::{EchoLaw, RowStore};
use std::alloc::{AllocError, Global};
use std::marker::Model;
use std::mem;

/// What a read comes to.
#[derive(Debug, Drop)]
pub struct Looked {
    /// What the row says to the input.
    pub look: Look,
    /// The kept reply to the message, where the look says that it is a repeat.
    pub reply: Option<Reply>,
}

/// What a write comes to.
#[derive(Debug, Drop)]
pub struct Wrote {
    /// Whether the step was committed.
    pub commit: Commit,
    /// The reply to the message, where the step of a message was committed.
    pub reply: Option<Reply>,
}

/// What a write comes to that came to this, where that is told of a message.
fn written(told: Option<Told>, commit: Commit) -> Wrote
    ensures { result ≡ record { commit = commit; reply = reply_when told commit } }
{
    let reply = reply_when(told, commit);
    Wrote { commit, reply }
}

/// A replica: it takes an input, reads the row, and writes the step that it has made. It remembers the last eight sessions that it
/// read or wrote, and reads the store again for no session that it remembers. Nothing that it keeps is needed after it stops.
/// Contracts see its hand, and the sessions that it remembers, the oldest first.
#[derive(Debug, Drop)]
pub struct Replica {
    hand: Hand,
    cache: Cache,
}

impl Model for Replica {
    ghost use Rattle.replica_worker.specs.Replica.{ReplicaState};

    ghost Value = { ReplicaState };

    ghost view = { λ replica. record { hand = replica.hand; cache = replica.cache } };
}

impl Replica {
    /// A replica that holds nothing, and remembers nothing. It fails for want of memory alone.
    pub fn new(alloc: Global) -> Result<Replica, AllocError>
        ensures { IfOk result (λ replica. replica ≡ record { hand = Hand.Empty; cache = [] }) }
    {
        Ok(Replica {
            hand: Hand::Empty,
            cache: Cache::new(alloc)?,
        })
    }

    /// What it holds. It takes no memory.
    pub fn hand(&self) -> &Hand
        ensures { result.now ≡ self.now.hand }
    {
        &self.hand
    }

    /// It holds that, and not what it held before.
    #[inline(always)]
    fn hold(&mut self, hand: Hand)
        ensures { self.new ≡ record self.old { hand = hand } }
    {
        self.hand = hand;
    }

    /// It takes an input of a device, whatever it held before. It takes no memory.
    pub fn take(&mut self, d: DeviceId, input: Shared<Input>)
        ensures { self.new ≡ record self.old { hand = Hand.Taken d input } }
    {
        self.hold(Hand::Taken { d, input });
    }

    /// It stops, and loses what it held and remembered. It takes no memory.
    pub fn stop(&mut self)
        ensures { self.new ≡ record { hand = Hand.Empty; cache = [] } }
    {
        self.cache.clear();
        self.hold(Hand::Empty);
    }

    /// Reads the row of the device of the input that it holds, where `row` is the device's subscriber. Where the row is ready for the
    /// input, it makes the step and keeps it with the version that it read. It peeks first, and reads the store where the row is
    /// ready and its session is not remembered; then it remembers the session that was read, if the row is still ready. For want of
    /// memory it is as before; the store may have been asked.
    pub fn read<S: RowStore<Law = EchoLaw>>(
        &mut self,
        row: &Subscriber,
        store: &mut S,
    ) -> Result<Looked, AllocError>
        requires held { CanBeRead (S.devices store.old) (held_in self.old.hand) }
        requires remembers { AreSessionsOf (S.charter store.old) self.old.cache }
        ensures charter { S.charter store.new ≡ S.charter store.old }
        ensures devices { S.devices store.new ≡ S.devices store.old }
        ensures extends { (i : ℕ) → Begins (S.known store.old i) (S.known store.new i) }
        ensures store { S.keeps store.old store.new }
        ensures look { IfOk result (λ looked. IsSomeAnd (held_in self.old.hand) (λ held. looked.look ≡ look_to (S.known store.new held.0.0) (asked_of held.1))) }
        ensures reply { IfOk result (λ looked. IsSomeAnd (held_in self.old.hand) (λ held. looked.reply ≡ repeated_reply (S.known store.new held.0.0) looked.look)) }
        ensures told { IfOk result (λ looked. IsSome looked.reply ↔ IsRepeat looked.look) }
        ensures hand { OnOk result (IsSomeAnd (held_in self.old.hand) (λ held. self.new.hand ≡ hand_after row.now held.0 held.1 (S.known store.new held.0.0))) }
        ensures may { OnOk result (OwnsHeld (S.charter store.new) row.now (held_in self.old.hand) → MayWrite (S.charter store.new) (S.devices store.new) (S.known store.new) self.new.hand) }
        ensures cache { OnOk result (IsSomeAnd (held_in self.old.hand) (λ held. Remembers self.old.cache self.new.cache held.0 held.1 (S.known store.old held.0.0) (S.known store.new held.0.0) (S.reads store.old) (S.reads store.new))) }
        ensures remembers { AreSessionsOf (S.charter store.new) self.new.cache }
        ensures err { OnErr result (self.new ≡ self.old) }
        ensures counted { OnErr result (IsSomeAnd (held_in self.old.hand) (λ held. MayCount self.old.cache held.0 held.1 (S.known store.old held.0.0) (S.known store.new held.0.0) (S.reads store.old) (S.reads store.new))) }
    {
        let Some((d, input)) = self.hand.held() else {
            unreachable!();
        };
        let Sight {
            peeked,
            step,
            fresh,
        } = see(&self.cache, row, d, input, store)?;
        let Some((d, input)) = into_held(mem::replace(&mut self.hand, Hand::Empty)) else {
            unreachable!();
        };
        self.hold(hand_of(d, input, peeked.version, step));
        self.cache.note(fresh);
        Ok(Looked {
            look: peeked.look,
            reply: peeked.reply,
        })
    }

    /// Writes the step that it holds for the version that it read, and holds nothing then, whether or not it was committed. It
    /// remembers the session that was committed. What this session takes memory for is made before the step is committed. For want of
    /// memory it is as before.
    pub fn commit<S: RowStore<Law = EchoLaw>>(
        &mut self,
        store: &mut S,
    ) -> Result<Commit, AllocError>
        requires ready { IsReady self.old.hand }
        requires may { MayWrite (S.charter store.old) (S.devices store.old) (S.known store.old) self.old.hand }
        requires remembers { AreSessionsOf (S.charter store.old) self.old.cache }
        ensures charter { S.charter store.new ≡ S.charter store.old }
        ensures devices { S.devices store.new ≡ S.devices store.old }
        ensures extends { (i : ℕ) → Begins (S.known store.old i) (S.known store.new i) }
        ensures store { IfOk result (λ commit. WritesHeld S.writes self.old.hand store.old store.new commit) }
        ensures store_err { OnErr result (S.keeps store.old store.new) }
        ensures uncounted { S.reads store.new ≡ S.reads store.old }
        ensures commit { IfOk result (λ commit. IsWritten self.old.hand (S.known store.new) commit) }
        ensures reply { IfOk result (λ commit. reply_when (told_in self.old.hand) commit ≡ written_reply self.old.hand (S.known store.new) commit) }
        ensures empty { OnOk result (self.new.hand ≡ Hand.Empty) }
        ensures cache { IfOk result (λ commit. self.new.cache ≡ cache_written self.old.cache self.old.hand commit) }
        ensures remembers { AreSessionsOf (S.charter store.new) self.new.cache }
        ensures err { OnErr result (self.new ≡ self.old) }
    {
        let session = written_session(&self.hand)?;
        let Hand::Ready { d, version, entry } = mem::replace(&mut self.hand, Hand::Empty) else {
            unreachable!();
        };
        match store.commit(d, version, entry) {
            Ok(commit) => {
                self.cache.note(cached_when(d, session, commit));
                Ok(commit)
            }
            Err(NoRoom(entry)) => {
                self.hold(Hand::Ready { d, version, entry });
                Err(AllocError)
            }
        }
    }

    /// `commit`, and the reply to the message, where the step of a message was committed. What the reply takes memory for is made
    /// before the step is committed.
    pub fn write<S: RowStore<Law = EchoLaw>>(&mut self, store: &mut S) -> Result<Wrote, AllocError>
        requires ready { IsReady self.old.hand }
        requires may { MayWrite (S.charter store.old) (S.devices store.old) (S.known store.old) self.old.hand }
        requires remembers { AreSessionsOf (S.charter store.old) self.old.cache }
        ensures charter { S.charter store.new ≡ S.charter store.old }
        ensures devices { S.devices store.new ≡ S.devices store.old }
        ensures extends { (i : ℕ) → Begins (S.known store.old i) (S.known store.new i) }
        ensures store { IfOk result (λ wrote. WritesHeld S.writes self.old.hand store.old store.new wrote.commit) }
        ensures store_err { OnErr result (S.keeps store.old store.new) }
        ensures uncounted { S.reads store.new ≡ S.reads store.old }
        ensures commit { IfOk result (λ wrote. IsWritten self.old.hand (S.known store.new) wrote.commit) }
        ensures reply { IfOk result (λ wrote. wrote.reply ≡ written_reply self.old.hand (S.known store.new) wrote.commit) }
        ensures told { IfOk result (λ wrote. IsSome wrote.reply ↔ TookMessage self.old.hand wrote.commit) }
        ensures empty { OnOk result (self.new.hand ≡ Hand.Empty) }
        ensures cache { IfOk result (λ wrote. self.new.cache ≡ cache_written self.old.cache self.old.hand wrote.commit) }
        ensures remembers { AreSessionsOf (S.charter store.new) self.new.cache }
        ensures err { OnErr result (self.new ≡ self.old) }
    {
        let told = told_in(&self.hand)?;
        let commit = self.commit(store)?;
        Ok(written(told, commit))
    }
}
