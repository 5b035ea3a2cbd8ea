//! A replica writes its step.
ghost use Rattle.std.specs.Prelude.{◌≡◌, length, IfOk, OnOk, OnErr};
ghost use Rattle.replica_worker.specs.Cache.{AreSessionsOf};
ghost use Rattle.replica_worker.specs.Writes.{IsReady, MayWrite, WritesHeld};
ghost use Rattle.session_store.specs.Rows.{journal_of, WritesRow};
ghost use Rattle.schedule_laws.specs.Answer.{IsEvent};
ghost use Rattle.link_schedule.specs.Told.{commit_answer};
ghost use Rattle.link_schedule.specs.World.{Answers};

use crate::world::World;
use device_types::{Event, EventAnswer};
use replica_worker::{Hand, Replica};
use session_row::Commit;
use session_store::{EchoLaw, Store};
use std::alloc::AllocError;

/// What the row says to a write, as the answer to the event.
fn commit_answer(commit: Commit) -> EventAnswer
    ensures { result ≡ commit_answer commit }
{
    match commit {
        Commit::Committed(version) => EventAnswer::Committed(version),
        Commit::Stale { read, current } => EventAnswer::Stale { read, current },
    }
}

/// What the write of a replica comes to. For want of memory it holds what it held, and the store is as before.
fn written(replica: &mut Replica, store: &mut Store<EchoLaw>) -> Result<Commit, AllocError>
    requires ready { IsReady replica.old.hand }
    requires may { MayWrite store.old.charter (length store.old.rows) (λ d. journal_of store.old.rows d) replica.old.hand }
    requires remembers { AreSessionsOf store.old.charter replica.old.cache }
    ensures charter { store.new.charter ≡ store.old.charter }
    ensures store { IfOk result (WritesHeld WritesRow replica.old.hand store.old store.new) }
    ensures remembers { AreSessionsOf store.new.charter replica.new.cache }
    ensures empty { OnOk result (replica.new.hand ≡ Hand.Empty) }
    ensures store_err { OnErr result (store.new ≡ store.old) }
    ensures err { OnErr result (replica.new ≡ replica.old) }
{
    replica.commit(store)
}

impl World {
    /// A replica writes the step that it holds. For want of memory the world is as before.
    pub(crate) fn write(&mut self, r: u32) -> Result<EventAnswer, AllocError>
        requires { IsEvent self.old.setting (Event.Write r) }
        ensures ok { IfOk result (Answers self.old self.new (Event.Write r)) }
        ensures err { OnErr result (self.new ≡ self.old) }
    {
        let event = Event::Write { r };
        if r > self.count {
            return Ok(self.log.noted(event, EventAnswer::VoidReplica));
        }
        let index = r as usize - 1;
        let Hand::Ready { .. } = self.replicas[index].hand() else {
            return Ok(self.log.noted(event, EventAnswer::VoidHand));
        };
        let commit = written(&mut self.replicas[index], &mut self.store)?;
        Ok(self.log.noted(event, commit_answer(commit)))
    }
}
