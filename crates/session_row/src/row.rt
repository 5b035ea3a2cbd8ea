//! The row of a device.
ghost use Rattle.std.specs.Prelude.{◌≡◌, ◌≤◌, ◌<◌, ◌+◌, ◌↔◌, [], length, IfOk, OnErr, IfErr, IsSome, option_copied};
ghost use Rattle.device_types.specs.Journal.{version_of, session_of, pushed_count, taken_count, awaited_call};
ghost use Rattle.device_types.specs.Look.{look_of, answer_look_of, look_behind, unless_awaited};
ghost use Rattle.device_types.specs.Session.{IsSession};
ghost use Rattle.effect_outbox.specs.Outbox.{number_on, with_number, settled_by, Holds};
ghost use Rattle.session_form.specs.Form.{form_of};

use crate::awaited::{awaited_behind, is_call};
use crate::commit::Commit;
use crate::prepared::{Prepared, prepare};
use crate::replies::Replies;
use device_types::{Entry, Lane, Look, NoRoom, Octets, Reply, Session};
use echo_base::Bad;
use effect_outbox::{Outbox, Settled};
use session_form::{read_session, write_session};
use std::alloc::{AllocError, Global};
use std::marker::Model;
use std::mem;

/// What the core keeps of a device: the journal of its steps, and how many effects of each lane are settled. Contracts see these
/// two. Beside them stand the octets of its session, the replies to the last `W` messages, and the unsettled effects.
#[derive(Debug, Drop)]
pub struct Row<const W: u64> {
    entries: Vec<Entry>,
    session: Octets,
    replies: Replies,
    awaited: Option<(Lane, u64)>,
    outbox: Outbox,
}

impl<const W: u64> Model for Row<W> {
    ghost use Rattle.effect_outbox.specs.Outbox.{settled_of};
    ghost use Rattle.session_row.specs.Row.{RowState, IsRow};

    ghost Value = { RowState };

    ghost view = { λ row. record { journal = row.entries.items; settled = settled_of row.outbox } };

    ghost invariant = { λ row. IsRow W row.entries.items row.session row.replies row.awaited row.outbox };
}

impl<const W: u64> Row<W> {
    ghost use Rattle.session_row.specs.Row.{lanes_of, kept_reply, look_at, AwaitsAtMostOne, Commits};

    /// The row of a device that was never seen: no step, and nothing settled. It fails for want of memory alone.
    pub fn new(alloc: Global) -> Result<Row<W>, AllocError>
        requires { 1 ≤ W }
        ensures { IfOk result (λ row. row ≡ record { journal = []; settled = record { down = 0; gateway = 0; subscriber = 0 } }) }
    {
        Ok(Row {
            entries: Vec::new(alloc),
            session: write_session(alloc, &Session::opening(alloc))?,
            replies: Replies::new(alloc, W)?,
            awaited: None,
            outbox: Outbox::new(alloc),
        })
    }

    /// The entries that were committed, in order. It takes no memory.
    pub fn entries(&self) -> &[Entry]
        ensures { result.now ≡ self.now.journal }
    {
        &self.entries
    }

    /// How many steps were committed. It takes no memory.
    pub fn version(&self) -> u64
        ensures { result ≡ version_of self.now.journal }
    {
        self.entries.len() as u64
    }

    /// How many messages were taken. It takes no memory.
    #[tactic(auto, using(crate::proofs::Steps::taken_is))]
    pub fn taken(&self) -> u64
        ensures { result ≡ taken_count self.now.journal }
    {
        self.replies.taken
    }

    /// The call whose answer is awaited, by its lane and its number there, or `None`. It takes no memory.
    pub fn awaited(&self) -> Option<(Lane, u64)>
        ensures { result ≡ awaited_call self.now.journal }
    {
        self.awaited
    }

    /// The octets of the session of the last step, or of the opening one: those of `write_session`. It takes no memory.
    pub fn octets(&self) -> &[u8]
        ensures { result.now ≡ form_of (session_of self.now.journal) }
    {
        self.session.octets()
    }

    /// The session of the last step, or the opening one. It fails for want of memory alone.
    pub fn session(&self) -> Result<Session, AllocError>
        ensures value { IfOk result (λ session. session ≡ session_of self.now.journal) }
        ensures range { IsSession (session_of self.now.journal) }
    {
        match read_session(*self.entries.allocator(), self.session.octets()) {
            Ok(session) => Ok(session),
            Err(Bad::OutOfMemory) => Err(AllocError),
            Err(Bad::Refused(_)) => unreachable!(),
        }
    }

    /// What the row says to message `n`. It takes no memory.
    pub fn look(&self, n: u64) -> Look
        ensures { result ≡ look_of W self.now.journal n }
    {
        let taken = self.taken();
        if n <= taken {
            return if taken - n >= W {
                Look::Settled(n)
            } else {
                Look::Repeat(n)
            };
        }
        if n - taken > 1 {
            return Look::Ahead(taken);
        }
        match self.awaited {
            Some((lane, k)) => Look::Waiting(lane, k),
            None => Look::Ready,
        }
    }

    /// What the row says to the answer to call `k` of a lane. It takes no memory.
    pub fn look_answer(&self, lane: Lane, k: u64) -> Look
        ensures { result ≡ answer_look_of self.now.journal lane k }
    {
        if is_call(self.awaited, lane, k) {
            return Look::Ready;
        }
        let pushed = self.outbox.pushed(lane);
        if k > pushed {
            Look::NotAwaited(pushed)
        } else {
            Look::Old(lane, k)
        }
    }

    /// The reply to message `n`, from 1, or `None` where it was not taken or its reply is not kept. It takes no memory.
    pub fn reply(&self, n: u64) -> Option<&Reply>
        ensures value { option_copied result ≡ kept_reply W self.now.journal n }
        ensures kept { IsSome result ↔ ((1 ≤ n) × (n ≤ taken_count self.now.journal) × (taken_count self.now.journal < n + W)) }
    {
        self.replies.get(n)
    }

    /// The effects of the lane up to `k` are settled, and their memory is given back. It never fails.
    pub fn settle(&mut self, lane: Lane, k: u64) -> Settled
        requires { k ≤ pushed_count lane self.old.journal }
        ensures value { result ≡ settled_by (number_on self.old.settled lane) k }
        ensures state { self.new ≡ record self.old { settled = with_number self.old.settled lane k } }
    {
        self.outbox.settle(lane, k)
    }

    /// The effects that are not settled, by lane.
    pub fn outbox(&self) -> &Outbox
        ensures { Holds result.now (lanes_of self.now.journal) self.now.settled }
    {
        &self.outbox
    }

    /// Writes an entry, where the row still has the version that was read: journal, reply, session and lanes change together,
    /// since all follow from the journal. For want of memory the row stays as it was, and the entry is given back.
    pub fn commit(&mut self, read: u64, mut entry: Entry) -> Result<Commit, NoRoom<Entry>>
        requires session { IsSession entry.step.session }
        requires calls { AwaitsAtMostOne entry.step.effects }
        requires ready { read ≡ version_of self.old.journal → look_at W self.old.journal entry.input ≡ Look.Ready }
        ensures ok { IfOk result (Commits self.old self.new read entry) }
        ensures err { OnErr result (self.new ≡ self.old) }
        ensures back { IfErr result (λ room. room.0 ≡ entry) }
    {
        let current = self.entries.len() as u64;
        if read != current {
            return Ok(Commit::Stale { read, current });
        }
        let (entries, outbox) = (&mut self.entries, &mut self.outbox);
        let Ok(prepared) = prepare(entries, outbox, self.replies.taken, &entry) else {
            return Err(NoRoom(entry));
        };
        let Prepared {
            session,
            effects: kept,
            reply,
        } = prepared;
        let effects = mem::replace(&mut entry.step.effects, kept);
        let gateway = self.outbox.pushed(Lane::Gateway);
        let subscriber = self.outbox.pushed(Lane::Subscriber);
        self.outbox.push_reserved(effects);
        self.awaited = awaited_behind(gateway, subscriber, entry.step.effects.items());
        self.session = session;
        self.replies.keep(reply);
        self.entries.push_reserved(entry);
        Ok(Commit::Committed(read + 1))
    }
}
