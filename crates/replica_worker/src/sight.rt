//! What a replica sees of a row, and the step that it makes of it.
ghost use Rattle.std.specs.Prelude.{◌≡◌, ℕ, IfOk, OnErr};
ghost use Rattle.replica_worker.specs.Cache.{AreSessionsOf};
ghost use Rattle.replica_worker.specs.Hands.{step_at};
ghost use Rattle.replica_worker.specs.Replica.{sight_in, Sees, MayCount};
ghost use Rattle.session_store.specs.Charter.{follows_alone};
ghost use Rattle.session_store.specs.Law.{IsLawful};
ghost use Rattle.session_store.specs.Rows.{IsDevice, Begins};
ghost use Rattle.session_store.specs.Seen.{IsAsked, asked_of};

use crate::cache::{Cache, CachedSession, fresh_at};
use crate::hand::asked_of;
use device_machine::step;
use device_types::{DeviceId, Input, Look, Session, Step, Subscriber};
use session_store::{EchoLaw, Peeked, RowStore, Seen};
use std::alloc::AllocError;

/// What is seen of a row about an input.
#[derive(Debug, Drop)]
pub(crate) struct Sight {
    /// What is seen but for the session.
    pub(crate) peeked: Peeked,
    /// The step, where the row is ready for the input.
    pub(crate) step: Option<Step>,
    /// The session, where the store told it of a row that is ready.
    pub(crate) fresh: Option<CachedSession>,
}

/// The step of an input, where the row is ready for it.
fn step_at(
    row: &Subscriber,
    session: &Session,
    input: &Input,
    look: Look,
) -> Result<Option<Step>, AllocError>
    ensures { IfOk result (λ made. made ≡ step_at row.now session.now input.now look) }
{
    match look {
        Look::Ready => Ok(Some(step(row, session, input)?)),
        _ => Ok(None),
    }
}

/// What is seen by what a read of the store has told.
fn sight_in(row: &Subscriber, d: DeviceId, input: &Input, seen: Seen) -> Result<Sight, AllocError>
    ensures { IfOk result (λ sight. sight ≡ sight_in row.now d input.now seen) }
{
    let Seen {
        version,
        session,
        look,
        reply,
    } = seen;
    let step = step_at(row, session.get(), input, look)?;
    Ok(Sight {
        peeked: Peeked {
            version,
            look,
            reply,
        },
        step,
        fresh: fresh_at(
            look,
            CachedSession {
                d,
                version,
                session,
            },
        ),
    })
}

/// What is seen of the row: by a peek, where the row is not ready or its session is remembered, else where the store is read.
pub(crate) fn see<S: RowStore<Law = EchoLaw>>(
    cache: &Cache,
    row: &Subscriber,
    d: DeviceId,
    input: &Input,
    store: &mut S,
) -> Result<Sight, AllocError>
    requires device { IsDevice (S.devices store.old) d.0 }
    requires asked { IsAsked (asked_of input.now) }
    requires remembers { AreSessionsOf (S.charter store.old) cache.now }
    ensures charter { S.charter store.new ≡ S.charter store.old }
    ensures devices { S.devices store.new ≡ S.devices store.old }
    ensures extends { (i : ℕ) → Begins (S.known store.old i) (S.known store.new i) }
    ensures lawful { IsLawful (follows_alone (S.charter store.new) d.0) (S.known store.new d.0) }
    ensures store { S.keeps store.old store.new }
    ensures ok { IfOk result (Sees cache.now row.now d input.now (S.known store.old d.0) (S.known store.new d.0) (S.reads store.old) (S.reads store.new)) }
    ensures err { OnErr result (MayCount cache.now d input.now (S.known store.old d.0) (S.known store.new d.0) (S.reads store.old) (S.reads store.new)) }
{
    let peeked = store.peek(d, asked_of(input))?;
    let Look::Ready = peeked.look else {
        return Ok(Sight {
            peeked,
            step: None,
            fresh: None,
        });
    };
    let Some(session) = cache.session(d, peeked.version) else {
        let seen = store.read(d, asked_of(input))?;
        return sight_in(row, d, input, seen);
    };
    let step = step(row, session, input)?;
    Ok(Sight {
        peeked,
        step: Some(step),
        fresh: None,
    })
}
