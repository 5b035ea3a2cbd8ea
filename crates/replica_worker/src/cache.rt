//! The sessions that a replica remembers.
ghost use Rattle.std.specs.Prelude.{◌≡◌, ◌∷◌, [], IfOk, option_copied};
ghost use Rattle.replica_worker.specs.Cache.{remember, is_of, session_in, noted, fresh_at, cached_when};

use circular_buffer::HeapCircularBuffer;
use device_types::{DeviceId, Look, Session, Shared};
use session_row::Commit;
use std::alloc::{AllocError, Global};
use std::marker::Model;

/// How many sessions a replica remembers.
const CACHE_SIZE: usize = 8;

/// The session of a device at a version.
#[derive(Debug, Drop)]
pub struct CachedSession {
    /// The device.
    pub d: DeviceId,
    /// How many steps were committed.
    pub version: u64,
    /// The session behind them.
    pub session: Shared<Session>,
}

impl CachedSession {
    /// Is it the session of that device and version?
    fn is_of(&self, d: DeviceId, version: u64) -> bool
        ensures { result ≡ is_of d version self.now }
    {
        self.d == d && self.version == version
    }
}

/// What is remembered of a read: the session of a row that is ready.
pub(crate) fn fresh_at(look: Look, cached: CachedSession) -> Option<CachedSession>
    ensures { result ≡ fresh_at look cached }
{
    match look {
        Look::Ready => Some(cached),
        _ => None,
    }
}

/// What is remembered of a write: the session that was committed.
pub(crate) fn cached_when(
    d: DeviceId,
    session: Option<Shared<Session>>,
    commit: Commit,
) -> Option<CachedSession>
    ensures { result ≡ cached_when d session commit }
{
    match (session, commit) {
        (Some(session), Commit::Committed(version)) => Some(CachedSession {
            d,
            version,
            session,
        }),
        _ => None,
    }
}

/// The session of that device and version, if it is among these.
fn session_among(sessions: &[CachedSession], d: DeviceId, version: u64) -> Option<&Session>
    ensures { option_copied result ≡ session_in sessions.now d version }
{
    for cached in sessions {
        if cached.is_of(d, version) {
            return Some(cached.session.get());
        }
    }
    None
}

/// The last eight sessions that were noted. Contracts see them as a list, the oldest first.
#[derive(Debug, Drop)]
pub(crate) struct Cache {
    ring: HeapCircularBuffer<CachedSession>,
}

impl Model for Cache {
    ghost use Rattle.std.specs.Prelude.{◌≡◌, List};
    ghost use Rattle.replica_worker.specs.declared.cache.CachedSession.{CachedSession};
    ghost use Rattle.replica_worker.specs.Cache.{cache_size};

    ghost Value = { List CachedSession };

    ghost view = { λ cache. cache.ring.items };

    ghost invariant = { λ cache. cache.ring.capacity ≡ cache_size };
}

impl Cache {
    /// No session. It fails for want of memory alone.
    pub(crate) fn new(alloc: Global) -> Result<Cache, AllocError>
        ensures { IfOk result (λ cache. cache ≡ []) }
    {
        Ok(Cache {
            ring: HeapCircularBuffer::with_capacity(alloc, CACHE_SIZE)?,
        })
    }

    /// The session of that device and version, if it is remembered. It takes no memory.
    pub(crate) fn session(&self, d: DeviceId, version: u64) -> Option<&Session>
        ensures { option_copied result ≡ session_in self.now d version }
    {
        let (older, newer) = self.ring.as_slices();
        match session_among(older, d, version) {
            Some(session) => Some(session),
            None => session_among(newer, d, version),
        }
    }

    /// Remembers a session, if there is one: a full cache drops its oldest. It takes no memory.
    pub(crate) fn note(&mut self, fresh: Option<CachedSession>)
        ensures { self.new ≡ noted self.old fresh }
    {
        if let Some(cached) = fresh {
            self.ring.push_back(cached);
        }
    }

    /// Forgets all. It takes no memory.
    pub(crate) fn clear(&mut self)
        ensures { self.new ≡ [] }
    {
        self.ring.clear();
    }
}
