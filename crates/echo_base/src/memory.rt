//! Sources and sinks in memory.
ghost use Rattle.std.specs.Prelude.{◌≡◌, ◌≢◌, ◌<◌, ◌≤◌, [], Some, IfOk, length, take, drop};
ghost use Rattle.echo_base.specs.Outside.{IfGot, OnEnd};
ghost use Rattle.echo_base.specs.Memory.{next_read, after_read, next_write, after_write, sure_read};

use crate::plan::{Give, Plan};
use crate::{OutOfMemory, ReadStep, Sink, Source, WriteStep};
use std::alloc::Global;
use std::marker::Model;

/// A source over octets in memory, which gives them in pieces and fails as planned.
#[derive(Debug, Drop)]
pub struct MemSource {
    bytes: Vec<u8>,
    given: usize,
    plan: Plan,
    faults: u64,
}

impl Model for MemSource {
    ghost use Rattle.std.specs.Prelude.{drop, length, ◌≤◌, ◌<◌, ◌+◌, ◌^◌, vec_len};
    ghost use Rattle.echo_base.specs.Memory.{Feed};

    ghost Value = { Feed };

    ghost view = { λ s. record { left = drop s.given s.bytes.items; faults = s.faults; plan = s.plan } };

    ghost invariant = { λ s. (s.given ≤ vec_len s.bytes) × (s.faults + length s.plan < 2 ^ 64) };
}

impl MemSource {
    /// A source of these octets. Each read uses the next entry of `plan`; after the last one, reads give
    /// all that fits. It takes no memory.
    pub fn new(bytes: Vec<u8>, plan: Vec<Give>) -> MemSource
        ensures { result ≡ record { left = bytes.items; faults = 0; plan = plan.items } }
    {
        MemSource {
            bytes,
            given: 0,
            plan: Plan::new(plan),
            faults: 0,
        }
    }
}

impl Source for MemSource {
    ghost left = { λ s. Some s.left };

    ghost faults = { λ s. s.faults };

    fn read(&mut self, into: &mut [u8]) -> ReadStep
        requires { 0 < length into.old }
        ensures step { result ≡ next_read self.old (length into.old) }
        ensures octets { IfGot result (λ n. take n into.new ≡ take n self.old.left) }
        ensures after { self.new ≡ after_read self.old result }
    {
        let Some(most) = self.plan.next(into.len()) else {
            self.faults += 1;
            return ReadStep::Failed;
        };
        let rest = &self.bytes[self.given..];
        if rest.is_empty() {
            return ReadStep::End;
        }
        let n = most.min(rest.len());
        into[..n].copy_from_slice(&rest[..n]);
        self.given += n;
        ReadStep::Got(n)
    }
}

/// A sink that keeps its octets in memory, with room for so many, and fails as planned.
#[derive(Debug, Drop)]
pub struct MemSink {
    held: Vec<u8>,
    room: usize,
    plan: Plan,
    faults: u64,
}

impl Model for MemSink {
    ghost use Rattle.std.specs.Prelude.{◌≤◌, ◌+◌, vec_len, vec_capacity};
    ghost use Rattle.echo_base.specs.Memory.{Store};

    ghost Value = { Store };

    ghost view = { λ s. record { held = s.held.items; room = s.room; faults = s.faults; plan = s.plan } };

    ghost invariant = { λ s. vec_len s.held + s.room ≤ vec_capacity s.held };
}

impl MemSink {
    /// An empty sink with room for `room` octets, which are reserved now. Each write uses the next entry
    /// of `plan`; after the last one, writes take all that there is room for. A write that finds no room
    /// fails.
    pub fn new(alloc: Global, room: usize, plan: Vec<Give>) -> Result<MemSink, OutOfMemory>
        ensures { IfOk result (λ s. s ≡ record { held = []; room = room; faults = 0; plan = plan.items }) }
    {
        Ok(MemSink {
            held: Vec::with_capacity(alloc, room)?,
            room,
            plan: Plan::new(plan),
            faults: 0,
        })
    }

    /// The octets taken so far.
    pub fn held(&self) -> &[u8]
        ensures { result.now ≡ self.now.held }
    {
        &self.held
    }
}

impl Sink for MemSink {
    ghost held = { λ s. Some s.held };

    ghost faults = { λ s. s.faults };

    fn write(&mut self, piece: &[u8]) -> WriteStep
        requires { 0 < length piece.now }
        ensures step { result ≡ next_write self.old (length piece.now) }
        ensures after { self.new ≡ after_write self.old piece.now result }
        ensures count { self.old.faults ≤ self.new.faults }
    {
        let most = self.plan.next(piece.len()).unwrap_or(0).min(self.room);
        if most == 0 {
            self.faults = self.faults.saturating_add(1);
            return WriteStep::Failed;
        }
        self.held.extend_from_slice(&piece[..most]).unwrap();
        self.room -= most;
        WriteStep::Took(most)
    }
}

/// A source over octets in memory that never fails.
#[derive(Debug, Drop)]
pub struct SureSource {
    bytes: Vec<u8>,
    given: usize,
}

impl Model for SureSource {
    ghost use Rattle.std.specs.Prelude.{ℕ, List, drop, ◌≤◌, vec_len};

    ghost Value = { List ℕ };

    ghost view = { λ s. drop s.given s.bytes.items };

    ghost invariant = { λ s. s.given ≤ vec_len s.bytes };
}

impl SureSource {
    /// A source of these octets, which gives at each read all that fits. It takes no memory.
    pub fn new(bytes: Vec<u8>) -> SureSource
        ensures { result ≡ bytes.items }
    {
        SureSource { bytes, given: 0 }
    }
}

impl Source for SureSource {
    ghost left = { λ s. Some s };

    ghost faults = { λ _. 0 };

    fn read(&mut self, into: &mut [u8]) -> ReadStep
        requires { 0 < length into.old }
        ensures step { result ≡ sure_read self.old (length into.old) }
        ensures sure { result ≢ ReadStep.Failed }
        ensures octets { IfGot result (λ n. take n into.new ≡ take n self.old) }
        ensures after { IfGot result (λ n. self.new ≡ drop n self.old) }
        ensures end { OnEnd result (self.new ≡ []) }
    {
        let rest = &self.bytes[self.given..];
        if rest.is_empty() {
            return ReadStep::End;
        }
        let n = rest.len().min(into.len());
        into[..n].copy_from_slice(&rest[..n]);
        self.given += n;
        ReadStep::Got(n)
    }
}
