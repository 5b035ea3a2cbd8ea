//! The plan by which a source or a sink in memory gives, takes and fails.
ghost use Rattle.std.specs.Prelude.{◌≡◌, ◌<◌, ◌≤◌, List, IfSome, drop};
ghost use Rattle.echo_base.specs.Memory.{most_of};

use std::marker::Model;

/// What one read or write of a source or a sink in memory is to do.
#[derive(Clone, Copy, Debug, PartialEq, Eq)]
pub enum Give {
    /// Move so many octets at most; 0 counts as 1.
    Piece(usize),
    /// Fail.
    Fail,
}

/// The calls to come, in order.
#[derive(Debug, Drop)]
pub struct Plan {
    calls: Vec<Give>,
    used: usize,
}

impl Model for Plan {
    ghost use Rattle.std.specs.Prelude.{List, drop, ◌≤◌, vec_len};
    ghost use Rattle.echo_base.specs.declared.plan.Give.{Give};

    ghost Value = { List Give };

    ghost view = { λ p. drop p.used p.calls.items };

    ghost invariant = { λ p. p.used ≤ vec_len p.calls };
}

impl Plan {
    /// A plan of these calls, none used yet.
    pub fn new(calls: Vec<Give>) -> Plan
        ensures { result ≡ calls.items }
    {
        Plan { calls, used: 0 }
    }

    /// How many octets the next call may move, of `wanted`. `None` is a fault.
    pub fn next(&mut self, wanted: usize) -> Option<usize>
        requires { 0 < wanted }
        ensures value { result ≡ most_of self.old wanted }
        ensures range { IfSome result (λ most. (1 ≤ most) × (most ≤ wanted)) }
        ensures after { self.new ≡ drop 1 self.old }
    {
        if self.used == self.calls.len() {
            return Some(wanted);
        }
        let call = self.calls[self.used];
        self.used += 1;
        match call {
            Give::Piece(n) => Some(n.max(1).min(wanted)),
            Give::Fail => None,
        }
    }
}
