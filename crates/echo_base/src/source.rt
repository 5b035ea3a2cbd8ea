//! Where octets come from.
ghost use Rattle.std.specs.Prelude.{◌≡◌, ◌<◌, ◌≤◌, ℕ, List, Option, length, take};
ghost use Rattle.echo_base.specs.Outside.{IfGot, OnEnd, OnRead, OnReadFailed, IsTaken, IsAtEnd, Rose};

/// What one read gave.
#[derive(Clone, Copy, Debug, PartialEq, Eq)]
pub enum ReadStep {
    /// So many octets, at the front of the buffer.
    Got(usize),
    /// Nothing, and no octet will come.
    End,
    /// Nothing, because of a fault.
    Failed,
}

/// Where octets come from, a piece at a time.
pub trait Source {
    /// The octets still to come, where the source tells them.
    ghost left: { Self → Option (List ℕ) };

    /// A count of faults, which never falls, and rises at faults alone.
    ghost faults: { Self → ℕ };

    /// Puts the next octets, one at least, at the front of `into`. A fault takes none.
    fn read(&mut self, into: &mut [u8]) -> ReadStep
        requires { 0 < length into.old }
        ensures got { IfGot result (λ n. (1 ≤ n) × (n ≤ length into.old)) }
        ensures octets { IfGot result (λ n. IsTaken (left self.old) (take n into.new) (left self.new)) }
        ensures end { OnEnd result (IsAtEnd (left self.new)) }
        ensures at_end { OnEnd result (left self.new ≡ left self.old) }
        ensures quiet { OnRead result (faults self.new ≡ faults self.old) }
        ensures failed { OnReadFailed result (Rose (faults self.old) (faults self.new)) }
        ensures unread { OnReadFailed result (left self.new ≡ left self.old) }
        ensures count { faults self.old ≤ faults self.new };
}
