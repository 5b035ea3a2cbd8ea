//! Where octets go.
ghost use Rattle.std.specs.Prelude.{◌≡◌, ◌<◌, ◌≤◌, ℕ, List, Option, length, take};
ghost use Rattle.echo_base.specs.Outside.{IfTook, OnWritten, OnWriteFailed, IsPut, Rose};

/// What one write did.
#[derive(Clone, Copy, Debug, PartialEq, Eq)]
pub enum WriteStep {
    /// So many octets were taken, from the front of the piece.
    Took(usize),
    /// None was taken, because of a fault.
    Failed,
}

/// Where octets go, a piece at a time.
pub trait Sink {
    /// The octets taken so far, where the sink tells them.
    ghost held: { Self → Option (List ℕ) };

    /// A count of faults, which never falls, and rises at faults alone.
    ghost faults: { Self → ℕ };

    /// Takes octets, one at least, from the front of `piece`. A fault takes none.
    fn write(&mut self, piece: &[u8]) -> WriteStep
        requires { 0 < length piece.now }
        ensures took { IfTook result (λ n. (1 ≤ n) × (n ≤ length piece.now)) }
        ensures octets { IfTook result (λ n. IsPut (held self.old) (take n piece.now) (held self.new)) }
        ensures quiet { OnWritten result (faults self.new ≡ faults self.old) }
        ensures failed { OnWriteFailed result (Rose (faults self.old) (faults self.new)) }
        ensures untaken { OnWriteFailed result (held self.new ≡ held self.old) }
        ensures count { faults self.old ≤ faults self.new };
}
