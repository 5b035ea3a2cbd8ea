//! The value behind a front, and the jobs that run on it.
ghost use Rattle.std.specs.Prelude.{◌≡◌, ℕ, List, ◌++◌, length, IfErr, IfOk};
ghost use Rattle.front_lock.specs.Turns.{AddsTurn};

use device_types::NoRoom;

/// A value that keeps the list of the turns that were made on it. That list and a basis, plain data that no job changes, are
/// what contracts see of it.
pub trait Held: Drop {
    /// What the value keeps of a turn.
    type Turn;

    /// What no job changes.
    type Basis;

    /// The basis of the value.
    ghost basis: { Self → Self.Basis };

    /// The turns that were made on the value, the oldest first.
    ghost turns: { Self → List Self.Turn };

    /// The number of the seat that made the turn.
    ghost by: { Self.Turn → ℕ };

    /// How many turns the value keeps.
    fn turn_count(&self) -> u64
        ensures { result ≡ length (turns self.now) };
}

/// What a seat does in its turn.
///
/// A job has a condition, `can`, over the basis and the turns so far, and says with `done` what its turn and its answer are,
/// again over the basis and the turns before it. A condition that holds of some turns holds behind any more of them (`stays`):
/// so it is enough that it holds of the turns that a seat has seen.
pub trait Job<T: Held>: Sized {
    /// What the job gives back.
    type Answer;

    /// Whether the job may run, by the basis and the turns so far.
    ghost can: { Self → T.Basis → List T.Turn → Type 0 };

    /// What its turn and its answer are, by the basis and the turns before it.
    ghost done: { Self → T.Basis → List T.Turn → T.Turn → Self.Answer → Type 0 };

    /// Adds one turn of the seat with that number and answers; or finds no memory, adds none and gives the job back.
    fn run(self, value: &mut T, seat: u32) -> Result<Self::Answer, NoRoom<Self>>
        requires { can self (T.basis value.old) (T.turns value.old) }
        ensures basis { T.basis value.new ≡ T.basis value.old }
        ensures ok { IfOk result (λ answer. AddsTurn T.by seat (done self (T.basis value.old)) (T.turns value.old) answer (T.turns value.new)) }
        ensures turns { IfErr result (λ room. T.turns value.new ≡ T.turns value.old) }
        ensures back { IfErr result (λ room. room.0 ≡ self) };

    /// A condition that holds of some turns holds behind any more of them.
    ghost stays: { (job : Self) (basis : T.Basis) (turns more : List T.Turn) → can job basis turns → can job basis (turns ++ more) };
}
