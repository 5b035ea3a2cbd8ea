//! Laws of the definitions, as clauses of functions that do nothing.
ghost use Rattle.std.specs.Prelude.{ℕ, List};
ghost use Rattle.device_types.specs.declared.step.Entry.{Entry};
ghost use Rattle.replica_worker.specs.Writes.{MayWrite};
ghost use Rattle.session_store.specs.Charter.{CharterState};
ghost use Rattle.session_store.specs.Rows.{Begins};

use crate::hand::Hand;

/// What may be written may be still where more is known.
pub fn more_known_keeps(_hand: &Hand)
    ensures { (charter : CharterState) (devices : ℕ) (known more : ℕ → List Entry) → ((i : ℕ) → Begins (known i) (more i))
        → MayWrite charter devices known _hand.now → MayWrite charter devices more _hand.now }
{}
