//! Laws of the definitions, as clauses of functions that do nothing.

ghost use Rattle.std.specs.Prelude.{◌≡◌, ◌⊎◌, ℕ, List};
ghost use Rattle.echo_base.specs.declared.refusal.Refusal.{Refusal};
ghost use Rattle.dia_wire.specs.declared.dia.Dia.{Dia};
ghost use Rattle.dia_wire.specs.Messages.{DiaSpells, DiaRefuses};
ghost use Rattle.dia_wire.specs.Written.{dia_run, IsDia, HasWords};

/// Octets either spell one message or are refused for one reason.
pub fn one_answer()
    ensures message { (octets : List ℕ) (one other : Dia) → DiaSpells octets one → DiaSpells octets other → one ≡ other }
    ensures refusal { (octets : List ℕ) (one other : Refusal) → DiaRefuses octets one → DiaRefuses octets other → one ≡ other }
    ensures not_both { (octets : List ℕ) (d : Dia) (e : Refusal) → DiaSpells octets d → DiaRefuses octets e → ⊥ }
    ensures either { (octets : List ℕ) → ((d : Dia) × DiaSpells octets d) ⊎ ((e : Refusal) × DiaRefuses octets e) }
{}

/// What is written is read as the same message.
pub fn written_is_read()
    ensures { (d : Dia) → HasWords d → IsDia d → DiaSpells (dia_run d) d }
{}
