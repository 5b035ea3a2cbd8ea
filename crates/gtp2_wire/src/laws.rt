//! Laws of the definitions, as clauses of functions that do nothing.

ghost use Rattle.std.specs.Prelude.{◌≡◌, ◌⊎◌, ℕ, List};
ghost use Rattle.echo_base.specs.declared.refusal.Refusal.{Refusal};
ghost use Rattle.gtp2_wire.specs.declared.gtp.Gtp.{Gtp};
ghost use Rattle.gtp2_wire.specs.Messages.{GtpSpells, GtpRefuses};
ghost use Rattle.gtp2_wire.specs.Written.{gtp_run, IsGtp, HasWords};

/// Octets either spell one message or are refused for one reason.
pub fn one_answer()
    ensures message { (octets : List ℕ) (one other : Gtp) → GtpSpells octets one → GtpSpells octets other → one ≡ other }
    ensures refusal { (octets : List ℕ) (one other : Refusal) → GtpRefuses octets one → GtpRefuses octets other → one ≡ other }
    ensures not_both { (octets : List ℕ) (g : Gtp) (e : Refusal) → GtpSpells octets g → GtpRefuses octets e → ⊥ }
    ensures either { (octets : List ℕ) → ((g : Gtp) × GtpSpells octets g) ⊎ ((e : Refusal) × GtpRefuses octets e) }
{}

/// What is written is read as the same message.
pub fn written_is_read()
    ensures { (g : Gtp) → HasWords g → IsGtp g → GtpSpells (gtp_run g) g }
{}
