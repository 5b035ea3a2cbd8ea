//! Laws of the grammar of messages, as clauses of functions that do nothing.

ghost use Rattle.std.specs.Prelude.{◌≡◌, ◌⊎◌, ◌<◌, ◌++◌, ℕ, List, [], length};
ghost use Rattle.echo_base.specs.declared.reason.Reason.TheVariants.{TrailingBytes};
ghost use Rattle.echo_base.specs.declared.refusal.Refusal.{Refusal};
ghost use Rattle.s1ap_pdu.specs.declared.pdu.Pdu.{Pdu};
ghost use Rattle.s1ap_pdu.specs.Grammar.{Spells, Refused};
ghost use Rattle.s1ap_pdu.specs.Run.{written, IsRight, HasOctets};
ghost use Rattle.s1ap_pdu.specs.Small.{IsSmall};

/// What is written for a message spells it.
pub fn written_is_spelled()
    ensures { (p : Pdu) → IsRight p → HasOctets p → Spells (written p) p }
{}

/// A message that octets spell can be written: what is written for it is no longer than they are, in any of its open types.
pub fn spelled_is_right()
    ensures { (octets : List ℕ) (p : Pdu) → Spells octets p → IsRight p × HasOctets p }
{}

/// Octets are one message, or are refused for one reason at one place, and never both. No spelling of a message begins
/// another: octets behind one are refused at the first of them.
pub fn one_answer()
    ensures message { (octets : List ℕ) (p q : Pdu) → Spells octets p → Spells octets q → p ≡ q }
    ensures refusal { (octets : List ℕ) (d e : Refusal) → Refused octets d → Refused octets e → d ≡ e }
    ensures not_both { (octets : List ℕ) (p : Pdu) (e : Refusal) → Spells octets p → Refused octets e → ⊥ }
    ensures either { (octets : List ℕ) → ((p : Pdu) × Spells octets p) ⊎ ((e : Refusal) × Refused octets e) }
    ensures trailing { (octets more : List ℕ) (p : Pdu) → Spells octets p → 0 < length more
        → Refused (octets ++ more) (record { reason = TrailingBytes; place = length octets }) }
    ensures front { (octets more : List ℕ) (p q : Pdu) → Spells octets p → Spells (octets ++ more) q → more ≡ [] }
{}

/// A message of small fields in their ranges can be written.
pub fn small_is_right()
    ensures { (p : Pdu) → IsSmall p → IsRight p }
{}
