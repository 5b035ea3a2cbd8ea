//! Laws of the definitions, as clauses of a function that does nothing.

ghost use Rattle.std.specs.Prelude.{◌≡◌, ◌⊎◌, ◌↔◌, ℕ, List, Ok, Err};
ghost use Rattle.echo_base.specs.declared.refusal.Refusal.{Refusal};
ghost use Rattle.nas_kinds.specs.declared.nas_in.NasIn.{NasIn};
ghost use Rattle.nas_kinds.specs.declared.kind.Header.{Header};
ghost use Rattle.nas_kinds.specs.Kinds.{NasSpells, NasRefuses, HasType, type_of};
ghost use Rattle.nas_kinds.specs.Reading.{nas_of};

/// Octets either spell one message or are refused for one reason.
pub fn one_answer()
    ensures message { (octets : List ℕ) (one other : NasIn) → NasSpells octets one → NasSpells octets other → one ≡ other }
    ensures refusal { (octets : List ℕ) (one other : Refusal) → NasRefuses octets one → NasRefuses octets other → one ≡ other }
    ensures not_both { (octets : List ℕ) (message : NasIn) (e : Refusal) → NasSpells octets message → NasRefuses octets e → ⊥ }
    ensures either { (octets : List ℕ)
        → ((message : NasIn) × NasSpells octets message) ⊎ ((e : Refusal) × NasRefuses octets e) }
{}

/// What reading from left to right gives is what octets spell, or why they are refused.
pub fn readings_are_exact()
    ensures message { (octets : List ℕ) (message : NasIn) → (nas_of octets ≡ Ok message) ↔ NasSpells octets message }
    ensures refusal { (octets : List ℕ) (e : Refusal) → (nas_of octets ≡ Err e) ↔ NasRefuses octets e }
{}

/// Octets that spell a message have its message type: behind the first octet, behind the security header and the first
/// octet of the plain message, or, of a SERVICE REQUEST, at the front.
pub fn types_stand_in_place()
    ensures { (octets : List ℕ) (message : NasIn) → NasSpells octets message
        → (header : Header) × HasType octets (type_of message) header }
{}
