//! Laws of the definitions, as clauses of a function that does nothing.

ghost use Rattle.std.specs.Prelude.{◌≡◌, ◌⊎◌, ◌↔◌, ℕ, List};
ghost use Rattle.device_types.specs.Octets.{AreOctets};
ghost use Rattle.device_types.specs.Session.{IsSession};
ghost use Rattle.device_types.specs.declared.session.Session.{Session};
ghost use Rattle.session_form.specs.Form.{form_of, IsInRange, IsFormOf, IsWrongAt};

/// Octets are a form of one session, or wrong at one place.
pub fn one_answer()
    ensures session { (octets : List ℕ) (one other : Session) → AreOctets octets → IsFormOf octets one → IsFormOf octets other → one ≡ other }
    ensures place { (octets : List ℕ) (one other : ℕ) → IsWrongAt octets one → IsWrongAt octets other → one ≡ other }
    ensures not_both { (octets : List ℕ) (session : Session) (place : ℕ) → AreOctets octets → IsFormOf octets session → IsWrongAt octets place → ⊥ }
    ensures either { (octets : List ℕ) → AreOctets octets
        → ((session : Session) × IsFormOf octets session) ⊎ ((place : ℕ) × IsWrongAt octets place) }
{}

/// A session is in the ranges of form 2 exactly where it is one as sessions are stored.
#[tactic(auto, using(crate::proofs::Sessions::in_range))]
pub fn ranges_are_those_of_sessions()
    ensures { (session : Session) → IsInRange session ↔ IsSession session }
{}

/// A session of which octets are a form, in whichever, is in the ranges of form 2: what is read can be written.
#[tactic(auto, using(crate::proofs::Sessions::read_in_range))]
pub fn what_is_read_can_be_written()
    ensures { (octets : List ℕ) (session : Session) → IsFormOf octets session → IsInRange session }
{}
