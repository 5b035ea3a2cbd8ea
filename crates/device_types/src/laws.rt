//! Laws of the definitions, as clauses of functions that do nothing.
ghost use Rattle.std.specs.Prelude.{◌≡◌, ◌≤◌, ◌+◌, ◌++◌, ◌∷◌, [], ℕ, true, length, Some, if◌then◌else◌};
ghost use Rattle.device_types.specs.declared.event.Lane.{Lane};
ghost use Rattle.device_types.specs.Journal.{version_of, session_of, effects_on, effects_of, pushed_count, is_message, taken_count, reply_to, reply_of, awaited_behind, awaited_call};
ghost use Rattle.device_types.specs.Look.{look_behind, look_of, answer_look_behind, answer_look_of};

use crate::step::Entry;

/// What one more entry makes of a journal: of its version, session, lanes, messages and replies, of the call whose answer is
/// awaited, and of what the row says to an input.
#[tactic(auto, using(crate::proofs::Journals::one_more))]
pub fn one_more_entry(_journal: &[Entry], _entry: &Entry)
    ensures version { version_of (_journal.now ++ _entry.now ∷ []) ≡ version_of _journal.now + 1 }
    ensures session { session_of (_journal.now ++ _entry.now ∷ []) ≡ _entry.now.step.session }
    ensures effects { (l : Lane) → effects_of l (_journal.now ++ _entry.now ∷ [])
        ≡ effects_of l _journal.now ++ effects_on l _entry.now.step.effects }
    ensures pushed { (l : Lane) → pushed_count l (_journal.now ++ _entry.now ∷ [])
        ≡ pushed_count l _journal.now + length (effects_on l _entry.now.step.effects) }
    ensures taken { taken_count (_journal.now ++ _entry.now ∷ [])
        ≡ taken_count _journal.now + (if is_message _entry.now.input then 1 else 0) }
    // The reply to the message of the entry, and those to the messages before.
    ensures reply { is_message _entry.now.input ≡ true → reply_of (_journal.now ++ _entry.now ∷ []) (taken_count _journal.now + 1)
        ≡ Some (reply_to (taken_count _journal.now + 1) (length _journal.now + 1) _entry.now) }
    ensures replies { (n : ℕ) → 1 ≤ n → n ≤ taken_count _journal.now
        → reply_of (_journal.now ++ _entry.now ∷ []) n ≡ reply_of _journal.now n }
    ensures awaited { awaited_call (_journal.now ++ _entry.now ∷ []) ≡ awaited_behind _journal.now _entry.now.step.effects }
    ensures look { (window n : ℕ) → look_of window (_journal.now ++ _entry.now ∷ []) n
        ≡ look_behind window (taken_count _journal.now + (if is_message _entry.now.input then 1 else 0))
        (awaited_behind _journal.now _entry.now.step.effects) n }
    ensures answer_look { (l : Lane) (k : ℕ) → answer_look_of (_journal.now ++ _entry.now ∷ []) l k
        ≡ answer_look_behind (pushed_count l _journal.now + length (effects_on l _entry.now.step.effects))
        (awaited_behind _journal.now _entry.now.step.effects) l k }
{}
