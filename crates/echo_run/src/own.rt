//! The top call on a world of its own.

ghost use Rattle.std.specs.Prelude.{◌≡◌, ◌≢◌, ◌↔◌, ◌⊎◌, ◌+◌, ◌≤◌, ◌++◌, ℕ, List, length, true, Some, None, Ok, Err};
ghost use Rattle.echo_base.specs.Outside.{IsTakenBy, IsPut, Rose};
ghost use Rattle.echo_run.specs.Answer.{IsWithoutFloor};
ghost use Rattle.command_words.specs.Command.{command_of};
ghost use Rattle.echo_run.specs.Top.{IsMaking, Answers, Tells, Owes};
ghost use Rattle.top_calls.specs.Case.{most_octets};
ghost use Rattle.command_words.specs.declared.command.Command.{Command};
ghost use Rattle.link_schedule.specs.Own.{setting_by, given_by, ends_by, IsWhole};

use crate::top::replay_top;
use echo_base::{Sink, Source, Status};
use link_schedule::OwnFloor;
use std::alloc::Global;

/// `replay_top` on a world of its own, which is exact: so what is written is what the command makes of the text by the definitions. The
/// world that a command leaves which ran a schedule was made of the case text, and took its schedule first; each part of it is what its
/// events make of it, each device's journal is whole, and each lane was accepted whole.
pub fn replay_own<S: Source, K: Sink>(
    alloc: Global,
    words: &[String],
    input: &mut S,
    out: &mut K,
    floor: &mut OwnFloor,
) -> Status
    // Usage comes exactly where the words are no command, before anything is read.
    ensures usage { (result ≡ Status.Usage) ↔ (command_of words.now ≡ None) }
    ensures unread { result ≡ Status.Usage → input.new ≡ input.old }

    // A command that makes its case reads nothing.
    ensures makes { (command : Command) → command_of words.now ≡ Some command → IsMaking command → input.new ≡ input.old }
    ensures no_fault { (command : Command) → command_of words.now ≡ Some command → IsMaking command
        → (result ≢ Status.ReadFault) × (result ≢ Status.CaseRefused 6 0) }

    // A fault of reading comes only where the source's count of faults rose.
    ensures read_fault { result ≡ Status.ReadFault → Rose (S.faults input.old) (S.faults input.new) }

    // The case is refused for its length exactly where 67,108,865 octets came.
    ensures too_long { result ≡ Status.CaseRefused 6 0
        → IsTakenBy (λ n. n ≡ most_octets + 1) (S.left input.old) (S.left input.new) }
    ensures short { result ≢ Status.CaseRefused 6 0
        → IsTakenBy (λ n. n ≤ most_octets) (S.left input.old) (S.left input.new) }

    // Any other refusal is that of the first bad line of the case text, which was made, or is all that the source had.
    ensures refused { (number line : ℕ) → result ≡ Status.CaseRefused number line → result ≢ Status.CaseRefused 6 0
        → Answers words.now (S.left input.old) (S.left input.new) (Err (number, line)) }

    // Done: the sink gained exactly what the command makes of the case text by the definitions.
    ensures done { result ≡ Status.Done → (text : List ℕ)
        × Answers words.now (S.left input.old) (S.left input.new) (Ok text)
        × IsPut (K.held out.old) text (K.held out.new) }

    // A fault of writing comes only where the sink's count of faults rose, and a front of that text was written then.
    ensures write_fault { result ≡ Status.WriteFault → Rose (K.faults out.old) (K.faults out.new) }
    ensures front { result ≡ Status.WriteFault → (piece rest : List ℕ)
        × Answers words.now (S.left input.old) (S.left input.new) (Ok (piece ++ rest))
        × IsPut (K.held out.old) piece (K.held out.new) }

    // What was written is what the world told that is left: it was made of the case text, and took its schedule first.
    ensures told { result ≡ Status.Done → (text : List ℕ)
        × Tells words.now (S.left input.old) (S.left input.new) true (setting_by floor.new.world) (given_by floor.new.world) (ends_by floor.new.world) text
        × IsPut (K.held out.old) text (K.held out.new) }
    ensures told_front { result ≡ Status.WriteFault → (piece rest : List ℕ)
        × Tells words.now (S.left input.old) (S.left input.new) true (setting_by floor.new.world) (given_by floor.new.world) (ends_by floor.new.world) (piece ++ rest)
        × IsPut (K.held out.old) piece (K.held out.new) }

    // The world that a schedule was run on has settled, and is whole. Where none was run it is as it was.
    ensures world { (command : Command) → command_of words.now ≡ Some command → ¬ IsWithoutFloor command
        → (result ≡ Status.Done) ⊎ (result ≡ Status.WriteFault) → IsWhole floor.new.world }
    ensures other { (command : Command) → command_of words.now ≡ Some command → IsWithoutFloor command → floor.new ≡ floor.old }
    ensures floor { result ≢ Status.Done → result ≢ Status.WriteFault → result ≢ Status.OutOfMemory → floor.new ≡ floor.old }

    // On every other status the sink is as it was.
    ensures silent { result ≢ Status.Done → result ≢ Status.WriteFault → out.new ≡ out.old }

    // A text that is owed is written, where no count rose.
    ensures complete { (text : List ℕ) → Owes words.now (S.left input.old) (Ok text)
        → ¬ Rose (S.faults input.old) (S.faults input.new) → ¬ Rose (K.faults out.old) (K.faults out.new)
        → (result ≡ Status.OutOfMemory) ⊎ ((result ≡ Status.Done) × IsPut (K.held out.old) text (K.held out.new)) }
    // A case that is to be refused is.
    ensures complete_refused { (number line : ℕ) → Owes words.now (S.left input.old) (Err (number, line))
        → ¬ Rose (S.faults input.old) (S.faults input.new)
        → (result ≡ Status.OutOfMemory) ⊎ (result ≡ Status.CaseRefused number line) }
{
    let status = replay_top(alloc, words, input, out, floor);
    floor.recall();
    status
}
