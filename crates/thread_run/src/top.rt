//! The top call.

ghost use Rattle.std.specs.Prelude.{◌≡◌, ◌≢◌, ◌↔◌, ◌⊎◌, ◌+◌, ◌≤◌, ◌++◌, ℕ, List, Some, None, Ok, Err};
ghost use Rattle.echo_base.specs.Outside.{IsTakenBy, IsPut, Rose};
ghost use Rattle.command_words.specs.Command.{threads_command_of};
ghost use Rattle.command_words.specs.declared.command.ThreadsCommand.{ThreadsCommand};
ghost use Rattle.thread_run.specs.Top.{IsMaking, Answers, Tells, Owes};
ghost use Rattle.top_calls.specs.Case.{most_octets};

use crate::answer::{answer, made};
use command_words::threads_command_of;
use echo_base::{OutOfMemory, Sink, Source, Status};
use std::alloc::Global;
use std::sync::Wait;
use std::thread::Threads;
use top_calls::{NoText, case_text, put_text};
use worker_pool::{Gate, Ran};

/// Takes a case to its end by a pool of workers, and writes what comes of it to the sink. The words, without the program's name, are the
/// command: `run` reads the case text from the source, and writes the text of `plain`, by 4 workers, or as many as `--workers` says, 1
/// to 16; `load` makes it, of `--number`, `--devices` and `--rounds`, reads nothing, and writes the summary of `make` without what its
/// schedule comes to. A gate learns where each worker is.
///
/// The statuses, in the order in which they are found, are those of `replay_top`: `Usage`, before anything is read; `ReadFault`;
/// `CaseRefused` with the number 6 (TooLong) and the line 0 for more than 67,108,864 octets, and with the number of the reason and the
/// line for the first bad line; `WriteFault`, and then a front of the text was written; `Done`. `OutOfMemory` may stand in place of any
/// but `WriteFault`. At `Done` and `WriteFault` the floor has the closed shards of the run; on every other status it is empty, and
/// nothing was written.
///
/// ```rust
/// let mut floor = None;
/// let status = threads_top(&rt, rt.alloc(), &words, &mut input, &mut output, &OpenGate, &mut floor);
/// ```
pub fn threads_top<R: Threads + Wait + Sync, S: Source, K: Sink, G: Gate + Sync>(
    rt: &R,
    alloc: Global,
    words: &[String],
    input: &mut S,
    out: &mut K,
    gates: &G,
    floor: &mut Option<Ran>,
) -> Status
    // Usage comes exactly where the words are no command, before anything is read.
    ensures usage { (result ≡ Status.Usage) ↔ (threads_command_of words.now ≡ None) }
    ensures unread { result ≡ Status.Usage → input.new ≡ input.old }

    // A command that makes its case reads nothing.
    ensures makes { (command : ThreadsCommand) → threads_command_of words.now ≡ Some command → IsMaking command → input.new ≡ input.old }
    ensures no_fault { (command : ThreadsCommand) → threads_command_of words.now ≡ Some command → IsMaking command
        → (result ≢ Status.ReadFault) × (result ≢ Status.CaseRefused 6 0) }

    // A fault of reading comes only where the source's count of faults rose.
    ensures read_fault { result ≡ Status.ReadFault → Rose (S.faults input.old) (S.faults input.new) }

    // The case is refused for its length exactly where 67,108,865 octets came.
    ensures too_long { result ≡ Status.CaseRefused 6 0
        → IsTakenBy (λ n. n ≡ most_octets + 1) (S.left input.old) (S.left input.new) }
    ensures short { result ≢ Status.CaseRefused 6 0
        → IsTakenBy (λ n. n ≤ most_octets) (S.left input.old) (S.left input.new) }

    // Any other refusal is that of the first bad line of the case text, which was made, or is all that the source had.
    ensures refused { (number line : ℕ) → result ≡ Status.CaseRefused number line → result ≢ Status.CaseRefused 6 0
        → Answers words.now (S.left input.old) (S.left input.new) (Err (number, line)) }

    // Done: the sink gained exactly what the command makes of the case text, and the floor has the closed shards of its run.
    ensures done { result ≡ Status.Done → (text : List ℕ)
        × Tells words.now (S.left input.old) (S.left input.new) floor.new text
        × IsPut (K.held out.old) text (K.held out.new) }

    // A fault of writing comes only where the sink's count of faults rose, and a front of that text was written then; the floor has the
    // shards of that run.
    ensures write_fault { result ≡ Status.WriteFault → Rose (K.faults out.old) (K.faults out.new) }
    ensures front { result ≡ Status.WriteFault → (piece rest : List ℕ)
        × Tells words.now (S.left input.old) (S.left input.new) floor.new (piece ++ rest)
        × IsPut (K.held out.old) piece (K.held out.new) }

    // On every other status the floor is empty, and the sink as it was.
    ensures floor { result ≢ Status.Done → result ≢ Status.WriteFault → floor.new ≡ None }
    ensures silent { result ≢ Status.Done → result ≢ Status.WriteFault → out.new ≡ out.old }

    // A text that is owed is written, where no count rose.
    ensures complete { (text : List ℕ) → Owes words.now (S.left input.old) (Ok text)
        → ¬ Rose (S.faults input.old) (S.faults input.new) → ¬ Rose (K.faults out.old) (K.faults out.new)
        → (result ≡ Status.OutOfMemory) ⊎ ((result ≡ Status.Done) × IsPut (K.held out.old) text (K.held out.new)) }
    // A case that is to be refused is.
    ensures complete_refused { (number line : ℕ) → Owes words.now (S.left input.old) (Err (number, line))
        → ¬ Rose (S.faults input.old) (S.faults input.new)
        → (result ≡ Status.OutOfMemory) ⊎ (result ≡ Status.CaseRefused number line) }
{
    *floor = None;
    let command = match threads_command_of(alloc, words) {
        Ok(Some(command)) => command,
        Ok(None) => return Status::Usage,
        Err(OutOfMemory) => return Status::OutOfMemory,
    };
    let octets = match case_text(alloc, made(command), input) {
        Ok(octets) => octets,
        Err(status) => return status,
    };
    let answered = match answer(rt, alloc, command, octets, gates) {
        Ok(answered) => answered,
        Err(NoText::Refused { number, line }) => return Status::CaseRefused { number, line },
        Err(NoText::OutOfMemory) => return Status::OutOfMemory,
    };
    *floor = Some(answered.ran);
    put_text(out, &answered.text)
}
