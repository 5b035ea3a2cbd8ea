//! The top call.

ghost use Rattle.std.specs.Prelude.{◌≡◌, ◌≢◌, ◌↔◌, ◌⊎◌, ◌+◌, ◌≤◌, ◌++◌, ℕ, List, true, Some, None, Ok, Err, IfSome};
ghost use Rattle.echo_base.specs.Outside.{IsTakenBy, IsPut, Rose};
ghost use Rattle.command_words.specs.Command.{command_of, IsInLimits};
ghost use Rattle.command_words.specs.declared.command.Command.{Command};
ghost use Rattle.echo_run.specs.Top.{made_in, IsMaking, Answers, Tells, Owes};
ghost use Rattle.echo_run.specs.Answer.{IsWithoutFloor};
ghost use Rattle.top_calls.specs.Case.{most_octets, IsSmall};

use crate::answer::answer;
use command_words::{Command, command_of};
use echo_base::{OutOfMemory, Sink, Source, Status};
use link_schedule::Floor;
use std::alloc::Global;
use top_calls::{MadeCase, NoText, case_text, put_text};

/// The numbers of the case that a command makes; the others read one.
fn made(command: Command) -> Option<MadeCase>
    requires { IsInLimits command }
    ensures made { result ≡ made_in command }
    ensures small { IfSome result IsSmall }
{
    match command {
        Command::Plain
        | Command::Replay { .. }
        | Command::Show { .. }
        | Command::S11
        | Command::S6a
        | Command::Epochs { .. }
        | Command::Crash { .. } => None,
        Command::Make {
            number,
            devices,
            rounds,
            ..
        } => Some(MadeCase {
            number,
            devices,
            rounds,
        }),
    }
}

/// Makes a text of a case text, and writes it to the sink. The words, without the program's name, are the command: `plain` tells which
/// lines of the trace are refused, and what becomes of the devices, whose calls are answered at once; `replay` first tells what each
/// event of the schedule comes to, with two replicas, or as many as `--replicas` says, 1 to 16; `show` tells what the lines of the trace
/// are, as messages of base stations, or with `--kind=1` as those of the gateway, with `--kind=2` of the subscriber server; `s11` tells
/// what the devices call of the gateway and what it answers, as octets, where each call is answered at once, and `s6a` the same of the
/// subscriber server; `epochs` tells what events come to that are drawn of the streams of `--device` from `--number`, 100 or as many as
/// `--events` says, and what its session is then; `crash` tells what a disk keeps of the devices that fails after `--after` calls. They
/// read the case text from the source. `make` makes it, of `--number`, `--devices` and `--rounds`, and reads nothing: with `--text` it
/// is the text itself, and else a line that sums up its replay with two replicas.
///
/// The statuses, in the order in which they are found: `Usage`, before anything is read; `ReadFault`, where the source failed;
/// `CaseRefused` with the number 6 (TooLong) and the line 0 for more than 67,108,864 octets, and with the number of the reason and
/// the line for the first bad line; `WriteFault`, where the sink failed, and then a front of the text was written; `Done`.
/// `OutOfMemory` may stand in place of any but `WriteFault`. On a status but `Done` and `WriteFault` nothing was written.
///
/// ```rust
/// let mut floor = OwnFloor::new();
/// let status = replay_top(alloc, &words, &mut input, &mut output, &mut floor);
/// floor.recall();
/// ```
pub fn replay_top<S: Source, K: Sink, F: Floor>(
    alloc: Global,
    words: &[String],
    input: &mut S,
    out: &mut K,
    floor: &mut F,
) -> Status
    // Usage comes exactly where the words are no command, before anything is read.
    ensures usage { (result ≡ Status.Usage) ↔ (command_of words.now ≡ None) }
    ensures unread { result ≡ Status.Usage → input.new ≡ input.old }

    // A command that makes its case reads nothing.
    ensures makes { (command : Command) → command_of words.now ≡ Some command → IsMaking command → input.new ≡ input.old }
    ensures no_fault { (command : Command) → command_of words.now ≡ Some command → IsMaking command
        → (result ≢ Status.ReadFault) × (result ≢ Status.CaseRefused 6 0) }

    // A fault of reading comes only where the source's count of faults rose.
    ensures read_fault { result ≡ Status.ReadFault → Rose (S.faults input.old) (S.faults input.new) }

    // The case is refused for its length exactly where 67,108,865 octets came.
    ensures too_long { result ≡ Status.CaseRefused 6 0
        → IsTakenBy (λ n. n ≡ most_octets + 1) (S.left input.old) (S.left input.new) }
    ensures short { result ≢ Status.CaseRefused 6 0
        → IsTakenBy (λ n. n ≤ most_octets) (S.left input.old) (S.left input.new) }

    // Any other refusal is that of the first bad line of the case text, which was made, or is all that the source had.
    ensures refused { (number line : ℕ) → result ≡ Status.CaseRefused number line → result ≢ Status.CaseRefused 6 0
        → Answers words.now (S.left input.old) (S.left input.new) (Err (number, line)) }

    // Done: the floor ran the schedule of the case text where the command does, and the sink gained exactly what the floor told.
    ensures done { result ≡ Status.Done → (text : List ℕ)
        × Tells words.now (S.left input.old) (S.left input.new) (F.exact floor.old) (F.setting floor.new) (F.given floor.new) (F.ends floor.new) text
        × IsPut (K.held out.old) text (K.held out.new) }
    // On an exact floor that is what the command makes of the case text by the definitions.
    ensures done_exact { F.exact floor.old ≡ true → result ≡ Status.Done → (text : List ℕ)
        × Answers words.now (S.left input.old) (S.left input.new) (Ok text)
        × IsPut (K.held out.old) text (K.held out.new) }

    // A fault of writing comes only where the sink's count of faults rose, and a front of the same text was written then.
    ensures write_fault { result ≡ Status.WriteFault → Rose (K.faults out.old) (K.faults out.new) }
    ensures front { result ≡ Status.WriteFault → (piece rest : List ℕ)
        × Tells words.now (S.left input.old) (S.left input.new) (F.exact floor.old) (F.setting floor.new) (F.given floor.new) (F.ends floor.new) (piece ++ rest)
        × IsPut (K.held out.old) piece (K.held out.new) }
    ensures front_exact { F.exact floor.old ≡ true → result ≡ Status.WriteFault → (piece rest : List ℕ)
        × Answers words.now (S.left input.old) (S.left input.new) (Ok (piece ++ rest))
        × IsPut (K.held out.old) piece (K.held out.new) }

    // The floor is as it was where nothing was run: for other commands, and on other statuses but for want of memory.
    ensures exact { F.exact floor.new ≡ F.exact floor.old }
    ensures other { (command : Command) → command_of words.now ≡ Some command → IsWithoutFloor command → floor.new ≡ floor.old }
    ensures floor { result ≢ Status.Done → result ≢ Status.WriteFault → result ≢ Status.OutOfMemory → floor.new ≡ floor.old }

    // On every other status the sink is as it was.
    ensures silent { result ≢ Status.Done → result ≢ Status.WriteFault → out.new ≡ out.old }

    // A text that is owed is written, where no count rose.
    ensures complete { (text : List ℕ) → Owes words.now (S.left input.old) (Ok text)
        → ¬ Rose (S.faults input.old) (S.faults input.new) → ¬ Rose (K.faults out.old) (K.faults out.new)
        → (result ≡ Status.OutOfMemory) ⊎ (result ≡ Status.Done) }
    // On an exact floor it is that text.
    ensures complete_exact { F.exact floor.old ≡ true → (text : List ℕ) → Owes words.now (S.left input.old) (Ok text)
        → ¬ Rose (S.faults input.old) (S.faults input.new) → ¬ Rose (K.faults out.old) (K.faults out.new)
        → (result ≡ Status.OutOfMemory) ⊎ ((result ≡ Status.Done) × IsPut (K.held out.old) text (K.held out.new)) }
    // A case that is to be refused is.
    ensures complete_refused { (number line : ℕ) → Owes words.now (S.left input.old) (Err (number, line))
        → ¬ Rose (S.faults input.old) (S.faults input.new)
        → (result ≡ Status.OutOfMemory) ⊎ (result ≡ Status.CaseRefused number line) }
{
    let command = match command_of(alloc, words) {
        Ok(Some(command)) => command,
        Ok(None) => return Status::Usage,
        Err(OutOfMemory) => return Status::OutOfMemory,
    };
    let octets = match case_text(alloc, made(command), input) {
        Ok(octets) => octets,
        Err(status) => return status,
    };
    let text = match answer(alloc, command, octets, floor) {
        Ok(text) => text,
        Err(NoText::Refused { number, line }) => return Status::CaseRefused { number, line },
        Err(NoText::OutOfMemory) => return Status::OutOfMemory,
    };
    put_text(out, &text)
}
