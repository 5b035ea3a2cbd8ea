//! What a command makes of a case text.

ghost use Rattle.std.specs.Prelude.{◌≡◌, ◌≢◌, ◌≤◌, ℕ, length, true, false, Ok, Err, IfOk, IfErr, OnOk, All};
ghost use Rattle.device_types.specs.Numbers.{IsWithin};
ghost use Rattle.entry_edge.specs.Trace.{history};
ghost use Rattle.echo_run.specs.Answer.{replay_of, epochs_of, crash_of, show_of, is_case_wanted, text_of, answer_of, text_on, told_by, RunsOn, Ran, IsWithoutFloor, IsAnswer};
ghost use Rattle.command_words.specs.Command.{IsInLimits};
ghost use Rattle.echo_run.specs.Replay.{told_of, IsRun};
ghost use Rattle.echo_run.specs.Summary.{made_replicas, summary_by, summary_on};
ghost use Rattle.link_schedule.specs.Floor.{AreEndsOn, IsOpen};
ghost use Rattle.schedule_laws.specs.Lists.{Begins};
ghost use Rattle.top_calls.specs.Answers.{IsOfLine};
ghost use Rattle.top_calls.specs.Ends.{IsAdmitted, plain_of};
ghost use Rattle.top_calls.specs.declared.no_text.NoText.TheVariants as no_text;

use crate::calls::{s6a, s11};
use crate::ends::finals_of;
use crate::replay::transcript;
use crate::summary::scheduled;
use case_form::{Case, read_case};
use command_words::{Command, Protocol};
use crash_run::crash_text;
use device_types::{Finals, Octets};
use echo_base::OutOfMemory;
use entry_edge::Admitted;
use epoch_run::device_text;
use link_schedule::Floor;
use report_text::{put_final_text, show_dia_text, show_gtp_text, show_text};
use std::alloc::Global;
use top_calls::{NoText, admitted, ends_text, summary_text};

/// How many replicas a made case runs with.
const MADE_REPLICAS: u32 = 2;

/// What becomes of the devices of a case.
fn plain(alloc: Global, case: &Case) -> Result<Octets, OutOfMemory>
    ensures { IfOk result (λ text. text ≡ plain_of case.now.table (history case.now.table case.now.trace)) }
{
    let admitted = admitted(alloc, case)?;
    let finals = finals_of(alloc, case.table(), &admitted.book)?;
    ends_text(alloc, case, &admitted, &finals)
}

/// What became of the devices of a floor, once it has settled.
fn settled_ends<F: Floor>(alloc: Global, floor: &mut F) -> Result<Finals, OutOfMemory>
    requires { IsOpen (F.setting floor.old) }
    ensures exact { F.exact floor.new ≡ F.exact floor.old }
    ensures setting { F.setting floor.new ≡ F.setting floor.old }
    ensures given { Begins (F.given floor.old) (F.given floor.new) }
    ensures settled { OnOk result (AreEndsOn (F.setting floor.new) (F.exact floor.new) (F.ends floor.new)) }
    ensures ends { IfOk result (λ ends. ends ≡ F.ends floor.new) }
{
    floor.settle_all()?;
    let ends = floor.finals(alloc)?;
    Ok(ends)
}

/// The answers that a floor with so many replicas gives to the events of a case, and then, once it has settled, its ends.
fn replay<F: Floor>(
    alloc: Global,
    case: Case,
    replicas: u32,
    floor: &mut F,
) -> Result<Octets, OutOfMemory>
    requires replicas { IsWithin 16 replicas }
    ensures exact { F.exact floor.new ≡ F.exact floor.old }
    ensures run { let turns = history case.entry.table case.entry.trace in
        OnOk result (IsRun case.entry.table turns case.entry.schedule replicas (F.exact floor.old) (F.setting floor.new) (F.given floor.new) (F.ends floor.new)) }
    ensures text { let turns = history case.entry.table case.entry.trace in
        IfOk result (λ text. text ≡ told_of case.entry.table turns case.entry.schedule (F.given floor.new) (F.ends floor.new)) }
    ensures definition { let turns = history case.entry.table case.entry.trace in
        IfOk result (λ text. F.exact floor.old ≡ true → text ≡ replay_of case.entry.table turns case.entry.schedule replicas) }
{
    let Admitted { book, refused } = admitted(alloc, &case)?;
    let (table, trace, schedule) = case.into_parts();
    drop(trace);
    floor.open(alloc, &table, &book, replicas)?;
    drop(book);
    let mut text = transcript(alloc, floor, &schedule)?;
    let finals = settled_ends(alloc, floor)?;
    put_final_text(alloc, &mut text, &table, &refused, &finals)?;
    Ok(Octets::from(text.into_bytes()))
}

/// What the events of a case come to in numbers on a floor with two replicas, and, once it has settled, its ends.
fn summary<F: Floor>(alloc: Global, case: &Case, floor: &mut F) -> Result<Octets, OutOfMemory>
    ensures exact { F.exact floor.new ≡ F.exact floor.old }
    ensures run { let turns = history case.now.table case.now.trace in
        OnOk result (IsRun case.now.table turns case.now.schedule made_replicas (F.exact floor.old) (F.setting floor.new) (F.given floor.new) (F.ends floor.new)) }
    ensures text { let turns = history case.now.table case.now.trace in
        IfOk result (λ text. text ≡ summary_on case.now.table turns case.now.schedule (F.given floor.new) (F.ends floor.new)) }
    ensures definition { let turns = history case.now.table case.now.trace in
        IfOk result (λ text. F.exact floor.old ≡ true → text ≡ summary_by case.now.table turns case.now.schedule) }
{
    let table = case.table();
    let admitted = admitted(alloc, case)?;
    floor.open(alloc, table, &admitted.book, MADE_REPLICAS)?;
    let counts = scheduled(floor, case.schedule())?;
    let ends = settled_ends(alloc, floor)?;
    let text = summary_text(alloc, &admitted, Some(counts), &ends)?;
    Ok(text)
}

/// What events come to that are drawn of the streams of a device. For a device that is no row the text is empty.
fn epochs(
    alloc: Global,
    case: &Case,
    device: u32,
    number: u32,
    events: u32,
) -> Result<Octets, OutOfMemory>
    requires device { 1 ≤ device }
    requires few { events ≤ 100000 }
    ensures { let turns = history case.now.table case.now.trace in
        IfOk result (λ text. text ≡ epochs_of case.now.table turns device number events) }
{
    let table = case.table();
    let admitted = admitted(alloc, case)?;
    device_text(alloc, table.rows(), &admitted.book, device, number, events)
}

/// What a disk keeps of the devices of a case that fails after so many calls.
fn crash(alloc: Global, case: &Case, after: u32) -> Result<Octets, OutOfMemory>
    ensures { let turns = history case.now.table case.now.trace in
        IfOk result (λ text. text ≡ crash_of case.now.table turns after) }
{
    let admitted = admitted(alloc, case)?;
    crash_text(alloc, case.table(), &admitted.book, after)
}

/// What the lines of the trace of a case are as messages of a protocol.
fn show(alloc: Global, case: &Case, protocol: Protocol) -> Result<Octets, OutOfMemory>
    ensures { IfOk result (λ text. text ≡ show_of protocol case.now.trace) }
{
    match protocol {
        Protocol::S1ap => show_text(alloc, case.trace()),
        Protocol::Gtp => show_gtp_text(alloc, case.trace()),
        Protocol::Diameter => show_dia_text(alloc, case.trace()),
    }
}

/// Is the case text itself wanted, and not what comes of it?
fn is_case_wanted(command: Command) -> bool
    ensures { result ≡ is_case_wanted command }
{
    matches!(command, Command::Make { text: true, .. })
}

/// The text that a command makes of a case.
#[tactic(auto, unfolding(crate::specs::Answer::text_of))]
fn text_of<F: Floor>(
    alloc: Global,
    command: Command,
    case: Case,
    floor: &mut F,
) -> Result<Octets, OutOfMemory>
    requires limits { IsInLimits command }
    requires not_itself { is_case_wanted command ≡ false }
    ensures exact { F.exact floor.new ≡ F.exact floor.old }
    ensures other { IsWithoutFloor command → floor.new ≡ floor.old }
    ensures run { OnOk result (RunsOn command case.entry.table case.entry.trace case.entry.schedule (F.exact floor.old) (F.setting floor.new) (F.given floor.new) (F.ends floor.new)) }
    ensures text { IfOk result (λ text. text ≡ text_on command case.entry.table case.entry.trace case.entry.schedule (F.given floor.new) (F.ends floor.new)) }
    ensures definition { IfOk result (λ text. F.exact floor.old ≡ true → text ≡ text_of command case.entry.table case.entry.trace case.entry.schedule) }
{
    match command {
        Command::Plain => plain(alloc, &case),
        Command::Replay { replicas } => replay(alloc, case, replicas, floor),
        Command::Show { protocol } => show(alloc, &case, protocol),
        Command::S11 => s11(alloc, &case),
        Command::S6a => s6a(alloc, &case),
        Command::Make { .. } => summary(alloc, &case, floor),
        Command::Epochs {
            device,
            number,
            events,
        } => epochs(alloc, &case, device, number, events),
        Command::Crash { after } => crash(alloc, &case, after),
    }
}

/// What a command makes of a case text: the text itself, where that is wanted, or a text of the case. Where it runs the schedule, that
/// is on the floor.
#[tactic(auto, unfolding(crate::specs::Answer::answer_of, crate::specs::Answer::told_by, crate::specs::Answer::Ran))]
pub fn answer<F: Floor>(
    alloc: Global,
    command: Command,
    octets: Octets,
    floor: &mut F,
) -> Result<Octets, NoText>
    requires { IsInLimits command }
    ensures exact { F.exact floor.new ≡ F.exact floor.old }
    ensures other { IsWithoutFloor command → floor.new ≡ floor.old }
    ensures refused { (number line : ℕ) → result ≡ Err (no_text.Refused number line) → floor.new ≡ floor.old }
    ensures ran { OnOk result (Ran command octets (F.exact floor.old) (F.setting floor.new) (F.given floor.new) (F.ends floor.new)) }
    ensures told { IfOk result (λ text. told_by command octets (F.given floor.new) (F.ends floor.new) ≡ Ok text) }
    ensures definition { F.exact floor.old ≡ true → IsAnswer result (answer_of command octets) }
    ensures refusals { (number line : ℕ) → OnOk result (answer_of command octets ≢ Err (number, line)) }
    ensures why_not { IfErr result (λ why. IsAnswer (Err why) (answer_of command octets)) }
    ensures of_line { IfErr result IsOfLine }
{
    if is_case_wanted(command) {
        return Ok(octets);
    }
    let case = read_case(alloc, octets.octets())?;
    let text = text_of(alloc, command, case, floor)?;
    Ok(text)
}
