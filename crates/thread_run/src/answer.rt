//! What a command makes of a case text, by a pool of workers.
ghost use Rattle.std.specs.Prelude.{◌≡◌, ◌≤◌, length, Ok, All, IfOk, IfErr, IfSome};
ghost use Rattle.command_words.specs.Command.{IsThreadsInLimits};
ghost use Rattle.device_machine.specs.Ends.{finals_of};
ghost use Rattle.device_types.specs.Numbers.{IsWithin};
ghost use Rattle.entry_edge.specs.Trace.{history};
ghost use Rattle.thread_run.specs.Answer.{answer_of, made_in, text_of, workers_of, IsRefusal};
ghost use Rattle.thread_run.specs.Shards.{charter_in, AreShardsBy, AreShardsOf};
ghost use Rattle.top_calls.specs.Answers.{IsOfLine};
ghost use Rattle.top_calls.specs.Case.{IsSmall};
ghost use Rattle.top_calls.specs.Ends.{IsAdmitted};
ghost use Rattle.worker_pool.specs.Runs.{charter_of};

use case_form::{Case, read_case};
use command_words::ThreadsCommand;
use device_types::{Finals, Octets};
use echo_base::OutOfMemory;
use entry_edge::Admitted;
use std::alloc::Global;
use std::sync::Wait;
use std::thread::Threads;
use top_calls::{MadeCase, NoText, admitted, ends_text, summary_text};
use worker_pool::{Gate, Ran, run_pool};

/// What comes of a case: the text, and the closed shards of its run.
#[derive(Drop)]
pub(crate) struct Answered {
    pub(crate) text: Octets,
    pub(crate) ran: Ran,
}

/// The numbers of the case that a command makes; the other reads one.
pub(crate) fn made(command: ThreadsCommand) -> Option<MadeCase>
    requires { IsThreadsInLimits command }
    ensures made { result ≡ made_in command }
    ensures small { IfSome result IsSmall }
{
    match command {
        ThreadsCommand::Run { .. } => None,
        ThreadsCommand::Load {
            number,
            devices,
            rounds,
            ..
        } => Some(MadeCase {
            number,
            devices,
            rounds,
        }),
    }
}

/// By how many workers a command runs.
fn workers_of(command: ThreadsCommand) -> u32
    requires { IsThreadsInLimits command }
    ensures workers { result ≡ workers_of command }
    ensures limits { IsWithin 16 result }
{
    match command {
        ThreadsCommand::Run { workers } | ThreadsCommand::Load { workers, .. } => workers,
    }
}

/// Takes a case to its end by so many workers.
fn run<R: Threads + Wait + Sync, G: Gate + Sync>(
    rt: &R,
    alloc: Global,
    case: &Case,
    admitted: &Admitted,
    workers: u32,
    gates: &G,
) -> Result<Ran, OutOfMemory>
    requires workers { IsWithin 16 workers }
    requires admitted { IsAdmitted case.now.table (history case.now.table case.now.trace) admitted.now }
    ensures { IfOk result (AreShardsOf (charter_of case.now.table admitted.now.book)) }
{
    run_pool(rt, alloc, case.table(), &admitted.book, workers, gates)
}

/// The text that a command makes of a case with these ends.
fn text_of(
    alloc: Global,
    command: ThreadsCommand,
    case: &Case,
    admitted: &Admitted,
    finals: &Finals,
) -> Result<Octets, OutOfMemory>
    requires admitted { IsAdmitted case.now.table (history case.now.table case.now.trace) admitted.now }
    requires finals { finals.now ≡ finals_of case.now.table admitted.now.book }
    ensures { IfOk result (λ text. text ≡ text_of command case.now.table case.now.trace) }
{
    match command {
        ThreadsCommand::Run { .. } => ends_text(alloc, case, admitted, finals),
        ThreadsCommand::Load { .. } => summary_text(alloc, admitted, None, finals),
    }
}

/// What a command makes of a case.
fn answer_case<R: Threads + Wait + Sync, G: Gate + Sync>(
    rt: &R,
    alloc: Global,
    command: ThreadsCommand,
    case: &Case,
    gates: &G,
) -> Result<Answered, OutOfMemory>
    requires { IsThreadsInLimits command }
    ensures text { IfOk result (λ answered. answered.text ≡ text_of command case.now.table case.now.trace) }
    ensures shards { IfOk result (λ answered. AreShardsOf (charter_in case.now.table case.now.trace) answered.ran) }
{
    let admitted = admitted(alloc, case)?;
    let ran = run(rt, alloc, case, &admitted, workers_of(command), gates)?;
    let text = text_of(alloc, command, case, &admitted, &ran.finals)?;
    Ok(Answered { text, ran })
}

/// What a command makes of a case text.
#[tactic(auto, unfolding(crate::specs::Answer::answer_of))]
pub(crate) fn answer<R: Threads + Wait + Sync, G: Gate + Sync>(
    rt: &R,
    alloc: Global,
    command: ThreadsCommand,
    octets: Octets,
    gates: &G,
) -> Result<Answered, NoText>
    requires { IsThreadsInLimits command }
    ensures text { IfOk result (λ answered. answer_of command octets ≡ Ok answered.text) }
    ensures shards { IfOk result (λ answered. AreShardsBy octets answered.ran) }
    ensures why_not { IfErr result (λ why. IsRefusal why (answer_of command octets)) }
    ensures of_line { IfErr result IsOfLine }
{
    let case = read_case(alloc, octets.octets())?;
    let answered = answer_case(rt, alloc, command, &case, gates)?;
    Ok(answered)
}
