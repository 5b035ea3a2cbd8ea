//! The words of a command.

ghost use Rattle.std.specs.Prelude.{◌≡◌, ℕ, List, true, Ok, None, map, string_bytes, IfSome, IfOk};
ghost use Rattle.std.specs.Str.{bytes_eq};
ghost use Rattle.command_words.specs.Matches.{HasRead};
ghost use Rattle.command_words.specs.Command.{word_of, options_of, is_small, protocol_of, command_by, are_of, command_in, command_of, threads_command_of, IsInLimits, IsAnyInLimits, IsThreadsInLimits};

use crate::matches::{number, read};
use crate::options::{Name, are_options, number_in, text_of};
use clap::ArgMatches;
use echo_base::OutOfMemory;
use std::alloc::Global;

/// The most visits of a made case.
const MOST_VISITS: u64 = 800;

/// A command of the top call that runs a schedule of events.
#[derive(Clone, Copy, Debug, PartialEq, Eq)]
pub enum Command {
    /// What becomes of the devices.
    Plain,
    /// What the events of the schedule come to, and what becomes of the devices.
    Replay {
        /// How many replicas there are, 1 to 16.
        replicas: u32,
    },
    /// What the lines of the trace are.
    Show {
        /// As messages of which protocol they are read.
        protocol: Protocol,
    },
    /// The calls of the gateway and its answers.
    S11,
    /// The calls of the subscriber server and its answers.
    S6a,
    /// A made case.
    Make {
        /// The number that it is made from.
        number: u32,
        /// How many devices it has.
        devices: u32,
        /// How many rounds it has behind the first.
        rounds: u32,
        /// Is its text wanted, and not the summary of its replay?
        text: bool,
    },
    /// What drawn events of the streams of a device come to.
    Epochs {
        /// The device, from 1.
        device: u32,
        /// The number that the events are drawn from.
        number: u32,
        /// How many events are drawn.
        events: u32,
    },
    /// What a disk keeps that fails after so many calls.
    Crash {
        /// How many calls it passes.
        after: u32,
    },
}

/// A protocol whose messages a trace may have.
#[derive(Clone, Copy, Debug, PartialEq, Eq)]
pub enum Protocol {
    /// That of base stations (3GPP TS 36.413).
    S1ap,
    /// That of the gateway (TS 29.274).
    Gtp,
    /// That of the subscriber server (RFC 6733, TS 29.272).
    Diameter,
}

/// A command of the top call that runs threads.
#[derive(Clone, Copy, Debug, PartialEq, Eq)]
pub enum ThreadsCommand {
    /// What becomes of the devices.
    Run {
        /// How many workers there are, 1 to 16.
        workers: u32,
    },
    /// A made case.
    Load {
        /// The number that it is made from.
        number: u32,
        /// How many devices it has.
        devices: u32,
        /// How many rounds it has behind the first.
        rounds: u32,
        /// How many workers there are, 1 to 16.
        workers: u32,
    },
}

/// A command of either top call.
#[derive(Clone, Copy)]
enum AnyCommand {
    Replay(Command),
    Threads(ThreadsCommand),
}

/// A top call, which knows its own commands only.
#[derive(Clone, Copy)]
enum TopCall {
    Replay,
    Threads,
}

/// The first word of a command.
#[derive(Clone, Copy, Debug, PartialEq, Eq)]
enum Word {
    Plain,
    Replay,
    Show,
    S11,
    S6a,
    Make,
    Epochs,
    Crash,
    Run,
    Load,
}

/// The command of a top call that has that name.
fn word_of(top: TopCall, name: &str) -> Option<Word>
    ensures { result ≡ word_of top name.now }
{
    match (top, name) {
        (TopCall::Replay, "plain") => Some(Word::Plain),
        (TopCall::Replay, "replay") => Some(Word::Replay),
        (TopCall::Replay, "show") => Some(Word::Show),
        (TopCall::Replay, "s11") => Some(Word::S11),
        (TopCall::Replay, "s6a") => Some(Word::S6a),
        (TopCall::Replay, "make") => Some(Word::Make),
        (TopCall::Replay, "epochs") => Some(Word::Epochs),
        (TopCall::Replay, "crash") => Some(Word::Crash),
        (TopCall::Threads, "run") => Some(Word::Run),
        (TopCall::Threads, "load") => Some(Word::Load),
        _ => None,
    }
}

/// The options that a command may have.
fn options_of(word: Word) -> &'static [Name]
    ensures { result.now ≡ options_of word }
{
    match word {
        Word::Plain | Word::S11 | Word::S6a => &[],
        Word::Replay => &[Name::Replicas],
        Word::Show => &[Name::Kind],
        Word::Make => &[Name::Number, Name::Devices, Name::Rounds, Name::Text],
        Word::Epochs => &[Name::Device, Name::Number, Name::Events],
        Word::Crash => &[Name::After],
        Word::Run => &[Name::Workers],
        Word::Load => &[Name::Number, Name::Devices, Name::Rounds, Name::Workers],
    }
}

/// Are the numbers of a command small enough together?
fn is_small(word: Word, words: &[String]) -> bool
    ensures { result ≡ is_small word (map string_bytes words.now) }
{
    match word {
        Word::Plain
        | Word::Replay
        | Word::Show
        | Word::S11
        | Word::S6a
        | Word::Epochs
        | Word::Crash
        | Word::Run => true,
        Word::Make | Word::Load => {
            let devices = u64::from(number_in(words, Name::Devices));
            let rounds = u64::from(number_in(words, Name::Rounds));
            devices * (rounds + 1) <= MOST_VISITS
        }
    }
}

/// Are the words behind that word its options?
#[tactic(auto, unfolding(crate::specs::Command::are_of))]
fn are_of(word: Word, words: &[String]) -> bool
    ensures { result ≡ are_of word (map string_bytes words.now) }
{
    are_options(options_of(word), words) && is_small(word, words)
}

/// The protocol of that number.
fn protocol_of(kind: u32) -> Protocol
    ensures { result ≡ protocol_of kind }
{
    match kind {
        0 => Protocol::S1ap,
        1 => Protocol::Gtp,
        _ => Protocol::Diameter,
    }
}

/// The command of that word, whose options `clap` has read.
#[tactic(auto, unfolding(crate::specs::Command::command_by, crate::specs::Options::number_in))]
fn command_from(word: Word, matches: &ArgMatches<'_>) -> AnyCommand
    ensures { (words : List (List ℕ)) → HasRead (options_of word) words matches.now → result ≡ command_by word words }
{
    match word {
        Word::Plain => AnyCommand::Replay(Command::Plain),
        Word::Replay => AnyCommand::Replay(Command::Replay {
            replicas: number(matches, Name::Replicas),
        }),
        Word::Show => AnyCommand::Replay(Command::Show {
            protocol: protocol_of(number(matches, Name::Kind)),
        }),
        Word::S11 => AnyCommand::Replay(Command::S11),
        Word::S6a => AnyCommand::Replay(Command::S6a),
        Word::Make => AnyCommand::Replay(Command::Make {
            number: number(matches, Name::Number),
            devices: number(matches, Name::Devices),
            rounds: number(matches, Name::Rounds),
            text: matches.get_flag(text_of(Name::Text)),
        }),
        Word::Epochs => AnyCommand::Replay(Command::Epochs {
            device: number(matches, Name::Device),
            number: number(matches, Name::Number),
            events: number(matches, Name::Events),
        }),
        Word::Crash => AnyCommand::Replay(Command::Crash {
            after: number(matches, Name::After),
        }),
        Word::Run => AnyCommand::Threads(ThreadsCommand::Run {
            workers: number(matches, Name::Workers),
        }),
        Word::Load => AnyCommand::Threads(ThreadsCommand::Load {
            number: number(matches, Name::Number),
            devices: number(matches, Name::Devices),
            rounds: number(matches, Name::Rounds),
            workers: number(matches, Name::Workers),
        }),
    }
}

/// The command of that name and word, with its options.
#[tactic(auto, unfolding(crate::specs::Command::are_of))]
fn command_by(
    alloc: Global,
    name: &str,
    word: Word,
    words: &[String],
) -> Result<AnyCommand, OutOfMemory>
    requires { are_of word (map string_bytes words.now) ≡ true }
    ensures { IfOk result (λ command. command ≡ command_by word (map string_bytes words.now)) }
{
    let Ok(matches) = read(alloc, name, options_of(word), words) else {
        return Err(OutOfMemory);
    };
    Ok(command_from(word, &matches))
}

/// The command of a top call that words are. None where they are no command of it, which takes no memory to find.
fn command_in(
    alloc: Global,
    top: TopCall,
    words: &[String],
) -> Result<Option<AnyCommand>, OutOfMemory>
    ensures value { IfOk result (λ command. command ≡ command_in top (map string_bytes words.now)) }
    ensures usage { command_in top (map string_bytes words.now) ≡ None → result ≡ Ok None }
    ensures limits { IfOk result (λ command. IfSome command IsAnyInLimits) }
{
    let [name, words @ ..] = words else {
        return Ok(None);
    };
    let Some(word) = word_of(top, name.as_str()) else {
        return Ok(None);
    };
    if !are_of(word, words) {
        return Ok(None);
    }
    let command = command_by(alloc, name.as_str(), word, words)?;
    Ok(Some(command))
}

/// The command that words are of the top call that runs a schedule. None where they are none, which takes no memory to find.
#[tactic(auto, unfolding(crate::specs::Command::command_of))]
pub fn command_of(alloc: Global, words: &[String]) -> Result<Option<Command>, OutOfMemory>
    ensures value { IfOk result (λ command. command ≡ command_of words.now) }
    ensures usage { command_of words.now ≡ None → result ≡ Ok None }
    ensures limits { IfOk result (λ command. IfSome command IsInLimits) }
{
    match command_in(alloc, TopCall::Replay, words)? {
        Some(AnyCommand::Replay(command)) => Ok(Some(command)),
        Some(AnyCommand::Threads(_)) | None => Ok(None),
    }
}

/// The command that words are of the top call that runs threads. None where they are none, which takes no memory to find.
#[tactic(auto, unfolding(crate::specs::Command::threads_command_of))]
pub fn threads_command_of(
    alloc: Global,
    words: &[String],
) -> Result<Option<ThreadsCommand>, OutOfMemory>
    ensures value { IfOk result (λ command. command ≡ threads_command_of words.now) }
    ensures usage { threads_command_of words.now ≡ None → result ≡ Ok None }
    ensures limits { IfOk result (λ command. IfSome command IsThreadsInLimits) }
{
    match command_in(alloc, TopCall::Threads, words)? {
        Some(AnyCommand::Threads(command)) => Ok(Some(command)),
        Some(AnyCommand::Replay(_)) | None => Ok(None),
    }
}
