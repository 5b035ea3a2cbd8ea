//! The words of every command, as the grammar has them.

use command_words::{command_of, threads_command_of};
use std::alloc::{AllocError, Global};
use std::fmt::Debug;
use std::test::Fail;

/// Words, and the command that they are.
const COMMANDS: &str = "\
plain: Plain
show: Show { protocol: S1ap }
show --kind=0: Show { protocol: S1ap }
show --kind 1: Show { protocol: Gtp }
show --kind=0000000001: Show { protocol: Gtp }
show --kind=2: Show { protocol: Diameter }
show --kind 02: Show { protocol: Diameter }
s11: S11
s6a: S6a
replay: Replay { replicas: 2 }
replay --replicas=1: Replay { replicas: 1 }
replay --replicas 1: Replay { replicas: 1 }
replay --replicas=16: Replay { replicas: 16 }
replay --replicas 16: Replay { replicas: 16 }
replay --replicas=02: Replay { replicas: 2 }
replay --replicas 0000000010: Replay { replicas: 10 }
make --number=7 --devices=40 --rounds=19: Make { number: 7, devices: 40, rounds: 19, text: false }
make --number 7 --devices 40 --rounds 19: Make { number: 7, devices: 40, rounds: 19, text: false }
make --rounds 19 --number=7 --devices 40: Make { number: 7, devices: 40, rounds: 19, text: false }
make --devices=40 --rounds=19 --number 7: Make { number: 7, devices: 40, rounds: 19, text: false }
make --text --number=7 --devices=40 --rounds=19: Make { number: 7, devices: 40, rounds: 19, text: true }
make --number 7 --text --devices=40 --rounds 19: Make { number: 7, devices: 40, rounds: 19, text: true }
make --number=7 --devices=40 --rounds=19 --text: Make { number: 7, devices: 40, rounds: 19, text: true }
make --number=0 --devices=1 --rounds=0: Make { number: 0, devices: 1, rounds: 0, text: false }
make --number=4294967295 --devices=1 --rounds=799: Make { number: 4294967295, devices: 1, rounds: 799, text: false }
make --number=0000000001 --devices 0800 --rounds 00: Make { number: 1, devices: 800, rounds: 0, text: false }
make --number=1 --devices=400 --rounds=1: Make { number: 1, devices: 400, rounds: 1, text: false }
make --number=1 --devices=266 --rounds=2: Make { number: 1, devices: 266, rounds: 2, text: false }
epochs --device=3 --number=7: Epochs { device: 3, number: 7, events: 100 }
epochs --number 7 --events=40 --device 3: Epochs { device: 3, number: 7, events: 40 }
epochs --events 0 --device=1 --number=0: Epochs { device: 1, number: 0, events: 0 }
epochs --device=4096 --events=100000 --number 4294967295: Epochs { device: 4096, number: 4294967295, events: 100000 }
epochs --number=08 --device 0000000009 --events=010: Epochs { device: 9, number: 8, events: 10 }
crash --after=18: Crash { after: 18 }
crash --after 19: Crash { after: 19 }
crash --after=0: Crash { after: 0 }
crash --after=4294967295: Crash { after: 4294967295 }
crash --after=0000000007: Crash { after: 7 }
";

/// Words of the top call that runs threads, and the command that they are.
const THREADS_COMMANDS: &str = "\
run: Run { workers: 4 }
run --workers=1: Run { workers: 1 }
run --workers 16: Run { workers: 16 }
run --workers=02: Run { workers: 2 }
load --number=7 --devices=40 --rounds=19: Load { number: 7, devices: 40, rounds: 19, workers: 4 }
load --workers 1 --rounds 19 --devices=40 --number 7: Load { number: 7, devices: 40, rounds: 19, workers: 1 }
load --number=4294967295 --devices=1 --rounds=799 --workers=16: Load { number: 4294967295, devices: 1, rounds: 799, workers: 16 }
load --number=0 --devices=800 --rounds=0: Load { number: 0, devices: 800, rounds: 0, workers: 4 }
";

/// Words that are no command of the top call that runs threads, a line each. The first line has none.
const THREADS_USAGES: &str = "
plain
show
s11
s6a
replay --replicas=2
make --number=7 --devices=40 --rounds=19
epochs --device=3 --number=7
crash --after=18
Run
run run
run 4
run --workers
run --workers=
run --workers=0
run --workers=17
run --workers=-1
run --workers=00000000004
run --workers=4 --workers=4
run --workers=4 --workers 4
run --number=7
run --text
--workers=4 run
load
load --workers=4
load --number=7 --devices=40
load --number=7 --devices=40 --rounds=20
load --number=7 --devices=801 --rounds=0
load --number=7 --devices=0 --rounds=0
load --number=7 --devices=40 --rounds=19 --workers=0
load --number=7 --devices=40 --rounds=19 --workers=17
load --number=7 --devices=40 --rounds=19 --text
load --number=7 --devices=40 --rounds=19 --replicas=2
load --number=7 --devices=40 --rounds=19 --rounds=19
";

/// Words that are no command, a line each. The first line has none.
const USAGES: &str = "
 plain
Plain
--plain
--
plain --
plain plain
plain --replicas=2
plain --text
plain --kind=0
show show
show --replicas 2
show --number=1
show --kind
show --kind=
show --kind=3
show --kind 3
show --kind=-1
show --kind=x
show --kind=00000000001
show --kind=1 --kind=1
show --kind=1 1
show kind=1
S11
s1
s11 s11
s11 --
s11 --kind=1
s11 --replicas=2
s11 --text
S6A
s6a s6a
s6a s11
s6a --kind=2
s6a 1
run
run --workers=4
load
load --number=7 --devices=40 --rounds=19
load --number=7 --devices=40 --rounds=19 --workers=4
--replicas=2 replay
replay plain
replay 2
replay -2
replay replicas=2
replay -replicas=2
replay -r 2
replay --replica=2
replay --replicas2
replay --Replicas=2
replay --
replay -- --replicas=2
replay --replicas=2 --
replay --=2
replay --help
replay -h
replay --version
replay --text
replay --workers=2
replay --number=2
replay --replicas
replay --replicas=
replay --replicas --
replay --replicas=0
replay --replicas 0
replay --replicas=17
replay --replicas 17
replay --replicas==2
replay --replicas=+2
replay --replicas +2
replay --replicas=-2
replay --replicas -2
replay --replicas=2x
replay --replicas=0x2
replay --replicas=2.0
replay --replicas=4294967298
replay --replicas=9999999999
replay --replicas=00000000002
replay --replicas 00000000002
replay --replicas=2 2
replay --replicas 2 2
replay --replicas = 2
replay --replicas=2 --replicas=2
replay --replicas 2 --replicas 2
replay --replicas --replicas=2
make
make --text
make --number=7
make --devices=40 --rounds=19
make --number=7 --rounds=19
make --number=7 --devices=40
make --devices=40 --rounds=19 --text
make --number=7 --devices=40 --rounds=19 --number=7
make --number=7 --number 8 --devices=40 --rounds=19
make --number=7 --devices=40 --devices=40 --rounds=19
make --number=7 --devices=40 --rounds 19 --rounds=19
make --text --number=7 --devices=40 --rounds=19 --text
make --number --devices=40 --rounds=19
make --number= --devices=40 --rounds=19
make --number=7 --devices --rounds=19
make --number=7 --devices=40 --rounds
make --number=7 --devices=40 --rounds=
make --number=4294967296 --devices=40 --rounds=19
make --number=9999999999 --devices=40 --rounds=19
make --number=00000000007 --devices=40 --rounds=19
make --number=-7 --devices=40 --rounds=19
make --number=+7 --devices=40 --rounds=19
make --number=7 --devices=0 --rounds=19
make --number=7 --devices=801 --rounds=0
make --number=7 --devices=1 --rounds=800
make --number=7 --devices=2 --rounds=400
make --number=7 --devices=800 --rounds=1
make --number=7 --devices=267 --rounds=2
make --number=7 --devices=40 --rounds=20
make --number=7 --devices=40 --rounds=19 --text=
make --number=7 --devices=40 --rounds=19 --text=1
make --number=7 --devices=40 --rounds=19 --text 1
make --number=7 --devices=40 --rounds=19 --text true
make --number=7 --devices=40 --rounds=19 -t
make --number=7 --devices=40 --rounds=19 --
make -- --number=7 --devices=40 --rounds=19
make --number=7 -- --devices=40 --rounds=19
make --number=7 --devices=40 --rounds=19 19
make --number=7 --devices=40 --rounds=19 --replicas=2
make --number=7 --devices=40 --rounds=19 --workers=2
make --number=7 --devices=40 --rounds=19 --help
make --num=7 --devices=40 --rounds=19
make --Number=7 --devices=40 --rounds=19
make -number=7 --devices=40 --rounds=19
make 7 40 19
--number=7 make --devices=40 --rounds=19
make --number=7 --devices=40 --rounds=19 --events=1
make --number=7 --device=40 --rounds=19
plain --device=1
replay --events=100
epochs
epochs --events=100
epochs --device=1
epochs --number=7 --events=100
epochs --device=1 --number=7 --device=1
epochs --device=1 --number=7 --number 7
epochs --events=1 --device=1 --number=7 --events=1
epochs --device=0 --number=7
epochs --device=4097 --number=7
epochs --device=1 --number=4294967296
epochs --device=1 --number=7 --events=100001
epochs --device=1 --number=7 --events=-1
epochs --device=1 --number=7 --events=
epochs --device=1 --number=7 --events
epochs --devices=1 --number=7
epochs --device=1 --number=7 --rounds=1
epochs --device=1 --number=7 --text
epochs --device=1 --number=7 100
epochs 1 7
--device=1 epochs --number=7
crash
crash 18
crash --after
crash --after=
crash --after=-1
crash --after=+1
crash --after=18x
crash --after=4294967296
crash --after=00000000018
crash --after=18 --after=18
crash --after=18 --after 19
crash --after=18 19
crash --After=18
crash --before=18
crash --after=18 --number=7
crash --after=18 --text
--after=18 crash
plain --after=18
";

/// The words of a line. A space parts the words, and an empty line has none.
fn words_of(alloc: Global, line: &str) -> Result<Vec<String>, AllocError> {
    let mut words = Vec::new(alloc);
    if !line.is_empty() {
        for word in line.split(' ') {
            words.push(String::from_str(alloc, word)?)?;
        }
    }
    Ok(words)
}

/// The top calls that have commands.
#[derive(Clone, Copy)]
enum TopCall {
    Replay,
    Threads,
}

/// Tells words again, and the command that they are.
fn tell_command<C: Debug + Drop>(
    text: &mut String,
    line: &str,
    command: Option<C>,
) -> Result<(), AllocError> {
    match command {
        Some(command) => writeln!(text, "{line}: {command:?}"),
        None => writeln!(text, "{line}"),
    }
}

/// Tells the words of a line again, and the command of a top call that they are.
fn tell(alloc: Global, top: TopCall, text: &mut String, line: &str) -> Result<(), AllocError> {
    let words = words_of(alloc, line)?;
    match top {
        TopCall::Replay => tell_command(text, line, command_of(alloc, &words)?),
        TopCall::Threads => tell_command(text, line, threads_command_of(alloc, &words)?),
    }
}

/// Tells the commands again, each with what its words are.
fn told_commands(alloc: Global, top: TopCall, lines: &str) -> Result<String, Fail> {
    let mut text = String::new(alloc);
    for line in lines.lines() {
        let (words, _) = line.split_once(": ").ok_or("no command")?;
        tell(alloc, top, &mut text, words)?;
    }
    Ok(text)
}

/// Tells again the words that are no command, each line with what they are.
fn told_usages(alloc: Global, top: TopCall, lines: &str) -> Result<String, AllocError> {
    let mut text = String::new(alloc);
    for words in lines.lines() {
        tell(alloc, top, &mut text, words)?;
    }
    Ok(text)
}

#[test]
fn words_are_commands(rt: HostRuntime) -> Result<(), Fail> {
    let own = told_commands(rt.alloc(), TopCall::Replay, COMMANDS)?;
    assert_eq!(rt; own.as_str(), COMMANDS);
    let threads = told_commands(rt.alloc(), TopCall::Threads, THREADS_COMMANDS)?;
    assert_eq!(rt; threads.as_str(), THREADS_COMMANDS);
    Ok(())
}

#[test]
fn other_words_are_none(rt: HostRuntime) -> Result<(), Fail> {
    let own = told_usages(rt.alloc(), TopCall::Replay, USAGES)?;
    assert_eq!(rt; own.as_str(), USAGES);
    let threads = told_usages(rt.alloc(), TopCall::Threads, THREADS_USAGES)?;
    assert_eq!(rt; threads.as_str(), THREADS_USAGES);
    Ok(())
}
