//! Runs of the top call with threads, with what is written or the line of the status, by hand from the definition.

use crate::runs::{ATTACH, ATTACHED, tell_run};
use echo_base::Give;
use std::alloc::Global;
use std::sync::Wait;
use std::test::Fail;
use std::thread::Threads;
use worker_pool::OpenGate;

/// Words that take the case to its end.
const RUNS: &str = "\
run
run --workers=1
run --workers 2
run --workers=16
";

/// Words that make a case of one attach.
const LOADS: &str = "\
load --number=1 --devices=1 --rounds=0
load --workers 16 --rounds 0 --devices 01 --number 1
";

/// What they come to.
const LOADED: &str = "devices 1 messages 6 refused 0 steps 10 down 3 gateway 2 subscriber 2\n";

/// Words that are no command of this top call.
const USAGE: &str = "\
plain
replay
run --workers=0
run --workers=17
run --workers=2 --workers=2
run --replicas=2
load --workers=2
load --number=1 --devices=1 --rounds=0 --text
load --number=1 --devices=801 --rounds=0
load --number=1 --devices=80 --rounds=10
";

/// What is left of a run.
const LEFT: &str = "16 shards of the store, 16 of the peers\n";

/// What each of these lines of words comes to over the attach.
fn tell_lines<R: Threads + Wait + Sync>(
    rt: &R,
    told: &mut String,
    alloc: Global,
    lines: &str,
) -> Result<(), Fail> {
    for line in lines.lines() {
        tell_run(
            rt,
            told,
            alloc,
            &OpenGate,
            line,
            ATTACH.as_bytes(),
            &[],
            &[],
        )?;
    }
    Ok(())
}

#[test]
fn an_attach_by_any_number_of_workers(rt: HostRuntime) -> Result<(), Fail> {
    let alloc = rt.alloc();
    let mut told = String::new(alloc);
    tell_lines(&rt, &mut told, alloc, RUNS)?;
    tell_lines(&rt, &mut told, alloc, LOADS)?;
    let run = format!(in alloc; "{ATTACHED}{LEFT}")?;
    let load = format!(in alloc; "{LOADED}{LEFT}")?;
    let wanted = format!(in alloc; "{run}{run}{run}{run}{load}{load}")?;
    assert_eq!(rt; told.as_str(), wanted.as_str());
    Ok(())
}

#[test]
fn words_that_are_no_command(rt: HostRuntime) -> Result<(), Fail> {
    let alloc = rt.alloc();
    let mut told = String::new(alloc);
    tell_lines(&rt, &mut told, alloc, USAGE)?;
    let mut wanted = String::new(alloc);
    for _ in USAGE.lines() {
        wanted.push_str("echo: usage\n")?;
    }
    assert_eq!(rt; told.as_str(), wanted.as_str());
    Ok(())
}

/// Texts that are refused or have no device; a made case reads nothing.
fn tell_edges<R: Threads + Wait + Sync>(
    rt: &R,
    told: &mut String,
    alloc: Global,
) -> Result<(), Fail> {
    let refused = b"[trace]\n\n[schedule]\nstop 17\n";
    let gate = &OpenGate;
    tell_run(rt, told, alloc, gate, "run", b"", &[], &[])?;
    tell_run(rt, told, alloc, gate, "run", b"[trace]\n1 0g\n", &[], &[])?;
    tell_run(rt, told, alloc, gate, "run", refused, &[], &[])?;
    let load = "load --number=1 --devices=1 --rounds=0";
    tell_run(rt, told, alloc, gate, load, b"", &[Give::Fail], &[])
}

/// What these come to.
const EDGES: &str = "\
16 shards of the store, 16 of the peers
refused 2 29 BadHex
16 shards of the store, 16 of the peers
echo: case refused 26 BadLine line 4
devices 1 messages 6 refused 0 steps 10 down 3 gateway 2 subscriber 2
16 shards of the store, 16 of the peers
";

#[test]
fn refusals_and_a_made_case(rt: HostRuntime) -> Result<(), Fail> {
    let mut told = String::new(rt.alloc());
    tell_edges(&rt, &mut told, rt.alloc())?;
    assert_eq!(rt; told.as_str(), EDGES);
    Ok(())
}
