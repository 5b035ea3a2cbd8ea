//! A source or a sink of `run` that fails, behind each number of pieces: nothing was written, or a front of the text.

use crate::runs::{ATTACH, ATTACHED, tell_run};
use echo_base::Give;
use std::alloc::Global;
use std::sync::Wait;
use std::test::Fail;
use std::thread::Threads;
use worker_pool::OpenGate;

/// A source gives the 975 octets of the attach in 16 pieces of 64, and fails behind none of them to behind all. A sink takes the 680
/// octets of what becomes of it in 98 pieces of 7, and fails in front of each.
const FAULTS: &str = "\
source: 17 runs
sink: 98 runs
";

/// What a source that fails leaves.
const READ_FAULT: &str = "echo: read fault\n";

/// What a sink that fails leaves behind a front: the threads had come to their end.
const WRITE_FAULT: &str = "echo: write fault\n16 shards of the store, 16 of the peers\n";

/// What a run comes to whose source or sink moves so many pieces, and then fails.
fn told_fault<R: Threads + Wait + Sync>(
    rt: &R,
    alloc: Global,
    reads: bool,
    pieces: usize,
) -> Result<String, Fail> {
    let size = if reads { 64 } else { 7 };
    let mut plan = vec![in alloc; Give::Piece(size); pieces]?;
    plan.push(Give::Fail)?;
    let given = if reads { plan.as_slice() } else { &[] };
    let taken = if reads { &[] } else { plan.as_slice() };
    let (words, text) = ("run --workers=2", ATTACH.as_bytes());
    let mut told = String::new(alloc);
    tell_run(rt, &mut told, alloc, &OpenGate, words, text, given, taken)?;
    Ok(told)
}

/// Whether a run wrote the first octets of what becomes of the attach, so many of them, and then left this.
fn is_front(run: &str, length: usize, left: &str) -> bool {
    match run.strip_suffix(left) {
        Some(front) => front.len() == length && ATTACHED.starts_with(front),
        None => false,
    }
}

/// Puts each run that does not end as it should behind a text, and how many runs there were.
fn tell_faults<R: Threads + Wait + Sync>(
    rt: &R,
    alloc: Global,
    told: &mut String,
    reads: bool,
) -> Result<(), Fail> {
    let (end, runs, left) = if reads {
        (
            "source",
            ATTACH.len().div_ceil(64).saturating_add(1),
            READ_FAULT,
        )
    } else {
        ("sink", ATTACHED.len().div_ceil(7), WRITE_FAULT)
    };
    for pieces in 0..runs {
        let run = told_fault(rt, alloc, reads, pieces)?;
        let length = if reads { 0 } else { pieces.saturating_mul(7) };
        if !is_front(run.as_str(), length, left) {
            writeln!(told, "{pieces} pieces: {run}")?;
        }
    }
    writeln!(told, "{end}: {runs} runs")?;
    Ok(())
}

#[test]
fn a_fault_leaves_a_front(rt: HostRuntime) -> Result<(), Fail> {
    let mut told = String::new(rt.alloc());
    tell_faults(&rt, rt.alloc(), &mut told, true)?;
    tell_faults(&rt, rt.alloc(), &mut told, false)?;
    assert_eq!(rt; told.as_str(), FAULTS);
    Ok(())
}
