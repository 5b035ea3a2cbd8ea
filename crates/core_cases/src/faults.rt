//! A source or a sink that fails, behind each number of pieces: nothing was written, or a front of the text.

use crate::case_texts::{lines, put_lines};
use crate::runs::{tell_run, told_run};
use crate::stops::attach_case;
use echo_base::Give;
use std::alloc::{AllocError, Global};
use std::test::Fail;

/// The words of a command, the end that fails, and in how many runs. The case of a whole attach has 1,782 octets: a source gives it in
/// 28 pieces of 64, and fails behind none of them to behind all. `make` reads nothing. A sink takes pieces of 7, and fails in front of
/// each: `plain` writes 680 octets, `show` 777, `replay` 1,836, `make` a line of 101 and a text of 2,030.
const FAULTS: &str = "\
plain: read fault in 29 runs
plain: write fault in 98 runs
show: read fault in 29 runs
show: write fault in 111 runs
replay: read fault in 29 runs
replay: write fault in 263 runs
make --number=1 --devices=1 --rounds=0: write fault in 15 runs
make --number=0 --devices=1 --rounds=0 --text: write fault in 290 runs
";

/// The line of a source that fails.
const READ_FAULT: &str = "echo: read fault\n";

/// The line of a sink that fails.
const WRITE_FAULT: &str = "echo: write fault\n";

/// What a run of these words comes to whose source or sink moves so many pieces, and then fails.
fn told_fault(
    alloc: Global,
    words: &str,
    text: &[u8],
    reads: bool,
    pieces: usize,
) -> Result<String, Fail> {
    let size = if reads { 64 } else { 7 };
    let mut plan = vec![in alloc; Give::Piece(size); pieces]?;
    plan.push(Give::Fail)?;
    let given = if reads { plan.as_slice() } else { &[] };
    let taken = if reads { &[] } else { plan.as_slice() };
    let mut told = String::new(alloc);
    tell_run(&mut told, alloc, words, text, given, taken)?;
    Ok(told)
}

/// Whether a run wrote the first octets of a text, so many of them, and then told the fault.
fn is_front(run: &str, whole: &str, length: usize, fault: &str) -> bool {
    match run.strip_suffix(fault) {
        Some(front) => front.len() == length && whole.starts_with(front),
        None => false,
    }
}

/// Puts each run that does not end as it should behind a text, and how many runs there were.
fn tell_faults(
    alloc: Global,
    told: &mut String,
    words: &str,
    text: &[u8],
    whole: &str,
    reads: bool,
) -> Result<(), Fail> {
    let (runs, fault) = if reads {
        (text.len().div_ceil(64).saturating_add(1), READ_FAULT)
    } else {
        (whole.len().div_ceil(7), WRITE_FAULT)
    };
    for pieces in 0..runs {
        let run = told_fault(alloc, words, text, reads, pieces)?;
        let length = if reads { 0 } else { pieces.saturating_mul(7) };
        if !is_front(run.as_str(), whole, length, fault) {
            writeln!(told, "{pieces} pieces: {run}")?;
        }
    }
    writeln!(told, " in {runs} runs")?;
    Ok(())
}

/// Tells a line of the table again, with the runs that do not end as they should.
fn tell_line(alloc: Global, told: &mut String, line: &str, text: &[u8]) -> Result<(), Fail> {
    let (front, _) = line.split_once(" in ").ok_or("no runs")?;
    let (words, fault) = front.split_once(": ").ok_or("no fault")?;
    told.push_str(front)?;
    let whole = told_run(alloc, words, text)?;
    tell_faults(
        alloc,
        told,
        words,
        text,
        whole.as_str(),
        fault == "read fault",
    )
}

/// What the lines of the table come to over a whole attach.
fn told_faults(alloc: Global) -> Result<String, Fail> {
    let text = attach_case(alloc)?;
    let mut told = String::new(alloc);
    for line in FAULTS.lines() {
        tell_line(alloc, &mut told, line, text.as_bytes())?;
    }
    Ok(told)
}

#[test]
fn a_fault_leaves_a_front(rt: HostRuntime) -> Result<(), Fail> {
    let told = told_faults(rt.alloc())?;
    assert_eq!(rt; told.as_str(), FAULTS);
    Ok(())
}

/// A text comes and goes in pieces of one and of seven octets.
#[test]
fn small_pieces_make_the_text(rt: HostRuntime) -> Result<(), Fail> {
    let alloc = rt.alloc();
    let text = lines(alloc, "[subscribers]|row|[trace]|1 service")?;
    let pieces = [Give::Piece(1), Give::Piece(0), Give::Piece(7)];
    let (mut told, mut wanted) = (String::new(alloc), String::new(alloc));
    tell_run(&mut told, alloc, "show", text.as_bytes(), &pieces, &pieces)?;
    put_lines(&mut wanted, "line 4 InitialUEMessage service")?;
    assert_eq!(rt; told.as_str(), wanted.as_str());
    Ok(())
}
