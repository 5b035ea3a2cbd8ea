//! Runs of `make`: what it makes, and that its sums are those of `plain` over the text that it makes.

use crate::runs::{tell_run, told_run};
use echo_base::Give;
use std::alloc::{AllocError, Global};
use std::test::Fail;

/// Words, and the line that is written: one attach, by hand from the tables of made cases.
const LINES: &str = "\
make --number=1 --devices=1 --rounds=0: devices 1 messages 6 refused 0 events 88 committed 10 stale 6 steps 10 down 3 gateway 2 subscriber 2
make --rounds 0 --devices 01 --number 1: devices 1 messages 6 refused 0 events 88 committed 10 stale 6 steps 10 down 3 gateway 2 subscriber 2
";

/// The words of these lines, each with what they come to over a source that fails at once: nothing is read.
fn told_lines(alloc: Global) -> Result<String, Fail> {
    let mut told = String::new(alloc);
    for line in LINES.lines() {
        let (words, _) = line.split_once(": ").ok_or("no words")?;
        write!(told, "{words}: ")?;
        tell_run(&mut told, alloc, words, b"", &[Give::Fail], &[])?;
    }
    Ok(told)
}

#[test]
fn a_case_in_numbers(rt: HostRuntime) -> Result<(), Fail> {
    let told = told_lines(rt.alloc())?;
    assert_eq!(rt; told.as_str(), LINES);
    Ok(())
}

/// The steps, the messages to the devices and the calls of a final text, as the words at the end of a summary.
fn sums(alloc: Global, text: &str) -> Result<String, AllocError> {
    let mut steps = 0u64;
    let (mut downs, mut gateway, mut subscriber) = (0u64, 0u64, 0u64);
    for line in text.lines() {
        match line.split_once(' ') {
            Some(("device", words)) => {
                let (_, last) = words.rsplit_once(' ').unwrap_or(("", ""));
                steps = steps.saturating_add(last.parse::<u64>().unwrap_or(0));
            }
            Some(("down", _)) => downs = downs.saturating_add(1),
            Some(("gateway", _)) => gateway = gateway.saturating_add(1),
            Some(("subscriber", _)) => subscriber = subscriber.saturating_add(1),
            _ => {}
        }
    }
    format!(in alloc; "{steps} down {downs} gateway {gateway} subscriber {subscriber}\n")
}

/// The line of the case of 800 visits, twice: the second time in two lines, and without what was committed and stale.
fn told_large(alloc: Global) -> Result<String, Fail> {
    let words = "make --number=7 --devices=40 --rounds=19";
    let first = told_run(alloc, words, b"")?;
    let second = told_run(alloc, words, b"")?;
    let (front, counts) = first.split_once(" committed ").ok_or("no counts")?;
    let (_, sums) = counts.split_once(" steps ").ok_or("no sums")?;
    Ok(format!(in alloc; "{second}{front}\n{sums}")?)
}

/// The same, but with the numbers of the case, and with the sums of what `plain` tells of its text.
fn wanted_large(alloc: Global) -> Result<String, Fail> {
    let words = "make --number=7 --devices=40 --rounds=19";
    let text_words = "make --text --number=7 --devices=40 --rounds=19";
    let line = told_run(alloc, words, b"")?;
    let text = told_run(alloc, text_words, b"")?;
    let finals = told_run(alloc, "plain", text.as_bytes())?;
    let sums = sums(alloc, finals.as_str())?;
    Ok(format!(in alloc; "{line}devices 40 messages 4900 refused 0 events 65438\n{sums}")?)
}

#[test]
fn a_large_case_has_the_sums_of_its_text(rt: HostRuntime) -> Result<(), Fail> {
    let alloc = rt.alloc();
    let (told, wanted) = (told_large(alloc)?, wanted_large(alloc)?);
    assert_eq!(rt; told.as_str(), wanted.as_str());
    Ok(())
}
