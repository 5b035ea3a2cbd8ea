//! A run of the top call, told as a text, so that a test compares one text with another, once.

use echo_base::{Give, MemSink, MemSource, Status};
use echo_run::replay_own;
use link_schedule::OwnFloor;
use std::alloc::Global;
use std::str;
use std::test::Fail;

/// What was written, and the line of a status but Done, put behind the text.
pub(crate) fn tell_end(told: &mut String, status: Status, held: &[u8]) -> Result<(), Fail> {
    told.push_str(str::from_utf8(held)?)?;
    if status != Status::Done {
        writeln!(told, "{status}")?;
    }
    Ok(())
}

/// What a run of a command over a text comes to, with these plans, put behind the text that is told. A space parts the words.
pub(crate) fn tell_run(
    told: &mut String,
    alloc: Global,
    words: &str,
    text: &[u8],
    reads: &[Give],
    writes: &[Give],
) -> Result<(), Fail> {
    let mut all = Vec::new(alloc);
    for word in words.split_whitespace() {
        all.push(String::from_str(alloc, word)?)?;
    }
    let mut input = MemSource::new(
        Vec::from_slice(alloc, text)?,
        Vec::from_slice(alloc, reads)?,
    );
    let mut out = MemSink::new(alloc, 2_000_000, Vec::from_slice(alloc, writes)?)?;
    let status = replay_own(alloc, &all, &mut input, &mut out, &mut OwnFloor::new());
    tell_end(told, status, out.held())
}

/// What a run of a command over a text comes to, where no source and no sink fails.
pub(crate) fn told_run(alloc: Global, words: &str, text: &[u8]) -> Result<String, Fail> {
    let mut told = String::new(alloc);
    tell_run(&mut told, alloc, words, text, &[], &[])?;
    Ok(told)
}
