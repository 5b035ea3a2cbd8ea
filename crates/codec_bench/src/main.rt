//! `codec_bench READS WRITES` reads S1AP PDUs on standard input, one a line in hexadecimal digits. It reads all of them READS
//! times and writes all of them WRITES times, in turns, and prints how many messages it read and wrote, and how many of the list
//! have the octets that are written for them. It has no clock: what starts it takes the time (`bench/README.md`).
#![tactic(auto)]

mod sample;
mod turns;

ghost use Rattle.std.specs.Prelude.{All, IfOk, OnOk};
ghost use Rattle.codec_bench.specs.Sample.{IsSample, IsMore};

use anyhow::{Context, Result, bail};
use sample::{Sample, read_sample};
use std::alloc::Global;
use std::env;
use std::io::{BufRead, BufReader};
use turns::{count_as_written, read_turns, write_turns};

/// How many times all messages are read, and written: the two words of the command.
fn counts(rt: &HostRuntime) -> Result<(u32, u32)> {
    let mut words = env::args(rt)?.skip(1);
    let (Some(reads), Some(writes), None) = (words.next(), words.next(), words.next()) else {
        bail!("usage: codec_bench READS WRITES");
    };
    let reads = reads.parse::<u32>().context("READS")?;
    let writes = writes.parse::<u32>().context("WRITES")?;
    Ok((reads, writes))
}

/// Reads a line as a sample and puts it behind the others. It fails where the line is none, as `read_sample` says.
fn add(alloc: Global, samples: &mut Vec<Sample>, line: &str) -> Result<()>
    requires { All IsSample samples.old.items }
    ensures more { OnOk result (IsMore line.now samples.old.items samples.new.items) }
    ensures all { OnOk result (All IsSample samples.new.items) }
{
    let sample = read_sample(alloc, line)?;
    samples.push(sample)?;
    Ok(())
}

/// Reads a sample from each line of standard input. It fails at the first line that is none, and tells how many were before it.
fn samples(rt: &HostRuntime) -> Result<Vec<Sample>>
    ensures { IfOk result (λ samples. All IsSample samples.items) }
{
    let alloc = rt.alloc();
    let mut samples = Vec::new(alloc);
    for line in BufReader::new(alloc, rt.stdin())?.lines(alloc) {
        let count = samples.len();
        add(alloc, &mut samples, line?.as_str()).context(format_args!("behind {count} messages"))?;
    }
    Ok(samples)
}

fn main(rt: HostRuntime) -> Result<()> {
    let (reads, writes) = counts(&rt)?;
    let samples = samples(&rt)?;
    let count = samples.len();
    let usual = count_as_written(rt.alloc(), &samples)?;
    let read = read_turns(rt.alloc(), &samples, reads)?;
    let written = write_turns(rt.alloc(), &samples, writes)?;
    println!(rt; "messages {count}\nas written {usual}\nread {read}\nwritten {written}")?;
    Ok(())
}
