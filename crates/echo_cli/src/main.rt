//! `echo_cli` reads a case text on standard input, and writes what comes of it to standard output. On a status but Done
//! it writes one line to standard error; it ends with the status's code.
#![tactic(auto)]

use echo_base::{RealSink, RealSource, Status};
use echo_run::replay_top;
use link_schedule::OwnFloor;
use std::mem;
use std::process::ExitCode;
use top_calls::{program_end, program_words};

/// Runs the command over standard input and output, and a schedule on a world of its own, which is whole where it has settled.
fn run(rt: &HostRuntime) -> Status {
    match program_words(rt) {
        Ok(words) => {
            let mut input = RealSource::new(rt.stdin());
            let mut output = RealSink::new(rt.stdout());
            let mut floor = OwnFloor::new();
            let status = replay_top(rt.alloc(), &words, &mut input, &mut output, &mut floor);
            floor.recall();
            mem::forget(floor); // its memory goes with the process, at once
            status
        }
        Err(status) => status,
    }
}

fn main(rt: HostRuntime) -> ExitCode {
    let status = run(&rt);
    program_end(&rt, status)
}
