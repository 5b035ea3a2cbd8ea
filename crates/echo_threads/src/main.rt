//! `echo_threads` takes a case to its end by several threads: it reads a case text on standard input, or makes one, and writes what comes
//! of it to standard output. On a status but Done it writes one line to standard error; it ends with the status's code.
#![tactic(auto)]

use echo_base::{RealSink, RealSource};
use std::mem;
use std::process::ExitCode;
use thread_run::threads_top;
use top_calls::{program_end, program_words};
use worker_pool::OpenGate;

fn main(rt: HostRuntime) -> ExitCode {
    let status = match program_words(&rt) {
        Ok(words) => {
            let mut input = RealSource::new(rt.stdin());
            let mut output = RealSink::new(rt.stdout());
            let mut floor = None;
            let status = threads_top(
                &rt,
                rt.alloc(),
                &words,
                &mut input,
                &mut output,
                &OpenGate,
                &mut floor,
            );
            mem::forget(floor); // its memory goes with the process, at once
            status
        }
        Err(status) => status,
    };
    program_end(&rt, status)
}
