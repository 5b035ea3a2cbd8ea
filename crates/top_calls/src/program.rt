//! The edge of a program: the words of its command line, and how it ends.

use echo_base::Status;
use std::env;
use std::io::ErrorKind;
use std::process::ExitCode;

/// The words of the command line, without the program's name. A word that is no text is a faulty command line.
pub fn program_words(rt: &HostRuntime) -> Result<Vec<String>, Status> {
    match env::args(rt) {
        Ok(words) => words
            .skip(1)
            .collect(rt.alloc())
            .map_err(|_| Status::OutOfMemory),
        Err(error) if error.kind() == ErrorKind::OutOfMemory => Err(Status::OutOfMemory),
        Err(_) => Err(Status::Usage),
    }
}

/// Ends a program with a status: on one but Done its line goes to standard error, all of it also where memory is short, since it takes
/// none.
pub fn program_end(rt: &HostRuntime, status: Status) -> ExitCode {
    if status != Status::Done {
        let _ = eprintln!(rt; "{status}");
    }
    ExitCode::from(status.code())
}
