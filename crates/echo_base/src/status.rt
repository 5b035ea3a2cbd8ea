//! How a run of a program ended.
ghost use Rattle.std.specs.Prelude.{◌≡◌, Some};
ghost use Rattle.echo_base.specs.Status.{status_code, status_text};

use crate::name_of_number;
use std::fmt;

/// How a run of a program ended.
#[derive(Clone, Copy, Debug, PartialEq, Eq)]
pub enum Status {
    /// All was written.
    Done,
    /// The words of the command were refused.
    Usage,
    /// The case was refused, for the reason with that number, at that line from 1; line 0 is the case as a whole.
    CaseRefused { number: u8, line: u32 },
    /// The input failed.
    ReadFault,
    /// The output failed.
    WriteFault,
    /// There was no memory.
    OutOfMemory,
}

impl Status {
    /// The status with which the process ends.
    pub fn code(&self) -> u8
        ensures { result ≡ status_code self.now }
    {
        match self {
            Status::Done => 0,
            Status::Usage => 1,
            Status::CaseRefused { .. } => 2,
            Status::ReadFault => 3,
            Status::WriteFault => 4,
            Status::OutOfMemory => 5,
        }
    }
}

/// Prints the line for standard error, without its end.
impl fmt::Display for Status {
    ghost output = { λ s. Some (status_text s) };

    fn fmt<W: fmt::Write>(&self, f: &mut fmt::Formatter<W>) -> fmt::Result {
        match *self {
            Status::Done => write!(f, "echo: done"),
            Status::Usage => write!(f, "echo: usage"),
            Status::CaseRefused { number, line } => {
                let name = name_of_number(number);
                if name.is_empty() {
                    return write!(f, "echo: case refused {number} line {line}");
                }
                write!(f, "echo: case refused {number} {name} line {line}")
            }
            Status::ReadFault => write!(f, "echo: read fault"),
            Status::WriteFault => write!(f, "echo: write fault"),
            Status::OutOfMemory => write!(f, "echo: out of memory"),
        }
    }
}
