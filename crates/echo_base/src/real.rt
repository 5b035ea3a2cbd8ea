//! Sources and sinks over the readers and writers of the system.
ghost use Rattle.std.specs.Prelude.{◌≡◌, None};

use crate::{ReadStep, Sink, Source, WriteStep};
use std::io::{Read, Write};
use std::marker::Model;

/// A source over a reader. It tells nothing of the octets that it gives.
#[derive(Debug, Drop)]
pub struct RealSource<R> {
    reader: R,
    faults: u64,
}

impl<R> Model for RealSource<R> {
    ghost use Rattle.std.specs.Prelude.{ℕ};

    ghost Value = { ℕ };

    ghost view = { λ s. s.faults };
}

impl<R: Read> RealSource<R> {
    /// A source over this reader, with no fault so far.
    pub fn new(reader: R) -> RealSource<R>
        ensures { result ≡ 0 }
    {
        RealSource { reader, faults: 0 }
    }
}

impl<R: Read> Source for RealSource<R> {
    ghost left = { λ _. None };

    ghost faults = { λ s. s };

    /// Each error of the reader is a fault, also an interrupted read. No octet is the end.
    fn read(&mut self, into: &mut [u8]) -> ReadStep {
        match self.reader.read(into) {
            Ok(0) => ReadStep::End,
            Ok(n) => ReadStep::Got(n),
            Err(_) => {
                self.faults = self.faults.saturating_add(1);
                ReadStep::Failed
            }
        }
    }
}

/// A sink over a writer, which flushes each write. It tells nothing of the octets that it takes.
#[derive(Debug, Drop)]
pub struct RealSink<W> {
    writer: W,
    faults: u64,
}

impl<W> Model for RealSink<W> {
    ghost use Rattle.std.specs.Prelude.{ℕ};

    ghost Value = { ℕ };

    ghost view = { λ s. s.faults };
}

impl<W: Write> RealSink<W> {
    /// A sink over this writer, with no fault so far.
    pub fn new(writer: W) -> RealSink<W>
        ensures { result ≡ 0 }
    {
        RealSink { writer, faults: 0 }
    }
}

impl<W: Write> Sink for RealSink<W> {
    ghost held = { λ _. None };

    ghost faults = { λ s. s };

    /// Each error of the writer is a fault, also of the flush, and so is a write that takes nothing.
    fn write(&mut self, piece: &[u8]) -> WriteStep {
        match self.writer.write(piece) {
            Ok(n) if n > 0 && self.writer.flush().is_ok() => WriteStep::Took(n),
            _ => {
                self.faults = self.faults.saturating_add(1);
                WriteStep::Failed
            }
        }
    }
}
