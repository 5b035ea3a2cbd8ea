//! The messages of all devices.
ghost use Rattle.std.specs.Prelude.{◌≡◌, [], ◌∷◌, ◌++◌, All, OnOk, OnErr};
ghost use Rattle.device_types.specs.Line.{IsLine};

use crate::list_of::ListOf;
use crate::message::Messages;
use crate::try_copy::TryCopy;
use std::alloc::{AllocError, Global};
use std::marker::Model;

/// The messages of all devices: a line for each device, in the order of their numbers. The messages of a line are numbered from
/// 1 without gaps, and each is in its ranges. Contracts see a book as its lines.
#[derive(Debug, Drop)]
pub struct Book {
    lines: ListOf<Messages>,
}

impl Model for Book {
    ghost use Rattle.std.specs.Prelude.{List, All};
    ghost use Rattle.device_types.specs.declared.message.Message.{Message};
    ghost use Rattle.device_types.specs.Line.{IsLine};

    ghost Value = { List (List Message) };

    ghost view = { λ book. book.lines };

    ghost invariant = { λ book. All IsLine book.lines };
}

impl Book {
    /// The book of no devices. It takes no memory.
    pub fn new(alloc: Global) -> Book
        ensures { result ≡ [] }
    {
        Book {
            lines: ListOf::new(alloc),
        }
    }

    /// Adds the line of the next device. For want of memory the book stays as it was, and the line is dropped.
    pub fn push(&mut self, line: Messages) -> Result<(), AllocError>
        requires { IsLine line }
        ensures ok { OnOk result (self.new ≡ self.old ++ line ∷ []) }
        ensures err { OnErr result (self.new ≡ self.old) }
    {
        self.lines.push(line)
    }

    /// Adds the lines of another book at the end, in their order. For want of memory the book stays as it was, and the other one
    /// is dropped.
    pub fn append(&mut self, other: Book) -> Result<(), AllocError>
        ensures ok { OnOk result (self.new ≡ self.old ++ other) }
        ensures err { OnErr result (self.new ≡ self.old) }
    {
        let Book { lines } = other;
        self.lines.append(lines)
    }

    /// The lines in order.
    pub fn items(&self) -> &[Messages]
        ensures value { result.now ≡ self.now }
        ensures lines { All IsLine self.now }
    {
        self.lines.items()
    }

    /// The vector of the lines, in order. It takes no memory.
    pub fn into_items(self) -> Vec<Messages>
        ensures value { result.items ≡ self }
        ensures lines { All IsLine self }
    {
        let Book { lines } = self;
        lines.into_items()
    }
}

/// Each line is copied exactly, so the book is.
impl Clone for Book {
    ghost use Rattle.std.specs.Prelude.{◌≡◌};

    ghost is_clone = { λ book clone. clone ≡ book };

    fn clone(&self) -> Result<Book, AllocError> {
        Ok(Book {
            lines: self.lines.copy()?,
        })
    }
}

impl TryCopy for Book {
    ghost same = { λ book clone equal. equal };
}
