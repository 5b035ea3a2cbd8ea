//! What a law is under: the subscribers, and the messages of their devices.
ghost use Rattle.std.specs.Prelude.{◌≡◌, ◌≤◌, length, map, All, IfOk};
ghost use Rattle.std.specs.Arc.{arc_value};
ghost use Rattle.device_types.specs.declared.message.Message.{Message};
ghost use Rattle.session_store.specs.Charter.{CharterState, IsCharter, IsShort};

use device_types::{Book, ListOf, Messages, Subscriber, TryCopy};
use std::alloc::{AllocError, Global};
use std::marker::Model;
use std::sync::Arc;
use subs_table::SubsTable;

/// The rows of the subscriber table, and the messages of the device of each. Contracts see these two lists.
#[derive(Debug, Drop)]
pub struct Charter {
    rows: ListOf<Subscriber>,
    lines: ListOf<Arc<Messages, Global>>,
}

impl Model for Charter {
    ghost use Rattle.std.specs.Prelude.{map};
    ghost use Rattle.std.specs.Arc.{arc_value};
    ghost use Rattle.session_store.specs.Charter.{CharterState, IsCharter};

    ghost Value = { CharterState };

    ghost view = { λ charter. record { rows = charter.rows; lines = map arc_value charter.lines } };

    ghost invariant = { λ charter. IsCharter (record { rows = charter.rows; lines = map arc_value charter.lines }) };
}

/// The rows, each copied.
fn copied_rows(alloc: Global, rows: &[Subscriber]) -> Result<ListOf<Subscriber>, AllocError>
    ensures { IfOk result (λ copies. copies ≡ rows.now) }
{
    let mut copies = ListOf::new(alloc);
    for row in rows {
        copies.push(row.copy()?)?;
    }
    Ok(copies)
}

/// The lines, each copied once, and shared from then on.
fn shared_lines(
    alloc: Global,
    lines: &[Messages],
) -> Result<ListOf<Arc<Messages, Global>>, AllocError>
    ensures { IfOk result (λ shared. map arc_value shared ≡ lines.now) }
{
    let mut shared = ListOf::new(alloc);
    for line in lines {
        shared.push(Arc::new(alloc, line.copy()?)?)?;
    }
    Ok(shared)
}

impl Charter {
    /// The charter of a table and a book, both copied. It fails for want of memory alone.
    pub fn new(alloc: Global, table: &SubsTable, book: &Book) -> Result<Charter, AllocError>
        requires lines { length book.now ≡ length table.now }
        requires short { All IsShort book.now }
        ensures { IfOk result (λ charter. charter ≡ record { rows = table.now; lines = book.now }) }
    {
        let rows = copied_rows(alloc, table.rows())?;
        let lines = shared_lines(alloc, book.items())?;
        Ok(Charter { rows, lines })
    }

    /// The rows in the order of their numbers.
    pub fn rows(&self) -> &[Subscriber]
        ensures rows { result.now ≡ self.now.rows }
        ensures charter { IsCharter self.now }
    {
        self.rows.items()
    }

    /// The messages of each device, in the same order, to be shared.
    pub fn lines(&self) -> &[Arc<Messages, Global>]
        ensures lines { map arc_value result.now ≡ self.now.lines }
        ensures charter { IsCharter self.now }
    {
        self.lines.items()
    }

    /// What holds of every charter: it is a table, and a line of messages for each of its rows. It does nothing at run time.
    pub fn recall(&self)
        ensures { IsCharter self.now }
    {
        self.rows();
    }
}
