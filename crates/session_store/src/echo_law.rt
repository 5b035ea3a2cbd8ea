//! The law of the machine alone.
ghost use Rattle.std.specs.Prelude.{◌≡◌, ◌≤◌, length, All, IfOk};
ghost use Rattle.std.specs.Arc.{arc_value};
ghost use Rattle.session_store.specs.Charter.{IsShort, follows_alone};
ghost use Rattle.session_store.specs.AloneLaw.{alone_can_follow};

use crate::charter::Charter;
use crate::row_law::RowLaw;
use device_types::Book;
use std::alloc::{AllocError, Global};
use std::sync::Arc;
use subs_table::SubsTable;

/// The law by which the entry at version v of a device is entry v + 1 of the machine alone. All its copies share one charter.
#[derive(Debug, Drop)]
pub struct EchoLaw {
    charter: Arc<Charter, Global>,
}

impl EchoLaw {
    /// The law under a table and a book, which are copied once. It fails for want of memory alone.
    pub fn new(alloc: Global, table: &SubsTable, book: &Book) -> Result<EchoLaw, AllocError>
        requires lines { length book.now ≡ length table.now }
        requires short { All IsShort book.now }
        ensures { IfOk result (λ law. arc_value law.charter ≡ record { rows = table.now; lines = book.now }) }
    {
        Ok(EchoLaw {
            charter: Arc::new(alloc, Charter::new(alloc, table, book)?)?,
        })
    }
}

impl RowLaw for EchoLaw {
    ghost charter = { λ law. arc_value law.charter };

    ghost follows = { follows_alone };

    ghost can_follow = { alone_can_follow };

    fn charter(&self) -> &Charter {
        &self.charter
    }

    fn copy(&self) -> Result<EchoLaw, AllocError> {
        Ok(EchoLaw {
            charter: Arc::try_clone(&self.charter)?,
        })
    }
}
