//! What becomes of the devices of a case.

ghost use Rattle.std.specs.Prelude.{◌≡◌, ◌≤◌, length, All, IfOk};
ghost use Rattle.device_machine.specs.Ends.{finals_of};

use device_machine::end_of;
use device_types::{Book, Finals};
use echo_base::OutOfMemory;
use std::alloc::Global;
use subs_table::SubsTable;

/// What becomes of each device, in the order of their numbers: of its row, and of its messages, which the book has.
pub fn finals_of(alloc: Global, table: &SubsTable, book: &Book) -> Result<Finals, OutOfMemory>
    requires { All (λ messages. length messages ≤ 100000) book.now }
    ensures { IfOk result (λ finals. finals ≡ finals_of table.now book.now) }
{
    let mut finals = Finals::new(alloc);
    for (row, messages) in table.rows().iter().zip(book.items()) {
        finals.push(end_of(row, messages.items())?)?;
    }
    Ok(finals)
}
