//! The subscribers of the core: reading the rows, and the table with its look-ups.
#![tactic(auto)]

mod columns;
mod row;
mod table;

pub use columns::fifteen_digits;
pub use row::read_row;
pub use table::SubsTable;
