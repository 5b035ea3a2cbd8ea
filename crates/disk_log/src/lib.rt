//! A log of records on a disk: gates, and a record behind each gate that is open. A crash at any moment leaves the log before a
//! record was added, or the log with it.
#![tactic(auto)]

mod log;
mod record;

pub use log::{LogFault, add_record, open_log};
pub use record::{MOST_SESSION, Record};
