//! The row of a device, with its one conditional write.
#![tactic(auto)]

mod awaited;
mod commit;
mod prepared;
mod replies;
mod row;

pub use commit::Commit;
pub use prepared::downs_of;
pub use row::Row;
