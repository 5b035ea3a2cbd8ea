//! A session as octets, both ways: one table of its fields says which octets they are, which of them are in range, how they are
//! read, and where other octets are wrong.
#![tactic(auto)]

mod laws;
mod reader;
mod reading;
mod version;
mod writer;
mod writing;

pub use laws::{one_answer, ranges_are_those_of_sessions, what_is_read_can_be_written};
pub use reading::read_session;
pub use writing::write_session;
