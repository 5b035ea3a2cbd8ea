//! The rows of all devices and their peers, as threads that share them call them: what a seat knows, and what a call adds to it.
#![tactic(auto)]

mod calls;
mod rows;
mod shared_peers;
mod shared_store;

pub use calls::SharedCalls;
pub use rows::SharedRows;
