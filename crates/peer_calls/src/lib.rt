//! The calls of devices that a peer has accepted, each once and in order: what the two peers share.
#![tactic(auto)]

mod accepted;
mod arrival;

pub use accepted::Accepted;
pub use arrival::Arrival;
