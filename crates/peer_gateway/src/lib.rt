//! The serving gateway as the core meets it: each call of a device is done once, and answered by the subscriber's row.
#![tactic(auto)]

mod counted;
mod gateway;

pub use gateway::Gateway;
