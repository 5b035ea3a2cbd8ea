//! The subscriber server as the core meets it: each call of a device is done once, and answered by the subscriber's row.
#![tactic(auto)]

mod server;

pub use server::SubscriberPeer;
