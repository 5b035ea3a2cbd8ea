//! The effects of a device by lane, until they are settled.
#![tactic(auto)]

mod outbox;
mod queue;
mod queues;
mod settled;

pub use outbox::Outbox;
pub use settled::Settled;
