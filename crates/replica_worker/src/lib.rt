//! The replicas of the core, which keep nothing that is needed after they stop.
#![tactic(auto)]

mod cache;
mod hand;
mod laws;
mod replica;
mod replies;
mod sight;

pub use cache::CachedSession;
pub use hand::Hand;
pub use laws::more_known_keeps;
pub use replica::{Looked, Replica, Wrote};
