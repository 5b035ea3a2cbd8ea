//! What is done once rows that threads shared are at their end: they are closed, the lanes of the peers are brought whole, the
//! peers closed, and the ends of the devices told.
#![tactic(auto)]

mod close;
mod ends;
mod lanes;

pub use close::{Ended, close_all};
pub use ends::finals;
pub use lanes::bring_lanes;
