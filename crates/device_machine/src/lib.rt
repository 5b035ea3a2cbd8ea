//! The machine of a device.
#![tactic(auto)]

mod awaiting;
mod course;
mod ends;
mod stepping;

pub use awaiting::awaited;
pub use course::alone;
pub use ends::{end_can_be_written, end_has_the_lanes, end_of};
pub use stepping::step;
