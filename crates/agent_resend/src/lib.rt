//! The agent of a device: what it may send again, and what it makes of what arrives.
#![tactic(auto)]

mod taken;
mod window;

pub use taken::{DownTaken, Taken};
pub use window::Window;
