//! The rows of all devices, on a disk: each commit is on the disk before it is answered. After a crash at any moment, opening
//! gives the rows after a beginning of the commits that holds each one that was acknowledged.
#![tactic(auto)]

mod disk_store;
mod fault;
mod laws;
mod maker;
mod replay;

pub use disk_store::DiskStore;
pub use fault::{DiskBad, OpenCause, OpenFault};
pub use laws::opens_again;
pub use maker::Maker;
