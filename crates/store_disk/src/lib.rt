//! A disk that a crash at any moment may stop, and how a record comes onto it so that no crash can lose it or leave a part of it.
#![tactic(auto)]

mod call_log;
mod disk;
mod file_disk;
mod fuse_disk;
mod write;

pub use call_log::Call;
pub use disk::{Disk, DiskFault};
pub use file_disk::FileDisk;
pub use fuse_disk::FuseDisk;
pub use write::{append, write_through};
