//! Tests of disks and stores on them: what no clause says of these, through public calls alone. They stand in a crate of their
//! own, so that the crates below are proved without them. There is nothing else here.
#![tactic(auto)]

#[cfg(test)]
mod disk_store_calls;
#[cfg(test)]
mod file_disk_calls;
#[cfg(test)]
mod fuse_disk_calls;
#[cfg(test)]
mod numbered_law;
#[cfg(test)]
mod two_devices;
