//! What the shared store and the shared peers are put together of: the calls of a shard, with a copy of what has to be kept of each,
//! both peers, and the place of a device's shard.
#![tactic(auto)]

mod kept;
mod peers;
mod place;

pub use kept::{commit_copied, peek_twice, push_twice, read_twice};
pub use peers::Peers;
pub use place::place_of;
