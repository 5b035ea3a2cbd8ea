//! The rows of all devices, under a law that says which entry may follow which journal.
#![tactic(auto)]

mod asked;
mod charter;
mod echo_law;
mod looks;
mod row_law;
mod row_store;
mod shard;
mod store;

pub use asked::{Asked, Peeked, Seen};
pub use charter::Charter;
pub use echo_law::EchoLaw;
pub use row_law::RowLaw;
pub use row_store::RowStore;
pub use shard::{DeviceRow, SHARDS, Shard, shard_of};
pub use store::Store;
