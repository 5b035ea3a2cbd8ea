//! The rows of all devices, and their peers, in shards at which threads take turns. Each call is one turn, and is answered as a
//! store, or as peers, of one thread would answer at its place of one history of the shard.
#![tactic(auto)]

mod basis;
mod offer_job;
mod peer_shard;
mod shared_peers;
mod shared_store;
mod store_jobs;
mod store_shard;
mod turn;

pub use basis::{PeerBasis, ShardBasis};
pub use peer_shard::PeerShard;
pub use shared_peers::{PeerSeat, SharedPeers};
pub use shared_store::{SharedStore, StoreSeat};
pub use store_shard::StoreShard;
pub use turn::{Turn, TurnAnswer, TurnCall};
