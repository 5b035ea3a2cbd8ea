//! What no turn on a shard changes. It is plain data that contracts speak of: no value of it is ever made.

use session_store::Charter;

/// What no turn on a shard of the store changes.
pub struct ShardBasis {
    /// The number of the shard.
    pub shard: u32,
    /// How many devices the store has.
    pub devices: u32,
    /// The charter of its law.
    pub charter: Charter,
}

/// What no turn on a shard of the peers changes.
pub struct PeerBasis {
    /// The number of the shard.
    pub shard: u32,
    /// The charter.
    pub charter: Charter,
}
