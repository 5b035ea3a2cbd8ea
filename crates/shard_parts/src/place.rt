//! Where a device stands among the fronts.
ghost use Rattle.std.specs.Prelude.{◌≡◌};
ghost use Rattle.session_store.specs.Shards.{shard_of};

use device_types::DeviceId;
use session_store::shard_of;

/// The place of the front of a device's shard.
pub fn place_of(d: DeviceId) -> usize
    ensures { result ≡ shard_of d.0 }
{
    shard_of(d) as usize
}
