//! Keys.
ghost use Rattle.std.specs.Prelude.{◌≡◌, [], replicate, IfOk, IsOk};
ghost use Rattle.device_types.specs.Keys.{full, key_of};
ghost use Rattle.device_types.specs.Octets.{AreOctets};

use crate::shared::Shared;
use crate::short_octets::ShortOctets;
use crate::try_copy::TryCopy;
use std::alloc::{AllocError, Global};
use std::marker::Model;

/// As many octets as a key has.
const LENGTH: usize = 32;

/// The key of zeros.
static ZEROS: [u8; LENGTH] = [0; LENGTH];

/// The key of a device's authentication vector (3GPP TS 33.401, 6.1), which its base station is given as it is, as the Security
/// Key of TS 36.413, 9.2.1.41: none is derived from it. Contracts see it as its 32 octets. A key that was made from another count
/// of octets, but from none, is seen as those. The copies of a key share its octets.
#[derive(Debug, Drop)]
pub struct Key {
    /// Nothing stands for 32 octets of zero.
    shared: Option<Shared<ShortOctets<LENGTH>>>,
}

impl Model for Key {
    ghost use Rattle.std.specs.Prelude.{List, ℕ};
    ghost use Rattle.device_types.specs.Keys.{key_of};

    ghost Value = { List ℕ };

    ghost view = { λ key. key_of key.shared };
}

/// The octets of the key that has these, if any.
fn octets_of(shared: &Option<Shared<ShortOctets<LENGTH>>>) -> &[u8]
    ensures { result.now ≡ key_of shared.now }
{
    match shared {
        None => &ZEROS,
        Some(octets) => octets.get().octets(),
    }
}

impl Key {
    /// The key of 32 octets of zero. It takes no memory.
    pub fn zeros() -> Key
        ensures { result ≡ replicate 32 0 }
    {
        Key { shared: None }
    }

    /// The key of these octets, or the key of zeros where there are none. It fails for want of memory alone, and takes none for the key of
    /// zeros.
    pub fn new(alloc: Global, octets: &[u8]) -> Result<Key, AllocError>
        ensures none { octets.now ≡ [] → IsOk result }
        ensures key { IfOk result (λ key. key ≡ full octets.now) }
    {
        if octets.is_empty() {
            return Ok(Key::zeros());
        }
        let octets = ShortOctets::from_slice(alloc, octets)?;
        Ok(Key {
            shared: Some(Shared::new(alloc, octets)?),
        })
    }

    /// The octets of the key, each below 256.
    pub fn octets(&self) -> &[u8]
        ensures value { result.now ≡ self.now }
        ensures range { AreOctets self.now }
    {
        let octets: &[u8] = octets_of(&self.shared);
        octets
    }
}

/// The copy shares the octets.
impl Clone for Key {
    ghost use Rattle.std.specs.Prelude.{◌≡◌};

    ghost is_clone = { λ key clone. clone ≡ key };

    fn clone(&self) -> Result<Key, AllocError> {
        match &self.shared {
            None => Ok(Key::zeros()),
            Some(octets) => Ok(Key {
                shared: Some(octets.copy()?),
            }),
        }
    }
}

impl TryCopy for Key {
    ghost same = { λ key clone equal. equal };
}
