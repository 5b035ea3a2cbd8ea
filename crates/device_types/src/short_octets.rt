//! Short lists of octets.
ghost use Rattle.std.specs.Prelude.{◌≡◌, ◌≤◌, [], length, IfOk, IsOk};
ghost use Rattle.device_types.specs.Octets.{AreOctets};

use crate::try_copy::TryCopy;
use smallvec::SmallVec;
use std::alloc::{AllocError, Global};
use std::marker::Model;

/// A list of octets, which contracts see as a list. Up to `N` of them take no memory.
#[derive(Debug, Drop)]
pub struct ShortOctets<const N: usize> {
    items: SmallVec<u8, N>,
}

impl<const N: usize> Model for ShortOctets<N> {
    ghost use Rattle.std.specs.Prelude.{List, ℕ};

    ghost Value = { List ℕ };

    ghost view = { λ short. short.items.items };
}

impl<const N: usize> ShortOctets<N> {
    /// No octets.
    pub fn new(alloc: Global) -> ShortOctets<N>
        ensures { result ≡ [] }
    {
        ShortOctets {
            items: SmallVec::new(alloc),
        }
    }

    /// These octets. It fails for want of memory alone, and takes none for up to `N` octets.
    pub fn from_slice(alloc: Global, octets: &[u8]) -> Result<ShortOctets<N>, AllocError>
        ensures ok { IfOk result (λ short. short ≡ octets.now) }
        ensures short { length octets.now ≤ N → IsOk result }
    {
        Ok(ShortOctets {
            items: SmallVec::from_slice(alloc, octets)?,
        })
    }

    /// The allocator that holds what has no place in the value.
    pub fn alloc(&self) -> Global {
        *self.items.allocator()
    }

    /// The octets in order. Each is below 256.
    pub fn octets(&self) -> &[u8]
        ensures value { result.now ≡ self.now }
        ensures range { AreOctets self.now }
    {
        let octets: &[u8] = self.items.as_slice();
        octets
    }
}

/// The octets are copied.
impl<const N: usize> Clone for ShortOctets<N> {
    ghost use Rattle.std.specs.Prelude.{◌≡◌};

    ghost is_clone = { λ short clone. clone ≡ short };

    fn clone(&self) -> Result<ShortOctets<N>, AllocError> {
        ShortOctets::from_slice(self.alloc(), self.octets())
    }
}

impl<const N: usize> TryCopy for ShortOctets<N> {
    ghost same = { λ short clone equal. equal };
}
