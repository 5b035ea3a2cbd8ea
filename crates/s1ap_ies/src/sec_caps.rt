//! Security capabilities.

ghost use Rattle.std.specs.Prelude.{◌≡◌, ◌≤◌, ◌<◌};

use aper_types::{BitString, Extensible, Named, Needed, Sequence};

/// The security capabilities of a UE (TS 36.413, 9.2.1.40): a bit for each algorithm, the first one highest.
#[derive(Clone, Copy, Debug)]
pub struct SecCaps {
    /// Encryption algorithms.
    pub eea: u16,
    /// Integrity protection algorithms.
    pub eia: u16,
}

impl Named for SecCaps {
    ghost use Rattle.s1ap_ies.specs.Values.{sec_caps, sec_caps_same};
    ghost use Rattle.aper_types.specs.Made.{made_of};
    ghost use Rattle.std.proofs.Common.{rules};

    type Type = Sequence<
        (
            Needed<Extensible<BitString<16>>>,
            Needed<Extensible<BitString<16>>>,
        ),
    >;

    ghost asn1 = { sec_caps };

    ghost same = { sec_caps_same };

    fn make((eea, eia): (u64, u64)) -> SecCaps {
        SecCaps {
            eea: eea as u16,
            eia: eia as u16,
        }
    }

    fn parts(self) -> (u64, u64) {
        (u64::from(self.eea), u64::from(self.eia))
    }

    ghost made = { made_of _ sec_caps_same };

    ghost right = { Prim.search rules };
}
