//! Tracking area identities.

ghost use Rattle.std.specs.Prelude.{◌≡◌, ◌≤◌, ◌<◌};

use aper_types::{BitString, Named, Needed, Sequence};

/// A tracking area identity (TS 36.413, 9.2.3.16).
#[derive(Clone, Copy, Debug)]
pub struct Tai {
    /// The three octets of the PLMN identity as one number, the first octet highest, below 2^24.
    pub plmn: u32,
    /// The tracking area code, two octets as one number.
    pub tac: u16,
}

impl Named for Tai {
    ghost use Rattle.s1ap_ies.specs.Values.{tai, tai_same};
    ghost use Rattle.aper_types.specs.Made.{made_of};
    ghost use Rattle.std.proofs.Common.{rules};

    type Type = Sequence<(Needed<BitString<24>>, Needed<BitString<16>>)>;

    ghost asn1 = { tai };

    ghost same = { tai_same };

    fn make((plmn, tac): (u64, u64)) -> Tai {
        Tai {
            plmn: plmn as u32,
            tac: tac as u16,
        }
    }

    fn parts(self) -> (u64, u64) {
        (u64::from(self.plmn), u64::from(self.tac))
    }

    ghost made = { made_of _ tai_same };

    ghost right = { Prim.search rules };
}
