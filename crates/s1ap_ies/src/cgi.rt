//! Cell global identities.

ghost use Rattle.std.specs.Prelude.{◌≡◌, ◌≤◌, ◌<◌};

use aper_types::{BitString, Named, Needed, Sequence};

/// An E-UTRAN cell global identity (TS 36.413, 9.2.1.38).
#[derive(Clone, Copy, Debug)]
pub struct Cgi {
    /// The three octets of the PLMN identity as one number, the first octet highest, below 2^24.
    pub plmn: u32,
    /// The cell identity, 28 bits: below 2^28.
    pub cell: u32,
}

impl Named for Cgi {
    ghost use Rattle.s1ap_ies.specs.Values.{cgi, cgi_same};
    ghost use Rattle.aper_types.specs.Made.{made_of};
    ghost use Rattle.std.proofs.Common.{rules};

    type Type = Sequence<(Needed<BitString<24>>, Needed<BitString<28>>)>;

    ghost asn1 = { cgi };

    ghost same = { cgi_same };

    fn make((plmn, cell): (u64, u64)) -> Cgi {
        Cgi {
            plmn: plmn as u32,
            cell: cell as u32,
        }
    }

    fn parts(self) -> (u64, u64) {
        (u64::from(self.plmn), u64::from(self.cell))
    }

    ghost made = { made_of _ cgi_same };

    ghost right = { Prim.search rules };
}
