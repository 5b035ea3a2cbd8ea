//! Bit rates.

ghost use Rattle.std.specs.Prelude.{◌≡◌, ◌≤◌, ◌<◌};

use crate::names::MOST_BIT_RATE;
use aper_types::{Integer, Named, Needed, Sequence};

/// The aggregate maximum bit rates of a UE (TS 36.413, 9.2.1.20), in bit/s.
#[derive(Clone, Copy, Debug)]
pub struct BitRates {
    /// Downlink, at most 10,000,000,000.
    pub dl: u64,
    /// Uplink, at most 10,000,000,000.
    pub ul: u64,
}

impl Named for BitRates {
    ghost use Rattle.s1ap_ies.specs.Values.{bit_rates, bit_rates_same};
    ghost use Rattle.aper_types.specs.Made.{made_of};
    ghost use Rattle.std.proofs.Common.{rules};

    type Type = Sequence<
        (
            Needed<Integer<0, MOST_BIT_RATE>>,
            Needed<Integer<0, MOST_BIT_RATE>>,
        ),
    >;

    ghost asn1 = { bit_rates };

    ghost same = { bit_rates_same };

    fn make((dl, ul): (u64, u64)) -> BitRates {
        BitRates { dl, ul }
    }

    fn parts(self) -> (u64, u64) {
        (self.dl, self.ul)
    }

    ghost made = { made_of _ bit_rates_same };

    ghost right = { Prim.search rules };
}
