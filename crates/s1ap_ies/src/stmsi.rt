//! S-TMSIs.

ghost use Rattle.std.specs.Prelude.{◌≡◌, ◌≤◌, ◌<◌};

use aper_types::{BitString, Named, Needed, Sequence};

/// An S-TMSI (TS 36.413, 9.2.3.6).
#[derive(Clone, Copy, Debug)]
pub struct Stmsi {
    /// The MME code, an octet.
    pub mmec: u8,
    /// The M-TMSI, four octets as one number, the first octet highest.
    pub tmsi: u32,
}

impl Named for Stmsi {
    ghost use Rattle.s1ap_ies.specs.Values.{stmsi, stmsi_same};
    ghost use Rattle.aper_types.specs.Made.{made_of};
    ghost use Rattle.std.proofs.Common.{rules};

    type Type = Sequence<(Needed<BitString<8>>, Needed<BitString<32>>)>;

    ghost asn1 = { stmsi };

    ghost same = { stmsi_same };

    fn make((mmec, tmsi): (u64, u64)) -> Stmsi {
        Stmsi {
            mmec: mmec as u8,
            tmsi: tmsi as u32,
        }
    }

    fn parts(self) -> (u64, u64) {
        (u64::from(self.mmec), u64::from(self.tmsi))
    }

    ghost made = { made_of _ stmsi_same };

    ghost right = { Prim.search rules };
}
