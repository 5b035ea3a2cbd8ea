//! Causes.

use crate::try_copy::TryCopy;

/// Why something was done, as S1AP tells it (3GPP TS 36.413, 9.2.1.3).
#[derive(Clone, Copy, Debug, PartialEq, Eq)]
pub struct CauseCode {
    /// The group: 0 radio network, 1 transport, 2 NAS, 3 protocol, 4 miscellaneous.
    pub group: u8,
    /// Does the cause stand behind the extension mark of its group?
    pub extended: bool,
    /// Its index among the roots of its group, or among those behind the extension mark, and then below 64.
    pub index: u8,
}

impl TryCopy for CauseCode {
    ghost use Rattle.std.proofs.Common.{rules};

    ghost same = { Prim.search rules };
}
