//! The identities by which a base station and the MME know a UE.

ghost use Rattle.std.specs.Prelude.{◌≡◌, ◌≤◌, ◌<◌};

use crate::names::{MOST_ENB_UE_S1AP_ID, MOST_MME_UE_S1AP_ID};
use aper_types::{Choice, Either, Integer, Named, Needed, Sequence};

/// MME UE S1AP ID (TS 36.413, 9.2.3.3).
type MmeId = Integer<0, MOST_MME_UE_S1AP_ID>;

/// eNB UE S1AP ID (TS 36.413, 9.2.3.4).
type EnbId = Integer<0, MOST_ENB_UE_S1AP_ID>;

/// The UE S1AP IDs (TS 36.413, 9.1.4.6): both, as a UE S1AP ID pair (9.2.3.18), or that of the MME alone.
#[derive(Clone, Copy, Debug)]
pub enum UeIds {
    /// Both.
    Pair {
        /// MME UE S1AP ID.
        mme: u32,
        /// eNB UE S1AP ID, of 24 bits.
        enb: u32,
    },
    /// The MME UE S1AP ID alone.
    Mme(u32),
}

impl Named for UeIds {
    ghost use Rattle.s1ap_ies.specs.Values.{ue_ids, ue_ids_same};
    ghost use Rattle.aper_types.specs.Made.{made_of};
    ghost use Rattle.std.proofs.Common.{rules};

    type Type = Choice<Sequence<(Needed<MmeId>, Needed<EnbId>)>, MmeId>;

    ghost asn1 = { ue_ids };

    ghost same = { ue_ids_same };

    fn make(parts: Either<(u64, u64), u64>) -> UeIds {
        match parts {
            Either::First((mme, enb)) => UeIds::Pair {
                mme: mme as u32,
                enb: enb as u32,
            },
            Either::Second(mme) => UeIds::Mme(mme as u32),
        }
    }

    fn parts(self) -> Either<(u64, u64), u64> {
        match self {
            UeIds::Pair { mme, enb } => Either::First((u64::from(mme), u64::from(enb))),
            UeIds::Mme(mme) => Either::Second(u64::from(mme)),
        }
    }

    ghost made = { made_of _ ue_ids_same };

    ghost right = { Prim.search rules };
}
