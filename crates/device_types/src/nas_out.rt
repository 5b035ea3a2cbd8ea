//! The NAS messages that are written.

use crate::list_of::{Octets, copy_two};
use crate::try_copy::TryCopy;
use std::alloc::AllocError;

/// An EPS mobility management or session management message from the network (3GPP TS 24.301, 8.2 and 8.3), with its mandatory
/// fields.
#[derive(Debug, Drop)]
pub enum NasOut {
    /// AUTHENTICATION REQUEST (8.2.7).
    AuthRequest {
        /// RAND, 16 octets (9.9.3.3).
        rand: Octets,
        /// AUTN, 16 octets (9.9.3.2).
        autn: Octets,
    },
    /// AUTHENTICATION REJECT (8.2.6).
    AuthReject,
    /// SECURITY MODE COMMAND (8.2.20), which chooses the null algorithms and replays what the device said that it
    /// supports (9.9.3.36).
    SecurityCommand {
        /// The encryption algorithms, a bit each.
        eea: u8,
        /// The integrity algorithms, a bit each.
        eia: u8,
    },
    /// ATTACH ACCEPT (8.2.1), with a tracking area list of one area (9.9.3.33) and an ACTIVATE DEFAULT EPS BEARER
    /// CONTEXT REQUEST (8.3.6).
    AttachAccept {
        /// The three octets of the PLMN identity as one number, the first one highest, below 2^24.
        plmn: u32,
        /// The tracking area code.
        tac: u16,
        /// The procedure transaction identity.
        pti: u8,
        /// The access point name, one label of 1 to 30 octets (9.9.4.1).
        apn: Octets,
        /// The device's IPv4 address (9.9.4.9).
        ip: u32,
    },
    /// ATTACH REJECT (8.2.3).
    AttachReject {
        /// The EMM cause (9.9.3.9).
        cause: u8,
    },
    /// SERVICE REJECT (8.2.24).
    ServiceReject {
        /// The EMM cause (9.9.3.9).
        cause: u8,
    },
    /// TRACKING AREA UPDATE REJECT (8.2.28).
    AreaReject {
        /// The EMM cause (9.9.3.9).
        cause: u8,
    },
    /// TRACKING AREA UPDATE ACCEPT (8.2.26).
    AreaAccept,
    /// DETACH ACCEPT (8.2.10.1).
    DetachAccept,
    /// PDN CONNECTIVITY REJECT (8.3.19).
    PdnReject {
        /// The procedure transaction identity of the request (9.4).
        pti: u8,
        /// The ESM cause (9.9.4.4).
        cause: u8,
    },
    /// ACTIVATE DEFAULT EPS BEARER CONTEXT REQUEST (8.3.6) for EPS bearer identity 6, with QCI 9 (9.9.4.3).
    Activate {
        /// The procedure transaction identity of the request (9.4).
        pti: u8,
        /// The access point name, one label of 1 to 30 octets (9.9.4.1).
        apn: Octets,
        /// The device's IPv4 address (9.9.4.9).
        ip: u32,
    },
}

/// By hand, since each field of a derived clone may fail.
impl Clone for NasOut {
    ghost use Rattle.std.specs.Prelude.{◌≡◌};

    ghost is_clone = { λ nas clone. clone ≡ nas };

    fn clone(&self) -> Result<NasOut, AllocError> {
        match self {
            NasOut::AuthRequest { rand, autn } => {
                let (rand, autn) = copy_two(rand, autn)?;
                Ok(NasOut::AuthRequest { rand, autn })
            }
            NasOut::AuthReject => Ok(NasOut::AuthReject),
            NasOut::SecurityCommand { eea, eia } => Ok(NasOut::SecurityCommand {
                eea: *eea,
                eia: *eia,
            }),
            NasOut::AttachAccept {
                plmn,
                tac,
                pti,
                apn,
                ip,
            } => Ok(NasOut::AttachAccept {
                plmn: *plmn,
                tac: *tac,
                pti: *pti,
                apn: apn.copy()?,
                ip: *ip,
            }),
            NasOut::AttachReject { cause } => Ok(NasOut::AttachReject { cause: *cause }),
            NasOut::ServiceReject { cause } => Ok(NasOut::ServiceReject { cause: *cause }),
            NasOut::AreaReject { cause } => Ok(NasOut::AreaReject { cause: *cause }),
            NasOut::AreaAccept => Ok(NasOut::AreaAccept),
            NasOut::DetachAccept => Ok(NasOut::DetachAccept),
            NasOut::PdnReject { pti, cause } => Ok(NasOut::PdnReject {
                pti: *pti,
                cause: *cause,
            }),
            NasOut::Activate { pti, apn, ip } => Ok(NasOut::Activate {
                pti: *pti,
                apn: apn.copy()?,
                ip: *ip,
            }),
        }
    }
}

impl TryCopy for NasOut {
    ghost same = { λ nas clone equal. equal };
}
