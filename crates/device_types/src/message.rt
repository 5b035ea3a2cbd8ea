//! The messages of a device.

use crate::cause::CauseCode;
use crate::list_of::{ListOf, Octets};
use crate::try_copy::TryCopy;
use std::alloc::AllocError;

/// A base station's end of a bearer's tunnel (TS 36.413, 9.2.2.1 and 9.2.2.2).
#[derive(Clone, Copy, Debug, PartialEq, Eq)]
pub struct Side {
    /// Its IPv4 address.
    pub addr: u32,
    /// Its tunnel endpoint identifier.
    pub teid: u32,
}

/// What a message says. NAS messages are those of 3GPP TS 24.301, and the others those of TS 36.413, but for the gateway's notice.
#[derive(Debug, Drop)]
pub enum Body {
    /// ATTACH REQUEST (TS 24.301, 8.2.4).
    Attach {
        /// The PLMN of the tracking area where the device is: its three octets as one number, the first one highest, below 2^24.
        plmn: u32,
        /// The code of that tracking area.
        tac: u16,
        /// The encryption algorithms that the device supports, a bit each (9.9.3.34).
        eea: u8,
        /// The integrity algorithms that the device supports, a bit each.
        eia: u8,
        /// The procedure transaction identity of the ESM message in it (9.4).
        pti: u8,
    },
    /// SERVICE REQUEST (8.2.25).
    Service,
    /// TRACKING AREA UPDATE REQUEST (8.2.29).
    Area {
        /// Did it come in an INITIAL UE MESSAGE?
        first: bool,
        /// The PLMN of the tracking area where the device is: its three octets as one number, the first one highest, below 2^24.
        plmn: u32,
        /// The code of that tracking area.
        tac: u16,
    },
    /// DETACH REQUEST of the device (8.2.11.1).
    Detach {
        /// Did it come in an INITIAL UE MESSAGE?
        first: bool,
        /// Is the device switched off (9.9.3.7)? It then waits for no answer.
        off: bool,
    },
    /// AUTHENTICATION RESPONSE (8.2.8).
    Response {
        /// RES, at most 255 octets (9.9.3.4).
        res: Octets,
    },
    /// SECURITY MODE COMPLETE (8.2.21).
    Secured,
    /// SECURITY MODE REJECT (8.2.22).
    SecurityRefused,
    /// ATTACH COMPLETE (8.2.2).
    AttachDone,
    /// INITIAL CONTEXT SETUP RESPONSE with the device's bearer, E-RAB 5 (TS 36.413, 9.1.4.3).
    ContextDone {
        /// The base station's IPv4 address for the bearer.
        addr: u32,
        /// The base station's tunnel endpoint identifier for it.
        teid: u32,
        /// The base station's side of the second bearer, E-RAB 6, where the response has it too.
        second: Option<Side>,
    },
    /// INITIAL CONTEXT SETUP FAILURE (9.1.4.4), or a response without that bearer.
    ContextFailed,
    /// UE CONTEXT RELEASE REQUEST (9.1.4.5).
    ReleaseAsked {
        /// Why.
        cause: CauseCode,
    },
    /// UE CONTEXT RELEASE COMPLETE (9.1.4.7).
    Released,
    /// UE CAPABILITY INFO INDICATION (9.1.10).
    Capability {
        /// The radio capability (9.2.1.27).
        octets: Octets,
    },
    /// The gateway's notice that data waits for the device (TS 29.274, 7.2.11). It comes from no base station.
    Data,
    /// PDN CONNECTIVITY REQUEST for a second connection (TS 24.301, 8.3.20).
    PdnRequest {
        /// The procedure transaction identity of the request (9.4).
        pti: u8,
    },
    /// ACTIVATE DEFAULT EPS BEARER CONTEXT ACCEPT (8.3.4) of the second connection.
    PdnAccept,
    /// E-RAB SETUP RESPONSE with the second bearer, E-RAB 6 (TS 36.413, 9.1.3.2).
    SecondDone {
        /// The base station's IPv4 address for the bearer.
        addr: u32,
        /// The base station's tunnel endpoint identifier for it.
        teid: u32,
    },
    /// E-RAB SETUP RESPONSE without that bearer.
    SecondRefused,
}

/// By hand, since each field of a derived clone may fail.
impl Clone for Body {
    ghost use Rattle.std.specs.Prelude.{◌≡◌};

    ghost is_clone = { λ body clone. clone ≡ body };

    fn clone(&self) -> Result<Body, AllocError> {
        match self {
            Body::Attach {
                plmn,
                tac,
                eea,
                eia,
                pti,
            } => Ok(Body::Attach {
                plmn: *plmn,
                tac: *tac,
                eea: *eea,
                eia: *eia,
                pti: *pti,
            }),
            Body::Service => Ok(Body::Service),
            Body::Area { first, plmn, tac } => Ok(Body::Area {
                first: *first,
                plmn: *plmn,
                tac: *tac,
            }),
            Body::Detach { first, off } => Ok(Body::Detach {
                first: *first,
                off: *off,
            }),
            Body::Response { res } => Ok(Body::Response { res: res.copy()? }),
            Body::Secured => Ok(Body::Secured),
            Body::SecurityRefused => Ok(Body::SecurityRefused),
            Body::AttachDone => Ok(Body::AttachDone),
            Body::ContextDone { addr, teid, second } => Ok(Body::ContextDone {
                addr: *addr,
                teid: *teid,
                second: *second,
            }),
            Body::ContextFailed => Ok(Body::ContextFailed),
            Body::ReleaseAsked { cause } => Ok(Body::ReleaseAsked { cause: *cause }),
            Body::Released => Ok(Body::Released),
            Body::Capability { octets } => Ok(Body::Capability {
                octets: octets.copy()?,
            }),
            Body::Data => Ok(Body::Data),
            Body::PdnRequest { pti } => Ok(Body::PdnRequest { pti: *pti }),
            Body::PdnAccept => Ok(Body::PdnAccept),
            Body::SecondDone { addr, teid } => Ok(Body::SecondDone {
                addr: *addr,
                teid: *teid,
            }),
            Body::SecondRefused => Ok(Body::SecondRefused),
        }
    }
}

impl TryCopy for Body {
    ghost same = { λ body clone equal. equal };
}

/// A message of a device.
#[derive(Clone, Debug, Drop)]
pub struct Message {
    /// Its number among the device's messages, from 1.
    pub number: u64,
    /// The base station that it came from, from 1; a notice of the gateway has 0.
    pub station: u16,
    /// The eNB-UE-S1AP-ID of the device there, below 2^24 (TS 36.413, 9.2.3.4).
    pub enb: u32,
    /// What it says.
    pub body: Body,
}

impl TryCopy for Message {
    ghost use Rattle.std.proofs.Common.{rules};

    ghost same = { Prim.search rules };
}

/// Messages of a device, in order.
pub type Messages = ListOf<Message>;
