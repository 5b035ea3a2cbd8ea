//! The NAS messages that are read.

ghost use Rattle.std.specs.Prelude.{◌≡◌};
ghost use Rattle.nas_kinds.specs.Kinds.{type_of};

use device_types::Octets;
use echo_base::Identity;

/// An EPS mobility management or session management message from a device (3GPP TS 24.301, 8.2 and 8.3), with what is used of its
/// mandatory fields.
#[derive(Debug, Drop)]
pub enum NasIn {
    /// ATTACH REQUEST (8.2.4).
    AttachRequest {
        /// The EPS mobile identity (9.9.3.12).
        identity: Identity,
        /// The encryption algorithms that the device supports, a bit each (9.9.3.34).
        eea: u8,
        /// The integrity algorithms that the device supports, a bit each (9.9.3.34).
        eia: u8,
        /// The procedure transaction identity of the ESM message in it (9.4).
        pti: u8,
    },
    /// ATTACH COMPLETE (8.2.2).
    AttachComplete,
    /// DETACH REQUEST of a device (8.2.11.1).
    DetachRequest {
        /// The device is switched off (9.9.3.7).
        off: bool,
        /// The EPS mobile identity (9.9.3.12).
        identity: Identity,
    },
    /// TRACKING AREA UPDATE REQUEST (8.2.29).
    AreaRequest {
        /// The EPS mobile identity (9.9.3.12): the old GUTI, or an IMSI.
        identity: Identity,
    },
    /// AUTHENTICATION RESPONSE (8.2.8).
    AuthResponse {
        /// RES (9.9.3.4).
        res: Octets,
    },
    /// SECURITY MODE COMPLETE (8.2.21).
    SecurityComplete,
    /// SECURITY MODE REJECT (8.2.22).
    SecurityReject {
        /// The EMM cause (9.9.3.9).
        cause: u8,
    },
    /// SERVICE REQUEST (8.2.25).
    ServiceRequest,
    /// PDN CONNECTIVITY REQUEST (8.3.20).
    PdnRequest {
        /// The procedure transaction identity (9.4).
        pti: u8,
    },
    /// ACTIVATE DEFAULT EPS BEARER CONTEXT ACCEPT (8.3.4) for EPS bearer identity 6.
    PdnAccept,
}

impl NasIn {
    /// The octet of the message type (9.8). A SERVICE REQUEST has none: of it, the first octet.
    pub fn message_type(&self) -> u8
        ensures { result ≡ type_of self.now }
    {
        match self {
            NasIn::AttachRequest { .. } => 0x41,
            NasIn::AttachComplete => 0x43,
            NasIn::DetachRequest { .. } => 0x45,
            NasIn::AreaRequest { .. } => 0x48,
            NasIn::AuthResponse { .. } => 0x53,
            NasIn::SecurityComplete => 0x5e,
            NasIn::SecurityReject { .. } => 0x5f,
            NasIn::ServiceRequest => 0xc7,
            NasIn::PdnRequest { .. } => 0xd0,
            NasIn::PdnAccept => 0xc2,
        }
    }
}
