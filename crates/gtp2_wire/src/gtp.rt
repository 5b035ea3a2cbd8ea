//! A message.

ghost use Rattle.std.specs.Prelude.{◌≡◌};
ghost use Rattle.gtp2_wire.specs.Written.{type_octet};

use device_types::Octets;

/// A message of GTPv2-C (3GPP TS 29.274, 5.1).
#[derive(Debug, Drop)]
pub struct Gtp {
    /// The tunnel endpoint identifier of the receiver.
    pub teid: u32,
    /// The sequence number, below 2^24.
    pub seq: u32,
    /// What it says.
    pub body: GtpBody,
}

/// What a message says.
#[derive(Debug, Drop)]
pub enum GtpBody {
    /// Create Session Request (7.2.1): the IMSI, the bearer, the access point name, the bit rates up and down in kbit/s, and the
    /// sender's control address and TEID.
    Create {
        imsi: u64,
        ebi: u8,
        apn: Octets,
        ul: u32,
        dl: u32,
        addr: u32,
        control: u32,
    },
    /// Create Session Response (7.2.2): the gateway's control address and TEID, the device's address, the bearer, and the
    /// gateway's address and TEID of the bearer.
    Created {
        control_addr: u32,
        control: u32,
        ip: u32,
        ebi: u8,
        addr: u32,
        teid: u32,
    },
    /// Modify Bearer Request (7.2.7): the bearer, and the base station's address and TEID.
    Modify {
        ebi: u8,
        addr: u32,
        teid: u32,
    },
    /// Modify Bearer Response (7.2.8).
    Modified {
        ebi: u8,
    },
    /// Delete Session Request (7.2.9.1).
    Delete {
        ebi: u8,
    },
    /// Delete Session Response (7.2.10.1).
    Deleted,
    /// Release Access Bearers Request (7.2.21).
    Release,
    /// Release Access Bearers Response (7.2.22).
    Released,
    /// An answer of this type with a cause other than 16 (8.4).
    Rejected {
        kind: u8,
        cause: u8,
    },
}

impl GtpBody {
    /// The type of the message (6.1).
    pub fn message_type(&self) -> u8
        ensures { result ≡ type_octet self.now }
    {
        match self {
            GtpBody::Create { .. } => 32,
            GtpBody::Created { .. } => 33,
            GtpBody::Modify { .. } => 34,
            GtpBody::Modified { .. } => 35,
            GtpBody::Delete { .. } => 36,
            GtpBody::Deleted => 37,
            GtpBody::Release => 170,
            GtpBody::Released => 171,
            GtpBody::Rejected { kind, .. } => *kind,
        }
    }
}
