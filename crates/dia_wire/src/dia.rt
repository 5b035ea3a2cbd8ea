//! A message.

ghost use Rattle.std.specs.Prelude.{◌≡◌};
ghost use Rattle.dia_wire.specs.Written.{command_code};

use device_types::Octets;

/// A message of Diameter S6a (RFC 6733, 3; 3GPP TS 29.272, 7.2).
#[derive(Debug, Drop)]
pub struct Dia {
    /// The Hop-by-Hop Identifier.
    pub hop: u32,
    /// The End-to-End Identifier.
    pub end: u32,
    /// The Session-Id, 1 to 1,000 octets.
    pub session: Octets,
    /// What it says.
    pub body: DiaBody,
}

/// What a message says.
#[derive(Debug, Drop)]
pub enum DiaBody {
    /// Authentication-Information-Request (TS 29.272, 7.2.5): the IMSI and the network that the device visits, in three octets.
    AskVectors {
        imsi: u64,
        plmn: u32,
    },
    /// Update-Location-Request (7.2.3), likewise.
    AskLocation {
        imsi: u64,
        plmn: u32,
    },
    /// Purge-UE-Request (7.2.13).
    AskPurge {
        imsi: u64,
    },
    /// Authentication-Information-Answer (7.2.6): RAND of 16 octets, XRES of 4 to 16, AUTN of 16 and KASME of 32.
    Vectors {
        rand: Octets,
        xres: Octets,
        autn: Octets,
        key: Octets,
    },
    /// Update-Location-Answer (7.2.4): the bit rates down and up, in bit/s.
    Located {
        dl: u32,
        ul: u32,
    },
    /// Purge-UE-Answer (7.2.14).
    Purged,
    /// An answer to that command with a Result-Code other than 2001 (RFC 6733, 7.1).
    Rejected {
        command: u32,
        result: u32,
    },
}

impl DiaBody {
    /// The code of the message's command (TS 29.272, 7.2.2).
    pub fn command(&self) -> u32
        ensures { result ≡ command_code self.now }
    {
        match self {
            DiaBody::AskVectors { .. } | DiaBody::Vectors { .. } => 318,
            DiaBody::AskLocation { .. } | DiaBody::Located { .. } => 316,
            DiaBody::AskPurge { .. } | DiaBody::Purged => 321,
            DiaBody::Rejected { command, .. } => *command,
        }
    }
}
