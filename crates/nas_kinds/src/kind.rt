//! What the first octets and the message types of NAS messages say.

ghost use Rattle.std.specs.Prelude.{◌≡◌};
ghost use Rattle.nas_kinds.specs.Reading.{protocol_of, header_of, kind_of, session_kind_of};

/// The protocol of a plain message (3GPP TS 24.301, 9.2).
#[derive(Clone, Copy, Debug, PartialEq, Eq)]
pub enum Protocol {
    /// EPS mobility management.
    Mobility,
    /// EPS session management.
    Session {
        /// The EPS bearer identity (9.3.2).
        bearer: u8,
    },
}

/// What the first octet of a NAS message says (9.2, 9.3.1 and 9.3.2).
#[derive(Clone, Copy, Debug, PartialEq, Eq)]
pub enum Header {
    /// A plain message.
    Plain(Protocol),
    /// A plain message behind a message authentication code and a sequence number.
    Protected,
    /// A SERVICE REQUEST.
    Service,
}

/// The plain messages of mobility management that are read.
#[derive(Clone, Copy, Debug, PartialEq, Eq)]
pub enum Kind {
    /// ATTACH REQUEST.
    AttachRequest,
    /// ATTACH COMPLETE.
    AttachComplete,
    /// DETACH REQUEST.
    DetachRequest,
    /// TRACKING AREA UPDATE REQUEST.
    AreaRequest,
    /// AUTHENTICATION RESPONSE.
    AuthResponse,
    /// SECURITY MODE COMPLETE.
    SecurityComplete,
    /// SECURITY MODE REJECT.
    SecurityReject,
}

/// The messages of session management that are read.
#[derive(Clone, Copy, Debug, PartialEq, Eq)]
pub enum SessionKind {
    /// PDN CONNECTIVITY REQUEST.
    PdnRequest,
    /// ACTIVATE DEFAULT EPS BEARER CONTEXT ACCEPT.
    PdnAccept,
}

/// What the first octet of a plain message says, if anything.
#[tactic(auto, using(std::proofs::lemmas::Nat::and_mask), unfolding(crate::specs::Reading::protocol_of))]
pub fn protocol_of(octet: u8) -> Option<Protocol>
    ensures { result ≡ protocol_of octet }
{
    if octet == 0x07 {
        return Some(Protocol::Mobility);
    }
    if octet & 0x0f == 2 {
        return Some(Protocol::Session { bearer: octet >> 4 });
    }
    None
}

/// What a first octet says, if anything.
#[tactic(auto, unfolding(crate::specs::Reading::header_of))]
pub fn header_of(octet: u8) -> Option<Header>
    ensures { result ≡ header_of octet }
{
    match octet {
        0x17 | 0x27 | 0x37 | 0x47 => Some(Header::Protected),
        0xc7 => Some(Header::Service),
        _ => protocol_of(octet).map(Header::Plain),
    }
}

/// The message of mobility management of that type (9.8), if it is read.
#[tactic(auto, unfolding(crate::specs::Reading::kind_of))]
pub fn kind_of(octet: u8) -> Option<Kind>
    ensures { result ≡ kind_of octet }
{
    match octet {
        0x41 => Some(Kind::AttachRequest),
        0x43 => Some(Kind::AttachComplete),
        0x45 => Some(Kind::DetachRequest),
        0x48 => Some(Kind::AreaRequest),
        0x53 => Some(Kind::AuthResponse),
        0x5e => Some(Kind::SecurityComplete),
        0x5f => Some(Kind::SecurityReject),
        _ => None,
    }
}

/// The message of session management of that type (9.8), if it is read for that bearer.
#[tactic(auto, unfolding(crate::specs::Reading::session_kind_of))]
pub fn session_kind_of(bearer: u8, octet: u8) -> Option<SessionKind>
    ensures { result ≡ session_kind_of bearer octet }
{
    if octet == 0xd0 {
        return Some(SessionKind::PdnRequest);
    }
    if octet == 0xc2 && bearer == 6 {
        return Some(SessionKind::PdnAccept);
    }
    None
}
