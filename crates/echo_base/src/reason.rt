//! Why input is refused.
ghost use Rattle.std.specs.Prelude.{◌≡◌};
ghost use Rattle.echo_base.specs.Reason.{reason_number, name_of_number, reason_name, shown_of};

use crate::column::Column;
use crate::identity::Identity;

/// Why input is refused. Each reason has a number, in this order: from 1 on, from 40 on those of GTPv2-C, and from 50 on those of
/// Diameter.
#[derive(Clone, Copy, Debug, PartialEq, Eq)]
pub enum Reason {
    /// The octets end within a field.
    Truncated,
    /// A length below 128 that is written in two octets (ITU-T X.691, 11.9).
    LongLength,
    /// A padding bit that is not 0.
    NonZeroPadding,
    /// A number in more octets than it needs.
    NotMinimal,
    /// A value that its constraint excludes.
    OutOfRange,
    /// A length in fragments, of 16,384 or more (ITU-T X.691, 11.9), or more than the limit.
    TooLong,
    /// The extension bit of a SEQUENCE is set.
    SequenceExtension,
    /// An alternative that the CHOICE lacks, or that is not supported.
    BadChoice,
    /// A procedure that is not supported, with its code (3GPP TS 36.413).
    OtherProcedure(u8),
    /// The two bits of a criticality are 11, which is none of reject, ignore and notify (3GPP TS 36.413, 10.3.2).
    BadCriticality,
    /// A mandatory information element is missing, or stands as another one in a list, with its id.
    MissingIe(u16),
    /// An information element comes twice, with its id.
    RepeatedIe(u16),
    /// Octets follow the value of a message, of an information element, or of another container.
    TrailingBytes,
    /// A message that an MME sends, and does not receive.
    WrongDirection,
    /// A NAS message ends too soon (3GPP TS 24.301).
    NasShort,
    /// Another protocol discriminator than that of EPS mobility management.
    NasDiscriminator,
    /// A NAS message type that is not supported, or does not belong here.
    NasKind(u8),
    /// A mobile identity that is malformed or not supported.
    NasIdentity,
    /// A subscriber line that is no JSON object.
    BadJson,
    /// A column of the subscriber table is missing.
    MissingColumn(Column),
    /// A column of a wrong kind or range.
    BadColumn(Column),
    /// An IMSI of an earlier row.
    RepeatedImsi,
    /// An M-TMSI of an earlier row.
    RepeatedTmsi,
    /// The subscriber table has no room.
    TableFull,
    /// A heading that is unknown, repeated or misplaced.
    BadSection,
    /// A line of another form than its section's.
    BadLine,
    /// More lines than a section may have.
    TooManyLines,
    /// A line that is too long.
    LineTooLong,
    /// Text that is not hexadecimal.
    BadHex,
    /// A device that the subscriber table lacks.
    UnknownDevice(Identity),
    /// A base station and an eNB-UE-S1AP-ID that are not bound to the device.
    UnknownPair(u16, u32),
    /// A session of another form than its own.
    BadSession,
    /// The first octet of a GTPv2-C message is not that of version 2 with a TEID and no piggybacked message (3GPP TS 29.274, 5.1).
    GtpHeader,
    /// A GTPv2-C message type that is not supported (TS 29.274, 6.1).
    GtpType(u8),
    /// A GTPv2-C information element of another form than its type's, with its type (TS 29.274, 8).
    GtpValue(u8),
    /// The version of a Diameter message is not 1, or its application not S6a (RFC 6733, 3; 3GPP TS 29.272, 7.1.8).
    DiaHeader,
    /// A Diameter command that is not supported, with its code (TS 29.272, 7.2.2).
    DiaCommand(u32),
    /// An AVP of another form than its code's, with its code.
    DiaAvp(u32),
    /// A needed AVP is missing, with its code.
    MissingAvp(u32),
    /// A needed AVP comes twice, with its code.
    RepeatedAvp(u32),
}

/// What of a reason is printed behind its name.
#[derive(Clone, Copy)]
pub(crate) enum Shown {
    /// Nothing.
    Nothing,
    /// The place of the refusal.
    Placed,
    /// A number, and the place.
    Code(u32),
    /// An octet.
    Octet(u8),
    /// An identity of a device.
    Device(Identity),
    /// A base station, and an eNB UE S1AP ID there.
    Pair(u16, u32),
}

impl Reason {
    /// What is printed behind the name.
    pub(crate) fn shown(self) -> Shown
        ensures { result ≡ shown_of self }
    {
        match self {
            Reason::Truncated
            | Reason::LongLength
            | Reason::NonZeroPadding
            | Reason::NotMinimal
            | Reason::OutOfRange
            | Reason::TooLong
            | Reason::SequenceExtension
            | Reason::BadChoice
            | Reason::BadCriticality
            | Reason::TrailingBytes
            | Reason::WrongDirection
            | Reason::GtpHeader
            | Reason::DiaHeader => Shown::Placed,
            Reason::OtherProcedure(code) | Reason::GtpType(code) | Reason::GtpValue(code) => {
                Shown::Code(u32::from(code))
            }
            Reason::MissingIe(id) | Reason::RepeatedIe(id) => Shown::Code(u32::from(id)),
            Reason::DiaCommand(command) => Shown::Code(command),
            Reason::DiaAvp(avp) | Reason::MissingAvp(avp) | Reason::RepeatedAvp(avp) => {
                Shown::Code(avp)
            }
            Reason::NasKind(octet) => Shown::Octet(octet),
            Reason::UnknownDevice(identity) => Shown::Device(identity),
            Reason::UnknownPair(station, enb) => Shown::Pair(station, enb),
            _ => Shown::Nothing,
        }
    }

    /// The reason's number.
    pub fn number(&self) -> u8
        ensures { result ≡ reason_number self.now }
    {
        match self {
            Reason::Truncated => 1,
            Reason::LongLength => 2,
            Reason::NonZeroPadding => 3,
            Reason::NotMinimal => 4,
            Reason::OutOfRange => 5,
            Reason::TooLong => 6,
            Reason::SequenceExtension => 7,
            Reason::BadChoice => 8,
            Reason::OtherProcedure(_) => 9,
            Reason::BadCriticality => 10,
            Reason::MissingIe(_) => 11,
            Reason::RepeatedIe(_) => 12,
            Reason::TrailingBytes => 13,
            Reason::WrongDirection => 14,
            Reason::NasShort => 15,
            Reason::NasDiscriminator => 16,
            Reason::NasKind(_) => 17,
            Reason::NasIdentity => 18,
            Reason::BadJson => 19,
            Reason::MissingColumn(_) => 20,
            Reason::BadColumn(_) => 21,
            Reason::RepeatedImsi => 22,
            Reason::RepeatedTmsi => 23,
            Reason::TableFull => 24,
            Reason::BadSection => 25,
            Reason::BadLine => 26,
            Reason::TooManyLines => 27,
            Reason::LineTooLong => 28,
            Reason::BadHex => 29,
            Reason::UnknownDevice(_) => 30,
            Reason::UnknownPair(_, _) => 31,
            Reason::BadSession => 32,
            Reason::GtpHeader => 40,
            Reason::GtpType(_) => 41,
            Reason::GtpValue(_) => 42,
            Reason::DiaHeader => 50,
            Reason::DiaCommand(_) => 51,
            Reason::DiaAvp(_) => 52,
            Reason::MissingAvp(_) => 53,
            Reason::RepeatedAvp(_) => 54,
        }
    }

    /// The reason's bare name.
    pub fn name(&self) -> &'static str
        ensures { result.now ≡ reason_name self.now }
    {
        name_of_number(self.number())
    }
}

/// The bare name of the reason with that number, and nothing where no reason has it.
pub fn name_of_number(number: u8) -> &'static str
    ensures { result.now ≡ name_of_number number }
{
    match number {
        1 => "Truncated",
        2 => "LongLength",
        3 => "NonZeroPadding",
        4 => "NotMinimal",
        5 => "OutOfRange",
        6 => "TooLong",
        7 => "SequenceExtension",
        8 => "BadChoice",
        9 => "OtherProcedure",
        10 => "BadCriticality",
        11 => "MissingIe",
        12 => "RepeatedIe",
        13 => "TrailingBytes",
        14 => "WrongDirection",
        15 => "NasShort",
        16 => "NasDiscriminator",
        17 => "NasKind",
        18 => "NasIdentity",
        19 => "BadJson",
        20 => "MissingColumn",
        21 => "BadColumn",
        22 => "RepeatedImsi",
        23 => "RepeatedTmsi",
        24 => "TableFull",
        25 => "BadSection",
        26 => "BadLine",
        27 => "TooManyLines",
        28 => "LineTooLong",
        29 => "BadHex",
        30 => "UnknownDevice",
        31 => "UnknownPair",
        32 => "BadSession",
        40 => "GtpHeader",
        41 => "GtpType",
        42 => "GtpValue",
        50 => "DiaHeader",
        51 => "DiaCommand",
        52 => "DiaAvp",
        53 => "MissingAvp",
        54 => "RepeatedAvp",
        _ => "",
    }
}
