//! NAS messages of a device (3GPP TS 24.301, 8.2), octet for octet.

ghost use Rattle.std.specs.Prelude.{◌≡◌, ◌<◌};
ghost use Rattle.trace_gen.specs.Nas.{two_digits, attach_request, area_request, detach_request, authentication_response, security_complete, attach_complete, service_request};

/// RES, in an AUTHENTICATION RESPONSE (8.2.8).
pub const AUTHENTICATION_RESPONSE: [u8; 11] = [
    0x07, 0x53, 8, 0xa0, 0xa1, 0xa2, 0xa3, 0xa4, 0xa5, 0xa6, 0xa7,
];

/// SECURITY MODE COMPLETE (8.2.21), under the new security context.
pub const SECURITY_COMPLETE: [u8; 8] = [0x47, 0, 0, 0, 0, 0, 0x07, 0x5e];

/// ATTACH COMPLETE (8.2.2).
pub const ATTACH_COMPLETE: [u8; 13] = [0x27, 0, 0, 0, 0, 1, 0x07, 0x43, 0, 3, 0x52, 0x00, 0xc2];

/// SERVICE REQUEST (8.2.25).
pub const SERVICE_REQUEST: [u8; 4] = [0xc7, 0x00, 0x00, 0x00];

/// The octet of two digits of a number, the one at a power of ten and the one above it.
fn two_digits(number: u64, power: u64) -> u8
    requires some { 0 < power }
    requires most { power < 10000000000000000 }
    ensures { result ≡ two_digits number power }
{
    (16 * (number / power % 10) + number / (10 * power) % 10) as u8
}

/// ATTACH REQUEST (8.2.4) with an IMSI.
pub fn attach_request(imsi: u64) -> [u8; 21]
    ensures { result ≡ attach_request imsi }
{
    [
        0x07,
        0x41,
        0x71,
        8,
        (16 * (imsi / 100_000_000_000_000 % 10) + 9) as u8,
        two_digits(imsi, 1_000_000_000_000),
        two_digits(imsi, 10_000_000_000),
        two_digits(imsi, 100_000_000),
        two_digits(imsi, 1_000_000),
        two_digits(imsi, 10_000),
        two_digits(imsi, 100),
        two_digits(imsi, 1),
        2,
        0xe0,
        0xe0,
        0,
        4,
        0x02,
        0x01,
        0xd0,
        0x11,
    ]
}

/// TRACKING AREA UPDATE REQUEST (8.2.29) with a GUTI of that M-TMSI.
pub fn area_request(tmsi: u32) -> [u8; 15]
    ensures { result ≡ area_request tmsi }
{
    let [a, b, c, d] = tmsi.to_be_bytes();
    [
        0x07, 0x48, 0x70, 11, 0xf6, 0x02, 0xf8, 0x39, 0x00, 0x01, 0x01, a, b, c, d,
    ]
}

/// DETACH REQUEST (8.2.11.1) with a GUTI of that M-TMSI.
pub fn detach_request(tmsi: u32) -> [u8; 15]
    ensures { result ≡ detach_request tmsi }
{
    let [a, b, c, d] = tmsi.to_be_bytes();
    [
        0x07, 0x45, 0x71, 11, 0xf6, 0x02, 0xf8, 0x39, 0x00, 0x01, 0x01, a, b, c, d,
    ]
}
