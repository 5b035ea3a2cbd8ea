//! AVPs found in octets that are known to be right, and whether an answer succeeds.

ghost use Rattle.std.specs.Prelude.{◌≡◌};
ghost use Rattle.dia_avps.specs.Finding.{found, unsigned_at, result_at, succeeded};

use crate::frame::Avps;
use crate::values::unsigned;
use tlv_elements::{Found, find};

/// The first AVP of that code and vendor.
pub fn found<'a>(code: u32, mark: u64, end: u64, octets: &'a [u8]) -> Option<Found<'a>>
    ensures { result ≡ found code mark end octets.now }
{
    find::<Avps>(end, octets, code, mark)
}

/// The number of the first AVP of that code and vendor (RFC 6733, 4.2, Unsigned32).
pub fn found_unsigned(code: u32, mark: u64, end: u64, octets: &[u8]) -> Option<u32>
    ensures { result ≡ unsigned_at code mark end octets.now }
{
    let avp = found(code, mark, end, octets)?;
    unsigned(avp.value)
}

/// The first Result-Code (RFC 6733, 7.1).
pub fn first_result(end: u64, octets: &[u8]) -> Option<u32>
    ensures { result ≡ result_at end octets.now }
{
    found_unsigned(268, 0, end, octets)
}

/// Does an answer succeed? Where its first result is 2001, DIAMETER_SUCCESS (RFC 6733, 7.1.2).
pub fn succeeded(end: u64, octets: &[u8]) -> bool
    ensures { result ≡ succeeded end octets.now }
{
    match first_result(end, octets) {
        Some(result) => result == 2001,
        None => false,
    }
}
