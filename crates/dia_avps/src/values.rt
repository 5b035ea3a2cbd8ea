//! The values of AVPs (RFC 6733, 4.2, 4.3 and 8; 3GPP TS 29.272, 7.3). Each is exact: a value that is longer or shorter is none.

ghost use Rattle.std.specs.Prelude.{◌≡◌, ◌/◌, ◌%◌, ◌^◌, ◌<◌, ◌≤◌, IfSome, option_map, length};
ghost use Rattle.dia_avps.specs.Values.{sized, session, unsigned, plmn, plmn_of, digit_of, imsi};

use echo_base::{Reason, Refusal};
use tlv_elements::{Digit, Left, number_of};

/// What is due inside a value: whatever it is, its AVP is told to be of wrong form.
const DUE: Refusal = Refusal {
    reason: Reason::Truncated,
    place: 0,
};

/// Octets, from so many to so many (RFC 6733, 4.2, OctetString).
pub fn sized(octets: &[u8], least: usize, most: usize) -> Option<&[u8]>
    ensures value { option_map (λ v. v.now) result ≡ (sized least most).decode octets.now }
    ensures range { IfSome result (λ v. (least ≤ length v.now) × (length v.now ≤ most)) }
{
    let size = octets.len();
    if size < least {
        return None;
    }
    if size > most {
        return None;
    }
    Some(octets)
}

/// The Session-Id (8.8), of 1 to 1,000 octets.
pub fn session(octets: &[u8]) -> Option<&[u8]>
    ensures value { option_map (λ v. v.now) result ≡ session.decode octets.now }
    ensures range { IfSome result (λ v. (1 ≤ length v.now) × (length v.now ≤ 1000)) }
{
    sized(octets, 1, 1000)
}

/// A number of four octets (4.2, Unsigned32).
#[tactic(auto, unfolding(tlv_elements::specs::Piece::piece_at))]
pub fn unsigned(octets: &[u8]) -> Option<u32>
    ensures { result ≡ unsigned.decode octets.now }
{
    let mut left = Left::new(octets);
    let n = left.u32(DUE).ok()?;
    if !left.is_empty() {
        return None;
    }
    Some(n)
}

/// A Visited-PLMN-Id (TS 29.272, 7.3.9), as a number of three octets.
#[tactic(auto, unfolding(tlv_elements::specs::Piece::piece_at))]
pub fn plmn(octets: &[u8]) -> Option<u32>
    ensures value { result ≡ plmn.decode octets.now }
    ensures range { IfSome result (λ n. n < 2 ^ 24) }
{
    let mut left = Left::new(octets);
    let n = left.u24(DUE).ok()?;
    if !left.is_empty() {
        return None;
    }
    Some(n)
}

/// The digit of an IMSI that counts so much.
fn digit_at(imsi: u64, unit: u64) -> u32
    requires { 1 ≤ unit }
    ensures value { result ≡ imsi / unit % 10 }
    ensures range { result < 10 }
{
    (imsi / unit % 10) as u32
}

/// The network of an IMSI whose network code has two digits, of its first five digits (TS 29.272, 7.3.9).
pub fn plmn_of(imsi: u64) -> u32
    ensures value { result ≡ plmn_of imsi }
    ensures range { result < 2 ^ 24 }
{
    let first = 16 * digit_at(imsi, 10_000_000_000_000) + digit_at(imsi, 100_000_000_000_000);
    let second = 240 + digit_at(imsi, 1_000_000_000_000);
    let third = 16 * digit_at(imsi, 10_000_000_000) + digit_at(imsi, 100_000_000_000);
    65536 * first + 256 * second + third
}

/// A decimal digit in ASCII.
struct Decimal;

impl Digit for Decimal {
    ghost base = { 10 };

    ghost digit = { digit_of };

    fn base() -> u64 {
        10
    }

    fn read(octet: u8) -> Option<u8> {
        if octet < 48 {
            return None;
        }
        if octet > 57 {
            return None;
        }
        Some(octet - 48)
    }
}

/// The IMSI of a User-Name (RFC 6733, 8.14).
#[tactic(auto, unfolding(crate::specs::Values::imsi_decode))]
pub fn imsi(octets: &[u8]) -> Option<u64>
    ensures value { result ≡ imsi.decode octets.now }
    ensures range { IfSome result (λ n. n < 10 ^ 15) }
{
    if octets.len() != 15 {
        return None;
    }
    number_of::<Decimal>(octets)
}
