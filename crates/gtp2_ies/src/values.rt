//! The values of information elements (3GPP TS 29.274, 8). A value may be longer than it is known to be, and its rest is not read;
//! an IMSI and an access point name are exact.

ghost use Rattle.std.specs.Prelude.{◌≡◌, ◌^◌, ◌<◌, ◌≤◌, IfSome, option_map, length};
ghost use Rattle.gtp2_ies.specs.Values.{exactly, cause, ebi, fteid, address, no_address, rates, qos, apn, imsi, pair_of};

use echo_base::{Reason, Refusal};
use tlv_elements::{Digit, Left, number_of};

/// What is due inside a value: whatever it is, its element is told to be of wrong form.
const DUE: Refusal = Refusal {
    reason: Reason::Truncated,
    place: 0,
};

/// The value where only this octet is taken (8.17, 8.34).
#[tactic(auto, unfolding(tlv_elements::specs::Piece::piece_at))]
pub fn exactly(octets: &[u8], wanted: u8) -> Option<()>
    ensures { result ≡ (exactly wanted).decode octets.now }
{
    let mut left = Left::new(octets);
    left.given(DUE, wanted).ok()
}

/// The cause (8.4).
#[tactic(auto, unfolding(tlv_elements::specs::Piece::piece_at))]
pub fn cause(octets: &[u8]) -> Option<u8>
    ensures { result ≡ cause.decode octets.now }
{
    let mut left = Left::new(octets);
    let cause = left.octet(DUE).ok()?;
    left.given(DUE, 0).ok()?;
    Some(cause)
}

/// The bearer (8.8).
#[tactic(auto, unfolding(tlv_elements::specs::Piece::piece_at))]
pub fn ebi(octets: &[u8]) -> Option<u8>
    ensures value { result ≡ ebi.decode octets.now }
    ensures range { IfSome result (λ bearer. (5 ≤ bearer) × (bearer ≤ 6)) }
{
    let mut left = Left::new(octets);
    let bearer = left.octet(DUE).ok()?;
    if bearer < 5 || 6 < bearer {
        return None;
    }
    Some(bearer)
}

/// The TEID and the address of an F-TEID (8.22) of that interface.
#[tactic(auto, unfolding(tlv_elements::specs::Piece::piece_at))]
pub fn fteid(octets: &[u8], whose: u8) -> Option<(u32, u32)>
    ensures { result ≡ (fteid whose).decode octets.now }
{
    let mut left = Left::new(octets);
    left.given(DUE, whose).ok()?;
    let teid = left.u32(DUE).ok()?;
    let addr = left.u32(DUE).ok()?;
    Some((teid, addr))
}

/// The address of an allocation (8.14).
#[tactic(auto, unfolding(tlv_elements::specs::Piece::piece_at))]
pub fn address(octets: &[u8]) -> Option<u32>
    ensures { result ≡ address.decode octets.now }
{
    let mut left = Left::new(octets);
    left.given(DUE, 1).ok()?;
    left.u32(DUE).ok()
}

/// The address of an allocation that leaves it to the network, which is 0.
#[tactic(auto, unfolding(tlv_elements::specs::Piece::piece_at))]
pub fn no_address(octets: &[u8]) -> Option<u32>
    ensures { result ≡ no_address.decode octets.now }
{
    let mut left = Left::new(octets);
    left.given(DUE, 1).ok()?;
    let addr = left.u32(DUE).ok()?;
    if addr > 0 {
        return None;
    }
    Some(addr)
}

/// The bit rates up and down (8.7), in kbit/s.
#[tactic(auto, unfolding(tlv_elements::specs::Piece::piece_at))]
pub fn rates(octets: &[u8]) -> Option<(u32, u32)>
    ensures { result ≡ rates.decode octets.now }
{
    let mut left = Left::new(octets);
    let ul = left.u32(DUE).ok()?;
    let dl = left.u32(DUE).ok()?;
    Some((ul, dl))
}

/// A quality of service (8.15), which is not looked at.
#[tactic(auto, unfolding(tlv_elements::specs::Piece::piece_at))]
pub fn qos(octets: &[u8]) -> Option<()>
    ensures { result ≡ qos.decode octets.now }
{
    let mut left = Left::new(octets);
    left.octets(DUE, 22).ok()?;
    Some(())
}

/// The access point name (8.6), which is one label.
#[tactic(auto, unfolding(tlv_elements::specs::Piece::piece_at, echo_base::specs::Field::counted_at))]
pub fn apn(octets: &[u8]) -> Option<&[u8]>
    ensures value { option_map (λ text. text.now) result ≡ apn.decode octets.now }
    ensures range { IfSome result (λ text. (1 ≤ length text.now) × (length text.now ≤ 30)) }
{
    let mut left = Left::new(octets);
    let count = left.octet(DUE).ok()?;
    let text = left.octets(DUE, usize::from(count)).ok()?;
    if text.is_empty() || 30 < text.len() {
        return None;
    }
    left.end(DUE).ok()?;
    Some(text)
}

/// Two decimal digits, the first in the low half of the octet (8.3, TBCD).
struct Tbcd;

impl Digit for Tbcd {
    ghost base = { 100 };

    ghost digit = { pair_of };

    fn base() -> u64 {
        100
    }

    fn read(octet: u8) -> Option<u8> {
        let first = octet % 16;
        let second = octet / 16;
        if first > 9 || second > 9 {
            return None;
        }
        Some(10 * first + second)
    }
}

/// The IMSI (8.3).
#[tactic(auto, unfolding(crate::specs::Values::imsi_decode))]
pub fn imsi(octets: &[u8]) -> Option<u64>
    ensures value { result ≡ imsi.decode octets.now }
    ensures range { IfSome result (λ n. n < 10 ^ 15) }
{
    if octets.len() != 8 {
        return None;
    }
    let n = number_of::<Tbcd>(&octets[..7])?;
    let last = octets[7];
    if last % 16 > 9 || last / 16 != 15 {
        return None;
    }
    Some(10 * n + u64::from(last % 16))
}
