//! EPS mobile identities (3GPP TS 24.301, 9.9.3.12).

ghost use Rattle.std.specs.Prelude.{◌≡◌, ◌<◌, length};
ghost use Rattle.nas_kinds.specs.Reading.{decimal_from, imsi_of, guti_of, identity_of};
ghost use Rattle.nas_kinds.specs.Identity.{halves};

use echo_base::Identity;

/// The decimal number that goes on with the digits in the halves of the octets, the low half of each first. None where a
/// half is no digit.
fn with_digits(first: u8, octets: &[u8]) -> Option<u64>
    requires digit { first < 10 }
    requires few { length octets.now ≡ 7 }
    ensures { result ≡ decimal_from first (halves octets.now) }
{
    let mut number = u64::from(first);
    for octet in octets {
        let low = octet & 0x0f;
        if low > 9 {
            return None;
        }
        let high = octet >> 4;
        if high > 9 {
            return None;
        }
        number = 100 * number + 10 * u64::from(low) + u64::from(high);
    }
    Some(number)
}

/// The IMSI that the octets are, if any.
#[tactic(auto, using(std::proofs::lemmas::Nat::and_mask))]
fn imsi_of(octets: &[u8]) -> Option<u64>
    ensures { result ≡ imsi_of octets.now }
{
    let [first, others @ ..] = octets else {
        return None;
    };
    if others.len() != 7 {
        return None;
    }
    if first & 0x0f != 9 {
        return None;
    }
    if first >> 4 > 9 {
        return None;
    }
    with_digits(first >> 4, others)
}

/// The M-TMSI of the GUTI that the octets are, if any.
fn guti_of(octets: &[u8]) -> Option<u32>
    ensures { result ≡ guti_of octets.now }
{
    match octets {
        [0xf6, _, _, _, _, _, _, a, b, c, d] => Some(u32::from_be_bytes([*a, *b, *c, *d])),
        _ => None,
    }
}

/// The identity that the octets are, if any.
#[tactic(auto, unfolding(crate::specs::Reading::identity_of))]
pub fn identity_of(octets: &[u8]) -> Option<Identity>
    ensures { result ≡ identity_of octets.now }
{
    if let Some(imsi) = imsi_of(octets) {
        return Some(Identity::Imsi(imsi));
    }
    if let Some(tmsi) = guti_of(octets) {
        return Some(Identity::Tmsi(tmsi));
    }
    None
}
