//! Picking an element out of octets.

ghost use Rattle.std.specs.Prelude.{◌≡◌, IfSome};
ghost use Rattle.gtp2_ies.specs.Picking.{found, other_than_16, rejecting};

use crate::frame::Ies;
use tlv_elements::{Found, find};

/// The first element of that type and instance 0.
pub fn found<'a>(tag: u32, end: u64, octets: &'a [u8]) -> Option<Found<'a>>
    ensures { result ≡ found tag end octets.now }
{
    find::<Ies>(end, octets, tag, 0)
}

/// The first octet, where it is another one than 16.
fn other_than_16(octets: &[u8]) -> Option<u8>
    ensures cause { result ≡ other_than_16 octets.now }
    ensures other { IfSome result (λ cause. cause ≡ 16 → ⊥) }
{
    let (cause, _) = octets.split_first()?;
    if *cause == 16 {
        return None;
    }
    Some(*cause)
}

/// The first cause outside of groups, where it is another one than 16, "request accepted" (3GPP TS 29.274, 8.4).
pub fn rejecting(end: u64, octets: &[u8]) -> Option<u8>
    ensures cause { result ≡ rejecting end octets.now }
    ensures other { IfSome result (λ cause. cause ≡ 16 → ⊥) }
{
    let cause = found(2, end, octets)?;
    other_than_16(cause.value)
}
