//! Writing messages.

ghost use Rattle.std.specs.Prelude.{◌≡◌, IfOk};
ghost use Rattle.s1ap_pdu.specs.Run.{written, IsRight};

use crate::usual::write_usual;
use device_types::Octets;
use echo_base::OutOfMemory;
use s1ap_pdu::{Pdu, write_pieces};
use std::alloc::Global;

/// Writes a message: its IEs in the order of its table (TS 36.413, 9.1), each with the criticality of the table, and no
/// other. Its fields have to be in their ranges, and no open type, as it is written, may have more than 16,383 octets (`small_is_right` says of
/// which messages this surely holds). It fails for want of memory alone.
///
/// ```rust
/// let pdu = Pdu::UeContextReleaseComplete { mme: 1, enb: 1 };
/// let octets = write_pdu(alloc, &pdu)?;
/// assert_eq!(rt; hex::encode(alloc, octets.items())?.as_str(), "2017000f000002000040020001000840020001");
/// ```
pub fn write_pdu(alloc: Global, p: &Pdu) -> Result<Octets, OutOfMemory>
    requires { IsRight p.now }
    ensures { IfOk result (λ octets. octets ≡ written p.now) }
{
    if let Some(octets) = write_usual(alloc, p)? {
        return Ok(octets);
    }
    write_pieces(alloc, p)
}
