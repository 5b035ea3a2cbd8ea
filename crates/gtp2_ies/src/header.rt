//! The header of a message, written.

ghost use Rattle.std.specs.Prelude.{◌≡◌, ◌+◌, ◌^◌, ◌<◌, [], ◌∷◌, ◌++◌, OnOk};
ghost use Rattle.echo_base.specs.Field.{number_run};

use echo_base::OutOfMemory;
use tlv_elements::{put_u16, put_u24, put_u32};

/// The header of a message of that type (3GPP TS 29.274, 5.1), whose elements have so many octets.
pub fn put_header(
    out: &mut Vec<u8>,
    kind: u8,
    count: u16,
    teid: u32,
    seq: u32,
) -> Result<(), OutOfMemory>
    requires count { 8 + count < 65536 }
    requires seq { seq < 2 ^ 24 }
    ensures { OnOk result (out.new.items ≡ out.old.items ++ (0x48 ∷ kind ∷ (number_run 2 (8 + count) ++ (number_run 4 teid ++ (number_run 3 seq ++ (0 ∷ [])))))) }
{
    out.push(0x48)?;
    out.push(kind)?;
    put_u16(out, 8 + count)?;
    put_u32(out, teid)?;
    put_u24(out, seq)?;
    out.push(0)?;
    Ok(())
}
