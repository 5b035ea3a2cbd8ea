//! Writing the header of a message (RFC 6733, 3).

ghost use Rattle.std.specs.Prelude.{◌≡◌, ◌^◌, ◌<◌, ◌++◌, OnOk};
ghost use Rattle.dia_avps.specs.Header.{front_run, header_run};

use echo_base::OutOfMemory;
use tlv_elements::{put_u24, put_u32};

/// The header up to the identifiers: the version, the length, the flags, the command and the application.
fn put_front(out: &mut Vec<u8>, flags: u8, command: u32, count: u32) -> Result<(), OutOfMemory>
    requires command { command < 2 ^ 24 }
    requires count { count < 65536 }
    ensures { OnOk result (out.new.items ≡ out.old.items ++ front_run flags command count) }
{
    out.push(1)?;
    put_u24(out, 20 + count)?;
    out.push(flags)?;
    put_u24(out, command)?;
    put_u32(out, 0x0100_0023)
}

/// The header of a message of S6a with these flags, of that command, with its Hop-by-Hop and its End-to-End Identifier, whose AVPs have
/// so many octets.
pub fn put_header(
    out: &mut Vec<u8>,
    flags: u8,
    command: u32,
    hop: u32,
    end: u32,
    count: u32,
) -> Result<(), OutOfMemory>
    requires command { command < 2 ^ 24 }
    requires count { count < 65536 }
    ensures { OnOk result (out.new.items ≡ out.old.items ++ header_run flags command hop end count) }
{
    put_front(out, flags, command, count)?;
    put_u32(out, hop)?;
    put_u32(out, end)
}
