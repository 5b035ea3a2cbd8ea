//! Writing numbers, the highest octet first, behind what was written.

ghost use Rattle.std.specs.Prelude.{◌≡◌, ◌^◌, ◌<◌, ◌++◌, OnOk};
ghost use Rattle.echo_base.specs.Field.{number_run};

use byteorder::{BigEndian, ByteOrder};
use echo_base::OutOfMemory;

/// A number of two octets.
pub fn put_u16(out: &mut Vec<u8>, n: u16) -> Result<(), OutOfMemory>
    ensures { OnOk result (out.new.items ≡ out.old.items ++ number_run 2 n) }
{
    let mut octets = [0; 2];
    BigEndian::write_u16(&mut octets, n);
    out.extend_from_slice(&octets)
}

/// A number of three octets.
pub fn put_u24(out: &mut Vec<u8>, n: u32) -> Result<(), OutOfMemory>
    requires { n < 2 ^ 24 }
    ensures { OnOk result (out.new.items ≡ out.old.items ++ number_run 3 n) }
{
    let mut octets = [0; 3];
    BigEndian::write_u24(&mut octets, n);
    out.extend_from_slice(&octets)
}

/// A number of four octets.
pub fn put_u32(out: &mut Vec<u8>, n: u32) -> Result<(), OutOfMemory>
    ensures { OnOk result (out.new.items ≡ out.old.items ++ number_run 4 n) }
{
    let mut octets = [0; 4];
    BigEndian::write_u32(&mut octets, n);
    out.extend_from_slice(&octets)
}
