//! What a type of ASN.1 is in code.

ghost use Rattle.std.specs.Prelude.{◌≡◌, IfOk, OnOk, OnErr};
ghost use Rattle.echo_base.specs.Reading.{Gives};
ghost use Rattle.aper_fields.specs.Run.{then_written};
ghost use Rattle.aper_fields.specs.Kept.{Keeps};
ghost use Rattle.aper_fields.specs.Asn1.{AsnType, reading, run, CanBeWritten};

use aper_fields::{BitReader, BitWriter};
use echo_base::{OutOfMemory, Refusal};

/// A type of ASN.1, of values that take no memory.
pub trait Coding {
    /// How a value lies in code.
    type Value: Copy;

    /// What is asked of the numbers that the type is made with.
    ghost right: { Type 0 };

    /// The type.
    ghost asn1: { AsnType Self.Value };

    /// Reads a value, as its type gives it from left to right. It is refused for the first piece that is wrong, and then the reader
    /// has not moved.
    fn read(r: &mut BitReader) -> Result<Self::Value, Refusal>
        requires { right }
        ensures read { Gives result r.old r.new (reading asn1 r.old) }
        ensures fits { IfOk result (λ v. CanBeWritten asn1 v) };

    /// Writes a value, without iE-Extensions. Where memory runs out, what was written before still stands in front.
    fn write(w: &mut BitWriter, value: Self::Value) -> Result<(), OutOfMemory>
        requires right { right }
        requires fits { CanBeWritten asn1 value }
        ensures ok { OnOk result (w.new ≡ then_written w.old (run asn1 value)) }
        ensures kept { OnErr result (Keeps w.old w.new) };
}
