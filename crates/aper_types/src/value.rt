//! Values of ASN.1 types: each is read exactly by its type in ASN.1, and written whole or not at all.

ghost use Rattle.std.specs.Prelude.{◌≡◌, OnOk, OnErr};
ghost use Rattle.echo_base.specs.Reading.{Gives, GivesIn, skipping};
ghost use Rattle.aper_fields.specs.Format.{ReadsExactly};
ghost use Rattle.aper_fields.specs.Run.{then_written};
ghost use Rattle.aper_fields.specs.Kept.{Keeps};
ghost use Rattle.aper_fields.specs.Memory.{ReadsIn};
ghost use Rattle.aper_fields.specs.Asn1.{AsnType, format, reading, run, CanBeWritten};

use crate::coding::Coding;
use crate::named::{Made, Named};
use aper_fields::{BitReader, BitWriter, all_or_nothing};
use echo_base::{Bad, OutOfMemory, Refusal};
use std::alloc::Global;

/// A value of a type of ASN.1 (ITU-T X.680) that takes no memory.
pub trait PlainValue: Copy {
    /// Its type. From it follow which runs of bits spell the value, how it is read and the run with which it is written.
    ghost asn1: { AsnType Self };

    /// Reads the value. It is refused for the first piece that is wrong.
    fn read(r: &mut BitReader) -> Result<Self, Refusal>
        ensures read { Gives result r.old r.new (reading asn1 r.old) }
        ensures exact { ReadsExactly (format asn1) result r.old r.new };

    /// Writes the value, without iE-Extensions. Where memory runs out, nothing is written.
    fn write(self, w: &mut BitWriter) -> Result<(), OutOfMemory>
        requires { CanBeWritten asn1 self }
        ensures ok { OnOk result (w.new ≡ then_written w.old (run asn1 self)) }
        ensures err { OnErr result (w.new ≡ w.old) };
}

impl<T: Named> PlainValue for T {
    ghost asn1 = { T.asn1 };

    fn read(r: &mut BitReader) -> Result<T, Refusal> {
        Made::<T>::read(r)
    }

    fn write(self, w: &mut BitWriter) -> Result<(), OutOfMemory> {
        all_or_nothing(w, |w| Made::<T>::write(w, self))
    }
}

/// A value of a type of ASN.1 (ITU-T X.680) that may take memory where it is read; each that takes none is one too.
pub trait OwnedValue: Drop {
    /// Its type, as that of a `PlainValue`.
    ghost asn1: { AsnType Self };

    /// Reads the value piece by piece, as its type gives it from left to right: what a type provides for `read`. It is
    /// refused for the first piece that is wrong. After that, and where memory runs out, the reader has not moved.
    fn read_pieces(alloc: Global, r: &mut BitReader) -> Result<Self, Bad>
        ensures { GivesIn result r.old r.new (reading asn1 r.old) };

    /// Passes over the value, which is refused as `read` refuses it. It takes no memory.
    fn skip(r: &mut BitReader) -> Result<(), Refusal>
        ensures { Gives result r.old r.new (skipping (reading asn1) r.old) };

    /// Writes the value piece by piece, without iE-Extensions: what a type provides for `write`. Where memory runs out, what
    /// was written before still stands in front.
    fn write_pieces(&self, w: &mut BitWriter) -> Result<(), OutOfMemory>
        requires { CanBeWritten asn1 self.now }
        ensures ok { OnOk result (w.new ≡ then_written w.old (run asn1 self.now)) }
        ensures kept { OnErr result (Keeps w.old w.new) };

    /// Reads the value. It is refused for the first piece that is wrong. Where memory runs out, nothing is read.
    fn read(alloc: Global, r: &mut BitReader) -> Result<Self, Bad>
        ensures read { GivesIn result r.old r.new (reading asn1 r.old) }
        ensures exact { ReadsIn (format asn1) result r.old r.new }
    {
        Self::read_pieces(alloc, r)
    }

    /// Writes the value, without iE-Extensions. Where memory runs out, nothing is written.
    fn write(&self, w: &mut BitWriter) -> Result<(), OutOfMemory>
        requires { CanBeWritten asn1 self.now }
        ensures ok { OnOk result (w.new ≡ then_written w.old (run asn1 self.now)) }
        ensures err { OnErr result (w.new ≡ w.old) }
    {
        all_or_nothing(w, |w| self.write_pieces(w))
    }
}

impl<T: PlainValue> OwnedValue for T {
    ghost asn1 = { T.asn1 };

    fn read_pieces(_alloc: Global, r: &mut BitReader) -> Result<T, Bad> {
        Ok(<T as PlainValue>::read(r)?)
    }

    fn skip(r: &mut BitReader) -> Result<(), Refusal> {
        <T as PlainValue>::read(r)?;
        Ok(())
    }

    fn write_pieces(&self, w: &mut BitWriter) -> Result<(), OutOfMemory> {
        PlainValue::write(*self, w)
    }
}
