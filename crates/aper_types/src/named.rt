//! Values of code that are those of a type under names of their own.

ghost use Rattle.std.specs.Prelude.{◌≡◌, IfOk, OnOk, OnErr};
ghost use Rattle.echo_base.specs.Reading.{Gives};
ghost use Rattle.aper_fields.specs.Run.{then_written};
ghost use Rattle.aper_fields.specs.Kept.{Keeps};
ghost use Rattle.aper_fields.specs.Asn1.{AsnType, Same, named, reading, run, CanBeWritten};
ghost use Rattle.aper_types.specs.Made.{IsMadeOf};

use crate::coding::Coding;
use aper_fields::{BitReader, BitWriter};
use echo_base::{OutOfMemory, Refusal};
use std::marker::PhantomData;

/// A type of code whose values are those of a type of ASN.1, under names of their own.
pub trait Named: Copy {
    /// The type of ASN.1 in code.
    type Type: Coding;

    /// The type of ASN.1, with the names.
    ghost asn1: { AsnType Self };

    /// That the values are the same.
    ghost same: { Same Self.Type.Value Self };

    /// The value of these parts.
    fn make(parts: <Self::Type as Coding>::Value) -> Self
        requires { CanBeWritten Self.Type.asn1 parts }
        ensures { result ≡ same.make parts };

    /// The parts of the value.
    fn parts(self) -> <Self::Type as Coding>::Value
        ensures { result ≡ same.parts self };

    /// The type in code is that type, but for the names.
    ghost made: { IsMadeOf asn1 Self.Type.asn1 same };

    /// The numbers that the type in code is made with are right.
    ghost right: { Self.Type.right };
}

/// Reads the parts of a value, and gives the value.
#[tactic(auto, unfolding(aper_fields::specs::Asn1::reading))]
fn read_made<T: Named>(r: &mut BitReader) -> Result<T, Refusal>
    requires { T.Type.right }
    ensures read { Gives result r.old r.new (reading (named T.same T.Type.asn1) r.old) }
    ensures fits { IfOk result (λ v. (parts : _) × (v ≡ T.same.make parts) × CanBeWritten T.Type.asn1 parts) }
{
    Ok(T::make(T::Type::read(r)?))
}

/// Writes the parts of a value.
#[tactic(auto, unfolding(aper_fields::specs::Asn1::run))]
fn write_made<T: Named>(w: &mut BitWriter, value: T) -> Result<(), OutOfMemory>
    requires right { T.Type.right }
    requires fits { CanBeWritten T.Type.asn1 (T.same.parts value) }
    ensures ok { OnOk result (w.new ≡ then_written w.old (run (named T.same T.Type.asn1) value)) }
    ensures kept { OnErr result (Keeps w.old w.new) }
{
    T::Type::write(w, value.parts())
}

/// The type of ASN.1 of which T's values are.
pub struct Made<T: Named>(PhantomData<T>);

impl<T: Named> Coding for Made<T> {
    type Value = T;

    ghost right = { T.Type.right };

    ghost asn1 = { T.asn1 };

    fn read(r: &mut BitReader) -> Result<T, Refusal> {
        read_made(r)
    }

    fn write(w: &mut BitWriter, value: T) -> Result<(), OutOfMemory> {
        write_made(w, value)
    }
}
