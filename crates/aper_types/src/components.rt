//! The components of a SEQUENCE.

ghost use Rattle.std.specs.Prelude.{◌≡◌, IfOk, OnOk, OnErr};
ghost use Rattle.echo_base.specs.Reading.{Gives};
ghost use Rattle.echo_base.specs.declared.reason.Reason.TheVariants as reasons;
ghost use Rattle.aper_fields.specs.Run.{then_written};
ghost use Rattle.aper_fields.specs.Kept.{Keeps};
ghost use Rattle.aper_fields.specs.Asn1.{Fields, needed, absent, also, fields_at, fields_run, FieldsFit};
ghost use Rattle.aper_types.specs.Types.{flags_of, flags_written, CanBe};

use crate::coding::Coding;
use aper_fields::{BitReader, BitWriter, read_zero_bit, write_bits_fixed};
use echo_base::{OutOfMemory, Reason, Refusal};
use std::marker::PhantomData;

/// Components of a SEQUENCE, and the bits that say which of them are present.
pub trait Components {
    /// Which are present.
    type Flags: Copy;

    /// How their values lie in code.
    type Value: Copy;

    /// What is asked of the numbers that they are made with.
    ghost right: { Type 0 };

    /// The components.
    ghost fields: { Fields Self.Flags Self.Value };

    /// Reads the bits that say what is present.
    fn read_flags(r: &mut BitReader) -> Result<Self::Flags, Refusal>
        ensures { Gives result r.old r.new (flags_of fields r.old) };

    /// Reads what is present.
    fn read_fields(r: &mut BitReader, flags: Self::Flags) -> Result<Self::Value, Refusal>
        requires { right }
        ensures read { Gives result r.old r.new (fields_at fields flags r.old) }
        ensures fits { IfOk result (λ v. CanBe fields v) };

    /// Writes the bits that say what is present. Where memory runs out, what was written before still stands in front.
    fn write_flags(w: &mut BitWriter, value: Self::Value) -> Result<(), OutOfMemory>
        ensures ok { OnOk result (w.new ≡ then_written w.old (flags_written fields value)) }
        ensures kept { OnErr result (Keeps w.old w.new) };

    /// Writes what is present. Where memory runs out, what was written before still stands in front.
    fn write_fields(w: &mut BitWriter, value: Self::Value) -> Result<(), OutOfMemory>
        requires right { right }
        requires fits { CanBe fields value }
        ensures ok { OnOk result (w.new ≡ then_written w.old (fields_run fields value)) }
        ensures kept { OnErr result (Keeps w.old w.new) };
}

/// A component that is always there.
pub struct Needed<T: Coding>(PhantomData<T>);

impl<T: Coding> Components for Needed<T> {
    type Flags = ();

    type Value = T::Value;

    ghost right = { T.right };

    ghost fields = { needed T.asn1 };

    #[tactic(auto, unfolding(crate::specs::Types::flags_of))]
    fn read_flags(_r: &mut BitReader) -> Result<(), Refusal> {
        Ok(())
    }

    #[tactic(auto, unfolding(aper_fields::specs::Asn1::fields_at))]
    fn read_fields(r: &mut BitReader, _flags: ()) -> Result<T::Value, Refusal> {
        T::read(r)
    }

    #[tactic(auto, unfolding(crate::specs::Types::flags_written))]
    fn write_flags(_w: &mut BitWriter, _value: T::Value) -> Result<(), OutOfMemory> {
        Ok(())
    }

    #[tactic(auto, unfolding(aper_fields::specs::Asn1::fields_run))]
    fn write_fields(w: &mut BitWriter, value: T::Value) -> Result<(), OutOfMemory> {
        T::write(w, value)
    }
}

/// An optional component that is not taken: it is refused as OutOfRange where it is present.
pub struct Absent;

impl Components for Absent {
    type Flags = ();

    type Value = ();

    ghost right = { Unit {0} };

    ghost fields = { absent reasons.OutOfRange };

    #[tactic(auto, unfolding(crate::specs::Types::flags_of))]
    fn read_flags(r: &mut BitReader) -> Result<(), Refusal> {
        read_zero_bit(r, Reason::OutOfRange)?;
        Ok(())
    }

    #[tactic(auto, unfolding(aper_fields::specs::Asn1::fields_at))]
    fn read_fields(_r: &mut BitReader, _flags: ()) -> Result<(), Refusal> {
        Ok(())
    }

    #[tactic(auto, unfolding(crate::specs::Types::flags_written))]
    fn write_flags(w: &mut BitWriter, _value: ()) -> Result<(), OutOfMemory> {
        write_bits_fixed(w, 0, 1)
    }

    #[tactic(auto, unfolding(aper_fields::specs::Asn1::fields_run))]
    fn write_fields(_w: &mut BitWriter, _value: ()) -> Result<(), OutOfMemory> {
        Ok(())
    }
}

impl<A: Components, B: Components> Components for (A, B) {
    type Flags = (A::Flags, B::Flags);

    type Value = (A::Value, B::Value);

    ghost right = { A.right × B.right };

    ghost fields = { also A.fields B.fields };

    #[tactic(auto, unfolding(crate::specs::Types::flags_of))]
    fn read_flags(r: &mut BitReader) -> Result<(A::Flags, B::Flags), Refusal> {
        let mut ahead = r.ahead();
        let first = A::read_flags(&mut ahead)?;
        let second = B::read_flags(&mut ahead)?;
        *r = ahead;
        Ok((first, second))
    }

    #[tactic(auto, unfolding(aper_fields::specs::Asn1::fields_at))]
    fn read_fields(
        r: &mut BitReader,
        flags: (A::Flags, B::Flags),
    ) -> Result<(A::Value, B::Value), Refusal> {
        let mut ahead = r.ahead();
        let first = A::read_fields(&mut ahead, flags.0)?;
        let second = B::read_fields(&mut ahead, flags.1)?;
        *r = ahead;
        Ok((first, second))
    }

    #[tactic(auto, unfolding(crate::specs::Types::flags_written))]
    fn write_flags(w: &mut BitWriter, value: (A::Value, B::Value)) -> Result<(), OutOfMemory> {
        A::write_flags(w, value.0)?;
        B::write_flags(w, value.1)
    }

    #[tactic(auto, unfolding(aper_fields::specs::Asn1::fields_run))]
    fn write_fields(w: &mut BitWriter, value: (A::Value, B::Value)) -> Result<(), OutOfMemory> {
        A::write_fields(w, value.0)?;
        B::write_fields(w, value.1)
    }
}
