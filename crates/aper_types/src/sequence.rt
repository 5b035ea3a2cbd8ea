//! SEQUENCEs with extension mark and iE-Extensions.

ghost use Rattle.std.specs.Prelude.{◌≡◌, IfOk, OnOk, OnErr};
ghost use Rattle.echo_base.specs.Reading.{Gives};
ghost use Rattle.aper_fields.specs.Run.{then_written};
ghost use Rattle.aper_fields.specs.Kept.{Keeps};
ghost use Rattle.aper_fields.specs.Asn1.{sequence};
ghost use Rattle.aper_types.specs.Types.{sequence_at, sequence_written, CanBe};

use crate::coding::Coding;
use crate::components::Components;
use aper_fields::{
    BitReader, BitWriter, read_present, read_zero_bit, skip_extensions, write_bits_fixed,
};
use echo_base::{OutOfMemory, Reason, Refusal};
use std::marker::PhantomData;

/// SEQUENCE of such components, whose iE-Extensions are passed over.
pub struct Sequence<C: Components>(PhantomData<C>);

/// Reads a SEQUENCE: what its type gives, with the bits of all components in front.
#[tactic(auto, unfolding(crate::specs::Types::sequence_at))]
fn read_sequence<C: Components>(r: &mut BitReader) -> Result<C::Value, Refusal>
    requires { C.right }
    ensures read { Gives result r.old r.new (sequence_at C.fields r.old) }
    ensures fits { IfOk result (λ v. CanBe C.fields v) }
{
    let mut ahead = r.ahead();
    read_zero_bit(&mut ahead, Reason::SequenceExtension)?;
    let flags = C::read_flags(&mut ahead)?;
    let more = read_present(&mut ahead)?;
    let value = C::read_fields(&mut ahead, flags)?;
    skip_extensions(&mut ahead, more)?;
    *r = ahead;
    Ok(value)
}

/// Writes a SEQUENCE.
#[tactic(auto, unfolding(crate::specs::Types::sequence_written))]
fn write_sequence<C: Components>(w: &mut BitWriter, value: C::Value) -> Result<(), OutOfMemory>
    requires right { C.right }
    requires fits { CanBe C.fields value }
    ensures ok { OnOk result (w.new ≡ then_written w.old (sequence_written C.fields value)) }
    ensures kept { OnErr result (Keeps w.old w.new) }
{
    write_bits_fixed(w, 0, 1)?;
    C::write_flags(w, value)?;
    write_bits_fixed(w, 0, 1)?;
    C::write_fields(w, value)
}

impl<C: Components> Coding for Sequence<C> {
    type Value = C::Value;

    ghost right = { C.right };

    ghost asn1 = { sequence C.fields };

    fn read(r: &mut BitReader) -> Result<C::Value, Refusal> {
        read_sequence::<C>(r)
    }

    fn write(w: &mut BitWriter, value: C::Value) -> Result<(), OutOfMemory> {
        write_sequence::<C>(w, value)
    }
}
