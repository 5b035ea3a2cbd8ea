//! Numbers, and strings of bits.

ghost use Rattle.std.specs.Prelude.{◌≡◌, ◌<◌, ◌≤◌, ◌^◌, IfOk, OnOk, OnErr};
ghost use Rattle.aper_fields.specs.Asn1.{bit_string, one_bit, extensible};
ghost use Rattle.echo_base.specs.declared.reason.Reason.TheVariants as reasons;

use crate::coding::Coding;
use aper_fields::{
    BitReader, BitWriter, Ranged, read_bits_fixed, read_present, read_zero_bit, write_bits_fixed,
    write_present,
};
use echo_base::{OutOfMemory, Reason, Refusal};
use std::marker::PhantomData;

/// BIT STRING of a fixed size, as a number, the first bit highest.
pub struct BitString<const SIZE: u32>;

impl<const SIZE: u32> Coding for BitString<SIZE> {
    type Value = u64;

    ghost right = { (1 ≤ SIZE) × (SIZE ≤ 64) };

    ghost asn1 = { bit_string SIZE };

    #[tactic(auto, unfolding(aper_fields::specs::Asn1::reading))]
    fn read(r: &mut BitReader) -> Result<u64, Refusal> {
        read_bits_fixed(r, SIZE)
    }

    #[tactic(auto, unfolding(aper_fields::specs::Asn1::run))]
    fn write(w: &mut BitWriter, value: u64) -> Result<(), OutOfMemory> {
        write_bits_fixed(w, value, SIZE)
    }
}

/// INTEGER from LOW to HIGH.
pub struct Integer<const LOW: u64, const HIGH: u64>;

impl<const LOW: u64, const HIGH: u64> Coding for Integer<LOW, HIGH> {
    ghost use Rattle.aper_types.specs.Types.{number};

    type Value = u64;

    ghost right = { (LOW ≤ HIGH) × (HIGH < 2 ^ 63) };

    ghost asn1 = { number LOW HIGH };

    fn read(r: &mut BitReader) -> Result<u64, Refusal> {
        Ranged::<LOW, HIGH>::read(r)
    }

    fn write(w: &mut BitWriter, value: u64) -> Result<(), OutOfMemory> {
        Ranged::<LOW, HIGH>::write(w, value)
    }
}

/// ENUMERATED of two roots without extension mark: is it the second?
pub struct TwoRoots;

impl Coding for TwoRoots {
    type Value = bool;

    ghost right = { Unit {0} };

    ghost asn1 = { one_bit };

    #[tactic(auto, unfolding(aper_fields::specs::Asn1::reading))]
    fn read(r: &mut BitReader) -> Result<bool, Refusal> {
        read_present(r)
    }

    #[tactic(auto, unfolding(aper_fields::specs::Asn1::run))]
    fn write(w: &mut BitWriter, value: bool) -> Result<(), OutOfMemory> {
        write_present(w, value)
    }
}

/// A type with extension mark, of which no extension is taken: it is refused as OutOfRange where the bit of an extension is 1.
pub struct Extensible<T: Coding>(PhantomData<T>);

impl<T: Coding> Coding for Extensible<T> {
    type Value = T::Value;

    ghost right = { T.right };

    ghost asn1 = { extensible reasons.OutOfRange T.asn1 };

    #[tactic(auto, unfolding(aper_fields::specs::Asn1::reading))]
    fn read(r: &mut BitReader) -> Result<T::Value, Refusal> {
        let mut ahead = r.ahead();
        read_zero_bit(&mut ahead, Reason::OutOfRange)?;
        let value = T::read(&mut ahead)?;
        *r = ahead;
        Ok(value)
    }

    #[tactic(auto, unfolding(aper_fields::specs::Asn1::run))]
    fn write(w: &mut BitWriter, value: T::Value) -> Result<(), OutOfMemory> {
        write_bits_fixed(w, 0, 1)?;
        T::write(w, value)
    }
}
