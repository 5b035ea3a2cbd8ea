//! CHOICEs of two with extension mark.

ghost use Rattle.std.specs.Prelude.{◌≡◌, IfOk, OnOk, OnErr};
ghost use Rattle.aper_fields.specs.Asn1.{named, choice};

use crate::coding::Coding;
use aper_fields::{BitReader, BitWriter, read_choice, write_choice};
use echo_base::{OutOfMemory, Refusal};
use std::marker::PhantomData;

/// A value of one type or of another.
#[derive(Clone, Copy)]
pub enum Either<A, B> {
    /// Of the first.
    First(A),
    /// Of the second.
    Second(B),
}

/// CHOICE of two types with extension mark, of which no extension is taken.
pub struct Choice<A: Coding, B: Coding>(PhantomData<(A, B)>);

impl<A: Coding, B: Coding> Coding for Choice<A, B> {
    ghost use Rattle.aper_types.specs.Choices.{either_same};

    type Value = Either<A::Value, B::Value>;

    ghost right = { A.right × B.right };

    ghost asn1 = { named either_same (choice A.asn1 B.asn1) };

    /// It is refused as BadChoice too, where the bit of an extension is 1.
    #[tactic(auto, unfolding(aper_fields::specs::Asn1::reading))]
    fn read(r: &mut BitReader) -> Result<Either<A::Value, B::Value>, Refusal> {
        let mut ahead = r.ahead();
        let value = if read_choice(&mut ahead, 2, 1)? == 0 {
            Either::First(A::read(&mut ahead)?)
        } else {
            Either::Second(B::read(&mut ahead)?)
        };
        *r = ahead;
        Ok(value)
    }

    #[tactic(auto, unfolding(aper_fields::specs::Asn1::run))]
    fn write(w: &mut BitWriter, value: Either<A::Value, B::Value>) -> Result<(), OutOfMemory> {
        match value {
            Either::First(a) => {
                write_choice(w, 1, 0)?;
                A::write(w, a)
            }
            Either::Second(b) => {
                write_choice(w, 1, 1)?;
                B::write(w, b)
            }
        }
    }
}
