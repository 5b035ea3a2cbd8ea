//! Laws of the types of ASN.1, as clauses of functions that do nothing.

ghost use Rattle.std.specs.Prelude.{ℕ, List, Bool};
ghost use Rattle.aper_fields.specs.Spelling.{IsOctets};
ghost use Rattle.aper_fields.specs.Format.{IsSpelledBy};
ghost use Rattle.aper_fields.specs.Asn1.{format, run, Fits, IsSound};

use crate::value::OwnedValue;

/// What a value in its range is written with spells it: so it is read back as that value, wherever it stands.
pub fn written_is_spelled<T: OwnedValue>()
    ensures { IsSound T.asn1 → (v : T) → Fits IsOctets T.asn1 v → IsSpelledBy (format T.asn1) v (run T.asn1 v) }
{}

/// What is spelled is in its range, and its strings are octets: so what was read can be written.
pub fn spelled_is_right<T: OwnedValue>()
    ensures { IsSound T.asn1 → (v : T) (at : ℕ) (bits : List Bool) → (format T.asn1).Spells at v bits → Fits IsOctets T.asn1 v }
{}
