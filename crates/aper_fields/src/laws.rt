//! Laws of the pieces, as clauses of functions that do nothing.

ghost use Rattle.std.specs.Prelude.{◌≡◌, ◌⊎◌, ◌↔◌, ℕ, Bool, List, [], length, ◌+◌, ◌-◌, ◌*◌, ◌/◌, ◌^◌, ◌<◌, ◌≤◌};
ghost use Rattle.aper_fields.specs.declared.enumerated.EnumValue.{EnumValue};
ghost use Rattle.aper_fields.specs.Reading.{width, number_at, length_at, fixed_octets_at, octet_string_at, fixed_bits_at, enumerated_at, contained_at, nothing_at};
ghost use Rattle.aper_fields.specs.Run.{octet_count, number_run, length_run, fixed_octets_run, octet_string_run, fixed_bits_run, enumerated_run, content_of, open_run};
ghost use Rattle.aper_fields.specs.Spelling.{IsOctets, IsEnumValue};
ghost use Rattle.aper_fields.specs.Format.{HasOneReading, IsReadBack, IsOpenReadBack, number_in, length_in, fixed_octets_in, octet_string_in, fixed_bits_in, enumerated_in, open_in};

/// What two readings of one piece give at one place is the same: the value, the refusal and the place behind it. So
/// no bits spell two values, and no spelling of a piece begins another.
pub fn one_reading()
    ensures numbers { (low : ℕ) (top : ℕ) → top < 2 ^ 64 → HasOneReading (number_in low top) }
    ensures lengths { HasOneReading length_in }
    ensures fixed_octets { (n : ℕ) → HasOneReading (fixed_octets_in n) }
    ensures octet_strings { (most : ℕ) → HasOneReading (octet_string_in most) }
    ensures fixed_bits { (n : ℕ) → HasOneReading (fixed_bits_in n) }
    ensures enumerations { (roots : ℕ) (extensible : Bool) → 1 ≤ roots → roots < 2 ^ 64
        → HasOneReading (enumerated_in roots extensible) }
    ensures open_types { HasOneReading open_in }
{}

/// What a writer puts behind what was written is read back as that value, whatever stands behind it.
pub fn written_is_read()
    ensures numbers { (low top v : ℕ) → top < 2 ^ 64 → low ≤ v → v ≤ low + top
        → IsReadBack (number_at low top) (number_run low top v) v }
    ensures lengths { (n : ℕ) → n < 2 ^ 14 → IsReadBack length_at (length_run n) n }
    ensures fixed_octets { (octets : List ℕ) → IsOctets octets
        → IsReadBack (fixed_octets_at (length octets)) (fixed_octets_run octets) octets }
    ensures octet_strings { (most : ℕ) (octets : List ℕ) → IsOctets octets → length octets ≤ most → length octets < 2 ^ 14
        → IsReadBack (octet_string_at most) (octet_string_run octets) octets }
    ensures fixed_bits { (n v : ℕ) → v < 2 ^ n → IsReadBack (fixed_bits_at n) (fixed_bits_run n v) v }
    ensures enumerations { (roots : ℕ) (extensible : Bool) (v : EnumValue) → 1 ≤ roots → roots < 2 ^ 64
        → IsEnumValue roots extensible v
        → IsReadBack (enumerated_at roots extensible) (enumerated_run roots extensible v) v }
    ensures open_types { (body : List Bool) → length (content_of body) < 8 * 2 ^ 14 → IsOpenReadBack body }
    // An open type that is written round a value of no bits contains it.
    ensures no_bits { IsReadBack (contained_at nothing_at) (open_run []) tt }
{}

/// The bits and the octets that a number takes are the fewest that hold it.
pub fn least_sizes()
    ensures bits { (n k : ℕ) → n < 2 ^ 64 → (n < 2 ^ k) ↔ (width n ≤ k) }
    ensures octets { (n k : ℕ) → n < 2 ^ 64 → 1 ≤ k → (n < 2 ^ (8 * k)) ↔ (octet_count n ≤ k) }
    // Of several octets the first is not 0.
    ensures first { (n : ℕ) → n < 2 ^ 64
        → (octet_count n ≡ 1) ⊎ (0 < n / 2 ^ (8 * (octet_count n - 1))) }
{}
