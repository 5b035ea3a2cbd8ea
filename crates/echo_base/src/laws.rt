//! Laws of the definitions.

ghost use Rattle.std.specs.Prelude.{ℕ, ◌^◌, ◌<◌, ◌++◌, List, length};
ghost use Rattle.echo_base.specs.declared.refusal.Refusal.{Refusal};
ghost use Rattle.echo_base.specs.Format.{IsExactly, IsReadBack};
ghost use Rattle.echo_base.specs.Field.{octet_in, octets_in, number_in, counted_in, long_counted_in, octet_at, octets_at, number_at, counted_at, long_counted_at, number_run, counted_run, long_counted_run};

/// Reading a field of octets gives what its format says, its refusal too; and what is written for a field is read back,
/// whatever is behind it.
pub fn fields_are_exact()
    ensures octet { (short : Refusal) → IsExactly (octet_in short) (octet_at short) }
    ensures octets { (short : Refusal) (n : ℕ) → IsExactly (octets_in short n) (octets_at short n) }
    ensures number { (short : Refusal) (n : ℕ) → IsExactly (number_in short n) (number_at short n) }
    ensures counted { (short : Refusal) → IsExactly (counted_in short) (counted_at short) }
    ensures long_counted { (short : Refusal) → IsExactly (long_counted_in short) (long_counted_at short) }

    ensures number_back { (short : Refusal) (n v : ℕ) → v < 256 ^ n
        → IsReadBack (number_in short n) (λ rest. number_run n v ++ rest) v }
    ensures counted_back { (short : Refusal) (octets : List ℕ)
        → IsReadBack (counted_in short) (λ rest. counted_run octets ++ rest) octets }
    ensures long_counted_back { (short : Refusal) (octets : List ℕ) → length octets < 65536
        → IsReadBack (long_counted_in short) (λ rest. long_counted_run octets ++ rest) octets }
{}
