//! How many bits and octets a number takes.

ghost use Rattle.std.specs.Prelude.{◌≡◌, ◌*◌, ◌^◌, ◌<◌, ◌≤◌};
ghost use Rattle.aper_fields.specs.Reading.{width};
ghost use Rattle.aper_fields.specs.Run.{octet_count};

/// The least number of bits that holds a number.
pub(crate) fn width(number: u64) -> u32
    ensures value { result ≡ width number }
    ensures small { result ≤ 64 }
    ensures holds { number < 2 ^ result }
{
    u64::BITS - number.leading_zeros()
}

/// The least number of octets that holds a number, at least one.
pub(crate) fn octet_count(number: u64) -> u32
    ensures value { result ≡ octet_count number }
    ensures some { 1 ≤ result }
    ensures small { result ≤ 8 }
    ensures holds { number < 2 ^ (8 * result) }
{
    if number == 0 {
        1
    } else {
        width(number).div_ceil(8)
    }
}
