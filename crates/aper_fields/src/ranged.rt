//! Whole numbers of a range (ITU-T X.691, Encoding of a constrained whole number).

ghost use Rattle.std.specs.Prelude.{◌≡◌, ◌-◌, ◌^◌, ◌<◌, ◌≤◌, IfOk, OnOk, OnErr};
ghost use Rattle.aper_fields.specs.Run.{then_written, number_run};
ghost use Rattle.aper_fields.specs.Reading.{Gives, number_at};
ghost use Rattle.aper_fields.specs.Format.{ReadsExactly, number_in};

use crate::reader::BitReader;
use crate::reading::read_number;
use crate::writer::BitWriter;
use crate::writing::write_number;
use echo_base::Refusal;
use std::alloc::AllocError;

/// The whole numbers from LOW to HIGH. One value takes no bits, up to 255 values the least number of bits, 256 an
/// aligned octet, up to 65,536 two of them, and more values the count of octets, padding and the least number of
/// octets.
pub struct Ranged<const LOW: u64, const HIGH: u64>;

impl<const LOW: u64, const HIGH: u64> Ranged<LOW, HIGH> {
    /// Reads a number: Truncated, NonZeroPadding, NotMinimal where its first octet of several is 0, and OutOfRange
    /// above HIGH, or at the count of its octets where HIGH - LOW has fewer.
    #[inline(always)]
    pub fn read(r: &mut BitReader) -> Result<u64, Refusal>
        requires order { LOW ≤ HIGH }
        requires small { HIGH < 2 ^ 63 }
        ensures read { Gives result r.old r.new (number_at LOW (HIGH - LOW) r.old) }
        ensures exact { ReadsExactly (number_in LOW (HIGH - LOW)) result r.old r.new }
        ensures within { IfOk result (λ v. (LOW ≤ v) × (v ≤ HIGH)) }
    {
        read_number(r, LOW, HIGH - LOW)
    }

    /// Writes a number of the range: one value takes nothing, up to 255 values take the least number of bits, 256 one
    /// aligned octet, up to 65,536 two of them, and more values the count of the octets less one, padding and the least
    /// number of octets. Where memory runs out, nothing is written.
    pub fn write(w: &mut BitWriter, v: u64) -> Result<(), AllocError>
        requires low { LOW ≤ v }
        requires high { v ≤ HIGH }
        requires small { HIGH < 2 ^ 63 }
        ensures ok { OnOk result (w.new ≡ then_written w.old (number_run LOW (HIGH - LOW) v)) }
        ensures err { OnErr result (w.new ≡ w.old) }
    {
        write_number(w, LOW, HIGH, v)
    }
}
