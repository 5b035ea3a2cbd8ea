//! The bits before the fields of a SEQUENCE.

ghost use Rattle.std.specs.Prelude.{◌≡◌, OnOk, OnErr};
ghost use Rattle.echo_base.specs.Reading.{Gives};
ghost use Rattle.aper_fields.specs.Run.{then_written};
ghost use Rattle.aper_fields.specs.Asn1.{present_run};
ghost use Rattle.aper_fields.specs.SequenceReading.{present_at};

use crate::reader::BitReader;
use crate::reading::read_bits_fixed;
use crate::writer::BitWriter;
use crate::writing::write_bits_fixed;
use echo_base::{OutOfMemory, Refusal};

/// Reads a bit that says whether an optional part is there (ITU-T X.691, Encoding the sequence type). It is refused as Truncated.
#[tactic(auto, unfolding(crate::specs::SequenceReading::present_at))]
#[inline(always)]
pub fn read_present(r: &mut BitReader) -> Result<bool, Refusal>
    ensures { Gives result r.old r.new (present_at r.old) }
{
    Ok(read_bits_fixed(r, 1)? == 1)
}

/// Writes a bit that says whether an optional part is there (ITU-T X.691, Encoding the sequence type). Where memory runs out, nothing is written.
#[tactic(auto, unfolding(crate::specs::Asn1::present_run))]
pub fn write_present(w: &mut BitWriter, present: bool) -> Result<(), OutOfMemory>
    ensures ok { OnOk result (w.new ≡ then_written w.old (present_run present)) }
    ensures err { OnErr result (w.new ≡ w.old) }
{
    if present {
        write_bits_fixed(w, 1, 1)
    } else {
        write_bits_fixed(w, 0, 1)
    }
}
