//! The indices of CHOICEs.

ghost use Rattle.std.specs.Prelude.{◌≡◌, ◌^◌, ◌≤◌, ◌<◌, IfOk, OnOk, OnErr};
ghost use Rattle.echo_base.specs.Reading.{Gives};
ghost use Rattle.aper_fields.specs.Format.{ReadsExactly};
ghost use Rattle.aper_fields.specs.Run.{then_written};
ghost use Rattle.aper_fields.specs.Asn1.{index_run};
ghost use Rattle.aper_fields.specs.Kept.{Keeps};
ghost use Rattle.aper_fields.specs.Sequence.{choice_in};
ghost use Rattle.aper_fields.specs.SequenceReading.{choice_at};

use crate::extension::read_zero_bit;
use crate::reader::BitReader;
use crate::reading::read_bits_fixed;
use crate::whole::all_or_nothing;
use crate::writer::BitWriter;
use crate::writing::write_bits_fixed;
use echo_base::{OutOfMemory, Reason, Refusal};

/// Reads the bit of an extension and the index.
#[tactic(auto, unfolding(crate::specs::SequenceReading::choice_at))]
#[inline(always)]
fn choice(r: &mut BitReader, roots: u64, count: u32) -> Result<u64, Refusal>
    requires some { 1 ≤ count }
    requires small { count ≤ 64 }
    ensures read { Gives result r.old r.new (choice_at roots count r.old) }
    ensures root { IfOk result (λ index. index < roots) }
{
    let mut ahead = r.ahead();
    read_zero_bit(&mut ahead, Reason::BadChoice)?;
    let place = ahead.ahead();
    let index = read_bits_fixed(&mut ahead, count)?;
    if index >= roots {
        return Err(place.refusal(Reason::BadChoice));
    }
    *r = ahead;
    Ok(index)
}

/// Reads the index of a CHOICE of so many roots, with an extension mark, in so many bits (ITU-T X.691, 23). It is refused as
/// Truncated, and as BadChoice where the bit of an extension is 1, at that bit, or where the index is that of no root, at the index.
#[inline(always)]
pub fn read_choice(r: &mut BitReader, roots: u64, count: u32) -> Result<u64, Refusal>
    requires some { 1 ≤ count }
    requires small { count ≤ 64 }
    ensures read { Gives result r.old r.new (choice_at roots count r.old) }
    ensures exact { ReadsExactly (choice_in roots count) result r.old r.new }
    ensures root { IfOk result (λ index. index < roots) }
{
    choice(r, roots, count)
}

/// Writes the bit of an extension and the index.
fn put_choice(w: &mut BitWriter, count: u32, index: u64) -> Result<(), OutOfMemory>
    requires some { 1 ≤ count }
    requires small { count ≤ 64 }
    requires fits { index < 2 ^ count }
    ensures ok { OnOk result (w.new ≡ then_written w.old (index_run count index)) }
    ensures kept { OnErr result (Keeps w.old w.new) }
{
    write_bits_fixed(w, 0, 1)?;
    write_bits_fixed(w, index, count)
}

/// Writes the index of a CHOICE with an extension mark, in so many bits. Where memory runs out, nothing is written.
pub fn write_choice(w: &mut BitWriter, count: u32, index: u64) -> Result<(), OutOfMemory>
    requires some { 1 ≤ count }
    requires small { count ≤ 64 }
    requires fits { index < 2 ^ count }
    ensures ok { OnOk result (w.new ≡ then_written w.old (index_run count index)) }
    ensures err { OnErr result (w.new ≡ w.old) }
{
    all_or_nothing(w, |w| put_choice(w, count, index))
}
