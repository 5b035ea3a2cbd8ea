//! Bits that have to be 0, as extension marks; criticalities; and iE-Extensions, which are passed over.

ghost use Rattle.std.specs.Prelude.{◌≡◌};
ghost use Rattle.echo_base.specs.Reading.{Gives};
ghost use Rattle.aper_fields.specs.Format.{ReadsExactly};
ghost use Rattle.aper_fields.specs.Sequence.{zero_bit_in, criticality_in};
ghost use Rattle.aper_fields.specs.SequenceReading.{zero_bit_at, criticality_at, entry_at, skipped_at, extensions_at};

use crate::ranged::Ranged;
use crate::reader::BitReader;
use crate::reading::{read_bits_fixed, read_open};
use echo_base::{Reason, Refusal};

/// A bit that has to be 0: the reading of `read_zero_bit`, whose relation is `exact` there.
#[tactic(auto, unfolding(crate::specs::SequenceReading::zero_bit_at))]
#[inline(always)]
fn zero_bit(r: &mut BitReader, reason: Reason) -> Result<u64, Refusal>
    ensures { Gives result r.old r.new (zero_bit_at reason r.old) }
{
    let mut ahead = r.ahead();
    let bit = read_bits_fixed(&mut ahead, 1)?;
    if bit != 0 {
        return Err(r.refusal(reason));
    }
    *r = ahead;
    Ok(bit)
}

/// Reads a bit that has to be 0, as an extension bit has. It is refused as Truncated where it is not there, and for that
/// reason where it is 1.
#[inline(always)]
pub fn read_zero_bit(r: &mut BitReader, reason: Reason) -> Result<u64, Refusal>
    ensures read { Gives result r.old r.new (zero_bit_at reason r.old) }
    ensures exact { ReadsExactly (zero_bit_in reason) result r.old r.new }
{
    zero_bit(r, reason)
}

/// Two bits, of which 3 is no criticality: the reading of `read_criticality`, whose relation is `exact` there.
#[tactic(auto, unfolding(crate::specs::SequenceReading::criticality_at))]
#[inline(always)]
fn criticality(r: &mut BitReader) -> Result<u64, Refusal>
    ensures { Gives result r.old r.new (criticality_at r.old) }
{
    let mut ahead = r.ahead();
    let criticality = read_bits_fixed(&mut ahead, 2)?;
    if criticality > 2 {
        return Err(r.refusal(Reason::BadCriticality));
    }
    *r = ahead;
    Ok(criticality)
}

/// Reads a criticality (TS 36.413, 9.3.5): 0 reject, 1 ignore, 2 notify. It is refused as Truncated, and as BadCriticality where
/// the two bits are 3.
#[inline(always)]
pub fn read_criticality(r: &mut BitReader) -> Result<u64, Refusal>
    ensures read { Gives result r.old r.new (criticality_at r.old) }
    ensures exact { ReadsExactly criticality_in result r.old r.new }
{
    criticality(r)
}

/// Passes over an entry of iE-Extensions (TS 36.413, 9.3.7): an id of 16 bits, a criticality and an open type, whatever is
/// in it.
#[tactic(auto, unfolding(crate::specs::SequenceReading::entry_at))]
fn skip_entry(r: &mut BitReader) -> Result<(), Refusal>
    ensures { Gives result r.old r.new (entry_at r.old) }
{
    let mut ahead = r.ahead();
    Ranged::<0, 65535>::read(&mut ahead)?;
    read_criticality(&mut ahead)?;
    read_open(&mut ahead)?;
    *r = ahead;
    Ok(())
}

/// Passes over `count` entries of iE-Extensions, one behind another.
#[tactic(auto, unfolding(crate::specs::SequenceReading::skipped_at))]
fn skip_entries(r: &mut BitReader, count: u64) -> Result<(), Refusal>
    ensures { Gives result r.old r.new (skipped_at entry_at count r.old) }
{
    let mut ahead = r.ahead();
    let mut left = count;
    while left > 0 {
        skip_entry(&mut ahead)?;
        left -= 1;
    }
    *r = ahead;
    Ok(())
}

/// Passes over the iE-Extensions, where they are present (TS 36.413, 9.3.7): a count of 1 to 65,535, and so many entries of an id, a
/// criticality and an open type. They are refused for the first piece that is wrong: Truncated, NonZeroPadding, OutOfRange at the count,
/// BadCriticality, LongLength, TooLong.
#[tactic(auto, unfolding(crate::specs::SequenceReading::extensions_at))]
#[inline(always)]
pub fn skip_extensions(r: &mut BitReader, present: bool) -> Result<(), Refusal>
    ensures { Gives result r.old r.new (extensions_at present r.old) }
{
    if !present {
        return Ok(());
    }
    let mut ahead = r.ahead();
    let count = Ranged::<1, 65535>::read(&mut ahead)?;
    skip_entries(&mut ahead, count)?;
    *r = ahead;
    Ok(())
}
