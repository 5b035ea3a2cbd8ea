//! The items of lists.

ghost use Rattle.std.specs.Prelude.{◌≡◌, ◌≤◌, ◌%◌, length, OnOk, OnErr, IfOk};
ghost use Rattle.echo_base.specs.Reading.{Gives};
ghost use Rattle.aper_fields.specs.Format.{ReadsExactly};
ghost use Rattle.aper_fields.specs.Run.{then_written};
ghost use Rattle.aper_fields.specs.SequenceReading.{item_at};
ghost use Rattle.aper_fields.specs.Sequence.{item_in};
ghost use Rattle.aper_fields.specs.Kept.{Keeps};
ghost use Rattle.aper_fields.specs.Asn1.{item_start};
ghost use Rattle.protocol_ies.specs.Criticalities.{criticality_number};

use crate::criticality::Criticality;
use aper_fields::{
    BitReader, BitWriter, Mark, Ranged, all_or_nothing, begin_open, read_criticality, read_open,
    write_bits_fixed,
};
use echo_base::{OutOfMemory, Reason, Refusal};

/// Reads the id of an item, its criticality, and up to what it contains.
#[tactic(auto, unfolding(aper_fields::specs::SequenceReading::item_at))]
fn read_fields<'a>(r: &mut BitReader<'a>, id: u16) -> Result<BitReader<'a>, Refusal>
    ensures { Gives result r.old r.new (item_at id r.old) }
{
    let mut ahead = r.ahead();
    if Ranged::<0, 65535>::read(&mut ahead)? != u64::from(id) {
        return Err(r.refusal(Reason::MissingIe(id)));
    }
    read_criticality(&mut ahead)?;
    let content = read_open(&mut ahead)?;
    *r = ahead;
    Ok(content)
}

/// Reads an item of the list whose items have that id, up to what it contains, which is a container of its own
/// (TS 36.413, 9.1.4.1 and 9.1.4.3). It is refused for the first piece that is wrong: MissingIe with that id, at the
/// id, where it has another; NonZeroPadding before the id; Truncated; BadCriticality; as an open type is refused.
pub fn read_item<'a>(r: &mut BitReader<'a>, id: u16) -> Result<BitReader<'a>, Refusal>
    ensures read { Gives result r.old r.new (item_at id r.old) }
    ensures exact { ReadsExactly (item_in id) result r.old r.new }
{
    read_fields(r, id)
}

/// Writes the id of an item, its criticality, and the octet that stands before what it contains.
fn begin_fields(w: &mut BitWriter, id: u16, criticality: Criticality) -> Result<Mark, OutOfMemory>
    ensures ok { OnOk result (w.new ≡ then_written w.old (item_start id (criticality_number criticality))) }
    ensures place { IfOk result (λ start. start ≡ length w.new) }
    ensures whole { IfOk result (λ start. start % 8 ≡ 0) }
    ensures room { IfOk result (λ start. 8 ≤ start) }
    ensures kept { OnErr result (Keeps w.old w.new) }
{
    Ranged::<0, 65535>::write(w, u64::from(id))?;
    write_bits_fixed(w, u64::from(criticality.number()), 2)?;
    begin_open(w)
}

/// Writes an item's id, its criticality and the octet that stands before what it contains, and says where that begins: it is written
/// behind it, up to `end_open`. Where memory runs out, nothing is written.
pub fn begin_item(w: &mut BitWriter, id: u16, criticality: Criticality) -> Result<Mark, OutOfMemory>
    ensures ok { OnOk result (w.new ≡ then_written w.old (item_start id (criticality_number criticality))) }
    ensures place { IfOk result (λ start. start ≡ length w.new) }
    ensures whole { IfOk result (λ start. start % 8 ≡ 0) }
    ensures room { IfOk result (λ start. 8 ≤ start) }
    ensures err { OnErr result (w.new ≡ w.old) }
{
    all_or_nothing(w, |w| begin_fields(w, id, criticality))
}
