//! Lists of items that stand in open types of their own, each under the id of its list (TS 36.413, 9.1).

ghost use Rattle.std.specs.Prelude.{◌≡◌, ◌≤◌, [], true, IfOk, OnOk, length};
ghost use Rattle.std.specs.List.{AllByRecursion};
ghost use Rattle.echo_base.specs.Reading.{Gives, GivesIn};
ghost use Rattle.aper_fields.specs.Run.{then_written};
ghost use Rattle.protocol_ies.specs.Criticalities.{criticality_number};
ghost use Rattle.protocol_ies.specs.Lists.{list_of, IsItemSound};
ghost use Rattle.aper_fields.specs.Asn1.{AsnType, reading, run, contained_item_at, list_at, list_skipped_at, each_run, item_run, is_head, CanBeWritten};
ghost use Rattle.aper_fields.specs.Many.{many_at};
ghost use Rattle.aper_fields.specs.SequenceReading.{skipping, skipped_at};

use crate::criticality::Criticality;
use crate::item::{begin_item, read_item};
use aper_fields::{BitReader, BitWriter, Ranged, close, end_open};
use device_types::ListOf;
use echo_base::{Bad, OutOfMemory, Refusal};
use std::alloc::Global;
use std::marker::{Model, PhantomData};

/// How many items a list has at most: maxnoofE-RABs and maxnoofTAIs (TS 36.413, 9.3.6).
pub const MOST_ITEMS: u64 = 256;

/// What stands in a list, each in an open type of its own (TS 36.413, 9.1): a value, in a trait of which items alone are.
pub trait Item: Drop {
    /// Its type in ASN.1, as that of an `OwnedValue`.
    ghost asn1: { AsnType Self };

    /// Passes over an item's value, as `OwnedValue::skip` does. It takes no memory, and is refused as `read_item` refuses it.
    fn skip_item(r: &mut BitReader) -> Result<(), Refusal>
        ensures { Gives result r.old r.new (skipping (reading asn1) r.old) };

    /// Reads an item's value, as `OwnedValue::read` does: it is refused for its first piece that is wrong. After that, and
    /// where memory runs out, the reader has not moved.
    fn read_item(alloc: Global, r: &mut BitReader) -> Result<Self, Bad>
        ensures { GivesIn result r.old r.new (reading asn1 r.old) };

    /// Writes an item's value, as `OwnedValue::write` does, without iE-Extensions. It fails for want of memory alone.
    fn write_item(&self, w: &mut BitWriter) -> Result<(), OutOfMemory>
        requires { CanBeWritten asn1 self.now }
        ensures { OnOk result (w.new ≡ then_written w.old (run asn1 self.now)) };

    /// An open type has room for any item, and an item is at least a bit.
    ghost sound: { IsItemSound asn1 };
}

/// Reads an item of a list, with all of its open type.
#[tactic(auto, unfolding(aper_fields::specs::Asn1::contained_item_at, aper_fields::specs::Reading::whole_at))]
fn read_one<T: Item>(alloc: Global, r: &mut BitReader, id: u16) -> Result<T, Bad>
    ensures { GivesIn result r.old r.new (contained_item_at id (reading T.asn1) r.old) }
{
    let mut ahead = r.ahead();
    let mut content = read_item(&mut ahead, id)?;
    let start = content.ahead();
    let item = T::read_item(alloc, &mut content)?;
    close(&start, &content)?;
    *r = ahead;
    Ok(item)
}

/// Reads `count` items of a list, each with that id, one behind another.
#[tactic(auto, unfolding(aper_fields::specs::Many::many_at))]
fn read_many<T: Item>(
    alloc: Global,
    r: &mut BitReader,
    id: u16,
    count: u64,
) -> Result<ListOf<T>, Bad>
    ensures { GivesIn result r.old r.new (many_at (λ before. contained_item_at id (reading T.asn1)) count [] r.old) }
{
    let mut ahead = r.ahead();
    let mut items = ListOf::new(alloc);
    let mut left = count;
    while left > 0 {
        let item = read_one(alloc, &mut ahead, id)?;
        items.push(item)?;
        left -= 1;
    }
    *r = ahead;
    Ok(items)
}

/// Reads a list whose items have that id: how many items there are, 1 to 256, and the items.
#[tactic(auto, unfolding(aper_fields::specs::Asn1::list_at))]
fn read_list<T: Item>(alloc: Global, r: &mut BitReader, id: u16) -> Result<ListOf<T>, Bad>
    ensures { GivesIn result r.old r.new (list_at 1 256 (contained_item_at id (reading T.asn1)) r.old) }
{
    let mut ahead = r.ahead();
    let count = Ranged::<1, MOST_ITEMS>::read(&mut ahead)?;
    let items = read_many(alloc, &mut ahead, id, count)?;
    *r = ahead;
    Ok(items)
}

/// Passes over an item of a list, with all of its open type.
#[tactic(auto, unfolding(aper_fields::specs::Asn1::contained_item_at, aper_fields::specs::Reading::whole_at))]
fn skip_one<T: Item>(r: &mut BitReader, id: u16) -> Result<(), Refusal>
    ensures { Gives result r.old r.new (contained_item_at id (skipping (reading T.asn1)) r.old) }
{
    let mut ahead = r.ahead();
    let mut content = read_item(&mut ahead, id)?;
    let start = content.ahead();
    T::skip_item(&mut content)?;
    close(&start, &content)?;
    *r = ahead;
    Ok(())
}

/// Passes over `count` items of a list, each with that id, one behind another.
#[tactic(auto, unfolding(aper_fields::specs::SequenceReading::skipped_at))]
fn skip_many<T: Item>(r: &mut BitReader, id: u16, count: u64) -> Result<(), Refusal>
    ensures { Gives result r.old r.new (skipped_at (contained_item_at id (skipping (reading T.asn1))) count r.old) }
{
    let mut ahead = r.ahead();
    let mut left = count;
    while left > 0 {
        skip_one::<T>(&mut ahead, id)?;
        left -= 1;
    }
    *r = ahead;
    Ok(())
}

/// Passes over a list whose items have that id.
#[tactic(auto, unfolding(aper_fields::specs::Asn1::list_skipped_at))]
fn skip_list<T: Item>(r: &mut BitReader, id: u16) -> Result<(), Refusal>
    ensures { Gives result r.old r.new (list_skipped_at 1 256 (contained_item_at id (skipping (reading T.asn1))) r.old) }
{
    let mut ahead = r.ahead();
    let count = Ranged::<1, MOST_ITEMS>::read(&mut ahead)?;
    skip_many::<T>(&mut ahead, id, count)?;
    *r = ahead;
    Ok(())
}

/// A list whose items have that id, where it lies in what is read.
#[derive(Drop)]
pub struct FoundList<'a, T: Item> {
    start: BitReader<'a>,
    id: u16,
    item: PhantomData<T>,
}

impl<'a, T: Item> Model for FoundList<'a, T> {
    ghost use Rattle.std.specs.Prelude.{List, IsOk};
    ghost use Rattle.aper_fields.specs.Asn1.{reading, contained_item_at, list_at};
    ghost use Rattle.aper_fields.specs.Many.{listed};

    ghost Value = { List T };

    ghost view = { λ found. listed (list_at 1 256 (contained_item_at found.id (reading T.asn1)) found.start) };

    ghost invariant = { λ found. IsOk (list_at 1 256 (contained_item_at found.id (reading T.asn1)) found.start) };
}

impl<'a, T: Item> FoundList<'a, T> {
    /// The list in memory of its own.
    pub fn own(&self, alloc: Global) -> Result<ListOf<T>, OutOfMemory>
        ensures { IfOk result (λ own. own ≡ self.now) }
    {
        match read_list(alloc, &mut self.start.ahead(), self.id) {
            Ok(items) => Ok(items),
            Err(Bad::OutOfMemory) => Err(OutOfMemory),
            Err(Bad::Refused(_)) => unreachable!(),
        }
    }
}

/// Finds a list whose items have that id: how many items there are, 1 to 256, and the items, each of which has to be right.
/// It takes no memory.
pub fn find_list<'a, T: Item>(r: &mut BitReader<'a>, id: u16) -> Result<FoundList<'a, T>, Refusal>
    ensures { Gives result r.old r.new (list_at 1 256 (contained_item_at id (reading T.asn1)) r.old) }
{
    let start = r.ahead();
    skip_list::<T>(r, id)?;
    Ok(FoundList {
        start,
        id,
        item: PhantomData,
    })
}

/// Writes an item of a list, with all of its open type.
fn write_one<T: Item>(
    w: &mut BitWriter,
    id: u16,
    criticality: Criticality,
    item: &T,
) -> Result<(), OutOfMemory>
    requires { CanBeWritten T.asn1 item.now }
    ensures { OnOk result (w.new ≡ then_written w.old (item_run id (criticality_number criticality) (run T.asn1 item.now 0))) }
{
    let start = begin_item(w, id, criticality)?;
    item.write_item(w)?;
    end_open(w, start)
}

/// Writes an item for each value, with that id and criticality, in order.
#[tactic(auto, unfolding(aper_fields::specs::Asn1::each_run))]
fn write_items<T: Item>(
    w: &mut BitWriter,
    id: u16,
    criticality: Criticality,
    items: &[T],
) -> Result<(), OutOfMemory>
    requires right { AllByRecursion (λ a. CanBeWritten T.asn1 a) items.now }
    ensures { OnOk result (w.new ≡ then_written w.old (each_run (λ a. item_run id (criticality_number criticality) (run T.asn1 a 0)) items.now)) }
{
    let mut left = items;
    while let [item, rest @ ..] = left {
        write_one(w, id, criticality, item)?;
        left = rest;
    }
    Ok(())
}

/// Writes a list whose items have that id and criticality: how many items there are, 1 to 256, and the items, in order. It
/// fails for want of memory alone.
#[tactic(auto, unfolding(aper_fields::specs::Asn1::run, aper_fields::specs::Asn1::list_run))]
pub fn write_list<T: Item>(
    w: &mut BitWriter,
    id: u16,
    criticality: Criticality,
    list: &ListOf<T>,
) -> Result<(), OutOfMemory>
    requires least { 1 ≤ length list.now }
    requires most { length list.now ≤ 256 }
    requires right { AllByRecursion (λ a. CanBeWritten T.asn1 a) list.now }
    ensures { (head : is_head id (criticality_number criticality) ≡ true) → OnOk result (w.new ≡ then_written w.old (run (list_of id (criticality_number criticality) head T.asn1) list.now)) }
{
    let items = list.items();
    Ranged::<1, MOST_ITEMS>::write(w, items.len() as u64)?;
    write_items(w, id, criticality, items)
}
