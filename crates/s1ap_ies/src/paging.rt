//! The values of a paging.

ghost use Rattle.std.specs.Prelude.{◌≡◌, ◌≤◌, ◌<◌, OnOk};
ghost use Rattle.echo_base.specs.Reading.{Gives, GivesIn, skipping};
ghost use Rattle.aper_fields.specs.Run.{then_written};
ghost use Rattle.aper_fields.specs.Asn1.{AsnType, reading, run, CanBeWritten};
ghost use Rattle.s1ap_ies.specs.Values.{paging_id};

use crate::stmsi::Stmsi;
use crate::tai::Tai;
use aper_fields::{BitReader, BitWriter, Ranged, read_zero_bit, write_bits_fixed};
use aper_types::{Coding, Made, Needed, Sequence};
use echo_base::{Bad, OutOfMemory, Reason, Refusal};
use protocol_ies::Item;
use std::alloc::Global;

/// Reads a UE Paging Identity (TS 36.413, 9.2.3.13), which has to be an S-TMSI.
#[tactic(auto, unfolding(aper_fields::specs::Asn1::reading))]
pub fn read_paging_id(r: &mut BitReader) -> Result<Stmsi, Refusal>
    ensures { Gives result r.old r.new (reading paging_id r.old) }
{
    let mut ahead = r.ahead();
    read_zero_bit(&mut ahead, Reason::BadChoice)?;
    let place = ahead.ahead();
    if Ranged::<0, 1>::read(&mut ahead)? != 0 {
        return Err(place.refusal(Reason::BadChoice));
    }
    let stmsi = Made::<Stmsi>::read(&mut ahead)?;
    *r = ahead;
    Ok(stmsi)
}

/// Writes an S-TMSI as a UE Paging Identity.
#[tactic(auto, unfolding(aper_fields::specs::Asn1::run))]
pub fn write_paging_id(w: &mut BitWriter, stmsi: Stmsi) -> Result<(), OutOfMemory>
    requires { CanBeWritten paging_id stmsi }
    ensures { OnOk result (w.new ≡ then_written w.old (run paging_id stmsi)) }
{
    write_bits_fixed(w, 0, 1)?;
    Ranged::<0, 1>::write(w, 0)?;
    Made::<Stmsi>::write(w, stmsi)
}

/// A TAI List Item (TS 36.413, 9.1.6).
type TaiItem = Sequence<Needed<Made<Tai>>>;

impl Item for Tai {
    ghost use Rattle.s1ap_ies.specs.Values.{tai_item, tai_item_sound};

    ghost asn1 = { tai_item };

    #[tactic(auto, unfolding(crate::specs::Values::tai_item))]
    fn skip_item(r: &mut BitReader) -> Result<(), Refusal> {
        TaiItem::read(r)?;
        Ok(())
    }

    #[tactic(auto, unfolding(crate::specs::Values::tai_item))]
    fn read_item(_alloc: Global, r: &mut BitReader) -> Result<Tai, Bad> {
        Ok(TaiItem::read(r)?)
    }

    #[tactic(auto, unfolding(crate::specs::Values::tai_item))]
    fn write_item(&self, w: &mut BitWriter) -> Result<(), OutOfMemory> {
        TaiItem::write(w, *self)
    }

    ghost sound = { tai_item_sound };
}
