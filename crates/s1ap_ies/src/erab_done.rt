//! E-RABs that were set up.

ghost use Rattle.std.specs.Prelude.{◌≡◌, ◌≤◌, ◌<◌, OnOk};

use crate::bearer::{Address, ErabId};
use aper_fields::{BitReader, BitWriter};
use aper_types::{BitString, Named, Needed, PlainValue, Sequence};
use echo_base::{Bad, OutOfMemory, Refusal};
use protocol_ies::Item;
use std::alloc::Global;

/// An E-RAB that was set up: the E-RAB Setup Item of a response (TS 36.413, 9.1.4.3).
#[derive(Clone, Copy, Debug)]
pub struct ErabDone {
    /// The E-RAB ID, below 16.
    pub id: u8,
    /// The IPv4 address of the base station, four octets as one number, the first octet highest.
    pub address: u32,
    /// The tunnel endpoint identifier of the base station (9.2.2.2), four octets as one number, the first octet highest.
    pub teid: u32,
}

impl Named for ErabDone {
    ghost use Rattle.s1ap_ies.specs.Values.{erab_done, erab_done_same, done_made};
    ghost use Rattle.std.proofs.Common.{rules};

    type Type = Sequence<(Needed<ErabId>, (Needed<Address>, Needed<BitString<32>>))>;

    ghost asn1 = { erab_done };

    ghost same = { erab_done_same };

    fn make((id, (address, teid)): (u64, (u64, u64))) -> ErabDone {
        ErabDone {
            id: id as u8,
            address: address as u32,
            teid: teid as u32,
        }
    }

    fn parts(self) -> (u64, (u64, u64)) {
        (
            u64::from(self.id),
            (u64::from(self.address), u64::from(self.teid)),
        )
    }

    ghost made = { done_made };

    ghost right = { Prim.search rules };
}

impl Item for ErabDone {
    ghost use Rattle.s1ap_ies.specs.Values.{erab_done, done_sound};

    ghost asn1 = { erab_done };

    fn skip_item(r: &mut BitReader) -> Result<(), Refusal> {
        <ErabDone as PlainValue>::read(r)?;
        Ok(())
    }

    fn read_item(_alloc: Global, r: &mut BitReader) -> Result<ErabDone, Bad> {
        Ok(<ErabDone as PlainValue>::read(r)?)
    }

    fn write_item(&self, w: &mut BitWriter) -> Result<(), OutOfMemory> {
        PlainValue::write(*self, w)
    }

    ghost sound = { done_sound };
}
