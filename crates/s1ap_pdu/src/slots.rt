//! The values that were found, in slots.

ghost use Rattle.std.specs.Prelude.{◌≡◌, ◌<◌, IfSome, None, slice_index_or};
ghost use Rattle.protocol_ies.specs.Slots.{empty, noted};
ghost use Rattle.s1ap_pdu.specs.Rows.{part_of, slot};
ghost use Rattle.s1ap_pdu.specs.Values as ies;

use crate::value::{FoundValue, IeValue};
use std::marker::Model;

/// The values of a message that were found, each in the place of its row.
#[derive(Drop)]
pub struct Slots<'a> {
    values: protocol_ies::Slots<FoundValue<'a>>,
}

impl<'a> Model for Slots<'a> {
    ghost use Rattle.std.specs.Prelude.{List, Option};
    ghost use Rattle.s1ap_pdu.specs.Values.{FieldValue};

    ghost Value = { List (Option FieldValue) };

    ghost view = { λ slots. slots.values };
}

impl<'a> Slots<'a> {
    /// No value yet.
    pub fn new() -> Slots<'a>
        ensures { result ≡ empty }
    {
        Slots {
            values: protocol_ies::Slots::new(),
        }
    }

    /// The values, whatever they are.
    pub fn values(&self) -> &protocol_ies::Slots<FoundValue<'a>>
        ensures { result.now ≡ self.now }
    {
        &self.values
    }

    /// What stands in that place.
    pub fn at(&self, place: usize) -> &Option<FoundValue<'a>>
        requires { place < 6 }
        ensures { result.now ≡ slice_index_or self.now place None }
    {
        self.values.at(place)
    }

    /// The MME UE S1AP ID that stands in that place, if one does.
    pub fn mme(&self, place: usize) -> Option<u32>
        requires { place < 6 }
        ensures { result ≡ part_of ies.mme (slot self.now place) }
    {
        let Some(IeValue::Mme(mme)) = self.at(place) else {
            return None;
        };
        Some(*mme)
    }

    /// The eNB UE S1AP ID that stands in that place, if one does.
    pub fn enb(&self, place: usize) -> Option<u32>
        requires { place < 6 }
        ensures { result ≡ part_of ies.enb (slot self.now place) }
    {
        let Some(IeValue::Enb(enb)) = self.at(place) else {
            return None;
        };
        Some(*enb)
    }

    /// Keeps a value that was found, in its place.
    pub fn note(&mut self, found: Option<(usize, FoundValue<'a>)>)
        requires { IfSome found (λ f. f.0 < 6) }
        ensures { self.new ≡ noted self.old found.entry }
    {
        self.values.note(found);
    }
}
