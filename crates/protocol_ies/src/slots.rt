//! A slot for each row of a message's table.

ghost use Rattle.std.specs.Prelude.{◌≡◌, ◌<◌, ◌≤◌, ◌&&◌, IfSome, None, is_none, length, slice_index_or};
ghost use Rattle.protocol_ies.specs.Slots.{empty, is_filled, noted, lacking, count_of};

use crate::tables::IeRow;
use std::marker::Model;

/// The values of a message that were found, each in the place of its row.
#[derive(Drop)]
pub struct Slots<V> {
    first: Option<V>,
    second: Option<V>,
    third: Option<V>,
    fourth: Option<V>,
    fifth: Option<V>,
    sixth: Option<V>,
}

impl<V> Model for Slots<V> {
    ghost use Rattle.std.specs.Prelude.{List, [], ◌∷◌, Option};

    ghost Value = { List (Option V) };

    ghost view = { λ slots. slots.first ∷ slots.second ∷ slots.third ∷ slots.fourth ∷ slots.fifth ∷ slots.sixth ∷ [] };
}

impl<V> Slots<V> {
    /// No value yet.
    pub fn new() -> Slots<V>
        ensures { result ≡ empty }
    {
        Slots {
            first: None,
            second: None,
            third: None,
            fourth: None,
            fifth: None,
            sixth: None,
        }
    }

    /// What stands in that place.
    pub fn at(&self, place: usize) -> &Option<V>
        requires { place < 6 }
        ensures value { result.now ≡ slice_index_or self.now place None }
        ensures places { length self.now ≡ 6 }
    {
        match place {
            0 => &self.first,
            1 => &self.second,
            2 => &self.third,
            3 => &self.fourth,
            4 => &self.fifth,
            _ => &self.sixth,
        }
    }

    /// Is there a value in that place?
    pub fn is_filled(&self, place: Option<usize>) -> bool
        requires { IfSome place (λ k. k < 6) }
        ensures { result ≡ is_filled place self.now }
    {
        match place {
            Some(place) => self.at(place).is_some(),
            None => false,
        }
    }

    /// Does a message need the row, while there is no value in that place?
    fn lacks(&self, row: IeRow, place: usize) -> bool
        requires { place < 6 }
        ensures value { result ≡ (row.needed && is_none (slice_index_or self.now place None)) }
        ensures places { length self.now ≡ 6 }
    {
        let value = self.at(place);
        row.needed && value.is_none()
    }

    /// The id of the first row that a message needs and that has no value in its place.
    #[tactic(auto, unfolding(crate::specs::Slots::lacking))]
    pub fn lacking(&self, rows: &[IeRow]) -> Option<u16>
        requires { length rows.now ≤ 6 }
        ensures { result ≡ lacking rows.now self.now }
    {
        let mut left = rows;
        let mut place = 0;
        while let [row, later @ ..] = left {
            if self.lacks(*row, place) {
                return Some(row.id);
            }
            left = later;
            place += 1;
        }
        None
    }
}

impl<V: Drop> Slots<V> {
    /// Keeps a value that was found, in its place.
    pub fn note(&mut self, found: Option<(usize, V)>)
        requires { IfSome found (λ f. f.0 < 6) }
        ensures { self.new ≡ noted self.old found }
    {
        let Some((place, value)) = found else {
            return;
        };
        match place {
            0 => self.first = Some(value),
            1 => self.second = Some(value),
            2 => self.third = Some(value),
            3 => self.fourth = Some(value),
            4 => self.fifth = Some(value),
            _ => self.sixth = Some(value),
        }
    }
}

/// How many values there are.
pub fn count_of<V>(values: &[Option<V>]) -> usize
    ensures value { result ≡ count_of values.now }
    ensures most { result ≤ length values.now }
{
    values.iter().filter(|value| value.is_some()).count()
}
