//! Octets that are still to be read. A field that is not whole is refused as the caller says.

ghost use Rattle.std.specs.Prelude.{◌≡◌, ◌-◌, ◌^◌, ◌<◌, [], ◌↔◌, IsTrue, IfOk, length};
ghost use Rattle.byteorder.specs.Endian.{big_number};
ghost use Rattle.echo_base.specs.Field.{octet_at, octets_at, number_at};
ghost use Rattle.tlv_elements.specs.Element.{room_at, truncated};
ghost use Rattle.tlv_elements.specs.Piece.{end_at, given_at};
ghost use Rattle.echo_base.specs.Reading.{GivesOrEnds, GivesOrEndsBy};

use byteorder::{BigEndian, ByteOrder};
use echo_base::{Reason, Refusal};
use std::marker::Model;

/// The number of three octets, the highest first.
fn number_of_three(octets: &[u8]) -> u32
    requires { length octets.now ≡ 3 }
    ensures value { result ≡ big_number 3 octets.now }
    ensures range { result < 2 ^ 24 }
{
    BigEndian::read_u24(octets)
}

/// The refusal of what is not whole.
pub fn truncated(place: u64) -> Refusal
    ensures { result ≡ truncated place }
{
    Refusal {
        reason: Reason::Truncated,
        place,
    }
}

/// The octets of a message that are still to be read.
#[derive(Drop)]
pub struct Left<'a> {
    left: &'a [u8],
}

impl<'a> Model for Left<'a> {
    ghost use Rattle.std.specs.Prelude.{ℕ, List};

    ghost Value = { List ℕ };

    ghost view = { λ r. r.left.now };
}

impl<'a> Left<'a> {
    /// These octets.
    pub fn new(octets: &'a [u8]) -> Left<'a>
        ensures { result ≡ octets.now }
    {
        Left { left: octets }
    }

    /// Are there none?
    pub fn is_empty(&self) -> bool
        ensures { IsTrue result ↔ self.now ≡ [] }
    {
        self.left.is_empty()
    }

    /// The end.
    pub fn end(&self, short: Refusal) -> Result<(), Refusal>
        ensures { GivesOrEnds result self.now (end_at short self.now) }
    {
        if self.left.is_empty() {
            return Ok(());
        }
        Err(short)
    }

    /// Are so many octets left? None is read.
    pub fn room(&self, short: Refusal, count: usize) -> Result<(), Refusal>
        ensures { GivesOrEnds result self.now (room_at short count self.now) }
    {
        if self.left.len() < count {
            return Err(short);
        }
        Ok(())
    }

    /// Where reading stands, in octets that end at that place.
    pub fn here(&self, end: u64) -> u64
        ensures { result ≡ end - length self.now }
    {
        end.saturating_sub(self.left.len() as u64)
    }

    /// The next octet.
    #[tactic(auto, unfolding(echo_base::specs::Field::octet_at))]
    pub fn octet(&mut self, short: Refusal) -> Result<u8, Refusal>
        ensures { GivesOrEnds result self.new (octet_at short self.old) }
    {
        let Some((first, left)) = self.left.split_first() else {
            return Err(short);
        };
        self.left = left;
        Ok(*first)
    }

    /// The next octet, which has to be that.
    #[tactic(auto, unfolding(crate::specs::Piece::given_at))]
    pub fn given(&mut self, short: Refusal, wanted: u8) -> Result<(), Refusal>
        ensures { GivesOrEnds result self.new (given_at short wanted self.old) }
    {
        let octet = self.octet(short)?;
        if octet != wanted {
            return Err(short);
        }
        Ok(())
    }

    /// So many octets.
    #[tactic(auto, unfolding(echo_base::specs::Field::octets_at))]
    pub fn octets(&mut self, short: Refusal, count: usize) -> Result<&'a [u8], Refusal>
        ensures read { GivesOrEndsBy (λ octets. octets.now) result self.new (octets_at short count self.old) }
        ensures count { IfOk result (λ octets. length octets.now ≡ count) }
    {
        let Some((octets, left)) = self.left.split_at_checked(count) else {
            return Err(short);
        };
        self.left = left;
        Ok(octets)
    }

    /// A number of two octets.
    #[tactic(auto, unfolding(echo_base::specs::Field::number_at))]
    pub fn u16(&mut self, short: Refusal) -> Result<u16, Refusal>
        ensures { GivesOrEnds result self.new (number_at short 2 self.old) }
    {
        let octets = self.octets(short, 2)?;
        Ok(BigEndian::read_u16(octets))
    }

    /// A number of three octets.
    #[tactic(auto, unfolding(echo_base::specs::Field::number_at))]
    pub fn u24(&mut self, short: Refusal) -> Result<u32, Refusal>
        ensures read { GivesOrEnds result self.new (number_at short 3 self.old) }
        ensures range { IfOk result (λ n. n < 2 ^ 24) }
    {
        let octets = self.octets(short, 3)?;
        Ok(number_of_three(octets))
    }

    /// A number of four octets.
    #[tactic(auto, unfolding(echo_base::specs::Field::number_at))]
    pub fn u32(&mut self, short: Refusal) -> Result<u32, Refusal>
        ensures { GivesOrEnds result self.new (number_at short 4 self.old) }
    {
        let octets = self.octets(short, 4)?;
        Ok(BigEndian::read_u32(octets))
    }
}
