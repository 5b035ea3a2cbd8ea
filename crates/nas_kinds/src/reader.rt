//! Reading the fields of a NAS message (3GPP TS 24.007, 11.2.1.1) from its front. A field that is not whole is NasShort.

ghost use Rattle.std.specs.Prelude.{◌≡◌};
ghost use Rattle.echo_base.specs.Field.{octet_at, octets_at, counted_at, long_counted_at};
ghost use Rattle.echo_base.specs.Reading.{GivesOrEnds, GivesOrEndsBy};
ghost use Rattle.nas_kinds.specs.Kinds.{short};

use echo_base::{Reason, Refusal, refused};
use std::marker::Model;

/// The octets of a message that are still to be read.
#[derive(Drop)]
pub struct NasReader<'a> {
    left: &'a [u8],
}

impl<'a> Model for NasReader<'a> {
    ghost use Rattle.std.specs.Prelude.{ℕ, List};

    ghost Value = { List ℕ };

    ghost view = { λ r. r.left.now };
}

impl<'a> NasReader<'a> {
    /// A reader of these octets.
    pub fn new(octets: &'a [u8]) -> NasReader<'a>
        ensures { result ≡ octets.now }
    {
        NasReader { left: octets }
    }

    /// The next octet.
    #[tactic(auto, unfolding(echo_base::specs::Field::octet_at))]
    pub fn octet(&mut self) -> Result<u8, Refusal>
        ensures { GivesOrEnds result self.new (octet_at short self.old) }
    {
        let Some((first, left)) = self.left.split_first() else {
            return Err(refused(Reason::NasShort));
        };
        self.left = left;
        Ok(*first)
    }

    /// So many octets.
    #[tactic(auto, unfolding(echo_base::specs::Field::octets_at))]
    pub fn octets(&mut self, count: usize) -> Result<&'a [u8], Refusal>
        ensures { GivesOrEndsBy (λ octets. octets.now) result self.new (octets_at short count self.old) }
    {
        let Some((octets, left)) = self.left.split_at_checked(count) else {
            return Err(refused(Reason::NasShort));
        };
        self.left = left;
        Ok(octets)
    }

    /// Octets behind their count in one octet (format LV).
    #[tactic(auto, unfolding(echo_base::specs::Field::counted_at))]
    pub fn counted(&mut self) -> Result<&'a [u8], Refusal>
        ensures { GivesOrEndsBy (λ octets. octets.now) result self.new (counted_at short self.old) }
    {
        let count = self.octet()?;
        self.octets(usize::from(count))
    }

    /// Octets behind their count in two octets (format LV-E).
    #[tactic(auto, unfolding(echo_base::specs::Field::long_counted_at))]
    pub fn long_counted(&mut self) -> Result<&'a [u8], Refusal>
        ensures { GivesOrEndsBy (λ octets. octets.now) result self.new (long_counted_at short self.old) }
    {
        let high = self.octet()?;
        let low = self.octet()?;
        self.octets(256 * usize::from(high) + usize::from(low))
    }
}
