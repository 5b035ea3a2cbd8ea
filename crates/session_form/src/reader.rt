//! Reading the fields of a session from the front of its octets.
ghost use Rattle.std.specs.Prelude.{◌≡◌, ◌≤◌, ◌<◌, ◌^◌, ◌-◌, IfOk, length};
ghost use Rattle.echo_base.specs.Reading.{GivesOrEnds, GivesOrEndsBy};
ghost use Rattle.session_form.specs.Fields.{bad, only, octets_at, number_at, value_at, counted_at, end_at, reading};
ghost use Rattle.session_form.specs.Form.{start, version_field, stage_code, stage_field, bearer_field, second_field, truth_field, link_field};

use crate::version::Version;
use byteorder::{BigEndian, ByteOrder};
use device_types::{Bearer, Link, Second, Stage};
use echo_base::{Reason, Refusal};
use std::marker::Model;

/// The octets that are still to be read.
#[derive(Drop)]
pub struct FormReader<'a> {
    /// How many octets there were.
    total: usize,
    left: &'a [u8],
}

impl<'a> Model for FormReader<'a> {
    ghost use Rattle.std.specs.Prelude.{◌≤◌, ◌-◌, length};
    ghost use Rattle.session_form.specs.Fields.{Input};

    ghost Value = { Input };

    ghost view = { λ r. record { place = r.total - length r.left.now; left = r.left.now } };

    ghost invariant = { λ r. length r.left.now ≤ r.total };
}

/// The stages, in the order of their numbers.
static STAGES: [Stage; 18] = [
    Stage::Detached,
    Stage::AwaitVectors,
    Stage::Authenticating,
    Stage::Securing,
    Stage::AwaitLocation,
    Stage::AwaitCreate,
    Stage::Accepting,
    Stage::AcceptingContext,
    Stage::AcceptingDone,
    Stage::AwaitModify,
    Stage::Connecting,
    Stage::Connected,
    Stage::AwaitRelease,
    Stage::Releasing,
    Stage::Idle,
    Stage::AwaitDelete,
    Stage::AwaitSecond,
    Stage::AwaitSecondModify,
];

impl<'a> FormReader<'a> {
    /// A reader of these octets.
    #[inline(always)]
    pub fn new(octets: &'a [u8]) -> FormReader<'a>
        ensures { result ≡ start octets.now }
    {
        FormReader {
            total: octets.len(),
            left: octets,
        }
    }

    /// The refusal of a field that begins with the next octet.
    #[inline(always)]
    fn bad(&self) -> Refusal
        ensures { result ≡ bad self.now }
    {
        Refusal {
            reason: Reason::BadSession,
            place: (self.total - self.left.len()) as u64,
        }
    }

    /// So many octets.
    #[inline(always)]
    #[tactic(auto, unfolding(crate::specs::Fields::octets_at))]
    pub fn octets(&mut self, count: usize) -> Result<&'a [u8], Refusal>
        ensures read { GivesOrEndsBy (λ octets. octets.now) result self.new (octets_at count self.old) }
        ensures count { IfOk result (λ octets. length octets.now ≡ count) }
    {
        let Some((octets, left)) = self.left.split_at_checked(count) else {
            return Err(self.bad());
        };
        self.left = left;
        Ok(octets)
    }

    /// A number of so many octets, the highest first.
    #[inline(always)]
    #[tactic(auto, unfolding(crate::specs::Fields::number_at))]
    pub fn number(&mut self, count: usize, least: u64, most: u64) -> Result<u64, Refusal>
        requires { (1 ≤ count) × (count ≤ 8) }
        ensures read { GivesOrEnds result self.new (number_at count least most self.old) }
        ensures range { IfOk result (λ n. (least ≤ n) × (n ≤ most)) }
    {
        let bad = self.bad();
        let number = BigEndian::read_uint(self.octets(count)?, count);
        if number < least {
            return Err(bad);
        }
        if number > most {
            return Err(bad);
        }
        Ok(number)
    }

    /// So many octets of zero.
    #[inline(always)]
    #[tactic(auto, unfolding(crate::specs::Fields::reading, crate::specs::Fields::value_at))]
    fn zeros(&mut self, count: usize) -> Result<(), Refusal>
        requires { (1 ≤ count) × (count ≤ 8) }
        ensures { GivesOrEnds result self.new (value_at (only 0) count 0 0 self.old) }
    {
        self.number(count, 0, 0)?;
        Ok(())
    }

    /// Which form it is.
    #[inline(always)]
    #[tactic(auto, unfolding(crate::specs::Fields::reading, crate::specs::Fields::value_at))]
    pub fn version(&mut self) -> Result<Version, Refusal>
        ensures { GivesOrEnds result self.new (reading version_field self.old) }
    {
        let bad = self.bad();
        match self.number(1, 1, 2)? {
            1 => Ok(Version::One),
            2 => Ok(Version::Two),
            _ => Err(bad),
        }
    }

    /// A stage, by its number; form 1 has none of a second connection.
    #[inline(always)]
    #[tactic(auto, unfolding(crate::specs::Fields::reading))]
    pub fn stage(&mut self, version: Version) -> Result<Stage, Refusal>
        ensures { GivesOrEnds result self.new (reading (stage_field version) self.old) }
    {
        match version {
            Version::One => self.stage_to(15),
            Version::Two => self.stage_to(17),
        }
    }

    /// A stage, by its number, up to one.
    #[inline(always)]
    #[tactic(auto, unfolding(crate::specs::Fields::value_at))]
    fn stage_to(&mut self, most: u64) -> Result<Stage, Refusal>
        ensures { GivesOrEnds result self.new (value_at stage_code 1 0 most self.old) }
    {
        let bad = self.bad();
        match STAGES.get(self.number(1, 0, most)? as usize) {
            Some(stage) => Ok(*stage),
            None => Err(bad),
        }
    }

    /// The state of the default bearer, by its number.
    #[inline(always)]
    #[tactic(auto, unfolding(crate::specs::Fields::reading, crate::specs::Fields::value_at))]
    pub fn bearer(&mut self) -> Result<Bearer, Refusal>
        ensures { GivesOrEnds result self.new (reading bearer_field self.old) }
    {
        let bad = self.bad();
        match self.number(1, 0, 2)? {
            0 => Ok(Bearer::None),
            1 => Ok(Bearer::Made),
            2 => Ok(Bearer::Active),
            _ => Err(bad),
        }
    }

    /// The state of the second connection, by its number.
    #[inline(always)]
    #[tactic(auto, unfolding(crate::specs::Fields::reading, crate::specs::Fields::value_at))]
    pub fn second(&mut self) -> Result<Second, Refusal>
        ensures { GivesOrEnds result self.new (reading second_field self.old) }
    {
        let bad = self.bad();
        match self.number(1, 0, 4)? {
            0 => Ok(Second::None),
            1 => Ok(Second::Made),
            2 => Ok(Second::Radio),
            3 => Ok(Second::Accepted),
            4 => Ok(Second::Active),
            _ => Err(bad),
        }
    }

    /// A truth value: 0 or 1.
    #[inline(always)]
    #[tactic(auto, unfolding(crate::specs::Fields::reading, crate::specs::Fields::value_at))]
    pub fn truth(&mut self) -> Result<bool, Refusal>
        ensures { GivesOrEnds result self.new (reading truth_field self.old) }
    {
        let bad = self.bad();
        match self.number(1, 0, 1)? {
            0 => Ok(false),
            1 => Ok(true),
            _ => Err(bad),
        }
    }

    /// A link: whether it is on, its station and its eNB id, which are zeros where it is off.
    #[inline(always)]
    #[tactic(auto, unfolding(crate::specs::Fields::reading, crate::specs::Fields::value_at))]
    pub fn link(&mut self) -> Result<Link, Refusal>
        ensures { GivesOrEnds result self.new (reading link_field self.old) }
    {
        if self.number(1, 0, 1)? == 0 {
            self.zeros(2)?;
            self.zeros(4)?;
            return Ok(Link::Off);
        }
        let station = self.number(2, 1, 0xffff)? as u16;
        let enb = self.number(4, 0, 0xff_ffff)? as u32;
        Ok(Link::On { station, enb })
    }

    /// Octets behind an octet that says how many they are.
    #[inline(always)]
    #[tactic(auto, unfolding(crate::specs::Fields::reading, crate::specs::Fields::value_at))]
    pub fn counted(&mut self, most: u64) -> Result<&'a [u8], Refusal>
        requires { most < 256 }
        ensures read { GivesOrEndsBy (λ octets. octets.now) result self.new (counted_at most self.old) }
        ensures most { IfOk result (λ octets. length octets.now ≤ most) }
    {
        let count = self.number(1, 0, most)?;
        self.octets(count as usize)
    }

    /// A key: 32 octets.
    #[inline(always)]
    pub fn key(&mut self) -> Result<&'a [u8], Refusal>
        ensures read { GivesOrEndsBy (λ key. key.now) result self.new (octets_at 32 self.old) }
        ensures count { IfOk result (λ key. length key.now ≡ 32) }
    {
        self.octets(32)
    }

    /// Nothing is left.
    #[inline(always)]
    #[tactic(auto, unfolding(crate::specs::Fields::end_at))]
    pub fn end(&mut self) -> Result<(), Refusal>
        ensures { GivesOrEnds result self.new (end_at self.old) }
    {
        if !self.left.is_empty() {
            return Err(self.bad());
        }
        Ok(())
    }
}
