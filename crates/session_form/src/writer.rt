//! Writing the fields of a session behind one another.
ghost use Rattle.std.specs.Prelude.{◌≡◌, ◌≤◌, ◌<◌, ◌+◌, ◌++◌, [], length};
ghost use Rattle.session_form.specs.Fields.{number_run, written_onto};
ghost use Rattle.session_form.specs.Form.{bearer_number, stage_field, bearer_field, second_field, truth_field, link_field};
ghost use Rattle.session_form.specs.declared.version.Version.TheVariants.{Two};

use device_types::{Bearer, Link, Second, Stage};
use std::marker::Model;

/// The octets of a form whose RES has the most octets.
pub const MOST_OCTETS: usize = 134;

/// The octets of a form so far, with room for the longest one.
#[derive(Drop)]
pub struct FormWriter {
    octets: [u8; MOST_OCTETS],
    used: usize,
}

impl Model for FormWriter {
    ghost use Rattle.std.specs.Prelude.{ℕ, ◌≤◌, List, take};
    ghost use Rattle.session_form.specs.declared.writer.TheConstants.{MOST_OCTETS};

    ghost Value = { List ℕ };

    ghost view = { λ w. take w.used w.octets };

    ghost invariant = { λ w. w.used ≤ MOST_OCTETS };
}

impl FormWriter {
    /// No octets.
    #[inline(always)]
    pub fn new() -> FormWriter
        ensures { result ≡ [] }
    {
        FormWriter {
            octets: [0; MOST_OCTETS],
            used: 0,
        }
    }

    /// The octets so far.
    #[inline(always)]
    pub fn octets(&self) -> &[u8]
        ensures { result.now ≡ self.now }
    {
        &self.octets[..self.used]
    }

    /// Puts octets.
    #[inline(always)]
    pub fn put(&mut self, octets: &[u8])
        requires { length self.old + length octets.now ≤ MOST_OCTETS }
        ensures octets { self.new ≡ self.old ++ octets.now }
        ensures count { length self.new ≡ length self.old + length octets.now }
    {
        let end = self.used + octets.len();
        self.octets[self.used..end].copy_from_slice(octets);
        self.used = end;
    }

    /// Puts the lowest octets of a number, so many, the highest first.
    #[inline(always)]
    pub fn number(&mut self, count: usize, number: u64)
        requires few { count ≤ 8 }
        requires room { length self.old + count ≤ MOST_OCTETS }
        ensures octets { self.new ≡ self.old ++ number_run count number }
        ensures count { length self.new ≡ length self.old + count }
    {
        self.put(&number.to_be_bytes()[8 - count..]);
    }

    /// Puts a stage, in form 2.
    #[inline(always)]
    #[tactic(auto, unfolding(crate::specs::Fields::written_onto))]
    pub fn stage(&mut self, stage: Stage)
        requires { length self.old + 1 ≤ MOST_OCTETS }
        ensures octets { self.new ≡ written_onto (stage_field Two) stage self.old }
        ensures count { length self.new ≡ length self.old + 1 }
    {
        self.number(1, u64::from(stage.number()));
    }

    /// Puts the state of the default bearer.
    #[inline(always)]
    #[tactic(auto, unfolding(crate::specs::Fields::written_onto))]
    pub fn bearer(&mut self, bearer: Bearer)
        requires { length self.old + 1 ≤ MOST_OCTETS }
        ensures octets { self.new ≡ written_onto bearer_field bearer self.old }
        ensures count { length self.new ≡ length self.old + 1 }
    {
        self.number(1, bearer_number(bearer));
    }

    /// Puts the state of the second connection.
    #[inline(always)]
    #[tactic(auto, unfolding(crate::specs::Fields::written_onto))]
    pub fn second(&mut self, second: Second)
        requires { length self.old + 1 ≤ MOST_OCTETS }
        ensures octets { self.new ≡ written_onto second_field second self.old }
        ensures count { length self.new ≡ length self.old + 1 }
    {
        self.number(1, u64::from(second.number()));
    }

    /// Puts a truth value.
    #[inline(always)]
    #[tactic(auto, unfolding(crate::specs::Fields::written_onto))]
    pub fn truth(&mut self, truth: bool)
        requires { length self.old + 1 ≤ MOST_OCTETS }
        ensures octets { self.new ≡ written_onto truth_field truth self.old }
        ensures count { length self.new ≡ length self.old + 1 }
    {
        self.number(1, u64::from(truth));
    }

    /// Puts a link: whether it is on, its station and its eNB id, which are zeros where it is off.
    #[inline(always)]
    #[tactic(auto, unfolding(crate::specs::Fields::written_onto))]
    pub fn link(&mut self, link: Link)
        requires { length self.old + 7 ≤ MOST_OCTETS }
        ensures octets { self.new ≡ written_onto link_field link self.old }
        ensures count { length self.new ≡ length self.old + 7 }
    {
        match link {
            Link::Off => {
                self.number(1, 0);
                self.number(2, 0);
                self.number(4, 0);
            }
            Link::On { station, enb } => {
                self.number(1, 1);
                self.number(2, station as u64);
                self.number(4, enb as u64);
            }
        }
    }

    /// Puts octets behind an octet that says how many they are.
    #[inline(always)]
    pub fn counted(&mut self, octets: &[u8])
        requires { length self.old + (1 + length octets.now) ≤ MOST_OCTETS }
        ensures octets { self.new ≡ (self.old ++ number_run 1 (length octets.now)) ++ octets.now }
        ensures count { length self.new ≡ length self.old + (1 + length octets.now) }
    {
        self.number(1, octets.len() as u64);
        self.put(octets);
    }
}

/// The number of a state of the default bearer.
fn bearer_number(bearer: Bearer) -> u64
    ensures { result ≡ bearer_number bearer }
{
    match bearer {
        Bearer::None => 0,
        Bearer::Made => 1,
        Bearer::Active => 2,
    }
}
