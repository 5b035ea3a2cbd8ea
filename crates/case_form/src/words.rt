//! The words of a line.

ghost use Rattle.std.specs.Prelude.{◌≡◌, ◌==◌, ℕ, position};

use crate::number::number_of;
use memchr::memchr;
use std::marker::Model;

/// The words of a line that are still to be read: the parts between its spaces.
#[derive(Drop)]
pub(crate) struct Words<'a> {
    /// What is left of the line, and nothing behind the last word.
    left: Option<&'a [u8]>,
}

impl<'a> Model for Words<'a> {
    ghost use Rattle.std.specs.Prelude.{ℕ, List};
    ghost use Rattle.std.specs.Option.{option_copied};
    ghost use Rattle.case_form.specs.Words.{words_left};

    ghost Value = { List (List ℕ) };

    ghost view = { λ w. words_left (option_copied w.left) };
}

/// Most words have at most so many octets, and these are looked at one by one.
const NEAR: usize = 8;

/// Where the first space stands among a few octets.
fn near_space(octets: &[u8]) -> Option<usize>
    ensures { result ≡ position (λ octet. octet == 32) octets.now }
{
    octets.iter().position(|octet| *octet == b' ')
}

/// Where the first space stands.
fn first_space(octets: &[u8]) -> Option<usize>
    ensures { result ≡ position (λ octet. octet == 32) octets.now }
{
    if octets.len() <= NEAR {
        return near_space(octets);
    }
    match near_space(&octets[..NEAR]) {
        Some(at) => Some(at),
        None => memchr(b' ', octets),
    }
}

impl<'a> Words<'a> {
    ghost use Rattle.std.specs.Prelude.{length, ◌≤◌, IfSome};
    ghost use Rattle.echo_base.specs.Reading.{GivesSome, GivesSomeBy};
    ghost use Rattle.case_form.specs.Words.{words_of, word_at, number_at};

    /// All words of a line.
    pub(crate) fn new(line: &'a [u8]) -> Words<'a>
        ensures { result ≡ words_of line.now }
    {
        Words { left: Some(line) }
    }

    /// The next word, if there is one.
    #[inline(always)]
    pub(crate) fn word(&mut self) -> Option<&'a [u8]>
        ensures { GivesSomeBy (λ word. word.now) result self.new (word_at self.old) }
    {
        let left = self.left?;
        match first_space(left) {
            None => {
                self.left = None;
                Some(left)
            }
            Some(at) => {
                self.left = Some(&left[at + 1..]);
                Some(&left[..at])
            }
        }
    }

    /// The next word as a number from 1 to `most`, if it is one.
    #[tactic(auto, unfolding(crate::specs::Words::number_at))]
    pub(crate) fn number(&mut self, most: u32) -> Option<u32>
        ensures read { GivesSome result self.new (number_at most self.old) }
        ensures most { IfSome result (λ n. n ≤ most) }
    {
        number_of(self.word()?, most)
    }

    /// Is no word left?
    pub(crate) fn is_at_end(&self) -> bool
        ensures { result ≡ (length self.now == 0) }
    {
        self.left.is_none()
    }
}
