//! A place in octets that are read bit by bit.

ghost use Rattle.std.specs.Prelude.{◌≡◌, ◌==◌, ℕ, ◌+◌, ◌*◌, ◌/◌, ◌%◌, ◌^◌, ◌<◌, ◌≤◌, ◌↔◌, IsTrue, OnOk, IfOk, length, take, drop};
ghost use Rattle.aper_fields.specs.Bits.{number_of, bits_of, octets_of, gap};

use echo_base::{Reason, Refusal};
use std::marker::Model;

/// Octets that are read bit by bit, the highest bit of each first. What it contains is the bits that are left, and
/// their offset in bits from the start of the PDU, also within a container.
#[derive(Drop)]
pub struct BitReader<'a> {
    /// From the octet that holds the next bit on.
    bytes: &'a [u8],
    /// How many bits of the first octet were read.
    used: u32,
    /// The place of the first octet, in octets from the start of the PDU.
    place: u64,
}

impl<'a> Model for BitReader<'a> {
    ghost use Rattle.std.specs.Prelude.{◌≡◌, ℕ, ◌+◌, ◌*◌, ◌^◌, ◌<◌, ◌≤◌, length, drop};
    ghost use Rattle.aper_fields.specs.Bits.{bits_of};
    ghost use Rattle.aper_fields.specs.Reading.{Input};

    ghost Value = { Input };

    ghost view = { λ r. record { offset = 8 * r.place + r.used; left = drop r.used (bits_of r.bytes.now) } };

    ghost invariant = { λ r. (r.used < 8) × (r.used ≤ 8 * length r.bytes.now) × (r.place + length r.bytes.now < 2 ^ 64) };
}

/// The first octets of a slice, and those behind them.
fn cut(octets: &[u8], count: usize) -> (&[u8], &[u8])
    requires { count ≤ length octets.now }
    ensures front { result.0.now ≡ octets_of count (bits_of octets.now) }
    ensures back { result.1.now ≡ drop count octets.now }
    ensures front_len { length result.0.now ≡ count }
    ensures back_len { count + length result.1.now ≡ length octets.now }
{
    octets.split_at(count)
}

impl<'a> BitReader<'a> {
    ghost use Rattle.aper_fields.specs.Reading.{Gives, GivesBy, forward, refusal, bits_at, padding_at, octets_at};
    ghost use Rattle.echo_base.specs.declared.refusal.Refusal.{Refusal};

    /// A reader of all of these octets, the first of which is the octet `base` of the PDU.
    pub fn new(bytes: &'a [u8], base: u64) -> BitReader<'a>
        requires { base + length bytes.now < 2 ^ 64 }
        ensures { result ≡ record { offset = 8 * base; left = bits_of bytes.now } }
    {
        BitReader {
            bytes,
            used: 0,
            place: base,
        }
    }

    /// The octet of the next bit, counted from the start of the PDU.
    #[inline(always)]
    pub fn place(&self) -> u64
        ensures { result ≡ self.now.offset / 8 }
    {
        self.place
    }

    /// A second reader at the same place, to read ahead with.
    #[inline(always)]
    pub fn ahead(&self) -> BitReader<'a>
        ensures { result ≡ self.now }
    {
        BitReader {
            bytes: self.bytes,
            used: self.used,
            place: self.place,
        }
    }

    /// A refusal for that reason, at the octet of the next bit.
    #[inline(always)]
    pub fn refusal(&self, reason: Reason) -> Refusal
        ensures { result ≡ refusal reason self.now }
    {
        Refusal {
            reason,
            place: self.place,
        }
    }

    /// How many bits of the next octet are left.
    #[inline(always)]
    fn room(&self) -> u32
        ensures { result + self.now.offset % 8 ≡ 8 }
    {
        8 - self.used
    }

    /// How many bits lead to the next octet.
    #[inline(always)]
    fn gap(&self) -> u32
        ensures { result ≡ gap self.now.offset }
    {
        (8 - self.used) % 8
    }

    /// Are at least `count` bits left?
    #[inline(always)]
    fn has(&self, count: u32) -> bool
        requires { count ≤ 64 }
        ensures { IsTrue result ↔ (count ≤ length self.now.left) }
    {
        self.bytes.len() >= (self.used + count).div_ceil(8) as usize
    }

    /// Are at least `count` whole octets left?
    #[inline(always)]
    pub(crate) fn has_octets(&self, count: usize) -> bool
        requires { gap self.now.offset ≡ 0 }
        ensures { IsTrue result ↔ (8 * count ≤ length self.now.left) }
    {
        self.bytes.len() >= count
    }

    /// Is nothing left?
    #[inline(always)]
    pub(crate) fn is_empty(&self) -> bool
        ensures { IsTrue result ↔ (length self.now.left ≡ 0) }
    {
        self.bytes.is_empty()
    }

    /// Does the next bit stand where that of the other does?
    pub(crate) fn is_at(&self, other: &BitReader) -> bool
        ensures { result ≡ (self.now.offset == other.now.offset) }
    {
        self.place == other.place && self.used == other.used
    }

    /// The next bits, all of one octet.
    #[inline(always)]
    fn take_bits(&mut self, count: u32) -> u64
        requires in_octet { self.old.offset % 8 + count ≤ 8 }
        requires here { count ≤ length self.old.left }
        requires some { 1 ≤ count }
        ensures value { result ≡ number_of (take count self.old.left) }
        ensures moved { self.new ≡ forward count self.old }
    {
        let [octet, rest @ ..] = self.bytes else {
            unreachable!()
        };
        let shift = 8 - self.used - count;
        let value = (u64::from(*octet) >> shift) & ((1 << count) - 1);
        if shift == 0 {
            self.bytes = rest;
            self.used = 0;
            self.place += 1;
        } else {
            self.used += count;
        }
        value
    }

    /// So many bits as a number, or Truncated.
    #[tactic(auto, unfolding(crate::specs::Reading::bits_at))]
    #[inline(always)]
    pub(crate) fn read_bits(&mut self, count: u32) -> Result<u64, Refusal>
        requires { count ≤ 64 }
        ensures read { Gives result self.old self.new (bits_at count self.old) }
        ensures fits { IfOk result (λ v. v < 2 ^ count) }
    {
        if !self.has(count) {
            return Err(self.refusal(Reason::Truncated));
        }
        if 1 <= count && count <= self.room() {
            return Ok(self.take_bits(count));
        }
        if count == 16 && self.room() == 8 {
            let high = self.take_bits(8);
            return Ok((high << 8) | self.take_bits(8));
        }
        let mut value = 0;
        let mut wanted = count;
        while wanted > 0 {
            let taken = wanted.min(self.room());
            value = (value << taken) | self.take_bits(taken);
            wanted -= taken;
        }
        Ok(value)
    }

    /// Passes over the zeros up to the next octet: Truncated, or NonZeroPadding.
    #[tactic(auto, unfolding(crate::specs::Reading::padding_at))]
    #[inline(always)]
    pub(crate) fn align(&mut self) -> Result<(), Refusal>
        ensures read { Gives result self.old self.new (padding_at self.old) }
        ensures aligned { OnOk result (gap self.new.offset ≡ 0) }
    {
        if self.gap() == 0 {
            return Ok(());
        }
        let mut ahead = self.ahead();
        if ahead.read_bits(self.gap())? != 0 {
            return Err(self.refusal(Reason::NonZeroPadding));
        }
        *self = ahead;
        Ok(())
    }

    /// The next octets, as a container of their own.
    #[inline(always)]
    pub(crate) fn split(&mut self, count: usize) -> BitReader<'a>
        requires aligned { gap self.old.offset ≡ 0 }
        requires here { 8 * count ≤ length self.old.left }
        ensures front { result ≡ record { offset = self.old.offset; left = take (8 * count) self.old.left } }
        ensures moved { self.new ≡ forward (8 * count) self.old }
    {
        let (front, rest) = self.bytes.split_at(count);
        let inside = BitReader {
            bytes: front,
            used: 0,
            place: self.place,
        };
        self.bytes = rest;
        self.place += count as u64;
        inside
    }

    /// The next octets; where they do not fit, what stands at `start` is Truncated.
    #[tactic(auto, unfolding(crate::specs::Reading::octets_at))]
    #[inline(always)]
    pub(crate) fn read_octets(
        &mut self,
        start: &BitReader,
        count: usize,
    ) -> Result<&'a [u8], Refusal>
        requires { gap self.old.offset ≡ 0 }
        ensures read { GivesBy (λ x. x.now) result self.old self.new (octets_at start.now count self.old) }
        ensures len { IfOk result (λ octets. length octets.now ≡ count) }
    {
        if !self.has_octets(count) {
            return Err(start.refusal(Reason::Truncated));
        }
        let (front, rest) = cut(self.bytes, count);
        self.bytes = rest;
        self.place += count as u64;
        Ok(front)
    }
}
