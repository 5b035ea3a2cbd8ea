//! Writing bits.

ghost use Rattle.std.specs.Prelude.{◌≡◌, ℕ, ◌+◌, ◌-◌, ◌*◌, ◌/◌, ◌%◌, ◌^◌, ◌<◌, ◌≤◌, ◌++◌, List, [], length, take, drop, OnOk, OnErr, IfOk};
ghost use Rattle.aper_fields.specs.Bits.{bits, bits_of, octets_of, zeros, filled, packed};
ghost use Rattle.aper_fields.specs.Buffer.{FreeBehind, before_free};
ghost use Rattle.aper_fields.specs.Run.{then_written, ◌▸◌, bits_run, padding_run, fixed_octets_run, content_of, open_run};

use std::alloc::{AllocError, Global};
use std::marker::Model;

/// Bits that are written one behind another, the first one highest, and kept as octets.
#[derive(Drop)]
pub struct BitWriter {
    /// The octets; the last one is filled up with zeros.
    bytes: Vec<u8>,
    /// How many bits of the last octet are still free.
    free: u32,
}

impl Model for BitWriter {
    ghost use Rattle.std.specs.Prelude.{◌≡◌, ℕ, ◌+◌, ◌*◌, ◌<◌, ◌≤◌, List, Bool, length};
    ghost use Rattle.aper_fields.specs.Buffer.{FreeBehind, before_free};

    ghost Value = { List Bool };

    ghost view = { λ w. before_free w.bytes.items w.free };

    ghost invariant = { λ w. (w.free < 8) × (w.free ≤ 8 * length w.bytes.items) × FreeBehind (before_free w.bytes.items w.free) w.bytes.items w.free };
}

/// A place in what was written: how many bits stand before it.
#[derive(Drop)]
pub struct Mark {
    octets: usize,
    free: u32,
}

impl Model for Mark {
    ghost use Rattle.std.specs.Prelude.{ℕ, ◌-◌, ◌*◌, ◌<◌, ◌≤◌};

    ghost Value = { ℕ };

    ghost view = { λ m. 8 * m.octets - m.free };

    ghost invariant = { λ m. (m.free < 8) × (m.free ≤ 8 * m.octets) };
}

/// Does nothing: it tells a proof that each octet is the number that its eight bits spell.
fn recall(octets: &[u8])
    ensures { octets.now ≡ octets_of (length octets.now) (bits_of octets.now) }
{}

/// Cuts octets off, and makes zeros of the bits that are free then.
fn cut_octets(bytes: &mut Vec<u8>, octets: usize, free: u32)
    requires within { octets ≤ length bytes.old.items }
    requires few { free < 8 }
    requires most { free ≤ 8 * octets }
    ensures { FreeBehind (take (8 * octets - free) (bits_of bytes.old.items)) bytes.new.items free }
{
    bytes.truncate(octets);
    if free > 0 {
        let last = octets - 1;
        bytes[last] = (bytes[last] >> free) << free;
    }
}

/// Writes a number of so many bits into one octet, of which the last bits are free.
fn put_in_octet(octet: u8, free: u32, value: u8, count: u32) -> u8
    requires low { octet % 2 ^ free ≡ 0 }
    requires fits { value < 2 ^ count }
    requires most { count ≤ free }
    requires within { free ≤ 8 }
    requires some { 1 ≤ count }
    ensures { bits 8 result ≡ bits (8 - free) (octet / 2 ^ free) ++ bits count value ++ zeros (free - count) }
{
    octet | (value << (free - count))
}

/// How many octets a writer has room for at first.
const FIRST: usize = 64;

/// Takes memory for the first octets, where there is none yet.
fn begin(bytes: &mut Vec<u8>) -> Result<(), AllocError>
    ensures { bytes.new.items ≡ bytes.old.items }
{
    if bytes.capacity() > 0 {
        return Ok(());
    }
    bytes.reserve(FIRST)
}

/// Writes a number of so many bits into the last octet, of which more bits are free.
fn fill_octet(bytes: &mut Vec<u8>, free: u32, value: u64, count: u32)
    requires full { FreeBehind (before_free bytes.old.items free) bytes.old.items free }
    requires few { free < 8 }
    requires fits { value < 2 ^ count }
    requires some { 1 ≤ count }
    requires most { count ≤ free }
    ensures { FreeBehind (before_free bytes.old.items free ++ bits count value) bytes.new.items (free - count) }
{
    let last = bytes.len() - 1;
    bytes[last] = put_in_octet(bytes[last], free, value as u8, count);
}

/// Writes a number of so many bits into one more octet.
fn add_octet(bytes: &mut Vec<u8>, value: u64, count: u32) -> Result<(), AllocError>
    requires fits { value < 2 ^ count }
    requires some { 1 ≤ count }
    requires most { count ≤ 8 }
    ensures ok { OnOk result (FreeBehind (bits_of bytes.old.items ++ bits count value) bytes.new.items (8 - count)) }
    ensures err { OnErr result (bytes.new.items ≡ bytes.old.items) }
{
    bytes.push(put_in_octet(0, 8, value as u8, count))?;
    Ok(())
}

/// Puts two octets of a number below 2^16 at the end, the higher one first.
fn add_two(bytes: &mut Vec<u8>, value: u64) -> Result<(), AllocError>
    requires { value < 2 ^ 16 }
    ensures ok { OnOk result (FreeBehind (bits_of bytes.old.items ++ bits 16 value) bytes.new.items 0) }
    ensures err { OnErr result (bytes.new.items ≡ bytes.old.items) }
{
    bytes.extend_from_slice(&[(value >> 8) as u8, (value & 0xff) as u8])?;
    Ok(())
}

/// Puts the count of the octets from a place on into the octet before the place, or into that and one octet more. Where there are
/// none, an octet of zeros is put there first.
fn put_count(bytes: &mut Vec<u8>, start: usize) -> Result<(), AllocError>
    requires room { 1 ≤ start }
    requires within { start ≤ length bytes.old.items }
    requires few { length bytes.old.items - start < 2 ^ 14 }
    ensures ok { OnOk result (bits_of bytes.new.items ≡ take (8 * start - 8) (bits_of bytes.old.items) ++ open_run (drop (8 * start) (bits_of bytes.old.items)) 0) }
    ensures err { OnErr result (bytes.new.items ≡ bytes.old.items) }
{
    let count = bytes.len() - start;
    if count == 0 {
        bytes.push(0)?;
        bytes[start - 1] = 1;
        return Ok(());
    }
    if count < 128 {
        bytes[start - 1] = count as u8;
        return Ok(());
    }
    // the bits 10 before fourteen bits of the count
    let word = 0x8000 + count;
    match bytes.insert(start, (word % 256) as u8) {
        Ok(()) => {
            bytes[start - 1] = (word / 256) as u8;
            Ok(())
        }
        Err(_) => Err(AllocError),
    }
}

/// Writes a number of so many bits where bits are free.
fn put_bits(octets: &mut [u8], free: u32, value: u64, count: u32)
    requires room { free ≤ 8 * length octets.old }
    requires filled { FreeBehind (before_free octets.old free) octets.old free }
    requires fits { value < 2 ^ count }
    requires most { count ≤ free }
    requires small { count ≤ 64 }
    requires few { free ≤ 80 }
    ensures { FreeBehind (before_free octets.old free ++ bits count value) octets.new (free - count) }
{
    let mut free = free;
    let mut left = count;
    while left > 0 {
        let room = (free - 1) % 8 + 1;
        let taken = left.min(room);
        let chunk = ((value >> (left - taken)) & ((1 << taken) - 1)) as u8;
        let at = octets.len() - free.div_ceil(8) as usize;
        octets[at] = put_in_octet(octets[at], room, chunk, taken);
        free -= taken;
        left -= taken;
    }
}

/// Makes octets of zeros, so that so many bits are free.
fn make_room(bytes: &mut Vec<u8>, free: u32, count: u32) -> Result<u32, AllocError>
    requires full { FreeBehind (before_free bytes.old.items free) bytes.old.items free }
    requires few { free < 8 }
    requires small { count ≤ 64 }
    ensures free { IfOk result (λ f. (count ≤ f) × (f < count + 8)) }
    ensures full { IfOk result (λ f. FreeBehind (before_free bytes.old.items free) bytes.new.items f) }
    ensures err { OnErr result (bytes.new.items ≡ bytes.old.items) }
{
    if count <= free {
        return Ok(free);
    }
    let more = (count - free).div_ceil(8);
    bytes.resize(bytes.len() + more as usize, 0)?;
    Ok(free + 8 * more)
}

/// Writes a number of so many bits, and says how many bits of the last octet are free then.
fn append_bits(bytes: &mut Vec<u8>, free: u32, value: u64, count: u32) -> Result<u32, AllocError>
    requires full { FreeBehind (before_free bytes.old.items free) bytes.old.items free }
    requires few { free < 8 }
    requires fits { value < 2 ^ count }
    requires small { count ≤ 64 }
    ensures free { IfOk result (λ f. f < 8) }
    ensures full { IfOk result (λ f. FreeBehind (before_free bytes.old.items free ++ bits count value) bytes.new.items f) }
    ensures err { OnErr result (bytes.new.items ≡ bytes.old.items) }
{
    begin(bytes)?;
    if 1 <= count && count <= free {
        fill_octet(bytes, free, value, count);
        return Ok(free - count);
    }
    if free == 0 && 1 <= count && count <= 8 {
        add_octet(bytes, value, count)?;
        return Ok(8 - count);
    }
    if free == 0 && count == 16 {
        add_two(bytes, value)?;
        return Ok(0);
    }
    let free = make_room(bytes, free, count)?;
    put_bits(bytes, free, value, count);
    Ok(free - count)
}

impl BitWriter {
    /// A writer to which nothing was written yet. It takes no memory.
    pub fn new(alloc: Global) -> BitWriter
        ensures { result ≡ [] }
    {
        BitWriter {
            bytes: Vec::new(alloc),
            free: 0,
        }
    }

    /// What was written, as octets: the last one is filled up with zeros.
    pub fn bytes(&self) -> &[u8]
        ensures octets { result.now ≡ packed self.now }
        ensures bits { bits_of result.now ≡ filled self.now }
    {
        recall(&self.bytes);
        &self.bytes
    }

    /// The octets that were written, in the memory that they were written to: the last one is filled up with zeros.
    pub fn into_bytes(self) -> Vec<u8>
        ensures { result.items ≡ packed self }
    {
        recall(&self.bytes);
        self.bytes
    }

    /// Puts a number into `count` bits, the highest first. Where memory runs out, nothing is written.
    pub(crate) fn write_bits(&mut self, value: u64, count: u32) -> Result<(), AllocError>
        requires fits { value < 2 ^ count }
        requires small { count ≤ 64 }
        ensures ok { OnOk result (self.new ≡ then_written self.old (bits_run count value)) }
        ensures err { OnErr result (self.new ≡ self.old) }
    {
        self.free = append_bits(&mut self.bytes, self.free, value, count)?;
        Ok(())
    }

    /// Writes zeros up to the next octet, and a number in so many bits.
    pub(crate) fn write_padded_bits(&mut self, value: u64, count: u32) -> Result<(), AllocError>
        requires fits { value < 2 ^ count }
        requires small { count ≤ 64 }
        ensures ok { OnOk result (self.new ≡ then_written self.old (padding_run ▸ bits_run count value)) }
        ensures err { OnErr result (self.new ≡ self.old) }
    {
        self.free = append_bits(&mut self.bytes, 0, value, count)?;
        Ok(())
    }

    /// Writes zeros up to the next octet, and octets.
    pub(crate) fn write_padded_octets(&mut self, octets: &[u8]) -> Result<(), AllocError>
        ensures ok { OnOk result (self.new ≡ then_written self.old (fixed_octets_run octets.now)) }
        ensures err { OnErr result (self.new ≡ self.old) }
    {
        begin(&mut self.bytes)?;
        self.bytes.extend_from_slice(octets)?;
        self.free = 0;
        Ok(())
    }

    /// Makes an open type of what was written behind a place: its count goes into the octet before the place.
    pub(crate) fn put_count(&mut self, start: Mark) -> Result<(), AllocError>
        requires whole { start % 8 ≡ 0 }
        requires room { 8 ≤ start }
        requires within { start ≤ length self.old }
        requires few { length (content_of (drop start self.old)) < 8 * 2 ^ 14 }
        ensures ok { OnOk result (self.new ≡ then_written (take (start - 8) self.old) (open_run (drop start self.old))) }
        ensures err { OnErr result (self.new ≡ self.old) }
    {
        put_count(&mut self.bytes, start.octets)?;
        self.free = 0;
        Ok(())
    }

    /// The place where the bits end now.
    pub fn mark(&self) -> Mark
        ensures { result ≡ length self.now }
    {
        Mark {
            octets: self.bytes.len(),
            free: self.free,
        }
    }

    /// Takes back what was written behind a mark, so that the bits end there again: for several pieces of which one may
    /// find no memory.
    pub fn back_to(&mut self, mark: Mark)
        requires { mark ≤ length self.old }
        ensures { self.new ≡ take mark self.old }
    {
        cut_octets(&mut self.bytes, mark.octets, mark.free);
        self.free = mark.free;
    }
}
