//! A disk in memory that fails once.
ghost use Rattle.std.specs.Prelude.{◌≡◌, ℕ, List, ◌≤◌, ◌+◌, ◌^◌, ◌<◌, false, not, [], ◌∷◌, Some, length, take, drop, IfOk, OnOk, OnErr, IsOk, is_ok, if◌then◌else◌};
ghost use Rattle.echo_base.specs.Outside.{Rose};
ghost use Rattle.store_disk.specs.Disk.{written_at, Torn, Follows, Among, Elapses};
ghost use Rattle.store_disk.specs.Fuse.{IsImage, IsImageSince, is_blown, burned, raised, passed, behind_call, in_want, unsynced};
ghost use Rattle.store_disk.specs.FuseLaws.{only_at_the_end, at_the_end};

use crate::call_log::{Call, CallLog};
use crate::disk::{Disk, DiskFault};
use std::alloc::AllocError;
use std::marker::Model;

/// A disk in memory. It passes so many calls of `write_at` and `sync`; the next such call fails, and if it is a write, it leaves the
/// first half of its octets. Later calls pass. A write may also fail for want of memory.
///
/// ```rust
/// let mut disk = FuseDisk::new(Vec::new(alloc), 1);
/// assert!(rt; disk.write_at(0, b"ab").is_ok());
/// assert!(rt; disk.write_at(2, b"cdef").is_err());
/// assert_eq!(rt; disk.image().as_slice(), b"abcd".as_slice());
/// ```
#[derive(Drop)]
pub struct FuseDisk {
    octets: Vec<u8>,
    fuse: Option<u64>,
    faults: u64,
    starved: bool,
    past: CallLog,
}

impl Model for FuseDisk {
    ghost use Rattle.store_disk.specs.Fuse.{FuseState, IsImage};

    ghost Value = { FuseState };

    ghost view = { λ disk. record { octets = disk.octets.items; fuse = disk.fuse; faults = disk.faults; starved = disk.starved; past = disk.past } };

    ghost invariant = { λ disk. IsImage disk.past disk.octets.items };
}

/// Writes a piece over octets from a place on, and past their end. For want of memory they stay as they were.
fn put(octets: &mut Vec<u8>, at: usize, piece: &[u8]) -> Result<(), AllocError>
    requires { at ≤ length octets.old.items }
    ensures ok { OnOk result (octets.new.items ≡ written_at at piece.now octets.old.items) }
    ensures err { OnErr result (octets.new.items ≡ octets.old.items) }
{
    let over = piece.len().min(octets.len() - at);
    octets.extend_from_slice(&piece[over..])?;
    octets[at..at + over].copy_from_slice(&piece[..over]);
    Ok(())
}

/// What a write leaves of its piece: the call that fails leaves the first half, rounded down.
fn passed(fuse: Option<u64>, piece: &[u8]) -> &[u8]
    ensures { result.now ≡ passed fuse piece.now }
{
    if let Some(calls) = fuse {
        if calls == 0 {
            return &piece[..piece.len() / 2];
        }
    }
    piece
}

impl FuseDisk {
    /// A disk that holds those octets, and passes so many calls. It takes no memory.
    pub fn new(octets: Vec<u8>, calls: u64) -> FuseDisk
        ensures { result ≡ record { octets = octets.items; fuse = Some calls; faults = 0; starved = false; past = (Call.Sync, octets.items) ∷ [] } }
    {
        let past = CallLog::new(&octets);
        FuseDisk {
            octets,
            fuse: Some(calls),
            faults: 0,
            starved: false,
            past,
        }
    }

    /// Did the last call of `write_at` or `sync` fail for want of memory? It takes no memory.
    pub fn starved(&self) -> bool
        ensures { result ≡ self.now.starved }
    {
        self.starved
    }

    /// What reads give. It takes no memory.
    pub fn image(self) -> Vec<u8>
        ensures { result.items ≡ self.octets }
    {
        let FuseDisk { octets, .. } = self;
        octets
    }

    /// The call passes, or it is the one that fails; and it did not want memory.
    fn burn(&mut self) -> Result<(), DiskFault>
        ensures state { self.new ≡ record self.old { fuse = burned self.old.fuse; faults = if is_blown self.old.fuse then raised self.old.faults else self.old.faults; starved = false } }
        ensures cause { is_ok result ≡ not (is_blown self.old.fuse) }
        ensures failed { OnErr result (Rose self.old.faults self.new.faults) }
        ensures count { self.old.faults ≤ self.new.faults }
        ensures image { IsImage self.new.past self.new.octets }
    {
        self.starved = false;
        let Some(calls) = self.fuse else {
            return Ok(());
        };
        if calls > 0 {
            self.fuse = Some(calls - 1);
            return Ok(());
        }
        self.fuse = None;
        self.faults = self.faults.saturating_add(1);
        Err(DiskFault)
    }

    /// Writes a piece, or what passes of it.
    fn write(&mut self, at: u64, piece: &[u8]) -> Result<(), DiskFault>
        requires place { at ≤ length self.old.octets }
        ensures state { self.new ≡ (if self.new.starved then in_want self.old else behind_call self.old (Call.Write at (length piece.now)) (written_at at (passed self.old.fuse piece.now) self.old.octets)) }
        ensures cause { is_ok result ≡ (if self.new.starved then false else not (is_blown self.old.fuse)) }
        ensures failed { OnErr result (Rose self.old.faults self.new.faults) }
        ensures count { self.old.faults ≤ self.new.faults }
        ensures image { IsImage self.new.past self.new.octets }
    {
        let left = passed(self.fuse, piece);
        let Ok(()) = put(&mut self.octets, at as usize, left) else {
            self.starved = true;
            self.faults = self.faults.saturating_add(1);
            return Err(DiskFault);
        };
        let call = Call::Write {
            at,
            count: piece.len() as u64,
        };
        self.past.note(call, &self.octets);
        self.burn()
    }

    /// Syncs, or fails.
    fn flush(&mut self) -> Result<(), DiskFault>
        ensures state { self.new ≡ (if is_blown self.old.fuse then unsynced self.old else behind_call self.old Call.Sync self.old.octets) }
        ensures cause { is_ok result ≡ not (is_blown self.old.fuse) }
        ensures failed { OnErr result (Rose self.old.faults self.new.faults) }
        ensures count { self.old.faults ≤ self.new.faults }
        ensures before { IsImage self.old.past self.old.octets }
        ensures image { IsImage self.new.past self.new.octets }
    {
        self.burn()?;
        self.past.note(Call::Sync, &self.octets);
        Ok(())
    }
}

impl Disk for FuseDisk {
    ghost bytes = { λ disk. Some disk.octets };

    ghost faults = { λ disk. disk.faults };

    ghost moment = { λ disk. length disk.past };

    ghost may_leave = { λ disk image. IsImage disk.past image };

    ghost left_since = { λ disk t image. IsImageSince disk.past t image };

    ghost counts_now = { λ disk t image before now. at_the_end disk.past t image before now };

    ghost only_now = { λ disk image since. only_at_the_end disk.past image since };

    /// It never fails.
    fn len(&mut self) -> Result<u64, DiskFault>
        ensures sure { IsOk result }
        ensures value { IfOk result (λ n. n ≡ length self.old.octets) }
        ensures state { self.new ≡ self.old }
        ensures image { IsImage self.new.past self.new.octets }
    {
        Ok(self.octets.len() as u64)
    }

    /// It never fails.
    fn read_at(&mut self, at: u64, into: &mut [u8]) -> Result<(), DiskFault>
        requires { at + length into.old ≤ length self.old.octets }
        ensures sure { IsOk result }
        ensures read { into.new ≡ take (length into.old) (drop at self.old.octets) }
        ensures state { self.new ≡ self.old }
        ensures image { IsImage self.new.past self.new.octets }
    {
        let octets = &self.octets[at as usize..];
        into.copy_from_slice(&octets[..into.len()]);
        Ok(())
    }

    fn write_at(&mut self, at: u64, piece: &[u8]) -> Result<(), DiskFault>
        requires place { at ≤ length self.old.octets }
        requires end { at + length piece.now < 2 ^ 63 }
        ensures state { self.new ≡ (if self.new.starved then in_want self.old else behind_call self.old (Call.Write at (length piece.now)) (written_at at (passed self.old.fuse piece.now) self.old.octets)) }
        ensures cause { is_ok result ≡ (if self.new.starved then false else not (is_blown self.old.fuse)) }
        ensures failed { OnErr result (Rose self.old.faults self.new.faults) }
        ensures count { self.old.faults ≤ self.new.faults }
        ensures image { IsImage self.new.past self.new.octets }
        ensures images { Follows (Torn at (length piece.now)) (IsImage self.old.past) (IsImage self.new.past) }
        ensures time { Elapses (length self.old.past) (length self.new.past) (IsImageSince self.old.past) (IsImageSince self.new.past) (IsImage self.new.past) }
    {
        self.write(at, piece)
    }

    fn sync(&mut self) -> Result<(), DiskFault>
        ensures state { self.new ≡ (if is_blown self.old.fuse then unsynced self.old else behind_call self.old Call.Sync self.old.octets) }
        ensures cause { is_ok result ≡ not (is_blown self.old.fuse) }
        ensures failed { OnErr result (Rose self.old.faults self.new.faults) }
        ensures count { self.old.faults ≤ self.new.faults }
        ensures image { IsImage self.new.past self.new.octets }
        ensures durable { OnOk result ((image : List ℕ) → IsImage self.new.past image → Some self.new.octets ≡ Some image) }
        ensures images { Among (IsImage self.old.past) (IsImage self.new.past) }
        ensures time { Elapses (length self.old.past) (length self.new.past) (IsImageSince self.old.past) (IsImageSince self.new.past) (IsImage self.new.past) }
    {
        self.flush()
    }
}
