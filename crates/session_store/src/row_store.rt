//! Any store of rows.
ghost use Rattle.std.specs.Prelude.{◌≡◌, ◌≤◌, ℕ, List, length, take, IfOk, OnErr, IfErr};
ghost use Rattle.device_types.specs.declared.step.Entry.{Entry};
ghost use Rattle.session_row.specs.declared.commit.Commit.{Commit};
ghost use Rattle.session_store.specs.Charter.{CharterState, IsCharter};
ghost use Rattle.session_store.specs.Law.{IsLawful};
ghost use Rattle.session_store.specs.Rows.{one_more, IsDevice, Begins, IsKnownAfter};
ghost use Rattle.session_store.specs.Seen.{IsAsked, peeked_of, seen_of};

use crate::asked::{Asked, Peeked, Seen};
use crate::row_law::RowLaw;
use device_types::{DeviceId, Entry, NoRoom};
use session_row::Commit;
use std::alloc::AllocError;

/// A store of the rows of devices, of which a journal is known for each. Others may write into it too: a call extends what is
/// known by whatever they have written.
pub trait RowStore {
    /// Which entry may follow which journal.
    type Law: RowLaw;

    /// The charter that its law is under. No call changes it.
    ghost charter: { Self → CharterState };

    /// How many devices it has. No call changes that.
    ghost devices: { Self → ℕ };

    /// What is known of the journal of the device of that number. Calls only extend it.
    ghost known: { Self → ℕ → List Entry };

    /// How often it was read: each read counts, up to the last value of a u64, and no other call.
    ghost reads: { Self → ℕ };

    /// What a call that writes nothing may leave of a store.
    ghost keeps: { Self → Self → Type 0 };

    /// What a write of an entry, for a version of a device that was read, may leave of a store, by what it comes to.
    ghost writes: { Self → Self → ℕ → ℕ → Entry → Commit → Type 0 };

    /// What is seen of the row of a device, about an input. It fails for want of memory alone.
    fn read(&mut self, d: DeviceId, asked: Asked) -> Result<Seen, AllocError>
        requires device { IsDevice (devices self.old) d.0 }
        requires asked { IsAsked asked }
        ensures charter { charter self.new ≡ charter self.old }
        ensures devices { devices self.new ≡ devices self.old }
        ensures extends { (i : ℕ) → Begins (known self.old i) (known self.new i) }
        ensures in_form { IsCharter (charter self.new) }
        ensures lawful { IsLawful (Self.Law.follows (charter self.new) d.0) (known self.new d.0) }
        ensures ok { IfOk result (λ seen. seen ≡ seen_of (known self.new d.0) asked) }
        ensures counted { reads self.new ≡ one_more (reads self.old) }
        ensures state { keeps self.old self.new };

    /// What is seen of the row of a device, about an input, but for its session. It fails for want of memory alone.
    fn peek(&mut self, d: DeviceId, asked: Asked) -> Result<Peeked, AllocError>
        requires device { IsDevice (devices self.old) d.0 }
        requires asked { IsAsked asked }
        ensures charter { charter self.new ≡ charter self.old }
        ensures devices { devices self.new ≡ devices self.old }
        ensures extends { (i : ℕ) → Begins (known self.old i) (known self.new i) }
        ensures in_form { IsCharter (charter self.new) }
        ensures lawful { IsLawful (Self.Law.follows (charter self.new) d.0) (known self.new d.0) }
        ensures ok { IfOk result (λ peeked. peeked ≡ peeked_of (known self.new d.0) asked) }
        ensures uncounted { reads self.new ≡ reads self.old }
        ensures state { keeps self.old self.new };

    /// Writes an entry, where the row still has the version that was read. For want of memory the entry is given back, and the store is left as a peek may leave it.
    fn commit(&mut self, d: DeviceId, read: u64, entry: Entry) -> Result<Commit, NoRoom<Entry>>
        requires device { IsDevice (devices self.old) d.0 }
        requires version { read ≤ length (known self.old d.0) }
        requires law { Self.Law.follows (charter self.old) d.0 (take read (known self.old d.0)) entry }
        ensures charter { charter self.new ≡ charter self.old }
        ensures devices { devices self.new ≡ devices self.old }
        ensures extends { (i : ℕ) → Begins (known self.old i) (known self.new i) }
        ensures in_form { IsCharter (charter self.new) }
        ensures lawful { IsLawful (Self.Law.follows (charter self.new) d.0) (known self.new d.0) }
        ensures ok { IfOk result (IsKnownAfter (known self.new d.0) read entry) }
        ensures uncounted { reads self.new ≡ reads self.old }
        ensures state { IfOk result (writes self.old self.new d.0 read entry) }
        ensures err { OnErr result (keeps self.old self.new) }
        ensures back { IfErr result (λ room. room.0 ≡ entry) };

    /// A store that nothing was asked of is left so.
    ghost keeps_same: { (store : Self) → keeps store store };

    /// Two such calls leave a store as one may.
    ghost keeps_twice: { (old between new : Self) → keeps old between → keeps between new → keeps old new };
}
