//! Makers of entries.
ghost use Rattle.std.specs.Prelude.{◌≡◌, ◌↔◌, ℕ, List, length, Option, Some, IfOk};
ghost use Rattle.device_types.specs.declared.step.Entry.{Entry};
ghost use Rattle.session_store.specs.Charter.{CharterState};
ghost use Rattle.session_store.specs.Law.{IsLawful};

use device_types::{DeviceId, Entry};
use session_store::RowLaw;
use std::alloc::AllocError;

/// Makes the entries that a law allows, where it allows at most one at each version of a device.
pub trait Maker<L: RowLaw> {
    /// The charter by which it answers.
    ghost charter: { Self → CharterState };

    /// Under a charter, entry v of the device of that number, from 0, where there is one.
    ghost made: { CharterState → ℕ → ℕ → Option Entry };

    /// The only entry that the law allows at that version of the device, and `None` where there is none. It fails for want of
    /// memory alone.
    fn entry(&self, d: DeviceId, version: u64) -> Result<Option<Entry>, AllocError>
        ensures { IfOk result (λ entry. entry ≡ made (charter self.now) d.0 version) };

    /// An entry may follow a lawful journal exactly where it is the one that is made at its version.
    ghost only: { (charter : CharterState) (d : ℕ) (journal : List Entry) (entry : Entry) → IsLawful (L.follows charter d) journal
        → (L.follows charter d journal entry ↔ (made charter d (length journal) ≡ Some entry)) };
}
