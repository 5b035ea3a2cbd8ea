//! Laws of rows.
ghost use Rattle.std.specs.Prelude.{◌≡◌, ℕ, List, IfOk};
ghost use Rattle.device_types.specs.declared.step.Entry.{Entry};
ghost use Rattle.session_store.specs.Charter.{CharterState, IsCharter};
ghost use Rattle.session_store.specs.Law.{IsLawful, CanFollow};

use crate::charter::Charter;
use std::alloc::AllocError;

/// Which entry may follow which journal of a device, under a charter that the law's value holds.
pub trait RowLaw: Drop {
    /// The charter of a value.
    ghost charter: { Self → CharterState };

    /// Under a charter, which entry may follow which journal of the device of that number.
    ghost follows: { CharterState → ℕ → List Entry → Entry → Type 0 };

    /// The charter. It takes no memory.
    fn charter(&self) -> &Charter
        ensures { result.now ≡ charter self.now };

    /// A law of the same charter. It fails for want of memory alone.
    fn copy(&self) -> Result<Self, AllocError>
        ensures { IfOk result (λ law. charter law ≡ charter self.now) };

    /// The row of a lawful journal takes each entry that may follow it.
    ghost can_follow: { (charter : CharterState) (d : ℕ) (journal : List Entry) (entry : Entry) → IsCharter charter → IsLawful (follows charter d) journal
        → follows charter d journal entry → CanFollow journal entry };
}
