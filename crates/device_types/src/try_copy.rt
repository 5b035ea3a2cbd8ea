//! Copies of values.
ghost use Rattle.std.specs.Prelude.{◌≡◌, IfOk};

use std::alloc::AllocError;

/// A value that is copied exactly: its clone is equal to it, in contracts too.
pub trait TryCopy: Clone {
    /// The same value, in memory of its own but for what is `Shared`. It fails for want of memory alone.
    final fn copy(&self) -> Result<Self, AllocError>
        ensures { IfOk result (λ copy. copy ≡ self.now) }
    {
        self.clone()
    }

    // A clone is the value.
    ghost same: { (value clone : Self) → Self.is_clone value clone → clone ≡ value };
}

impl TryCopy for u8 {
    ghost same = { λ value clone equal. equal };
}

impl TryCopy for u16 {
    ghost same = { λ value clone equal. equal };
}
