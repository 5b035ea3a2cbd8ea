//! The last replies.
ghost use Rattle.std.specs.Prelude.{◌≡◌, ◌≤◌, ◌<◌, ◌+◌, ◌++◌, ◌^◌, ◌↔◌, [], ℕ, List, length, IfOk, IsSome, option_copied, option_to_list};
ghost use Rattle.device_types.specs.declared.step.Reply.{Reply};

use circular_buffer::HeapCircularBuffer;
use device_types::Reply;
use std::alloc::{AllocError, Global};

/// How many messages were taken, and the replies to the last of them, in a ring.
#[derive(Debug, Drop)]
pub(crate) struct Replies {
    pub(crate) taken: u64,
    pub(crate) last: HeapCircularBuffer<Reply>,
}

impl Replies {
    ghost use Rattle.session_row.specs.Replies.{KeepsLast, kept_in};

    /// None yet, and room for so many. It fails for want of memory alone.
    pub(crate) fn new(alloc: Global, window: u64) -> Result<Replies, AllocError>
        ensures { IfOk result (KeepsLast window []) }
    {
        Ok(Replies {
            taken: 0,
            last: HeapCircularBuffer::with_capacity(alloc, window as usize)?,
        })
    }

    /// Reply `n`, from 1, while it is kept.
    pub(crate) fn get(&self, n: u64) -> Option<&Reply>
        ensures value { (window : ℕ) (all : List Reply) → KeepsLast window all self.now → option_copied result ≡ kept_in window all n }
        ensures kept { (window : ℕ) (all : List Reply) → KeepsLast window all self.now
            → (IsSome result ↔ ((1 ≤ n) × (n ≤ length all) × (length all < n + window))) }
    {
        let behind = self.taken.checked_sub(n)?;
        self.last.nth_back(behind as usize)
    }

    /// The reply to one more message, if there is one: where the ring is full, its oldest reply goes.
    pub(crate) fn keep(&mut self, reply: Option<Reply>)
        requires { self.old.taken + 1 < 2 ^ 64 }
        ensures { (window : ℕ) (all : List Reply) → KeepsLast window all self.old → KeepsLast window (all ++ option_to_list reply) self.new }
    {
        if let Some(reply) = reply {
            self.taken += 1;
            let _ = self.last.push_back(reply);
        }
    }
}
