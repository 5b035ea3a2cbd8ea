//! One lane.
ghost use Rattle.std.proofs.Common.{deque_len, deque_capacity};
ghost use Rattle.std.specs.Prelude.{◌≡◌, ◌+◌, ◌^◌, ◌<◌, ◌≤◌, ◌++◌, ◌∷◌, [], ℕ, length, drop, OnOk, option_copied};

use crate::settled::Settled;
use device_types::Effect;
use std::alloc::{AllocError, Global};
use std::collections::VecDeque;

/// How many places a lane may keep, however few effects are left.
const FEW: usize = 4;

/// The effects of a lane that are not settled, in order, and how many are settled.
#[derive(Debug, Drop)]
pub(crate) struct LaneQueue {
    pub(crate) settled: u64,
    pub(crate) effects: VecDeque<Effect>,
    // The effects that were made are counted in 64 bits.
    ghost counted: { settled + length effects.items < 2 ^ 64 },
}

impl LaneQueue {
    ghost use Rattle.effect_outbox.specs.Outbox.{settled_by};
    ghost use Rattle.effect_outbox.specs.Queue.{none, part_of, HasRoom, rest_at, rest_from, longer};

    /// A lane without effects. It takes no memory.
    pub(crate) fn new(alloc: Global) -> LaneQueue
        ensures part { part_of result ≡ none }
        ensures room { HasRoom result 0 }
    {
        LaneQueue {
            settled: 0,
            effects: VecDeque::new(alloc),
        }
    }

    /// How many effects were made.
    pub(crate) fn pushed(&self) -> u64
        ensures { result ≡ self.now.settled + length self.now.effects.items }
    {
        self.settled + self.effects.len() as u64
    }

    /// Effect `k`, while it is not settled.
    pub(crate) fn at(&self, k: u64) -> Option<&Effect>
        ensures { option_copied result ≡ rest_at (part_of self.now) k }
    {
        if k <= self.settled {
            return None;
        }
        self.effects.get((k - self.settled - 1) as usize)
    }

    /// Makes room for so many more. It fails too where their numbers would not be below 2^64.
    pub(crate) fn reserve(&mut self, more: usize) -> Result<(), AllocError>
        ensures same { part_of self.new ≡ part_of self.old }
        ensures room { OnOk result (HasRoom self.new more) }
        ensures kept { (before : ℕ) → HasRoom self.old before → HasRoom self.new before }
    {
        if self.pushed().checked_add(more as u64).is_none() {
            return Err(AllocError);
        }
        self.effects.reserve(more)
    }

    /// The next effect. There is room.
    pub(crate) fn put(&mut self, effect: Effect)
        requires { HasRoom self.old 1 }
        ensures part { part_of self.new ≡ longer (part_of self.old) (effect ∷ []) }
        ensures room { (more : ℕ) → HasRoom self.old (more + 1) → HasRoom self.new more }
    {
        self.effects.push_back_reserved(effect);
    }

    /// The effects up to `k` are settled.
    pub(crate) fn settle(&mut self, k: u64) -> Settled
        requires { k ≤ self.old.settled + length self.old.effects.items }
        ensures value { result ≡ settled_by self.old.settled k }
        ensures part { part_of self.new ≡ rest_from (part_of self.old) k }
        ensures room { (before : ℕ) → HasRoom self.old before → HasRoom self.new 0 }
    {
        if k <= self.settled {
            return Settled::Old(self.settled);
        }
        drop_front(&mut self.effects, (k - self.settled) as usize);
        give_places_back(&mut self.effects);
        self.settled = k;
        Settled::Upto(k)
    }
}

/// Drops the first `count` effects.
fn drop_front(effects: &mut VecDeque<Effect>, count: usize)
    ensures items { effects.new.items ≡ drop count effects.old.items }
    ensures room { deque_len effects.old ≤ deque_capacity effects.old → deque_len effects.new ≤ deque_capacity effects.new }
{
    for _i in 0..count {
        let _ = effects.pop_front();
    }
}

/// Gives places back, where fewer than a quarter are taken: twice as many as effects are left stay, so that no more effects are
/// moved than have gone.
fn give_places_back(effects: &mut VecDeque<Effect>)
    ensures items { effects.new.items ≡ effects.old.items }
    ensures room { deque_len effects.old ≤ deque_capacity effects.old → deque_len effects.new ≤ deque_capacity effects.new }
{
    let left = effects.len();
    if left < effects.capacity() / 4 {
        effects.shrink_to(FEW.max(2 * left));
    }
}
