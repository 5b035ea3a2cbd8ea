//! A value whose turns add numbers.
ghost use Rattle.std.specs.Prelude.{◌≡◌, ◌<◌, ◌≤◌, [], ◌∷◌, ◌++◌, IfOk, OnErr, OnOk, Some, length, map, slice_get};
ghost use Rattle.front_cases.specs.Tally.{stays_within};

use device_types::NoRoom;
use front_lock::{Held, Job};
use std::alloc::{AllocError, Global};

/// A number that a seat added.
#[derive(Clone, Copy)]
pub struct Addition {
    pub seat: u32,
    pub amount: u64,
}

/// The numbers that were added, in order, each at most `most`.
#[derive(Drop)]
pub struct Tally {
    pub most: u64,
    pub additions: Vec<Addition>,
}

impl Tally {
    /// Nothing was added yet. It takes no memory.
    pub fn new(alloc: Global, most: u64) -> Tally
        ensures most { result.most ≡ most }
        ensures empty { result.additions.items ≡ [] }
    {
        Tally {
            most,
            additions: Vec::new(alloc),
        }
    }

    // Adds a number at the end, and answers how many were added before it.
    fn add(&mut self, addition: Addition) -> Result<usize, AllocError>
        ensures most { self.new.most ≡ self.old.most }
        ensures before { IfOk result (λ before. before ≡ length self.old.additions.items) }
        ensures ok { OnOk result (self.new.additions.items ≡ self.old.additions.items ++ addition ∷ []) }
        ensures err { OnErr result (self.new.additions.items ≡ self.old.additions.items) }
    {
        let before = self.additions.len();
        self.additions.push(addition)?;
        Ok(before)
    }
}

impl Held for Tally {
    type Turn = Addition;

    type Basis = u64;

    ghost basis = { λ tally. tally.most };

    ghost turns = { λ tally. tally.additions.items };

    ghost by = { λ addition. addition.seat };

    fn turn_count(&self) -> u64 {
        self.additions.len() as u64
    }
}

/// Adds a number, and answers how many were added before it. It makes room for so many more first.
#[derive(Drop)]
pub struct Add {
    pub amount: u64,
    pub room: usize,
}

impl Job<Tally> for Add {
    type Answer = usize;

    ghost can = { λ job most additions. job.amount ≤ most };

    ghost done = { λ job most additions addition answer. (addition.amount ≡ job.amount) × (answer ≡ length additions) };

    ghost stays = { λ job most additions more can. can };

    fn run(self, tally: &mut Tally, seat: u32) -> Result<usize, NoRoom<Add>> {
        if tally.additions.reserve(self.room).is_err() {
            return Err(NoRoom(self));
        }
        let amount = self.amount;
        let addition = Addition { seat, amount };
        match tally.add(addition) {
            Ok(before) => Ok(before),
            Err(_) => Err(NoRoom(self)),
        }
    }
}

/// Adds again the number that was added at a place, from 0, and answers it.
#[derive(Drop)]
pub struct Repeat {
    pub place: usize,
}

impl Job<Tally> for Repeat {
    type Answer = u64;

    ghost can = { λ job most additions. job.place < length additions };

    ghost done = { λ job most additions addition answer. (addition.amount ≡ answer) × (slice_get (map (λ a. a.amount) additions) job.place ≡ Some answer) };

    ghost stays = { λ job most additions more can. stays_within job.place additions more can };

    fn run(self, tally: &mut Tally, seat: u32) -> Result<u64, NoRoom<Repeat>> {
        let amount = tally.additions[self.place].amount;
        match tally.add(Addition { seat, amount }) {
            Ok(_) => Ok(amount),
            Err(_) => Err(NoRoom(self)),
        }
    }
}
