//! Marks on numbers.
ghost use Rattle.std.specs.Prelude.{◌≡◌, ◌≤◌, [], length, ℕ, false, slice_index_or, OnOk, OnErr};

use device_types::Lane;
use std::alloc::{AllocError, Global};
use std::marker::Model;

/// Numbers from 1 that are marked: a flag for each, as far as they go. Contracts see the flags.
#[derive(Debug, Drop)]
pub struct Marks {
    flags: Vec<bool>,
}

impl Model for Marks {
    ghost use Rattle.std.specs.Prelude.{List, Bool};

    ghost Value = { List Bool };

    ghost view = { λ marks. marks.flags.items };
}

/// At least so many flags, of which the new ones are down.
fn lengthen(flags: &mut Vec<bool>, count: usize) -> Result<(), AllocError>
    ensures long { OnOk result (count ≤ length flags.new.items) }
    ensures same { (i : ℕ) → slice_index_or flags.new.items i false ≡ slice_index_or flags.old.items i false }
    ensures err { OnErr result (flags.new.items ≡ flags.old.items) }
{
    if flags.len() < count {
        flags.resize(count, false)?;
    }
    Ok(())
}

impl Marks {
    ghost use Rattle.schedule_laws.specs.Lists.{has, AddsMark};

    /// No number is marked. It takes no memory.
    pub(crate) fn new(alloc: Global) -> Marks
        ensures { result ≡ [] }
    {
        Marks {
            flags: Vec::new(alloc),
        }
    }

    /// Is number `n` marked, `n` from 1? It takes no memory.
    pub(crate) fn has(&self, n: u64) -> bool
        requires { 1 ≤ n }
        ensures { result ≡ has n self.now }
    {
        let index = n as usize - 1;
        if index < self.flags.len() {
            self.flags[index]
        } else {
            false
        }
    }

    /// Marks number `n` too, `n` from 1. For want of memory the flags stay as they were.
    pub(crate) fn mark(&mut self, n: u64) -> Result<(), AllocError>
        requires { 1 ≤ n }
        ensures ok { OnOk result (AddsMark self.old self.new n) }
        ensures err { OnErr result (self.new ≡ self.old) }
    {
        let count = n as usize;
        lengthen(&mut self.flags, count)?;
        self.flags[count - 1] = true;
        Ok(())
    }
}

/// Marks on the numbers of each lane. Contracts see the flags of each.
#[derive(Debug, Drop)]
pub struct LaneMarks {
    on_down: Marks,
    on_gateway: Marks,
    on_subscriber: Marks,
}

impl Model for LaneMarks {
    ghost use Rattle.link_schedule.specs.World.{LaneMarks};

    ghost Value = { LaneMarks };

    ghost view = { λ marks. record { down = marks.on_down; gateway = marks.on_gateway; subscriber = marks.on_subscriber } };
}

impl LaneMarks {
    ghost use Rattle.schedule_laws.specs.Lists.{has};
    ghost use Rattle.link_schedule.specs.World.{marks_on, MarksOn};

    /// No number is marked on any lane. It takes no memory.
    pub(crate) fn new(alloc: Global) -> LaneMarks
        ensures { result ≡ record { down = []; gateway = []; subscriber = [] } }
    {
        LaneMarks {
            on_down: Marks::new(alloc),
            on_gateway: Marks::new(alloc),
            on_subscriber: Marks::new(alloc),
        }
    }

    /// Is number `k` marked on the lane, `k` from 1? It takes no memory.
    pub(crate) fn has(&self, lane: Lane, k: u64) -> bool
        requires { 1 ≤ k }
        ensures { result ≡ has k (marks_on self.now lane) }
    {
        match lane {
            Lane::Down => self.on_down.has(k),
            Lane::Gateway => self.on_gateway.has(k),
            Lane::Subscriber => self.on_subscriber.has(k),
        }
    }

    /// Marks number `k` of the lane too, `k` from 1. For want of memory the flags stay as they were.
    pub(crate) fn mark(&mut self, lane: Lane, k: u64) -> Result<(), AllocError>
        requires { 1 ≤ k }
        ensures ok { OnOk result (MarksOn self.old self.new lane k) }
        ensures err { OnErr result (self.new ≡ self.old) }
    {
        match lane {
            Lane::Down => self.on_down.mark(k)?,
            Lane::Gateway => self.on_gateway.mark(k)?,
            Lane::Subscriber => self.on_subscriber.mark(k)?,
        }
        Ok(())
    }
}
