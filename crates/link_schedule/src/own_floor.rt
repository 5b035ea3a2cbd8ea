//! The exact floor.
ghost use Rattle.std.specs.Prelude.{◌≡◌, None, true};
ghost use Rattle.link_schedule.specs.Own.{setting_by, given_by, ends_by, answered_by, IsWorldIn, IsWholeByEnds};

use crate::floor::Floor;
use crate::world::World;
use device_types::{Book, Event, EventAnswer, Finals};
use std::alloc::{AllocError, Global};
use subs_table::SubsTable;

/// The exact floor: a world of its own. It was given the world's events, and each call is that of the world.
#[derive(Debug, Drop)]
pub struct OwnFloor {
    /// The world, once the floor was opened.
    pub world: Option<World>,
}

impl OwnFloor {
    /// A floor that was never opened. It takes no memory.
    pub fn new() -> OwnFloor
        ensures { result.world ≡ None }
    {
        OwnFloor { world: None }
    }

    /// Each part of the world, if there is one, is what its events make of it. Where the floor was opened and its ends are those of
    /// the machine that never fails, as behind a settling, there is a world, each journal is whole and each lane was accepted whole.
    /// It takes no memory.
    pub fn recall(&self)
        ensures world { IsWorldIn self.now.world }
        ensures whole { IsWholeByEnds self.now.world }
    {
        let Some(world) = &self.world else {
            return;
        };
        world.recall();
    }
}

impl Floor for OwnFloor {
    ghost setting = { λ floor. setting_by floor.world };

    ghost given = { λ floor. given_by floor.world };

    ghost ends = { λ floor. ends_by floor.world };

    ghost exact = { λ floor. true };

    ghost answered = { λ floor s exact same. answered_by floor.world s same };

    fn open(
        &mut self,
        alloc: Global,
        table: &SubsTable,
        book: &Book,
        replicas: u32,
    ) -> Result<(), AllocError> {
        let world = World::new(alloc, table, book, replicas)?;
        self.world = Some(world);
        Ok(())
    }

    fn apply(&mut self, event: Event) -> Result<EventAnswer, AllocError> {
        match &mut self.world {
            Some(world) => world.apply(event),
            None => unreachable!(),
        }
    }

    fn settle_all(&mut self) -> Result<(), AllocError> {
        match &mut self.world {
            Some(world) => world.settle_all(),
            None => unreachable!(),
        }
    }

    fn finals(&self, alloc: Global) -> Result<Finals, AllocError> {
        match &self.world {
            Some(world) => world.finals(alloc),
            None => unreachable!(),
        }
    }
}
