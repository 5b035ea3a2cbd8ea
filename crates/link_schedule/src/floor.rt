//! Where a schedule is run.
ghost use Rattle.std.specs.Prelude.{◌≡◌, ◌++◌, ◌∷◌, [], List, Bool, true, length, All, Option, Some, IfOk, OnOk, OnErr};
ghost use Rattle.device_types.specs.declared.finals.DeviceEnd.{DeviceEnd};
ghost use Rattle.device_types.specs.Numbers.{IsWithin};
ghost use Rattle.schedule_laws.specs.Counts.{Turn};
ghost use Rattle.link_schedule.specs.Floor.{AreAnswered, IsOpen, IsEventOn, AreEndsOn};
ghost use Rattle.schedule_laws.specs.Lists.{Begins};
ghost use Rattle.schedule_laws.specs.Promise.{setting as setting_of};
ghost use Rattle.schedule_laws.specs.Setting.{Setting};
ghost use Rattle.link_schedule.specs.World.{IsShort};

use device_types::{Book, Event, EventAnswer, Finals};
use std::alloc::{AllocError, Global};
use subs_table::SubsTable;

/// Where a schedule is run: it is opened on a table, a book and a number of replicas, is given events and answers each, settles by
/// itself, and tells what became of the devices. It is open where it has a setting. An exact floor answers as a world does.
pub trait Floor {
    /// The rows, the messages and the number of replicas of the last opening that succeeded, or nothing.
    ghost setting: { Self → Option Setting };

    /// The events that it was given since then, in order, each with the answer that it gave; those by which it settled, too.
    ghost given: { Self → List Turn };

    /// What became of each device, in the order of their numbers.
    ghost ends: { Self → List DeviceEnd };

    /// Are its answers and its ends those of the definitions? No call changes that.
    ghost exact: { Self → Bool };

    /// Opens the floor, also where it was open: it has been given no event. For want of memory it is as before.
    fn open(
        &mut self,
        alloc: Global,
        table: &SubsTable,
        book: &Book,
        replicas: u32,
    ) -> Result<(), AllocError>
        requires lines { length book.now ≡ length table.now }
        requires short { All IsShort book.now }
        requires replicas { IsWithin 16 replicas }
        ensures exact { exact self.new ≡ exact self.old }
        ensures setting { OnOk result (setting self.new ≡ Some (setting_of table.now book.now replicas)) }
        ensures given { OnOk result (given self.new ≡ []) }
        ensures setting_err { OnErr result (setting self.new ≡ setting self.old) }
        ensures given_err { OnErr result (given self.new ≡ given self.old) }
        ensures ends_err { OnErr result (ends self.new ≡ ends self.old) };

    /// Gives the floor an event, and tells what it comes to. For want of memory the event was not given.
    fn apply(&mut self, event: Event) -> Result<EventAnswer, AllocError>
        requires { IsEventOn (setting self.old) event }
        ensures exact { exact self.new ≡ exact self.old }
        ensures setting { setting self.new ≡ setting self.old }
        ensures given { IfOk result (λ answer. given self.new ≡ given self.old ++ (event, answer) ∷ []) }
        ensures err { OnErr result (given self.new ≡ given self.old) };

    /// The floor goes on by itself until nothing is left to do; then its ends are an end for each row. For want of memory it may have
    /// gone on for a while, and another call goes on from there.
    fn settle_all(&mut self) -> Result<(), AllocError>
        requires { IsOpen (setting self.old) }
        ensures exact { exact self.new ≡ exact self.old }
        ensures setting { setting self.new ≡ setting self.old }
        ensures given { Begins (given self.old) (given self.new) }
        ensures ends { OnOk result (AreEndsOn (setting self.new) (exact self.new) (ends self.new)) };

    /// What became of each device. It fails for want of memory alone.
    fn finals(&self, alloc: Global) -> Result<Finals, AllocError>
        requires { IsOpen (setting self.now) }
        ensures { IfOk result (λ finals. finals ≡ ends self.now) };

    /// The answers of an exact floor are those of the definition.
    ghost answered: { (floor : Self) (s : Setting) → exact floor ≡ true → setting floor ≡ Some s → AreAnswered s (given floor) };
}
