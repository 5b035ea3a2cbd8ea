//! A world settles: by events of its own it goes on until each device has done all that the machine that never fails does.
ghost use Rattle.std.specs.Prelude.{◌≡◌, ◌+◌, ◌<◌, ◌≤◌, ℕ, length, None, Some, IfOk, OnOk};
ghost use Rattle.device_types.specs.declared.event.Lane.{Lane as TheLane};
ghost use Rattle.device_types.specs.Journal.{awaited_call, pushed_count, taken_count};
ghost use Rattle.device_types.specs.Numbers.{IsWithin};
ghost use Rattle.device_machine.specs.Ends.{finals_of};
ghost use Rattle.schedule_laws.specs.Setting.{message_count};
ghost use Rattle.link_schedule.specs.Finals.{finals_in};
ghost use Rattle.link_schedule.specs.Settled.{journal_in, commits_in, acked_in, accepts_in, settles_in, GoesOn, Advances, IsDone, IsSettled, IsClearLane, IsClear, Pays, PaysFor, cost_to};
ghost use Rattle.link_schedule.specs.World.{IsWorld};

use crate::world::World;
use device_types::{DeviceId, Lane};
use session_store::{DeviceRow, RowLaw};
use std::alloc::AllocError;

impl World {
    /// How many devices there are. It takes no memory.
    pub fn device_count(&self) -> u32
        ensures { result ≡ length self.now.setting.rows }
    {
        self.law.charter().rows().len() as u32
    }

    /// The row of the device. It takes no memory.
    pub(crate) fn row(&self, d: DeviceId) -> &DeviceRow
        requires { IsWithin (length self.now.setting.rows) d.0 }
        ensures { result.now.journal ≡ journal_in self.now d.0 }
    {
        self.store.row(d)
    }

    /// How many messages of the device were taken. It takes no memory.
    pub(crate) fn taken_count(&self, d: DeviceId) -> u64
        requires { IsWithin (length self.now.setting.rows) d.0 }
        ensures { result ≡ taken_count (journal_in self.now d.0) }
    {
        self.row(d).taken()
    }

    /// The call of the device whose answer is awaited, by its lane and its number there, or `None`. It takes no memory.
    fn awaited_call(&self, d: DeviceId) -> Option<(Lane, u64)>
        requires { IsWithin (length self.now.setting.rows) d.0 }
        ensures { result ≡ awaited_call (journal_in self.now d.0) }
    {
        self.row(d).awaited()
    }

    /// How many effects of a lane the device has made. It takes no memory.
    fn pushed_count(&self, d: DeviceId, lane: Lane) -> u64
        requires { IsWithin (length self.now.setting.rows) d.0 }
        ensures { result ≡ pushed_count lane (journal_in self.now d.0) }
    {
        self.row(d).outbox().pushed(lane)
    }

    /// How many messages the device has. It takes no memory.
    fn message_count(&self, d: DeviceId) -> u64
        requires { IsWithin (length self.now.setting.rows) d.0 }
        ensures { result ≡ message_count self.now.setting d.0 }
    {
        self.agent(d).line().len()
    }

    /// How many messages its agent has learnt to be taken. It takes no memory.
    fn acked(&self, d: DeviceId) -> u64
        requires { IsWithin (length self.now.setting.rows) d.0 }
        ensures { result ≡ acked_in self.now d.0 }
    {
        self.agent(d).line().acked()
    }

    /// Effect `k`, which is the next one of its lane, is put on the link and arrives.
    fn deliver_next(&mut self, d: DeviceId, lane: Lane, k: u64) -> Result<(), AllocError>
        requires device { IsWithin (length self.old.setting.rows) d.0 }
        requires next { k ≡ accepts_in self.old d.0 lane + 1 }
        requires made { k ≤ pushed_count lane (journal_in self.old d.0) }
        ensures goes_on { GoesOn self.old self.new }
        ensures journal { commits_in self.new d.0 ≡ commits_in self.old d.0 }
        ensures ok { OnOk result (accepts_in self.new d.0 lane ≡ k) }
        ensures pays { OnOk result (Pays self.old self.new d.0) }
    {
        self.recall();
        self.push(d, lane, k)?;
        self.effect(d, lane, k)?;
        Ok(())
    }

    /// The effects of a lane arrive, as many as the device has made.
    fn deliver(&mut self, d: DeviceId, lane: Lane) -> Result<(), AllocError>
        requires { IsWithin (length self.old.setting.rows) d.0 }
        ensures goes_on { GoesOn self.old self.new }
        ensures journal { commits_in self.new d.0 ≡ commits_in self.old d.0 }
        ensures ok { OnOk result (accepts_in self.new d.0 lane ≡ pushed_count lane (journal_in self.new d.0)) }
        ensures pays { OnOk result (Pays self.old self.new d.0) }
    {
        self.recall();
        let most = self.pushed_count(d, lane);
        for k in self.accepted(d, lane)..most {
            self.deliver_next(d, lane, k + 1)?;
        }
        Ok(())
    }

    /// The reply to the last of the messages that were taken arrives, if the agent does not know of it.
    fn acknowledge(&mut self, d: DeviceId) -> Result<(), AllocError>
        requires { IsWithin (length self.old.setting.rows) d.0 }
        ensures goes_on { GoesOn self.old self.new }
        ensures journal { commits_in self.new d.0 ≡ commits_in self.old d.0 }
        ensures ok { OnOk result (taken_count (journal_in self.new d.0) ≤ acked_in self.new d.0) }
        ensures few { OnOk result (length self.new.events ≤ length self.old.events + 1) }
    {
        let n = self.taken_count(d);
        if n <= self.acked(d) {
            return Ok(());
        }
        self.recall();
        self.reply(d, n)?;
        Ok(())
    }

    /// Message `n`, which is the next one, is sent, taken, read and written.
    fn send_to_write(&mut self, d: DeviceId, n: u64) -> Result<(), AllocError>
        requires device { IsWithin (length self.old.setting.rows) d.0 }
        requires number { n ≡ taken_count (journal_in self.old d.0) + 1 }
        requires seen { taken_count (journal_in self.old d.0) ≤ acked_in self.old d.0 }
        requires free { awaited_call (journal_in self.old d.0) ≡ None }
        requires left { taken_count (journal_in self.old d.0) < message_count self.old.setting d.0 }
        ensures goes_on { GoesOn self.old self.new }
        ensures ok { OnOk result (commits_in self.new d.0 ≡ commits_in self.old d.0 + 1) }
        ensures few { OnOk result (length self.new.events ≤ length self.old.events + 4) }
    {
        self.recall();
        self.send(d, n)?;
        self.take(1, d, n)?;
        self.read(1)?;
        self.write(1)?;
        Ok(())
    }

    /// The answer to call `k` of a lane, which is awaited and was accepted, is taken, read and written.
    fn answer_to_write(&mut self, d: DeviceId, lane: Lane, k: u64) -> Result<(), AllocError>
        requires device { IsWithin (length self.old.setting.rows) d.0 }
        requires awaited { awaited_call (journal_in self.old d.0) ≡ Some (lane, k) }
        requires accepted { k ≤ accepts_in self.old d.0 lane }
        ensures goes_on { GoesOn self.old self.new }
        ensures ok { OnOk result (commits_in self.new d.0 ≡ commits_in self.old d.0 + 1) }
        ensures few { OnOk result (length self.new.events ≤ length self.old.events + 3) }
    {
        self.recall();
        self.answer(1, d, lane, k)?;
        self.read(1)?;
        self.write(1)?;
        Ok(())
    }

    /// The next entry is that of message `n`.
    fn take_message(&mut self, d: DeviceId, n: u64) -> Result<(), AllocError>
        requires device { IsWithin (length self.old.setting.rows) d.0 }
        requires number { n ≡ taken_count (journal_in self.old d.0) + 1 }
        requires free { awaited_call (journal_in self.old d.0) ≡ None }
        requires left { taken_count (journal_in self.old d.0) < message_count self.old.setting d.0 }
        ensures goes_on { GoesOn self.old self.new }
        ensures ok { OnOk result (commits_in self.new d.0 ≡ commits_in self.old d.0 + 1) }
        ensures pays { OnOk result (Pays self.old self.new d.0) }
    {
        self.acknowledge(d)?;
        self.send_to_write(d, n)?;
        Ok(())
    }

    /// The next entry is that of the answer to call `k` of a lane.
    fn take_answer(&mut self, d: DeviceId, lane: Lane, k: u64) -> Result<(), AllocError>
        requires device { IsWithin (length self.old.setting.rows) d.0 }
        requires awaited { awaited_call (journal_in self.old d.0) ≡ Some (lane, k) }
        ensures goes_on { GoesOn self.old self.new }
        ensures ok { OnOk result (commits_in self.new d.0 ≡ commits_in self.old d.0 + 1) }
        ensures pays { OnOk result (Pays self.old self.new d.0) }
    {
        self.deliver(d, lane)?;
        self.answer_to_write(d, lane, k)?;
        Ok(())
    }

    /// The next entry of the device is made, if there is one: is there?
    fn advance(&mut self, d: DeviceId) -> Result<bool, AllocError>
        requires { IsWithin (length self.old.setting.rows) d.0 }
        ensures goes_on { GoesOn self.old self.new }
        ensures ok { IfOk result (Advances self.old self.new d.0) }
        ensures pays { OnOk result (Pays self.old self.new d.0) }
    {
        if let Some((lane, k)) = self.awaited_call(d) {
            self.take_answer(d, lane, k)?;
            self.recall();
            return Ok(true);
        }
        let taken = self.taken_count(d);
        if taken >= self.message_count(d) {
            return Ok(false);
        }
        self.take_message(d, taken + 1)?;
        self.recall();
        Ok(true)
    }

    /// The effects of a lane that were accepted leave the row. It takes no memory.
    fn clear(&mut self, d: DeviceId, lane: Lane)
        requires { IsWithin (length self.old.setting.rows) d.0 }
        ensures goes_on { GoesOn self.old self.new }
        ensures clear { accepts_in self.old d.0 lane ≤ settles_in self.new d.0 lane }
        ensures few { length self.new.events ≤ length self.old.events + 1 }
    {
        let k = self.accepted(d, lane);
        if k == 0 {
            return;
        }
        self.recall();
        self.settle(d, lane, k);
    }

    /// All effects of the device arrive, as many as it has made.
    fn deliver_all(&mut self, d: DeviceId) -> Result<(), AllocError>
        requires { IsWithin (length self.old.setting.rows) d.0 }
        ensures goes_on { GoesOn self.old self.new }
        ensures journal { commits_in self.new d.0 ≡ commits_in self.old d.0 }
        ensures down { OnOk result (accepts_in self.new d.0 Lane.Down ≡ pushed_count Lane.Down (journal_in self.new d.0)) }
        ensures gateway { OnOk result (accepts_in self.new d.0 Lane.Gateway ≡ pushed_count Lane.Gateway (journal_in self.new d.0)) }
        ensures subscriber { OnOk result (accepts_in self.new d.0 Lane.Subscriber ≡ pushed_count Lane.Subscriber (journal_in self.new d.0)) }
        ensures pays { OnOk result (Pays self.old self.new d.0) }
    {
        self.deliver(d, Lane::Down)?;
        self.deliver(d, Lane::Gateway)?;
        self.deliver(d, Lane::Subscriber)?;
        self.recall();
        Ok(())
    }

    /// The effects of the device that were accepted leave the row. It takes no memory.
    fn clear_all(&mut self, d: DeviceId)
        requires { IsWithin (length self.old.setting.rows) d.0 }
        ensures goes_on { GoesOn self.old self.new }
        ensures clear { (lane : TheLane) → accepts_in self.old d.0 lane ≤ settles_in self.new d.0 lane }
        ensures few { length self.new.events ≤ length self.old.events + 3 }
    {
        self.clear(d, Lane::Down);
        self.clear(d, Lane::Gateway);
        self.clear(d, Lane::Subscriber);
    }

    /// The device does all that the machine that never fails does, and no effect of it is left in its row.
    fn settle_device(&mut self, d: DeviceId) -> Result<(), AllocError>
        requires { IsWithin (length self.old.setting.rows) d.0 }
        ensures goes_on { GoesOn self.old self.new }
        ensures ok { OnOk result (IsDone self.new d.0) }
        ensures clear { OnOk result ((lane : TheLane) → IsClearLane self.new d.0 lane) }
        ensures pays { OnOk result (PaysFor self.old self.new d.0 3) }
    {
        while self.advance(d)? {}
        self.deliver_all(d)?;
        self.clear_all(d);
        self.recall();
        Ok(())
    }

    /// Each device does.
    fn settle_each(&mut self) -> Result<(), AllocError>
        ensures goes_on { GoesOn self.old self.new }
        ensures ok { OnOk result (IsSettled self.new) }
        ensures clear { OnOk result (IsClear self.new) }
        ensures linear { OnOk result (length self.new.events ≤ length self.old.events + cost_to self.old.setting (length self.old.setting.rows)) }
    {
        for index in 0..self.device_count() {
            self.settle_device(DeviceId(index + 1))?;
            self.recall();
        }
        Ok(())
    }

    /// The world goes on by itself until each device has done all that the machine that never fails does: each journal is whole, and
    /// each effect was accepted and is settled. It takes at most five events an entry, two an effect and three a device. For want of
    /// memory it has gone on for a while, and another call goes on from there.
    pub fn settle_all(&mut self) -> Result<(), AllocError>
        ensures goes_on { GoesOn self.old self.new }
        ensures world { IsWorld self.new }
        ensures ok { OnOk result (IsSettled self.new) }
        ensures ends { OnOk result (finals_in self.new ≡ finals_of self.new.setting.rows self.new.setting.book) }
        ensures clear { OnOk result (IsClear self.new) }
        ensures linear { OnOk result (length self.new.events ≤ length self.old.events + cost_to self.old.setting (length self.old.setting.rows)) }
    {
        let settled = self.settle_each();
        self.recall();
        settled
    }
}
