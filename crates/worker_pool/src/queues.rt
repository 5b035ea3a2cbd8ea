//! The order in which the entry sends devices: of each shard one at a time. Workers with devices of one shard would wait for one
//! another at each call, and longest where the thread whose turn it is does not run. No clause rests on it.

use device_types::DeviceId;
use session_store::{SHARDS, shard_of};
use std::alloc::{AllocError, Global};
use std::collections::VecDeque;

/// The devices of a shard that have something to send.
#[derive(Drop)]
struct Queue {
    /// How many of them are under way.
    under_way: u32,
    /// The places of those that wait, in the order in which they came.
    waiting: VecDeque<usize>,
}

/// Those of all shards.
#[derive(Drop)]
pub(crate) struct Queues {
    shards: Vec<Queue>,
}

impl Queues {
    /// No device waits, and none is under way.
    pub(crate) fn new(alloc: Global) -> Result<Queues, AllocError> {
        let mut shards = Vec::new(alloc);
        for _ in 0..SHARDS {
            let Ok(()) = shards.push(Queue {
                under_way: 0,
                waiting: VecDeque::new(alloc),
            }) else {
                return Err(AllocError);
            };
        }
        Ok(Queues { shards })
    }

    /// The queue of the device's shard.
    fn of(&mut self, d: DeviceId) -> Option<&mut Queue> {
        self.shards.get_mut(shard_of(d) as usize)
    }

    /// A device, the one of that place, waits behind the others of its shard. None where there is no memory.
    pub(crate) fn wait(&mut self, d: DeviceId, index: usize) -> Option<()> {
        self.of(d)?.waiting.push_back(index).ok()
    }

    /// A device is under way.
    pub(crate) fn enter(&mut self, d: DeviceId) {
        if let Some(queue) = self.of(d) {
            queue.under_way = queue.under_way.saturating_add(1);
        }
    }

    /// It is no more.
    pub(crate) fn leave(&mut self, d: DeviceId) {
        if let Some(queue) = self.of(d) {
            queue.under_way = queue.under_way.saturating_sub(1);
        }
    }

    /// The place of the device that is to be sent next of the shard of this one, if none of it is under way.
    pub(crate) fn next(&mut self, d: DeviceId) -> Option<usize> {
        let queue = self.of(d)?;
        if queue.under_way > 0 {
            return None;
        }
        queue.waiting.pop_front()
    }

    /// The place of one that waits, of any shard, if less than so many devices are under way.
    pub(crate) fn next_of_any(&mut self, most: u32) -> Option<usize> {
        let mut under_way = 0u32;
        for queue in &self.shards {
            under_way = under_way.saturating_add(queue.under_way);
        }
        if under_way >= most {
            return None;
        }
        for queue in &mut self.shards {
            if let Some(index) = queue.waiting.pop_front() {
                return Some(index);
            }
        }
        None
    }
}
