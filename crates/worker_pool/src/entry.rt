//! The entry: it sends each device's messages, and again what was not acknowledged.
ghost use Rattle.std.specs.Prelude.{◌≡◌, length};
ghost use Rattle.crossbeam_channel.specs.Claims.{IsSeatAt};
ghost use Rattle.crossbeam_channel.specs.Ends.{sends_on};
ghost use Rattle.session_store.specs.Rows.{IsDevice};

use crate::queues::Queues;
use device_types::DeviceId;
use pool_work::{
    Board, Line, Named, Place, device_behind, marked_device, message_at, messages_of, send,
};
use session_store::Charter;
use std::alloc::{AllocError, Global};
use std::sync::Wait;

/// What is done about the messages of a device.
#[derive(Clone, Copy)]
enum Stage {
    /// Nothing.
    Idle,
    /// The first one that is not acknowledged waits in its queue.
    Waiting,
    /// It was sent.
    UnderWay,
}

/// What the entry knows of a device.
#[derive(Clone, Copy)]
struct Agent {
    /// What is done about its messages.
    stage: Stage,
    /// How many messages were sent, again or not.
    out: u64,
    /// The one under way was sent again.
    again: bool,
    /// All its messages are acknowledged.
    over: bool,
}

/// The entry, with what it looks at.
#[derive(Drop)]
pub(crate) struct EntryThread<'a, R> {
    /// The handle.
    pub(crate) rt: &'a R,
    /// The table and the book.
    pub(crate) charter: &'a Charter,
    /// What the workers tell.
    pub(crate) board: &'a Board,
    /// How many workers there are.
    pub(crate) workers: u32,
}

/// An agent for each of so many devices.
fn new_agents(alloc: Global, devices: usize) -> Result<Vec<Agent>, AllocError> {
    let mut agents = Vec::new(alloc);
    for _ in 0..devices {
        let Ok(()) = agents.push(Agent {
            stage: Stage::Idle,
            out: 0,
            again: false,
            over: false,
        }) else {
            return Err(AllocError);
        };
    }
    Ok(agents)
}

impl<'a, R: Wait> EntryThread<'a, R> {
    /// Sends the message of a device behind so many, and answers whether there is one. None where no one is left to take it, or there is
    /// no memory.
    fn send_behind<C: Named>(
        &self,
        line: &Line<C>,
        place: &mut Place,
        agent: &mut Agent,
        d: DeviceId,
        acked: u64,
    ) -> Option<bool>
        requires charter { self.now.charter.now ≡ C.charter }
        requires device { IsDevice (length self.now.charter.now.rows) d.0 }
        requires place { IsSeatAt (sends_on line.now) place.old }
        ensures place { IsSeatAt (sends_on line.now) place.new }
    {
        let Some(packet) = message_at(self.charter, d, acked).ok()? else {
            return Some(false);
        };
        if !send::<C, R>(self.rt, line, place, packet) {
            return None;
        }
        agent.out = agent.out.saturating_add(1);
        Some(true)
    }

    /// Sends the first message that is not acknowledged of the device of that place, which has waited: a worker goes on with those
    /// behind it. Where an answer is awaited, nothing is sent: what brings it marks the device. None where no one is left to take a
    /// packet, or there is no memory.
    fn send_at<C: Named>(
        &self,
        line: &Line<C>,
        place: &mut Place,
        agents: &mut Vec<Agent>,
        queues: &mut Queues,
        index: usize,
    ) -> Option<()>
        requires charter { self.now.charter.now ≡ C.charter }
        requires place { IsSeatAt (sends_on line.now) place.old }
        ensures place { IsSeatAt (sends_on line.now) place.new }
    {
        let Some(d) = device_behind(self.charter, index) else {
            return Some(());
        };
        let Some(agent) = agents.get_mut(index) else {
            return Some(());
        };
        agent.stage = Stage::Idle;
        let Some(acked) = self.board.rests_at(d) else {
            return Some(());
        };
        if self.send_behind::<C>(line, place, agent, d, acked)? {
            agent.stage = Stage::UnderWay;
            agent.again = false;
            queues.enter(d);
        }
        Some(())
    }

    /// Looks at a device of which something was told: once all that was sent has come out of the channel, it waits for its next message
    /// to be sent. Some(true) when its last message is acknowledged; None where there is no memory.
    fn serve(
        &self,
        agent: &mut Agent,
        queues: &mut Queues,
        d: DeviceId,
        index: usize,
    ) -> Option<bool>
        requires { IsDevice (length self.now.charter.now.rows) d.0 }
    {
        if matches!(agent.stage, Stage::UnderWay) && self.board.done(d) == agent.out {
            agent.stage = Stage::Idle;
            queues.leave(d);
        }
        let Some(acked) = self.board.rests_at(d) else {
            return Some(false);
        };
        if acked >= messages_of(self.charter, d).len() as u64 {
            let is_news = !agent.over;
            agent.over = true;
            return Some(is_news);
        }
        if matches!(agent.stage, Stage::Idle) {
            queues.wait(d, index)?;
            agent.stage = Stage::Waiting;
        }
        Some(false)
    }

    /// Serves the marked devices of a word, and sends the next one of the shard of each. It answers how many have come to their end.
    fn serve_word<C: Named>(
        &self,
        line: &Line<C>,
        place: &mut Place,
        agents: &mut Vec<Agent>,
        queues: &mut Queues,
        word: usize,
        marks: u64,
    ) -> Option<usize>
        requires charter { self.now.charter.now ≡ C.charter }
        requires place { IsSeatAt (sends_on line.now) place.old }
        ensures place { IsSeatAt (sends_on line.now) place.new }
    {
        let mut over = 0usize;
        for bit in 0..64usize {
            let Some(d) = marked_device(self.charter, word, marks, bit) else {
                continue;
            };
            let index = d.0 as usize - 1;
            let Some(agent) = agents.get_mut(index) else {
                continue;
            };
            if self.serve(agent, queues, d, index)? {
                over = over.saturating_add(1);
            }
            if let Some(next) = queues.next(d) {
                self.send_at::<C>(line, place, agents, queues, next)?;
            }
        }
        Some(over)
    }

    /// Sends devices that wait, though others of their shards are under way, where there are fewer of these than workers.
    fn send_to_idle<C: Named>(
        &self,
        line: &Line<C>,
        place: &mut Place,
        agents: &mut Vec<Agent>,
        queues: &mut Queues,
    ) -> Option<()>
        requires charter { self.now.charter.now ≡ C.charter }
        requires place { IsSeatAt (sends_on line.now) place.old }
        ensures place { IsSeatAt (sends_on line.now) place.new }
    {
        for _ in 0..self.workers {
            if let Some(next) = queues.next_of_any(self.workers) {
                self.send_at::<C>(line, place, agents, queues, next)?;
            }
        }
        Some(())
    }

    /// Sends a device's first message that is not acknowledged once more, where one is still under way: a worker may be held up with
    /// it.
    fn send_again<C: Named>(
        &self,
        line: &Line<C>,
        place: &mut Place,
        agent: &mut Agent,
        d: DeviceId,
    ) -> Option<()>
        requires charter { self.now.charter.now ≡ C.charter }
        requires device { IsDevice (length self.now.charter.now.rows) d.0 }
        requires place { IsSeatAt (sends_on line.now) place.old }
        ensures place { IsSeatAt (sends_on line.now) place.new }
    {
        let done = self.board.done(d);
        let Some(acked) = self.board.rests_at(d) else {
            return Some(());
        };
        if agent.over || agent.again || done >= agent.out {
            return Some(());
        }
        agent.again = true;
        self.send_behind::<C>(line, place, agent, d, acked)?;
        Some(())
    }

    /// Sends so of each device, where there is another worker to take it, and no more devices than workers are left.
    fn send_all_again<C: Named>(
        &self,
        line: &Line<C>,
        place: &mut Place,
        agents: &mut Vec<Agent>,
        left: usize,
    ) -> Option<()>
        requires charter { self.now.charter.now ≡ C.charter }
        requires place { IsSeatAt (sends_on line.now) place.old }
        ensures place { IsSeatAt (sends_on line.now) place.new }
    {
        if self.workers < 2 || left > self.workers as usize {
            return Some(());
        }
        for index in 0..self.charter.rows().len() {
            let Some(d) = device_behind(self.charter, index) else {
                continue;
            };
            let Some(agent) = agents.get_mut(index) else {
                continue;
            };
            self.send_again::<C>(line, place, agent, d)?;
        }
        Some(())
    }

    /// Rounds until all messages are acknowledged, the threads are to end, or no one is left to take a packet.
    fn rounds<C: Named>(
        &self,
        line: &Line<C>,
        place: &mut Place,
        agents: &mut Vec<Agent>,
        queues: &mut Queues,
    ) -> Option<()>
        requires charter { self.now.charter.now ≡ C.charter }
        requires place { IsSeatAt (sends_on line.now) place.old }
        ensures place { IsSeatAt (sends_on line.now) place.new }
    {
        let mut left = agents.len();
        for _ in self.rt.forever() {
            if left == 0 || self.board.is_over() {
                break;
            }
            let mut any = false;
            for word in 0..self.board.entry.count() {
                let marks = self.board.entry.take(word);
                if marks != 0 {
                    any = true;
                    let over = self.serve_word::<C>(line, place, agents, queues, word, marks)?;
                    left = left.saturating_sub(over);
                }
            }
            if !any {
                self.send_to_idle::<C>(line, place, agents, queues)?;
                self.send_all_again::<C>(line, place, agents, left)?;
                self.board.await_entry(self.rt);
            }
        }
        Some(())
    }

    /// Sends the messages of all devices, until all are acknowledged or the threads are to end. Then it tells the others to end.
    pub(crate) fn enter<C: Named>(&self, alloc: Global, line: Line<C>, mut place: Place)
        requires charter { self.now.charter.now ≡ C.charter }
        requires place { IsSeatAt (sends_on line) place }
    {
        let devices = self.charter.rows().len();
        self.board.mark_all(devices);
        if let (Ok(mut agents), Ok(mut queues)) = (new_agents(alloc, devices), Queues::new(alloc)) {
            let _ = self.rounds::<C>(&line, &mut place, &mut agents, &mut queues);
        }
        self.board.stop();
    }
}
