//! The window of a device's agent.
ghost use Rattle.std.specs.Prelude.{◌≡◌, ◌≤◌, [], length, true, IfOk, OnErr};

use crate::taken::{DownTaken, Taken};
use agent_order::Line;
use device_types::{Down, Downs, Reply};
use std::alloc::{AllocError, Global};
use std::marker::Model;

/// The agent of a device, which may send `W` messages behind the last one that is acknowledged, each as often as it likes. It
/// keeps the line of the device, the greatest number that it has sent, and the messages to the device that it has accepted.
/// Contracts see these three.
#[derive(Debug, Drop)]
pub struct Window<const W: u64> {
    own: Line,
    greatest: u64,
    accepted: Downs,
}

impl<const W: u64> Model for Window<W> {
    ghost use Rattle.std.specs.Prelude.{◌≤◌, length};
    ghost use Rattle.agent_resend.specs.Window.{WindowState};

    ghost Value = { WindowState };

    ghost view = { λ window. record { line = window.own; sent = window.greatest; downs = window.accepted } };

    ghost invariant = { λ window. (window.own.acked ≤ window.greatest) × (window.greatest ≤ length window.own.messages) };
}

impl<const W: u64> Window<W> {
    ghost use Rattle.agent_resend.specs.Window.{may_send, with_sent, reply_taken, after_reply, down_taken, after_down};

    /// The agent that has sent the acknowledged messages of this line alone, and has accepted none. It takes no memory.
    pub fn new(alloc: Global, line: Line) -> Window<W>
        requires { 1 ≤ W }
        ensures { result ≡ record { line = line; sent = line.acked; downs = [] } }
    {
        Window {
            greatest: line.acked(),
            own: line,
            accepted: Downs::new(alloc),
        }
    }

    /// May message `n` be sent? It takes no memory.
    pub fn may_send(&self, n: u64) -> bool
        ensures { result ≡ may_send W self.now.line n }
    {
        let acked = self.own.acked();
        acked < n && n - acked <= W && n <= self.own.len()
    }

    /// Notes that message `n` was sent. It takes no memory.
    pub fn sent(&mut self, n: u64)
        requires { may_send W self.old.line n ≡ true }
        ensures { self.new ≡ with_sent self.old n }
    {
        self.greatest = self.greatest.max(n);
    }

    /// A reply arrives. Since a row takes the messages in order, the reply to a message acknowledges all before it too. It takes
    /// no memory.
    pub fn take_reply(&mut self, reply: &Reply) -> Taken
        ensures value { result ≡ reply_taken self.old reply.now.number }
        ensures state { self.new ≡ after_reply self.old result }
    {
        let n = reply.number;
        if n > self.greatest {
            return Taken::Stranger(self.greatest);
        }
        let acked = self.own.acked();
        if n <= acked {
            return Taken::Old(acked);
        }
        self.own.set_acked(n);
        Taken::Acked(n)
    }

    /// What message `k` to the device comes to.
    fn down_taken(&self, k: u64) -> DownTaken
        ensures { result ≡ down_taken self.now.downs k }
    {
        let last = self.accepted.items().len() as u64;
        if k <= last {
            return DownTaken::Repeat(k);
        }
        if k - last > 1 {
            return DownTaken::Ahead(last);
        }
        DownTaken::Accepted(k)
    }

    /// Message `k` to the device arrives. For want of memory the window stays as it was.
    pub fn take_down(&mut self, k: u64, down: Down) -> Result<DownTaken, AllocError>
        ensures value { IfOk result (λ taken. taken ≡ down_taken self.old.downs k) }
        ensures state { IfOk result (λ taken. self.new ≡ after_down self.old down taken) }
        ensures err { OnErr result (self.new ≡ self.old) }
    {
        match self.down_taken(k) {
            DownTaken::Accepted(k) => {
                self.accepted.push(down)?;
                Ok(DownTaken::Accepted(k))
            }
            DownTaken::Repeat(k) => Ok(DownTaken::Repeat(k)),
            DownTaken::Ahead(last) => Ok(DownTaken::Ahead(last)),
        }
    }

    /// The line of the device. What is acknowledged was sent, and the line has it.
    pub fn line(&self) -> &Line
        ensures value { result.now ≡ self.now.line }
        ensures acked { self.now.line.acked ≤ self.now.sent }
        ensures sent { self.now.sent ≤ length self.now.line.messages }
    {
        &self.own
    }

    /// The messages to the device that were accepted, in order.
    pub fn downs(&self) -> &[Down]
        ensures { result.now ≡ self.now.downs }
    {
        self.accepted.items()
    }
}
