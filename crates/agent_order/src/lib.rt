//! The messages of a device in order, and how far they are acknowledged.
#![tactic(auto)]

ghost use Rattle.std.specs.Prelude.{◌≡◌, ◌≤◌, ◌↔◌, length, IsSome, IfSome, option_copied};
ghost use Rattle.std.specs.Arc.{arc_value};
ghost use Rattle.device_types.specs.Line.{IsNumbered};

use device_types::{Message, Messages};
use std::alloc::Global;
use std::marker::Model;
use std::sync::Arc;

/// The messages of a device in order, numbered from 1 without gaps, and the number of the last one that is acknowledged, or 0.
/// Contracts see both. The messages are shared with whoever else has them.
#[derive(Debug, Drop)]
pub struct Line {
    items: Arc<Messages, Global>,
    settled: u64,
}

impl Model for Line {
    ghost use Rattle.std.specs.Prelude.{◌≤◌, length};
    ghost use Rattle.std.specs.Arc.{arc_value};
    ghost use Rattle.device_types.specs.Line.{IsNumbered};
    ghost use Rattle.agent_order.specs.Order.{LineState};

    ghost Value = { LineState };

    ghost view = { λ line. record { messages = arc_value line.items; acked = line.settled } };

    ghost invariant = { λ line. IsNumbered (arc_value line.items) × (line.settled ≤ length (arc_value line.items)) };
}

impl Line {
    ghost use Rattle.agent_order.specs.Order.{message_at, unsettled_of};

    /// The line of these messages, of which none is acknowledged. It takes no memory.
    pub fn new(messages: Arc<Messages, Global>) -> Line
        requires { IsNumbered (arc_value messages) }
        ensures { result ≡ record { messages = arc_value messages; acked = 0 } }
    {
        Line {
            items: messages,
            settled: 0,
        }
    }

    /// Message `n`, from 1, or `None` where the line has none of that number. It takes no memory.
    pub fn message(&self, n: u64) -> Option<&Message>
        ensures value { option_copied result ≡ message_at self.now.messages n }
        ensures number { IfSome result (λ message. message.now.number ≡ n) }
        ensures within { IsSome result ↔ ((1 ≤ n) × (n ≤ length self.now.messages)) }
    {
        let index = n.checked_sub(1)?;
        self.items.items().get(index as usize)
    }

    /// The first message that is not acknowledged, or `None` where all are. It takes no memory.
    pub fn next_unsettled(&self) -> Option<u64>
        ensures { result ≡ unsettled_of self.now }
    {
        if self.settled < self.len() {
            Some(self.settled + 1)
        } else {
            None
        }
    }

    /// How many messages there are. It takes no memory.
    pub fn len(&self) -> u64
        ensures { result ≡ length self.now.messages }
    {
        self.items.items().len() as u64
    }

    /// The number of the last message that is acknowledged, or 0. It takes no memory.
    pub fn acked(&self) -> u64
        ensures value { result ≡ self.now.acked }
        ensures within { self.now.acked ≤ length self.now.messages }
    {
        self.settled
    }

    /// Message `n` is acknowledged, and with it all before it: commits are in order. It takes no memory.
    pub fn set_acked(&mut self, n: u64)
        requires forward { self.old.acked ≤ n }
        requires within { n ≤ length self.old.messages }
        ensures { self.new ≡ record self.old { acked = n } }
    {
        self.settled = n;
    }
}
