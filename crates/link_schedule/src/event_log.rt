//! The events that a world has taken.
ghost use Rattle.std.specs.Prelude.{◌≡◌, ◌++◌, ◌∷◌, ◌-◌, ◌^◌, [], length, min};

use device_types::{Event, EventAnswer};
use http_server::Log;
use std::fmt;
use std::marker::Model;

/// The events that a world has taken, in order, each with its answer: a history that only proofs read, so that it takes no memory,
/// and how many there are. Contracts see the events.
#[derive(Drop)]
pub(crate) struct EventLog {
    turns: Log<Event, EventAnswer>,
    count: u64,
}

impl Model for EventLog {
    ghost use Rattle.std.specs.Prelude.{◌≡◌, ◌-◌, ◌^◌, List, length, min};
    ghost use Rattle.device_types.specs.declared.event.Event.{Event};
    ghost use Rattle.link_schedule.specs.Floor.{events_of};

    ghost Value = { List Event };

    ghost view = { λ log. events_of log.turns.items };

    ghost invariant = { λ log. log.count ≡ min (length (events_of log.turns.items)) (2 ^ 64 - 1) };
}

/// Only the count is there to be told.
impl fmt::Debug for EventLog {
    fn fmt<W: fmt::Write>(&self, f: &mut fmt::Formatter<W>) -> fmt::Result {
        f.debug_struct("EventLog")
            .field("count", &self.count)
            .finish()
    }
}

impl EventLog {
    /// No event was taken. It takes no memory.
    pub(crate) fn new() -> EventLog
        ensures { result ≡ [] }
    {
        EventLog {
            turns: Log::new(),
            count: 0,
        }
    }

    /// The event was taken, and came to this answer, which is handed on. It takes no memory.
    pub(crate) fn noted(&mut self, event: Event, answer: EventAnswer) -> EventAnswer
        ensures events { self.new ≡ self.old ++ event ∷ [] }
        ensures answer { result ≡ answer }
    {
        self.turns = self.turns.and(&event, &answer);
        self.count = self.count.saturating_add(1);
        answer
    }

    /// How many events were taken; the count stands still at 2^64 - 1. It takes no memory.
    pub(crate) fn count(&self) -> u64
        ensures { result ≡ min (length self.now) (2 ^ 64 - 1) }
    {
        self.count
    }
}
