//! Events and lanes as they stand in a schedule.

ghost use Rattle.std.specs.Prelude.{◌≡◌, Some};
ghost use Rattle.std.specs.List.{join_with_byte};
ghost use Rattle.case_form.specs.Event.{lane_word, lane_words, event_line};

use device_types::{DeviceId, Event, Lane};
use std::fmt;

/// A lane, which prints as its word: `down`, `gateway` or `subscriber`.
#[derive(Clone, Copy)]
pub struct LaneWord(pub Lane);

impl LaneWord {
    /// The word.
    pub fn word(self) -> &'static str
        ensures { result.now ≡ lane_word self.0 }
    {
        match self.0 {
            Lane::Down => "down",
            Lane::Gateway => "gateway",
            Lane::Subscriber => "subscriber",
        }
    }
}

impl fmt::Display for LaneWord {
    ghost output = { λ lane. Some (lane_word lane.0) };

    fn fmt<W: fmt::Write>(&self, f: &mut fmt::Formatter<W>) -> fmt::Result {
        f.write_str(self.word())
    }
}

/// A device, a lane and a number on it, which print as in a line of a schedule: `1 gateway 3`.
#[derive(Clone, Copy)]
struct LaneLine(DeviceId, Lane, u64);

impl fmt::Display for LaneLine {
    ghost output = { λ line. Some (join_with_byte 32 (lane_words line.0 line.1 line.2)) };

    fn fmt<W: fmt::Write>(&self, f: &mut fmt::Formatter<W>) -> fmt::Result {
        let LaneLine(d, lane, k) = *self;
        write!(f, "{} {} {k}", d.0, LaneWord(lane))
    }
}

/// An event, which prints as its line in a schedule, without an end: `take 2 1 3`. `read_case` reads it so.
#[derive(Clone, Copy)]
pub struct EventLine(pub Event);

impl fmt::Display for EventLine {
    ghost output = { λ line. Some (event_line line.0) };

    fn fmt<W: fmt::Write>(&self, f: &mut fmt::Formatter<W>) -> fmt::Result {
        match self.0 {
            Event::Send { d, n } => write!(f, "send {} {n}", d.0),
            Event::Take { r, d, n } => write!(f, "take {r} {} {n}", d.0),
            Event::Answer { r, d, lane, k } => write!(f, "answer {r} {}", LaneLine(d, lane, k)),
            Event::Read { r } => write!(f, "read {r}"),
            Event::Write { r } => write!(f, "write {r}"),
            Event::Stop { r } => write!(f, "stop {r}"),
            Event::Reply { d, n } => write!(f, "reply {} {n}", d.0),
            Event::Push { d, lane, k } => write!(f, "push {}", LaneLine(d, lane, k)),
            Event::Effect { d, lane, k } => write!(f, "effect {}", LaneLine(d, lane, k)),
            Event::Settle { d, lane, k } => write!(f, "settle {}", LaneLine(d, lane, k)),
        }
    }
}
