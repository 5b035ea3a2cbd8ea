//! Events.

ghost use Rattle.std.specs.Prelude.{◌≡◌, ◌++◌, ◌≤◌, OnOk, string_bytes};
ghost use Rattle.case_form.specs.Event.{event_line};
ghost use Rattle.trace_gen.specs.Events.{message_events, answered_events, notice_events, call_events};
ghost use Rattle.trace_gen.specs.Made.{ended, events_text};
ghost use Rattle.trace_gen.specs.Scripts.{lane_of};

use crate::script::Call;
use case_form::EventLine;
use device_types::{DeviceId, Event, Lane};
use echo_base::OutOfMemory;

/// The lane of a call.
pub fn lane_of(call: Call) -> Lane
    ensures { result ≡ lane_of call }
{
    match call {
        Call::Gateway => Lane::Gateway,
        Call::Subscriber | Call::Notice => Lane::Subscriber,
    }
}

/// Puts an event's line, and an LF, behind a text.
fn put_event(text: &mut String, event: Event) -> Result<(), OutOfMemory>
    ensures { OnOk result (string_bytes text.new ≡ string_bytes text.old ++ ended (event_line event)) }
{
    let line = EventLine(event);
    writeln!(text, "{line}")
}

/// Puts a line for each event, as a schedule has it, behind a text.
pub fn put_events(text: &mut String, events: &[Event]) -> Result<(), OutOfMemory>
    ensures { OnOk result (string_bytes text.new ≡ string_bytes text.old ++ events_text events.now) }
{
    for event in events {
        put_event(text, *event)?;
    }
    Ok(())
}

/// The events of message `n` of a device, where replica `r` takes it first, and `q` is the other.
#[tactic(auto, unfolding(crate::specs::Events::message_events))]
pub fn message_events(r: u32, d: DeviceId, n: u64) -> [Event; 8]
    requires { r ≤ 3 }
    ensures { result ≡ message_events r d n }
{
    let q = 3 - r;
    [
        Event::Send { d, n },
        Event::Take { r, d, n },
        Event::Take { r: q, d, n },
        Event::Read { r },
        Event::Read { r: q },
        Event::Write { r },
        Event::Write { r: q },
        Event::Reply { d, n },
    ]
}

/// The events of call `k` on a lane, whose answer replica `r` takes first.
fn answered_events(r: u32, d: DeviceId, lane: Lane, k: u64) -> [Event; 10]
    requires { r ≤ 3 }
    ensures { result ≡ answered_events r d lane k }
{
    let q = 3 - r;
    [
        Event::Push { d, lane, k },
        Event::Effect { d, lane, k },
        Event::Effect { d, lane, k },
        Event::Answer { r, d, lane, k },
        Event::Read { r },
        Event::Stop { r },
        Event::Answer { r: q, d, lane, k },
        Event::Read { r: q },
        Event::Write { r: q },
        Event::Settle { d, lane, k },
    ]
}

/// The events of notice `k` on a lane.
fn notice_events(d: DeviceId, lane: Lane, k: u64) -> [Event; 3]
    ensures { result ≡ notice_events d lane k }
{
    [
        Event::Push { d, lane, k },
        Event::Effect { d, lane, k },
        Event::Settle { d, lane, k },
    ]
}

/// Puts the lines of the events of call `k` on its lane behind a text.
pub fn put_call(
    text: &mut String,
    r: u32,
    d: DeviceId,
    call: Call,
    k: u64,
) -> Result<(), OutOfMemory>
    requires { r ≤ 3 }
    ensures { OnOk result (string_bytes text.new ≡ string_bytes text.old ++ events_text (call_events r d call k)) }
{
    let lane = lane_of(call);
    match call {
        Call::Subscriber | Call::Gateway => put_events(text, &answered_events(r, d, lane, k)),
        Call::Notice => put_events(text, &notice_events(d, lane, k)),
    }
}
