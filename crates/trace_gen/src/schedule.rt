//! The schedule.

ghost use Rattle.std.specs.Prelude.{◌≡◌, ◌++◌, ◌+◌, ◌-◌, ◌*◌, ◌^◌, ◌<◌, ◌≤◌, [], length, fold, get_or, slice_set, replicate, All, OnOk, IfOk, string_bytes};
ghost use Rattle.device_types.specs.Numbers.{IsWithin};
ghost use Rattle.trace_gen.specs.Made.{events_text, schedule_text};
ghost use Rattle.trace_gen.specs.Schedule.{with_call, calls_events, sent_events, schedule_behind};
ghost use Rattle.trace_gen.specs.State.{none, with_sent};

use crate::counts::Counts;
use crate::draws::Draws;
use crate::events::{message_events, put_call, put_events};
use crate::script::{Call, Sent, calls_after};
use device_types::DeviceId;
use echo_base::OutOfMemory;
use std::alloc::Global;

/// Puts the lines of the events of calls behind a text, and gives the counts with them.
fn put_calls(
    text: &mut String,
    r: u32,
    d: DeviceId,
    counts: Counts,
    calls: &[Call],
) -> Result<Counts, OutOfMemory>
    requires replica { r ≤ 3 }
    requires gateway { counts.gateway + length calls.now < 2 ^ 64 }
    requires subscriber { counts.subscriber + length calls.now < 2 ^ 64 }
    ensures text { OnOk result (string_bytes text.new ≡ string_bytes text.old ++ events_text (calls_events r d counts calls.now)) }
    ensures counts { IfOk result (λ after. after ≡ fold with_call counts calls.now) }
{
    let mut counts = counts;
    for call in calls {
        put_call(text, r, d, *call, counts.number_of(*call))?;
        counts = counts.with_call(*call);
    }
    Ok(counts)
}

/// Puts the lines of the events of a message and of the calls after it behind a text, and gives the device's counts with them.
fn put_sent(text: &mut String, r: u32, counts: Counts, sent: Sent) -> Result<Counts, OutOfMemory>
    requires replica { r ≤ 3 }
    requires messages { counts.messages + 1 < 2 ^ 64 }
    requires gateway { counts.gateway + 2 < 2 ^ 64 }
    requires subscriber { counts.subscriber + 2 < 2 ^ 64 }
    ensures text { OnOk result (string_bytes text.new ≡ string_bytes text.old ++ events_text (sent_events r counts sent)) }
    ensures counts { IfOk result (λ after. after ≡ with_sent counts sent) }
{
    let d = DeviceId(sent.device);
    let messages = counts.messages + 1;
    put_events(text, &message_events(r, d, messages))?;
    let counts = put_calls(text, r, d, counts, calls_after(sent.sending))?;
    Ok(Counts { messages, ..counts })
}

/// Puts the lines of the events of what a device sends behind a text, and counts it.
fn put_next(text: &mut String, r: u32, counts: &mut [Counts], sent: Sent) -> Result<(), OutOfMemory>
    requires replica { r ≤ 3 }
    requires device { IsWithin (length counts.old) sent.device }
    requires messages { (get_or counts.old (sent.device - 1) none).messages + 1 < 2 ^ 64 }
    requires gateway { (get_or counts.old (sent.device - 1) none).gateway + 2 < 2 ^ 64 }
    requires subscriber { (get_or counts.old (sent.device - 1) none).subscriber + 2 < 2 ^ 64 }
    ensures text { OnOk result (string_bytes text.new ≡ string_bytes text.old ++ events_text (sent_events r (get_or counts.old (sent.device - 1) none) sent)) }
    ensures counts { OnOk result (counts.new ≡ slice_set counts.old (sent.device - 1) (with_sent (get_or counts.old (sent.device - 1) none) sent)) }
{
    let at = sent.device as usize - 1;
    counts[at] = put_sent(text, r, counts[at], sent)?;
    Ok(())
}

/// The counts of so many devices that have sent nothing.
fn no_counts(alloc: Global, devices: u32) -> Result<Vec<Counts>, OutOfMemory>
    ensures { IfOk result (λ counts. counts.items ≡ replicate devices none) }
{
    let mut counts = Vec::new(alloc);
    for _device in 0..devices {
        counts.push(Counts::none())?;
    }
    Ok(counts)
}

/// Puts the section of the events of what is sent behind a text. Which replica takes a message first is drawn.
pub fn put_schedule(
    alloc: Global,
    text: &mut String,
    draws: &mut Draws,
    devices: u32,
    trace: &[Sent],
) -> Result<(), OutOfMemory>
    requires devices { All (λ sent. IsWithin devices sent.device) trace.now }
    requires few { length trace.now < 2 ^ 32 }
    ensures { OnOk result (string_bytes text.new ≡ string_bytes text.old ++ schedule_text (schedule_behind draws.old.state [] trace.now)) }
{
    writeln!(text, "[schedule]")?;
    let mut counts = no_counts(alloc, devices)?;
    let counts: &mut [Counts] = &mut counts;
    for sent in trace {
        let r = draws.draw(2) as u32 + 1;
        put_next(text, r, counts, *sent)?;
    }
    Ok(())
}
