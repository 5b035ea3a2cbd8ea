//! The summary of a run.

ghost use Rattle.std.specs.Prelude.{◌≡◌, ◌++◌, Some, IfOk, OnOk, string_bytes};
ghost use Rattle.report_text.specs.Summary.{trace_words, event_words, scheduled_words, final_words, summary_line};

use device_types::Octets;
use echo_base::OutOfMemory;
use std::alloc::Global;
use std::fmt;

/// What a run comes to, in numbers.
#[derive(Clone, Copy, Debug, PartialEq, Eq)]
pub struct Summary {
    /// The devices.
    pub devices: u32,
    /// The messages of all devices.
    pub messages: u64,
    /// The refused lines of the trace.
    pub refused: u64,
    /// The events of the schedule and what they came to, of a run that has one.
    pub scheduled: Option<Scheduled>,
    /// The steps of all devices.
    pub steps: u64,
    /// The messages to all devices.
    pub downs: u64,
    /// The calls of the gateway, of all devices.
    pub gateway: u64,
    /// The calls of the subscriber server, of all devices.
    pub subscriber: u64,
}

/// What the events of a schedule come to, in numbers.
#[derive(Clone, Copy, Debug, PartialEq, Eq)]
pub struct Scheduled {
    /// The events.
    pub events: u64,
    /// The events that were answered Committed.
    pub committed: u64,
    /// The events that were answered Stale.
    pub stale: u64,
}

/// The words on the trace.
#[derive(Clone, Copy)]
struct TraceWords<'a>(&'a Summary);

impl fmt::Display for TraceWords<'_> {
    ghost output = { λ words. Some (trace_words words.0.now) };

    fn fmt<W: fmt::Write>(&self, f: &mut fmt::Formatter<W>) -> fmt::Result {
        let devices = self.0.devices;
        let messages = self.0.messages;
        let refused = self.0.refused;
        write!(f, "devices {devices} messages {messages} refused {refused}")
    }
}

/// The words on the schedule, with a space in front.
#[derive(Clone, Copy)]
struct EventWords(Scheduled);

impl fmt::Display for EventWords {
    ghost output = { λ words. Some (event_words words.0) };

    fn fmt<W: fmt::Write>(&self, f: &mut fmt::Formatter<W>) -> fmt::Result {
        let Scheduled {
            events,
            committed,
            stale,
        } = self.0;
        write!(f, " events {events} committed {committed} stale {stale}")
    }
}

/// The words on what became of the devices, with a space in front.
#[derive(Clone, Copy)]
struct FinalWords<'a>(&'a Summary);

impl fmt::Display for FinalWords<'_> {
    ghost output = { λ words. Some (final_words words.0.now) };

    fn fmt<W: fmt::Write>(&self, f: &mut fmt::Formatter<W>) -> fmt::Result {
        let steps = self.0.steps;
        let downs = self.0.downs;
        let gateway = self.0.gateway;
        let subscriber = self.0.subscriber;
        write!(
            f,
            " steps {steps} down {downs} gateway {gateway} subscriber {subscriber}"
        )
    }
}

/// Puts the words on a schedule, where there is one, behind a text.
fn put_scheduled(text: &mut String, scheduled: Option<Scheduled>) -> Result<(), OutOfMemory>
    ensures { OnOk result (string_bytes text.new ≡ string_bytes text.old ++ scheduled_words scheduled) }
{
    match scheduled {
        None => Ok(()),
        Some(scheduled) => {
            let words = EventWords(scheduled);
            write!(text, "{words}")
        }
    }
}

/// The line that sums a run up: `devices D messages M refused F events E committed C stale S steps V down A gateway B subscriber
/// G`, without the words on events where no schedule ran.
pub fn summary_line(alloc: Global, summary: &Summary) -> Result<Octets, OutOfMemory>
    ensures { IfOk result (λ text. text ≡ summary_line summary.now) }
{
    let trace = TraceWords(summary);
    let finals = FinalWords(summary);
    let mut text = String::new(alloc);
    write!(text, "{trace}")?;
    put_scheduled(&mut text, summary.scheduled)?;
    writeln!(text, "{finals}")?;
    Ok(Octets::from(text.into_bytes()))
}
