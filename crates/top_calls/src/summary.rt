//! What a run comes to, in numbers.

ghost use Rattle.std.specs.Prelude.{◌≡◌, ◌≤◌, length, All, IfOk};
ghost use Rattle.link_schedule.specs.Floor.{IsEnd};
ghost use Rattle.link_schedule.specs.World.{IsShort};
ghost use Rattle.report_text.specs.Summary.{summary_line};
ghost use Rattle.subs_table.specs.Table.{most_rows};
ghost use Rattle.top_calls.specs.Summary.{messages_of, sums_of, summary_of};

use device_types::{Book, DeviceEnd, Finals, Octets};
use echo_base::OutOfMemory;
use entry_edge::Admitted;
use report_text::{Scheduled, Summary, summary_line};
use std::alloc::Global;

/// What became of all devices, in numbers.
#[derive(Clone, Copy, Debug, PartialEq, Eq)]
struct Sums {
    /// The steps.
    steps: u64,
    /// The messages to the devices.
    downs: u64,
    /// The calls of the gateway.
    gateway: u64,
    /// The calls of the subscriber server.
    subscriber: u64,
}

/// The sums over what became of the devices.
fn sums_of(ends: &[DeviceEnd]) -> Sums
    requires count { length ends.now ≤ most_rows }
    requires ends { All IsEnd ends.now }
    ensures { result ≡ sums_of ends.now }
{
    let mut steps = 0;
    let mut downs = 0;
    let mut gateway = 0;
    let mut subscriber = 0;
    for end in ends {
        steps += end.steps;
        downs += end.downs.items().len() as u64;
        gateway += end.gateway.items().len() as u64;
        subscriber += end.subscriber.items().len() as u64;
    }
    Sums {
        steps,
        downs,
        gateway,
        subscriber,
    }
}

/// The messages of all devices.
fn messages_of(book: &Book) -> u64
    requires devices { length book.now ≤ most_rows }
    requires messages { All IsShort book.now }
    ensures { result ≡ messages_of book.now }
{
    let mut count = 0;
    for messages in book.items() {
        count += messages.items().len() as u64;
    }
    count
}

/// The line that sums a run up: over what admission gave, with these counts of its events, where it had a schedule, and with what became
/// of the devices.
pub fn summary_text(
    alloc: Global,
    admitted: &Admitted,
    scheduled: Option<Scheduled>,
    finals: &Finals,
) -> Result<Octets, OutOfMemory>
    requires devices { length admitted.now.book ≤ most_rows }
    requires messages { All IsShort admitted.now.book }
    requires count { length finals.now ≤ most_rows }
    requires ends { All IsEnd finals.now }
    ensures { IfOk result (λ text. text ≡ summary_line (summary_of admitted.now.book admitted.now.refused.items scheduled finals.now)) }
{
    let sums = sums_of(finals.items());
    let summary = Summary {
        devices: admitted.book.items().len() as u32,
        messages: messages_of(&admitted.book),
        refused: admitted.refused.len() as u64,
        scheduled,
        steps: sums.steps,
        downs: sums.downs,
        gateway: sums.gateway,
        subscriber: sums.subscriber,
    };
    summary_line(alloc, &summary)
}
