//! What the drawn events of a device's streams come to, as a text.

ghost use Rattle.std.specs.Prelude.{◌≡◌, ◌≤◌, ◌+◌, ◌++◌, length, All, IfOk, OnOk};
ghost use Rattle.device_types.specs.Numbers.{IsWithin};
ghost use Rattle.device_types.specs.Subscriber.{IsSubscriber};
ghost use Rattle.epoch_agents.specs.Answer.{IsEvent};
ghost use Rattle.epoch_agents.specs.Counts.{merge};
ghost use Rattle.epoch_agents.specs.World.{turns_in};
ghost use Rattle.epoch_run.specs.Drawn.{course_of};
ghost use Rattle.epoch_run.specs.State.{AreDrawable, IsCourse, IsTold};
ghost use Rattle.epoch_run.specs.Text.{answers_text, entry_line, merge_text, and_entry, messages_merged, session_text, merged_text, course_text, epochs_text, device_text};

use crate::course::Course;
use crate::streams::{put_message, streams_of};
use device_machine::end_of;
use device_types::{Book, Message, Messages, Octets, Subscriber};
use echo_base::OutOfMemory;
use epoch_agents::{EpochWorld, Merged, Stream};
use report_text::{epoch_line, merge_line, session_line};
use std::alloc::Global;

/// Draws the next event, and puts the line of its answer behind the text.
fn put_event(alloc: Global, text: &mut Octets, course: &mut Course) -> Result<(), OutOfMemory>
    requires streams { AreDrawable course.old.world.streams }
    requires arrivals { All (IsEvent course.old.world.streams) course.old.arrivals.items }
    requires few { length course.old.world.events ≤ 100000 }
    ensures { OnOk result (IsTold course.old.world course.new.world course.old.draws.state course.new.draws.state course.old.arrivals.items course.new.arrivals.items text.old text.new) }
{
    let number = course.world.event_count() + 1;
    let answer = course.step()?;
    text.append(epoch_line(alloc, number, answer)?)
}

/// A line for each of so many events, which are drawn.
fn answers_text(alloc: Global, course: &mut Course, events: u32) -> Result<Octets, OutOfMemory>
    requires streams { AreDrawable course.old.world.streams }
    requires before { IsCourse course.old.world.streams course.old.draws.state 0 course.old.world course.old.draws.state course.old.arrivals.items }
    requires few { events ≤ 100000 }
    ensures course { OnOk result (IsCourse course.old.world.streams course.old.draws.state events course.new.world course.new.draws.state course.new.arrivals.items) }
    ensures text { IfOk result (λ text. text ≡ answers_text (course_of course.old.world.streams course.old.draws.state events).turns) }
{
    let mut text = Octets::new(alloc);
    for _event in 0..events {
        put_event(alloc, &mut text, course)?;
    }
    Ok(text)
}

/// The line of a committed message, under the label of its stream.
fn entry_line(alloc: Global, streams: &[Stream], entry: Merged) -> Result<Octets, OutOfMemory>
    requires { IsWithin (length streams.now) entry.a }
    ensures { IfOk result (λ line. line ≡ entry_line streams.now entry) }
{
    let stream = &streams[entry.a as usize - 1];
    merge_line(alloc, stream.station, stream.index, entry)
}

/// A line for each message that the row has committed.
fn merge_text(alloc: Global, streams: &[Stream], merged: &[Merged]) -> Result<Octets, OutOfMemory>
    requires { All (λ entry. IsWithin (length streams.now) entry.a) merged.now }
    ensures { IfOk result (λ text. text ≡ merge_text streams.now merged.now) }
{
    let mut text = Octets::new(alloc);
    for entry in merged {
        text.append(entry_line(alloc, streams, *entry)?)?;
    }
    Ok(text)
}

/// Puts the message of an entry behind others, with the next number.
fn put_entry(messages: &mut Messages, streams: &[Stream], entry: Merged) -> Result<(), OutOfMemory>
    requires { IsWithin (length streams.now) entry.a }
    ensures { OnOk result (messages.new ≡ and_entry streams.now messages.old entry) }
{
    let stream = &streams[entry.a as usize - 1];
    match stream.line.message(entry.n) {
        Some(message) => put_message(messages, message),
        None => Ok(()),
    }
}

/// The messages that the row has committed, in that order, numbered anew.
fn messages_merged(
    alloc: Global,
    streams: &[Stream],
    merged: &[Merged],
) -> Result<Messages, OutOfMemory>
    requires { All (λ entry. IsWithin (length streams.now) entry.a) merged.now }
    ensures { IfOk result (λ messages. messages ≡ messages_merged streams.now merged.now) }
{
    let mut messages = Messages::new(alloc);
    for entry in merged {
        put_entry(&mut messages, streams, *entry)?;
    }
    Ok(messages)
}

/// The line of the session of a device that is alone with these messages.
fn session_text(
    alloc: Global,
    row: &Subscriber,
    messages: &[Message],
) -> Result<Octets, OutOfMemory>
    requires row { IsSubscriber row.now }
    requires few { length messages.now ≤ 100000 }
    ensures { IfOk result (λ text. text ≡ session_text row.now messages.now) }
{
    let end = end_of(row, messages)?;
    session_line(alloc, &end.session)
}

/// The text of what the row has committed, and of what the device has then.
fn merged_text(
    alloc: Global,
    row: &Subscriber,
    streams: &[Stream],
    merged: &[Merged],
) -> Result<Octets, OutOfMemory>
    requires row { IsSubscriber row.now }
    requires within { All (λ entry. IsWithin (length streams.now) entry.a) merged.now }
    requires few { length merged.now ≤ 100000 }
    ensures { IfOk result (λ text. text ≡ merged_text row.now streams.now merged.now) }
{
    let mut text = merge_text(alloc, streams, merged)?;
    let messages = messages_merged(alloc, streams, merged)?;
    text.append(session_text(alloc, row, messages.items())?)?;
    Ok(text)
}

/// The text of so many events, which are drawn, and of what the row has committed then.
fn course_text(
    alloc: Global,
    row: &Subscriber,
    course: &mut Course,
    events: u32,
) -> Result<Octets, OutOfMemory>
    requires row { IsSubscriber row.now }
    requires streams { AreDrawable course.old.world.streams }
    requires before { IsCourse course.old.world.streams course.old.draws.state 0 course.old.world course.old.draws.state course.old.arrivals.items }
    requires events { events ≤ 100000 }
    ensures { IfOk result (λ text. text ≡ course_text row.now course.old.world.streams (course_of course.old.world.streams course.old.draws.state events).turns) }
{
    let mut text = answers_text(alloc, course, events)?;
    let (streams, merged) = (course.world.streams(), course.world.merge());
    text.append(merged_text(alloc, row, streams, merged)?)?;
    Ok(text)
}

/// The text of a device with that row and these messages. Without streams it is empty.
#[tactic(auto, unfolding(crate::specs::Text::epochs_text))]
fn epochs_text(
    alloc: Global,
    row: &Subscriber,
    messages: &[Message],
    number: u32,
    events: u32,
) -> Result<Octets, OutOfMemory>
    requires row { IsSubscriber row.now }
    requires messages { length messages.now ≤ 100000 }
    requires events { events ≤ 100000 }
    ensures { IfOk result (λ text. text ≡ epochs_text row.now messages.now number events) }
{
    let streams = streams_of(alloc, messages)?;
    if streams.is_empty() {
        return Ok(Octets::new(alloc));
    }
    let mut course = Course::new(alloc, streams, number);
    course_text(alloc, row, &mut course, events)
}

/// What events come to that are drawn of the streams of a device, by its number from 1: so many events are drawn from `number`, as
/// `epochs` prints them. There is a line `event I: ` for each with what it comes to, a line `merge STATION INDEX STAMP N` for each
/// message that the row has committed, and the line of the session of the machine that is alone with these messages. The text is empty
/// where the device has no streams, or is no row.
///
/// ```rust
/// let text = device_text(alloc, table.rows(), &admitted.book, 1, 7, 100)?;
/// ```
pub fn device_text(
    alloc: Global,
    rows: &[Subscriber],
    book: &Book,
    device: u32,
    number: u32,
    events: u32,
) -> Result<Octets, OutOfMemory>
    requires device { 1 ≤ device }
    requires rows { All IsSubscriber rows.now }
    requires lines { All (λ messages. length messages ≤ 100000) book.now }
    requires events { events ≤ 100000 }
    ensures { IfOk result (λ text. text ≡ device_text rows.now book.now device number events) }
{
    let index = device as usize - 1;
    let Some(row) = rows.get(index) else {
        return Ok(Octets::new(alloc));
    };
    let Some(messages) = book.items().get(index) else {
        return Ok(Octets::new(alloc));
    };
    epochs_text(alloc, row, messages.items(), number, events)
}
