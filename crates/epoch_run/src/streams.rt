//! The streams of a device.

ghost use Rattle.std.specs.Prelude.{◌≡◌, ◌≤◌, ◌<◌, ◌+◌, ◌∷◌, [], length, Some, IfOk, OnOk};
ghost use Rattle.std.specs.BTreeMap.{Updates};
ghost use Rattle.std.specs.Ordering.{nat_cmp};
ghost use Rattle.epoch_agents.specs.Kept.{value_or};
ghost use Rattle.epoch_run.specs.State.{AreCounts};
ghost use Rattle.epoch_run.specs.Streams.{begins, is_notice, and_message, numbered, onward, behind, stream_from, and_stream, streams_of};

use agent_order::Line;
use device_types::{Body, Message, Messages, TryCopy};
use echo_base::OutOfMemory;
use epoch_agents::Stream;
use std::alloc::Global;
use std::collections::BTreeMap;
use std::sync::Arc;

/// Does a message begin a stream? So does what an INITIAL UE MESSAGE carries, and a notice.
fn begins(message: &Message) -> bool
    ensures { result ≡ begins message.now }
{
    match &message.body {
        Body::Attach { .. } | Body::Service | Body::Data => true,
        Body::Area { first, .. } | Body::Detach { first, .. } => *first,
        Body::Response { .. }
        | Body::Secured
        | Body::SecurityRefused
        | Body::AttachDone
        | Body::ContextDone { .. }
        | Body::ContextFailed
        | Body::ReleaseAsked { .. }
        | Body::Released
        | Body::Capability { .. }
        | Body::PdnRequest { .. }
        | Body::PdnAccept
        | Body::SecondDone { .. }
        | Body::SecondRefused => false,
    }
}

/// Is a message a notice of the gateway? It is a stream of its own, and ends no other.
fn is_notice(message: &Message) -> bool
    ensures { result ≡ is_notice message.now }
{
    matches!(message.body, Body::Data)
}

/// Puts a message behind others, with the next number.
pub(crate) fn put_message(messages: &mut Messages, message: &Message) -> Result<(), OutOfMemory>
    ensures { OnOk result (messages.new ≡ and_message messages.old message.now) }
{
    let number = messages.items().len() as u64 + 1;
    let mut message = message.copy()?;
    message.number = number;
    messages.push(message)
}

/// The messages of a stream that a message of a base station begins: that one, and those behind it up to the next one that begins
/// such a stream, without notices.
fn onward_messages(
    alloc: Global,
    first: &Message,
    others: &[Message],
) -> Result<Messages, OutOfMemory>
    ensures { IfOk result (λ messages. messages ≡ numbered (first.now ∷ onward others.now)) }
{
    let mut messages = Messages::new(alloc);
    put_message(&mut messages, first)?;
    for message in others {
        if is_notice(message) {
            continue;
        }
        if begins(message) {
            return Ok(messages);
        }
        put_message(&mut messages, message)?;
    }
    Ok(messages)
}

/// The messages of a stream that a message begins: a notice is one alone.
fn stream_messages(
    alloc: Global,
    first: &Message,
    others: &[Message],
) -> Result<Messages, OutOfMemory>
    ensures { IfOk result (λ messages. messages ≡ numbered (first.now ∷ behind first.now others.now)) }
{
    if is_notice(first) {
        return onward_messages(alloc, first, &[]);
    }
    onward_messages(alloc, first, others)
}

/// The stream of that index that a message begins, with the messages behind it that belong to it.
fn stream_from(
    alloc: Global,
    index: u32,
    first: &Message,
    others: &[Message],
) -> Result<Stream, OutOfMemory>
    ensures { IfOk result (λ stream. stream ≡ stream_from index first.now others.now) }
{
    let messages = Arc::new(alloc, stream_messages(alloc, first, others)?)?;
    Ok(Stream {
        station: first.station,
        index,
        line: Line::new(messages),
    })
}

/// The index of the next stream of a station, which is counted.
fn next_index(counts: &mut BTreeMap<u16, u32>, station: u16) -> Result<u32, OutOfMemory>
    requires { value_or counts.old station 0 ≤ 100000 }
    ensures index { IfOk result (λ index. index ≡ value_or counts.old station 0 + 1) }
    ensures counts { IfOk result (λ index. Updates nat_cmp counts.old counts.new station (Some index)) }
{
    let index = counts.get(&station).copied().unwrap_or(0) + 1;
    counts.insert(station, index)?;
    Ok(index)
}

/// Puts the stream that a message begins behind others, of which each station has so many, where it begins one.
fn put_stream(
    alloc: Global,
    streams: &mut Vec<Stream>,
    counts: &mut BTreeMap<u16, u32>,
    first: &Message,
    others: &[Message],
) -> Result<(), OutOfMemory>
    requires counts { AreCounts streams.old.items counts.old }
    requires few { length streams.old.items ≤ 100000 }
    ensures counts { OnOk result (AreCounts streams.new.items counts.new) }
    ensures streams { OnOk result (streams.new.items ≡ and_stream streams.old.items first.now others.now) }
    ensures few { OnOk result (length streams.new.items ≤ length streams.old.items + 1) }
{
    if !begins(first) {
        return Ok(());
    }
    let index = next_index(counts, first.station)?;
    streams.push(stream_from(alloc, index, first, others)?)?;
    Ok(())
}

/// The streams of a device with these messages, in the order of their first ones: an INITIAL UE MESSAGE begins a stream of its base
/// station, and the messages behind it belong to that stream, up to the next one. A notice is a stream of its own, of the station 0.
#[tactic(auto, unfolding(crate::specs::Streams::streams_of))]
pub fn streams_of(alloc: Global, messages: &[Message]) -> Result<Vec<Stream>, OutOfMemory>
    requires { length messages.now ≤ 100000 }
    ensures { IfOk result (λ streams. streams.items ≡ streams_of messages.now) }
{
    let mut streams = Vec::new(alloc);
    let mut counts = BTreeMap::new(alloc);
    for (index, message) in messages.iter().enumerate() {
        let others = &messages[index + 1..];
        put_stream(alloc, &mut streams, &mut counts, message, others)?;
    }
    Ok(streams)
}
