//! The row: what it says to a message that arrives, by what it has committed alone.
ghost use Rattle.std.specs.Prelude.{◌≡◌, length, IfSome};
ghost use Rattle.device_types.specs.Numbers.{IsWithin};
ghost use Rattle.epoch_agents.specs.Row.{current, is_current, is_below_current, current_stamp, row_says};
ghost use Rattle.epoch_agents.specs.Streams.{name_of};

use crate::event::EpochAnswer;
use crate::stream::{Merged, Stream};

/// A name: its stamp, and the station and the index of its stream. Names are ordered by these.
type Name = (u64, u16, u32);

/// The name of a stream under a stamp.
fn name_of(streams: &[Stream], a: u32, stamp: u64) -> Name
    requires { IsWithin (length streams.now) a }
    ensures { result ≡ name_of streams.now a stamp }
{
    let stream = &streams[a as usize - 1];
    (stamp, stream.station, stream.index)
}

/// Is it the name of the last entry?
fn is_current(last: Option<Merged>, a: u32, stamp: u64) -> bool
    ensures { result ≡ is_current last a stamp }
{
    match last {
        Some(last) => a == last.a && stamp == last.stamp,
        None => false,
    }
}

/// Is it below the name of the last entry?
fn is_below_current(streams: &[Stream], last: Option<Merged>, a: u32, stamp: u64) -> bool
    requires stream { IsWithin (length streams.now) a }
    requires last { IfSome last (λ last. IsWithin (length streams.now) last.a) }
    ensures { result ≡ is_below_current streams.now last a stamp }
{
    match last {
        Some(last) => name_of(streams, a, stamp) < name_of(streams, last.a, last.stamp),
        None => false,
    }
}

/// The stamp of the last entry's name, or 0 where there is none.
fn current_stamp(last: Option<Merged>) -> u64
    ensures { result ≡ current_stamp last }
{
    match last {
        Some(last) => last.stamp,
        None => 0,
    }
}

/// What the row says to message `n` of a stream under a stamp, where so many messages of that name are committed.
pub(crate) fn row_answer(
    streams: &[Stream],
    merged: &[Merged],
    taken: u64,
    a: u32,
    stamp: u64,
    n: u64,
) -> EpochAnswer
    requires stream { IsWithin (length streams.now) a }
    requires last { IfSome (current merged.now) (λ last. IsWithin (length streams.now) last.a) }
    ensures { result ≡ row_says streams.now (current merged.now) (length merged.now) taken a stamp n }
{
    let last = merged.last().copied();
    if n <= taken {
        return EpochAnswer::Repeat(n);
    }
    if taken > 0 && !is_current(last, a, stamp) {
        return EpochAnswer::OverAt(taken);
    }
    if taken == 0 && is_below_current(streams, last, a, stamp) {
        return EpochAnswer::Low(current_stamp(last));
    }
    if n - taken == 1 {
        return EpochAnswer::Committed(merged.len() as u64 + 1);
    }
    EpochAnswer::Ahead(taken)
}
