//! The lines of a schedule.

ghost use Rattle.std.specs.Prelude.{◌≡◌};
ghost use Rattle.echo_base.specs.Reading.{GivesSome};
ghost use Rattle.case_form.specs.Event.{verb_of, lane_of, verb_at, lane_at, call_lane_at, device_at, count_at, message_at, effect_at, event_at, event_of};

use crate::words::Words;
use device_types::{DeviceId, Event, Lane};

/// The highest number of a replica.
const MOST_REPLICAS: u32 = 16;

/// What an event does, by the word that it begins with.
#[derive(Clone, Copy)]
enum Verb {
    /// `send D N`.
    Send,
    /// `take R D N`.
    Take,
    /// `answer R D L K`.
    Answer,
    /// `read R`.
    Read,
    /// `write R`.
    Write,
    /// `stop R`.
    Stop,
    /// `reply D N`.
    Reply,
    /// `push D L K`.
    Push,
    /// `effect D L K`.
    Effect,
    /// `settle D L K`.
    Settle,
}

/// The verb that a word is.
#[tactic(auto, unfolding(crate::specs::Event::verb_of))]
fn verb_of(word: &[u8]) -> Option<Verb>
    ensures { result ≡ verb_of word.now }
{
    match word {
        b"send" => Some(Verb::Send),
        b"take" => Some(Verb::Take),
        b"answer" => Some(Verb::Answer),
        b"read" => Some(Verb::Read),
        b"write" => Some(Verb::Write),
        b"stop" => Some(Verb::Stop),
        b"reply" => Some(Verb::Reply),
        b"push" => Some(Verb::Push),
        b"effect" => Some(Verb::Effect),
        b"settle" => Some(Verb::Settle),
        _ => None,
    }
}

/// The lane that a word names.
#[tactic(auto, unfolding(crate::specs::Event::lane_of))]
fn lane_of(word: &[u8]) -> Option<Lane>
    ensures { result ≡ lane_of word.now }
{
    match word {
        b"down" => Some(Lane::Down),
        b"gateway" => Some(Lane::Gateway),
        b"subscriber" => Some(Lane::Subscriber),
        _ => None,
    }
}

/// Reads a lane.
#[tactic(auto, unfolding(crate::specs::Event::lane_at))]
fn read_lane(words: &mut Words) -> Option<Lane>
    ensures { GivesSome result words.new (lane_at words.old) }
{
    lane_of(words.word()?)
}

/// Reads a lane of calls.
#[tactic(auto, unfolding(crate::specs::Event::call_lane_at))]
fn read_call_lane(words: &mut Words) -> Option<Lane>
    ensures { GivesSome result words.new (call_lane_at words.old) }
{
    match read_lane(words)? {
        Lane::Down => None,
        Lane::Gateway => Some(Lane::Gateway),
        Lane::Subscriber => Some(Lane::Subscriber),
    }
}

/// Reads the device of one of so many rows.
#[tactic(auto, unfolding(crate::specs::Event::device_at))]
fn read_device(words: &mut Words, rows: u32) -> Option<DeviceId>
    ensures { GivesSome result words.new (device_at rows words.old) }
{
    Some(DeviceId(words.number(rows)?))
}

/// Reads the number of a message or an effect.
fn read_count(words: &mut Words) -> Option<u64>
    ensures { GivesSome result words.new (count_at words.old) }
{
    Some(u64::from(words.number(u32::MAX)?))
}

/// Reads a message of a device.
#[tactic(auto, unfolding(crate::specs::Event::message_at))]
fn read_message(words: &mut Words, rows: u32) -> Option<(DeviceId, u64)>
    ensures { GivesSome result words.new (message_at rows words.old) }
{
    let d = read_device(words, rows)?;
    let n = read_count(words)?;
    Some((d, n))
}

/// Reads an effect on a lane of a device.
#[tactic(auto, unfolding(crate::specs::Event::effect_at))]
fn read_effect(words: &mut Words, rows: u32) -> Option<(DeviceId, Lane, u64)>
    ensures { GivesSome result words.new (effect_at rows words.old) }
{
    let d = read_device(words, rows)?;
    let lane = read_lane(words)?;
    let k = read_count(words)?;
    Some((d, lane, k))
}

/// Reads what a verb is of, where there are so many rows.
#[tactic(auto, unfolding(crate::specs::Event::event_at))]
fn read_rest(words: &mut Words, verb: Verb, rows: u32) -> Option<Event>
    ensures { GivesSome result words.new (event_at rows verb words.old) }
{
    match verb {
        Verb::Send => read_message(words, rows).map(|(d, n)| Event::Send { d, n }),
        Verb::Take => {
            let r = words.number(MOST_REPLICAS)?;
            read_message(words, rows).map(|(d, n)| Event::Take { r, d, n })
        }
        Verb::Answer => {
            let r = words.number(MOST_REPLICAS)?;
            let d = read_device(words, rows)?;
            let lane = read_call_lane(words)?;
            let k = read_count(words)?;
            Some(Event::Answer { r, d, lane, k })
        }
        Verb::Read => words.number(MOST_REPLICAS).map(|r| Event::Read { r }),
        Verb::Write => words.number(MOST_REPLICAS).map(|r| Event::Write { r }),
        Verb::Stop => words.number(MOST_REPLICAS).map(|r| Event::Stop { r }),
        Verb::Reply => read_message(words, rows).map(|(d, n)| Event::Reply { d, n }),
        Verb::Push => read_effect(words, rows).map(|(d, lane, k)| Event::Push { d, lane, k }),
        Verb::Effect => read_effect(words, rows).map(|(d, lane, k)| Event::Effect { d, lane, k }),
        Verb::Settle => read_effect(words, rows).map(|(d, lane, k)| Event::Settle { d, lane, k }),
    }
}

/// The event that a line is, where there are so many rows.
#[tactic(auto, unfolding(crate::specs::Event::verb_at, crate::specs::Event::event_of))]
pub(crate) fn read_event(line: &[u8], rows: u32) -> Option<Event>
    ensures { result ≡ event_of rows line.now }
{
    let mut words = Words::new(line);
    let verb = verb_of(words.word()?)?;
    let event = read_rest(&mut words, verb, rows)?;
    if !words.is_at_end() {
        return None;
    }
    Some(event)
}
