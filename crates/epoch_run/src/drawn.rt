//! Events that are drawn.

ghost use Rattle.std.specs.Prelude.{◌≡◌, ◌≤◌, length};
ghost use Rattle.epoch_agents.specs.World.{turns_in};
ghost use Rattle.epoch_run.specs.Drawn.{arrival_of, send_drawn, arrival_drawn, learn_drawn, event_drawn};
ghost use Rattle.epoch_run.specs.State.{AreDrawable};

use epoch_agents::{EpochAnswer, EpochEvent, EpochWorld, Stream};
use trace_gen::Draws;

/// What a turn puts on the link, which was the last one of a world: the arrival of the message that was sent.
pub(crate) fn arrival_of(
    world: &EpochWorld,
    event: EpochEvent,
    answer: EpochAnswer,
) -> Option<EpochEvent>
    ensures { result ≡ arrival_of (turns_in world.now) (event, answer) }
{
    let EpochEvent::Send { a, n } = event else {
        return None;
    };
    let EpochAnswer::Sent = answer else {
        return None;
    };
    let stamp = world.stamp(a);
    Some(EpochEvent::Arrive { a, stamp, n })
}

/// Draws a stream, and then one of its messages to be sent.
fn draw_send(draws: &mut Draws, streams: &[Stream]) -> EpochEvent
    requires { AreDrawable streams.now }
    ensures event { result ≡ (send_drawn streams.now draws.old.state).event }
    ensures state { draws.new.state ≡ (send_drawn streams.now draws.old.state).state }
{
    let index = draws.draw(streams.len() as u64);
    let n = draws.draw(streams[index as usize].line.len()) + 1;
    EpochEvent::Send {
        a: index as u32 + 1,
        n,
    }
}

/// Draws one of the arrivals. Where there is none it draws nothing.
fn draw_arrival(draws: &mut Draws, arrivals: &[EpochEvent]) -> EpochEvent
    ensures event { result ≡ (arrival_drawn arrivals.now draws.old.state).event }
    ensures state { draws.new.state ≡ (arrival_drawn arrivals.now draws.old.state).state }
{
    if arrivals.is_empty() {
        return EpochEvent::Arrive {
            a: 1,
            stamp: 1,
            n: 1,
        };
    }
    let index = draws.draw(arrivals.len() as u64);
    arrivals[index as usize]
}

/// Draws one of the events from 1 to `i`, whose answer is learnt.
fn draw_learn(draws: &mut Draws, i: u64) -> EpochEvent
    requires { 1 ≤ i }
    ensures event { result ≡ (learn_drawn i draws.old.state).event }
    ensures state { draws.new.state ≡ (learn_drawn i draws.old.state).state }
{
    EpochEvent::Learn {
        i: draws.draw(i) + 1,
    }
}

/// Draws event `i` of these streams, from 1, where these may arrive.
#[tactic(auto, unfolding(crate::specs::Drawn::event_drawn))]
pub(crate) fn draw_event(
    draws: &mut Draws,
    streams: &[Stream],
    arrivals: &[EpochEvent],
    i: u64,
) -> EpochEvent
    requires streams { AreDrawable streams.now }
    requires number { 1 ≤ i }
    ensures event { result ≡ (event_drawn streams.now arrivals.now i draws.old.state).event }
    ensures state { draws.new.state ≡ (event_drawn streams.now arrivals.now i draws.old.state).state }
{
    match draws.draw(3) {
        0 => draw_send(draws, streams),
        1 => draw_arrival(draws, arrivals),
        _ => draw_learn(draws, i),
    }
}
