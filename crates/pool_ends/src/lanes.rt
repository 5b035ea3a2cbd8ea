//! The lanes of the peers, brought whole.
ghost use Rattle.std.specs.Prelude.{◌≡◌, ◌≤◌, ◌<◌, ◌+◌, ◌^◌, ℕ, length, slice_get, IfOk, OnOk, option_copied};
ghost use Rattle.device_types.specs.declared.event.Lane.{Lane};
ghost use Rattle.device_types.specs.Event.{IsCallLane};
ghost use Rattle.device_types.specs.Journal.{effects_of, effects_on, is_on, pushed_count};
ghost use Rattle.session_store.specs.Charter.{alone_in};
ghost use Rattle.session_store.specs.Rows.{IsDevice};
ghost use Rattle.shard_parts.specs.BothPeers.{lane_of};
ghost use Rattle.pool_rows.specs.Seats.{GoesOn, IsCall, KnowsCalls};
ghost use Rattle.pool_ends.specs.Lanes.{HasWhole, told_count};

use device_types::{DeviceId, Effect, Entry, Lane, Offer, Shared, TryCopy};
use pool_rows::{SharedCalls, SharedRows};
use std::alloc::{AllocError, Global};
use std::sync::Wait;

/// Is the effect on the lane?
fn is_on(lane: Lane, effect: &Effect) -> bool
    ensures { result ≡ is_on lane effect.now }
{
    match (lane, effect) {
        (Lane::Down, Effect::Down(_)) => true,
        (Lane::Gateway, Effect::Gateway(_)) => true,
        (Lane::Subscriber, Effect::Subscriber(_)) => true,
        _ => false,
    }
}

/// How many effects of a step are on the lane.
fn count_on(effects: &[Effect], lane: Lane) -> u64
    ensures { result ≡ length (effects_on lane effects.now) }
{
    effects.iter().filter(|effect| is_on(lane, effect)).count() as u64
}

/// How many effects of a lane a journal has.
fn count_of(journal: &[Entry], lane: Lane) -> u64
    requires { pushed_count lane journal.now < 2 ^ 64 }
    ensures { result ≡ pushed_count lane journal.now }
{
    let mut count = 0;
    for entry in journal {
        count += count_on(entry.step.effects.items(), lane);
    }
    count
}

/// The effect of a step at that place on the lane, from 0.
fn effect_on(effects: &[Effect], lane: Lane, at: u64) -> Option<&Effect>
    ensures { option_copied result ≡ slice_get (effects_on lane effects.now) at }
{
    let mut left = at;
    for effect in effects {
        if !is_on(lane, effect) {
            continue;
        }
        if left == 0 {
            return Some(effect);
        }
        left -= 1;
    }
    None
}

/// The effect of a journal at that place on the lane, from 0.
fn effect_of(journal: &[Entry], lane: Lane, at: u64) -> Option<&Effect>
    ensures { option_copied result ≡ slice_get (effects_of lane journal.now) at }
{
    let mut left = at;
    for entry in journal {
        let effects = entry.step.effects.items();
        let count = count_on(effects, lane);
        if left < count {
            return effect_on(effects, lane, left);
        }
        left -= count;
    }
    None
}

/// How many calls were accepted at least, where that was said to call `k`.
fn told_count(k: u64, offer: Offer) -> u64
    ensures { result ≡ told_count k offer }
{
    match offer {
        Offer::Accepted(_) => k,
        Offer::Repeat(_) => k,
        Offer::Ahead(last) => last,
    }
}

/// Offers a call, and says how many of its lane were accepted at least. Where all before it were, it is.
fn offer_call<P: SharedCalls, R: Wait>(
    rt: &R,
    peers: &P,
    seat: &mut P::Seat,
    d: DeviceId,
    k: u64,
    call: Shared<Effect>,
) -> Result<u64, AllocError>
    requires call { IsCall (P.charter peers.now) d.0 k call }
    requires seat { P.is_seat peers.now seat.old }
    ensures seat { GoesOn (P.is_seat peers.now) P.speaks (KnowsCalls P.known) seat.old seat.new }
    ensures count { IfOk result (λ count. count ≤ length (P.known seat.new d.0 (lane_of call))) }
    ensures next { OnOk result (k ≤ length (P.known seat.old d.0 (lane_of call)) + 1 → k ≤ length (P.known seat.new d.0 (lane_of call))) }
{
    let offer = peers.offer(rt, seat, d, k, call)?;
    Ok(told_count(k, offer))
}

/// Offers call `k` of a lane, and says how many of the lane were accepted at least. Where all before it were, it is.
fn bring_call<P: SharedCalls, R: Wait>(
    rt: &R,
    alloc: Global,
    peers: &P,
    seat: &mut P::Seat,
    d: DeviceId,
    lane: Lane,
    journal: &[Entry],
    k: u64,
) -> Result<u64, AllocError>
    requires device { IsDevice (length (P.charter peers.now).rows) d.0 }
    requires lane { IsCallLane lane }
    requires journal { journal.now ≡ alone_in (P.charter peers.now) d.0 }
    requires within { (1 ≤ k) × (k ≤ pushed_count lane journal.now) }
    requires seat { P.is_seat peers.now seat.old }
    ensures seat { GoesOn (P.is_seat peers.now) P.speaks (KnowsCalls P.known) seat.old seat.new }
    ensures count { IfOk result (λ count. count ≤ length (P.known seat.new d.0 lane)) }
    ensures next { OnOk result (k ≤ length (P.known seat.old d.0 lane) + 1 → k ≤ length (P.known seat.new d.0 lane)) }
{
    let Some(effect) = effect_of(journal, lane, k - 1) else {
        unreachable!();
    };
    let call = Shared::new(alloc, effect.copy()?)?;
    offer_call(rt, peers, seat, d, k, call)
}

/// Brings a lane of a device to its peer, of which the whole journal is given: the last call first, and where calls before it have
/// not come those.
fn bring_lane<P: SharedCalls, R: Wait>(
    rt: &R,
    alloc: Global,
    peers: &P,
    seat: &mut P::Seat,
    d: DeviceId,
    lane: Lane,
    journal: &[Entry],
) -> Result<(), AllocError>
    requires device { IsDevice (length (P.charter peers.now).rows) d.0 }
    requires lane { IsCallLane lane }
    requires journal { journal.now ≡ alone_in (P.charter peers.now) d.0 }
    requires seat { P.is_seat peers.now seat.old }
    ensures seat { GoesOn (P.is_seat peers.now) P.speaks (KnowsCalls P.known) seat.old seat.new }
    ensures whole { OnOk result (HasWhole (P.charter peers.now) d.0 lane (P.known seat.new d.0 lane)) }
{
    // The lines of a charter are short, so that a u64 counts the effects of a lane.
    peers.charter();
    let count = count_of(journal, lane);
    if count == 0 {
        return Ok(());
    }
    let had = bring_call(rt, alloc, peers, seat, d, lane, journal, count)?;
    for k in had..count {
        bring_call(rt, alloc, peers, seat, d, lane, journal, k + 1)?;
    }
    Ok(())
}

/// Brings both lanes of a device, whose whole journal is given.
fn bring_device<P: SharedCalls, R: Wait>(
    rt: &R,
    alloc: Global,
    peers: &P,
    seat: &mut P::Seat,
    d: DeviceId,
    journal: &[Entry],
) -> Result<(), AllocError>
    requires device { IsDevice (length (P.charter peers.now).rows) d.0 }
    requires journal { journal.now ≡ alone_in (P.charter peers.now) d.0 }
    requires seat { P.is_seat peers.now seat.old }
    ensures seat { GoesOn (P.is_seat peers.now) P.speaks (KnowsCalls P.known) seat.old seat.new }
    ensures whole { OnOk result ((l : Lane) → IsCallLane l → HasWhole (P.charter peers.now) d.0 l (P.known seat.new d.0 l)) }
{
    bring_lane(rt, alloc, peers, seat, d, Lane::Gateway, journal)?;
    bring_lane(rt, alloc, peers, seat, d, Lane::Subscriber, journal)
}

/// Brings both lanes of each device of closed rows, whose journals are whole, so that the seat knows each to be accepted as a
/// whole. It fails for want of memory alone.
pub fn bring_lanes<T: SharedRows, P: SharedCalls, R: Wait>(
    rt: &R,
    alloc: Global,
    peers: &P,
    seat: &mut P::Seat,
    devices: u32,
    closed: &T::Closed,
) -> Result<(), AllocError>
    requires devices { devices ≡ length (P.charter peers.now).rows }
    requires closed { T.closes (P.charter peers.now) closed.now }
    requires journals { (d : ℕ) → IsDevice devices d → T.journal closed.now d ≡ alone_in (P.charter peers.now) d }
    requires seat { P.is_seat peers.now seat.old }
    ensures seat { GoesOn (P.is_seat peers.now) P.speaks (KnowsCalls P.known) seat.old seat.new }
    ensures whole { OnOk result ((d : ℕ) (l : Lane) → IsDevice devices d → IsCallLane l → HasWhole (P.charter peers.now) d l (P.known seat.new d l)) }
{
    for index in 0..devices {
        let d = DeviceId(index + 1);
        bring_device(rt, alloc, peers, seat, d, T::journal(closed, d))?;
    }
    Ok(())
}
