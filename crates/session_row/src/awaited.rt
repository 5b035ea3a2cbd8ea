//! The call whose answer is awaited.
ghost use Rattle.std.specs.Prelude.{◌≡◌, ◌+◌, ◌^◌, ◌<◌, length};
ghost use Rattle.device_types.specs.declared.event.Lane.TheVariants as lane;
ghost use Rattle.device_types.specs.Journal.{is_on, effects_on, is_awaited, awaited_on, first_call};
ghost use Rattle.device_types.specs.Look.{same_lane, is_call};

use device_types::{Effect, Lane, SubCall};

/// Are these the same lane?
fn same_lane(one: Lane, other: Lane) -> bool
    ensures { result ≡ same_lane one other }
{
    match (one, other) {
        (Lane::Down, Lane::Down) => true,
        (Lane::Gateway, Lane::Gateway) => true,
        (Lane::Subscriber, Lane::Subscriber) => true,
        _ => false,
    }
}

/// Is this call of the lane the awaited one?
pub(crate) fn is_call(awaited: Option<(Lane, u64)>, lane: Lane, k: u64) -> bool
    ensures { result ≡ is_call awaited lane k }
{
    match awaited {
        Some((of, number)) => same_lane(of, lane) && number == k,
        None => false,
    }
}

/// Is the effect on the lane?
fn is_on(lane: Lane, effect: &Effect) -> bool
    ensures { result ≡ is_on lane effect.now }
{
    match effect {
        Effect::Down(_) => same_lane(lane, Lane::Down),
        Effect::Gateway(_) => same_lane(lane, Lane::Gateway),
        Effect::Subscriber(_) => same_lane(lane, Lane::Subscriber),
    }
}

/// Is the effect a call whose answer is awaited?
fn is_awaited(effect: &Effect) -> bool
    ensures { result ≡ is_awaited effect.now }
{
    match effect {
        Effect::Down(_) => false,
        Effect::Gateway(_) => true,
        Effect::Subscriber(SubCall::Vectors) => true,
        Effect::Subscriber(SubCall::Location) => true,
        Effect::Subscriber(SubCall::Purge) => false,
    }
}

/// The first awaited call of a step on a lane, behind so many effects of the lane.
fn awaited_on(lane: Lane, before: u64, effects: &[Effect]) -> Option<(Lane, u64)>
    requires { before + length (effects_on lane effects.now) < 2 ^ 64 }
    ensures { result ≡ awaited_on lane before effects.now }
{
    let mut k = before;
    for effect in effects {
        if !is_on(lane, effect) {
            continue;
        }
        k += 1;
        if is_awaited(effect) {
            return Some((lane, k));
        }
    }
    None
}

/// The awaited call of a step, behind so many calls of the gateway and of the subscriber server.
pub(crate) fn awaited_behind(
    gateway: u64,
    subscriber: u64,
    effects: &[Effect],
) -> Option<(Lane, u64)>
    requires gateway { gateway + length (effects_on lane.Gateway effects.now) < 2 ^ 64 }
    requires subscriber { subscriber + length (effects_on lane.Subscriber effects.now) < 2 ^ 64 }
    ensures { result ≡ first_call (awaited_on lane.Gateway gateway effects.now) (awaited_on lane.Subscriber subscriber effects.now) }
{
    match awaited_on(Lane::Gateway, gateway, effects) {
        Some(call) => Some(call),
        None => awaited_on(Lane::Subscriber, subscriber, effects),
    }
}
