//! The call whose answer a step awaits.
ghost use Rattle.std.specs.Prelude.{◌≡◌};
ghost use Rattle.device_types.specs.Awaited.{lane_of, awaited_lane};
ghost use Rattle.device_types.specs.Journal.{is_awaited};

use device_types::{Effect, Lane, Step, SubCall};

/// The lane of the call whose answer the step awaits; None exactly where it holds no such call. It takes no memory.
pub fn awaited(step: &Step) -> Option<Lane>
    ensures { result ≡ awaited_lane step.now.effects }
{
    let effects = step.effects.items();
    effects
        .iter()
        .find(|effect| is_awaited(effect))
        .map(|effect| lane_of(effect))
}

/// Is the answer to the effect awaited?
fn is_awaited(effect: &Effect) -> bool
    ensures { result ≡ is_awaited effect.now }
{
    match effect {
        Effect::Gateway(_) | Effect::Subscriber(SubCall::Vectors | SubCall::Location) => true,
        Effect::Down(_) | Effect::Subscriber(SubCall::Purge) => false,
    }
}

/// The lane that the effect goes on.
fn lane_of(effect: &Effect) -> Lane
    ensures { result ≡ lane_of effect.now }
{
    match effect {
        Effect::Down(_) => Lane::Down,
        Effect::Gateway(_) => Lane::Gateway,
        Effect::Subscriber(_) => Lane::Subscriber,
    }
}
