//! What became of the devices.
ghost use Rattle.std.specs.Prelude.{◌≡◌, ◌+◌, ◌<◌, ◌^◌, ℕ, fold, length, map, IfOk, OnOk};
ghost use Rattle.std.specs.List.{range_with_len};
ghost use Rattle.device_machine.specs.Ends.{finals_of};
ghost use Rattle.device_types.specs.Journal.{session_of};
ghost use Rattle.session_store.specs.Charter.{CharterState, alone_in, follows_alone};
ghost use Rattle.session_store.specs.Law.{IsLawful};
ghost use Rattle.session_store.specs.Rows.{IsDevice};
ghost use Rattle.pool_ends.specs.Ends.{end_in, with_effect, with_entry};

use device_types::{
    DeviceEnd, DeviceId, Downs, Effect, Entry, Finals, GwCalls, Input, Session, SubCalls, TryCopy,
};
use pool_rows::SharedRows;
use std::alloc::{AllocError, Global};

/// Puts a copy of an effect at the end of its lane.
fn put_effect(end: &mut DeviceEnd, effect: &Effect) -> Result<(), AllocError>
    ensures { OnOk result (end.new ≡ with_effect end.old effect.now) }
{
    match effect {
        Effect::Down(down) => end.downs.push(down.copy()?),
        Effect::Gateway(call) => end.gateway.push(call.copy()?),
        Effect::Subscriber(call) => end.subscriber.push(call.copy()?),
    }
}

/// Puts copies of effects at the ends of their lanes, in order.
fn put_effects(end: &mut DeviceEnd, effects: &[Effect]) -> Result<(), AllocError>
    ensures { OnOk result (end.new ≡ fold with_effect end.old effects.now) }
{
    for effect in effects {
        put_effect(end, effect)?;
    }
    Ok(())
}

/// Counts the message of an entry, if it is one of a message, and puts copies of its effects at the ends of their lanes.
fn put_entry(end: &mut DeviceEnd, entry: &Entry) -> Result<(), AllocError>
    requires { end.old.messages + 1 < 2 ^ 64 }
    ensures { OnOk result (end.new ≡ with_entry end.old entry.now) }
{
    match entry.input.get() {
        Input::Message(_) => end.messages += 1,
        Input::Answer { .. } => {}
    }
    put_effects(end, entry.step.effects.items())
}

/// The session behind a journal.
fn session_of(alloc: Global, journal: &[Entry]) -> Result<Session, AllocError>
    ensures { IfOk result (λ session. session ≡ session_of journal.now) }
{
    match journal.last() {
        Some(entry) => entry.step.session.get().copy(),
        None => Ok(Session::opening(alloc)),
    }
}

/// What became of a device by its journal, over which it goes once.
fn end_of(alloc: Global, journal: &[Entry]) -> Result<DeviceEnd, AllocError>
    ensures { IfOk result (λ end. end ≡ end_in journal.now) }
{
    let mut end = DeviceEnd {
        messages: 0,
        steps: journal.len() as u64,
        downs: Downs::new(alloc),
        gateway: GwCalls::new(alloc),
        subscriber: SubCalls::new(alloc),
        session: session_of(alloc, journal)?,
    };
    for entry in journal {
        put_entry(&mut end, entry)?;
    }
    Ok(end)
}

/// What became of each device by its journal in closed rows, device 1 first: where each journal is whole, what the machine alone
/// comes to. Each journal is lawful. It fails for want of memory alone.
pub fn finals<T: SharedRows>(
    alloc: Global,
    closed: &T::Closed,
    devices: u32,
) -> Result<Finals, AllocError>
    requires { (charter : CharterState) × T.closes charter closed.now × (devices ≡ length charter.rows) }
    ensures ends { IfOk result (λ finals. finals ≡ map (λ d. end_in (T.journal closed.now d)) (range_with_len 1 devices)) }
    ensures lawful { OnOk result ((charter : CharterState) (d : ℕ) → T.closes charter closed.now → devices ≡ length charter.rows → IsDevice devices d → IsLawful (follows_alone charter d) (T.journal closed.now d)) }
    ensures whole { IfOk result (λ finals. (charter : CharterState) → length charter.lines ≡ length charter.rows → devices ≡ length charter.rows → ((d : ℕ) → IsDevice devices d → T.journal closed.now d ≡ alone_in charter d) → finals ≡ finals_of charter.rows charter.lines) }
{
    let mut finals = Finals::new(alloc);
    for index in 0..devices {
        let journal = T::journal(closed, DeviceId(index + 1));
        finals.push(end_of(alloc, journal)?)?;
    }
    Ok(finals)
}
