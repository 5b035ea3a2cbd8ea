//! The events of a case text, made to happen in a world, and what they are to come to.
ghost use Rattle.std.specs.Prelude.{◌≡◌, ◌≤◌, true, length};
ghost use Rattle.device_types.specs.Numbers.{IsWithin};
ghost use Rattle.schedule_laws.specs.Answer.{IsEvent};

use device_types::{DeviceId, Event, Lane};
use link_schedule::World;
use std::alloc::Global;
use std::test::Fail;

fn is_replica(r: u32) -> bool
    ensures { result ≡ true → IsWithin 16 r }
{
    r >= 1 && r <= 16
}

fn is_device(world: &World, d: DeviceId) -> bool
    ensures { result ≡ true → IsWithin (length world.now.setting.rows) d.0 }
{
    d.0 >= 1 && d.0 <= world.device_count()
}

/// Is it a device, and a number from 1?
fn is_item(world: &World, d: DeviceId, n: u64) -> bool
    ensures { result ≡ true → IsWithin (length world.now.setting.rows) d.0 × (1 ≤ n) }
{
    n >= 1 && is_device(world, d)
}

/// May the event happen in the world?
pub(crate) fn may_happen(world: &World, event: Event) -> bool
    ensures { result ≡ true → IsEvent world.now.setting event }
{
    match event {
        Event::Send { d, n } | Event::Reply { d, n } => is_item(world, d, n),
        Event::Take { r, d, n } => is_replica(r) && is_item(world, d, n),
        Event::Answer {
            lane: Lane::Down,
            ..
        } => false,
        Event::Answer { r, d, k, .. } => is_replica(r) && is_item(world, d, k),
        Event::Read { r } | Event::Write { r } | Event::Stop { r } => is_replica(r),
        Event::Push { d, k, .. } | Event::Effect { d, k, .. } | Event::Settle { d, k, .. } => {
            is_item(world, d, k)
        }
    }
}

/// What the event comes to, put behind the text.
fn happen(world: &mut World, told: &mut String, event: Event) -> Result<(), Fail> {
    if !may_happen(world, event) {
        return Err(Fail::from("not an event of the world"));
    }
    let answer = world.apply(event)?;
    writeln!(told, "{answer:?}")?;
    Ok(())
}

/// What the events come to, a line each, put behind the text.
pub(crate) fn happen_all(
    world: &mut World,
    told: &mut String,
    events: &[Event],
) -> Result<(), Fail> {
    for event in events {
        happen(world, told, *event)?;
    }
    Ok(())
}

/// The case text of these rows, and of the events of these lines, each an event, ` = ` and what it is to come to.
pub(crate) fn case_text(alloc: Global, rows: &str, lines: &str) -> Result<String, Fail> {
    let mut text = format!(in alloc; "[subscribers]\n{rows}[schedule]\n")?;
    for line in lines.lines() {
        let (event, _) = line.split_once(" = ").ok_or("no answer")?;
        writeln!(text, "{event}")?;
    }
    Ok(text)
}

/// What these lines say that the events come to, put behind the text.
pub(crate) fn put_wanted(text: &mut String, lines: &str) -> Result<(), Fail> {
    for line in lines.lines() {
        let (_, answer) = line.split_once(" = ").ok_or("no answer")?;
        writeln!(text, "{answer}")?;
    }
    Ok(())
}
