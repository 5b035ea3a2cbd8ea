//! Three lanes from their first effect to their last.

use crate::words::three_words;
use device_types::{CauseCode, Down, Effect, Effects, GwCall, Lane, SubCall};
use effect_outbox::Outbox;
use std::alloc::{AllocError, Global};
use std::test::Fail;

/// What is asked of a lane, a number, and what comes: of an effect its mark, and 0 for none.
const STEPS: &str = "\
at down 0 0
at down 1 1
at down 2 2
at down 3 0
at gateway 1 10
at gateway 2 0
at subscriber 1 20
settle down 0 Old(0)
settle down 1 Upto(1)
at down 1 0
at down 2 2
settle down 1 Old(1)
settle down 2 Upto(2)
settle down 1 Old(2)
at down 2 0
settle gateway 1 Upto(1)
at gateway 1 0
at subscriber 1 20
";

fn release(mark: u32) -> Effect {
    Effect::Down(Down::Release {
        station: 1,
        enb: mark,
        cause: CauseCode {
            group: 0,
            extended: false,
            index: 0,
        },
    })
}

fn mark_of(effect: Option<&Effect>) -> u32 {
    match effect {
        None => 0,
        Some(Effect::Down(Down::Release { enb, .. })) => *enb,
        Some(Effect::Down(_)) => 9,
        Some(Effect::Gateway(_)) => 10,
        Some(Effect::Subscriber(_)) => 20,
    }
}

fn lane_of(text: &str) -> Lane {
    match text {
        "down" => Lane::Down,
        "gateway" => Lane::Gateway,
        _ => Lane::Subscriber,
    }
}

fn push(alloc: Global, outbox: &mut Outbox, effects: [Effect; 2]) -> Result<(), Fail> {
    let effects = Effects::from(Vec::from_array(alloc, effects)?);
    match outbox.push(effects) {
        Ok(()) => Ok(()),
        Err(_) => Err(Fail::from("no memory")),
    }
}

/// Does what a step says, and writes the step again with what came.
fn tell_step(
    outbox: &mut Outbox,
    what: &str,
    lane: &str,
    k: u64,
    told: &mut String,
) -> Result<(), AllocError> {
    let of = lane_of(lane);
    if what == "at" {
        let mark = mark_of(outbox.at(of, k));
        return writeln!(told, "at {lane} {k} {mark}");
    }
    if k > outbox.pushed(of) {
        return writeln!(told, "settle {lane} {k} none");
    }
    let settled = outbox.settle(of, k);
    writeln!(told, "settle {lane} {k} {settled:?}")
}

fn tell_steps(outbox: &mut Outbox, told: &mut String) -> Result<(), Fail> {
    for step in STEPS.lines() {
        let (what, lane, k) = three_words(step).ok_or("no step")?;
        tell_step(outbox, what, lane, k.parse::<u64>()?, told)?;
    }
    Ok(())
}

#[test]
fn settles_what_was_pushed(rt: HostRuntime) -> Result<(), Fail> {
    let alloc = rt.alloc();
    let mut outbox = Outbox::new(alloc);
    let vectors = Effect::Subscriber(SubCall::Vectors);
    push(
        alloc,
        &mut outbox,
        [release(1), Effect::Gateway(GwCall::Create)],
    )?;
    push(alloc, &mut outbox, [vectors, release(2)])?;
    let mut told = String::new(alloc);
    tell_steps(&mut outbox, &mut told)?;
    assert_eq!(rt; told.as_str(), STEPS);
    Ok(())
}
