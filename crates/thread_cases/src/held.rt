//! A gate that holds a worker until another has written.

use crate::runs::{ATTACH, ATTACHED, tell_run};
use pool_cases::HoldingGate;
use std::test::Fail;
use worker_pool::Point;

#[test]
fn a_held_worker_is_stale_and_the_text_the_same(rt: HostRuntime) -> Result<(), Fail> {
    let alloc = rt.alloc();
    let gate = HoldingGate::new();
    let mut told = String::new(alloc);
    tell_run(
        &rt,
        &mut told,
        alloc,
        &gate,
        "run --workers=2",
        ATTACH.as_bytes(),
        &[],
        &[],
    )?;
    let (next, gave_up) = (gate.next(), gate.gave_up());
    write!(told, "{next:?} {gave_up}")?;
    let next = Some(Point::Stale);
    let wanted = format!(in alloc;
        "{ATTACHED}16 shards of the store, 16 of the peers\n{next:?} false"
    )?;
    assert_eq!(rt; told.as_str(), wanted.as_str());
    Ok(())
}
