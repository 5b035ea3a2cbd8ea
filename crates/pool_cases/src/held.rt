//! A held worker finds that another has written.
use crate::devices::{book, table};
use crate::holding::HoldingGate;
use std::alloc::Global;
use std::sync::Wait;
use std::test::Fail;
use std::thread::Threads;
use worker_pool::{Point, run_pool};

/// Takes the book of the four devices to its end under that gate.
fn run_under<R: Threads + Wait + Sync>(
    rt: &R,
    alloc: Global,
    gate: &HoldingGate,
) -> Result<(), Fail> {
    let table = table(alloc)?;
    let book = book(alloc, &table)?;
    run_pool(rt, alloc, &table, &book, 4, gate)?;
    Ok(())
}

#[test]
fn a_held_worker_finds_that_another_has_written(rt: HostRuntime) -> Result<(), Fail> {
    let gate = HoldingGate::new();
    run_under(&rt, rt.alloc(), &gate)?;
    assert_eq!(rt; gate.next(), Some(Point::Stale));
    assert!(rt; !gate.gave_up());
    Ok(())
}
