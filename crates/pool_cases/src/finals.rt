//! What runs of the pool come to.
ghost use Rattle.std.specs.Prelude.{◌≡◌, ◌≤◌, length, All};
ghost use Rattle.session_store.specs.Charter.{IsShort};

use crate::devices::{book, table};
use device_types::{Book, DeviceEnd};
use std::alloc::{AllocError, Global};
use std::sync::Wait;
use std::test::Fail;
use std::thread::Threads;
use subs_table::SubsTable;
use worker_pool::{OpenGate, run_pool};

/// The first attaches as far as its base station sets up its context: the vectors, the subscription and the session are asked
/// for, and each answer is a step. The second is refused after its wrong response, the third at once; both are let go.
const FINALS: &str = "\
3 messages, 6 steps, 3 downs, [Create] [Vectors, Location] Accepting
2 messages, 3 steps, 3 downs, [] [Vectors] Releasing
1 messages, 1 steps, 2 downs, [] [] Releasing
0 messages, 0 steps, 0 downs, [] [] Detached
";

fn tell_end(end: &DeviceEnd, told: &mut String) -> Result<(), AllocError> {
    let (messages, steps, downs) = (end.messages, end.steps, end.downs.items().len());
    let (gateway, subscriber) = (end.gateway.items(), end.subscriber.items());
    let stage = end.session.stage;
    writeln!(
        told,
        "{messages} messages, {steps} steps, {downs} downs, {gateway:?} {subscriber:?} {stage:?}"
    )
}

fn tell_ends(ends: &[DeviceEnd], told: &mut String) -> Result<(), AllocError> {
    for end in ends {
        tell_end(end, told)?;
    }
    Ok(())
}

/// Runs the pool with so many workers, and tells the finals.
fn tell_run<R: Threads + Wait + Sync>(
    rt: &R,
    alloc: Global,
    workers: u32,
    table: &SubsTable,
    book: &Book,
    told: &mut String,
) -> Result<(), AllocError>
    requires workers { (1 ≤ workers) × (workers ≤ 16) }
    requires lines { length book.now ≡ length table.now }
    requires short { All IsShort book.now }
{
    let ran = run_pool(rt, alloc, table, book, workers, &OpenGate)?;
    tell_ends(ran.finals.items(), told)
}

/// The finals of runs with 1, 2, 4 and 16 workers.
pub(crate) fn tell_runs<R: Threads + Wait + Sync>(
    rt: &R,
    alloc: Global,
    table: &SubsTable,
    book: &Book,
    told: &mut String,
) -> Result<(), AllocError>
    requires lines { length book.now ≡ length table.now }
    requires short { All IsShort book.now }
{
    tell_run(rt, alloc, 1, table, book, told)?;
    tell_run(rt, alloc, 2, table, book, told)?;
    tell_run(rt, alloc, 4, table, book, told)?;
    tell_run(rt, alloc, 16, table, book, told)
}

/// The finals of the four devices, by each number of workers.
fn tell_finals<R: Threads + Wait + Sync>(
    rt: &R,
    alloc: Global,
    told: &mut String,
) -> Result<(), Fail> {
    let table = table(alloc)?;
    let book = book(alloc, &table)?;
    tell_runs(rt, alloc, &table, &book, told)?;
    Ok(())
}

#[test]
fn finals_are_those_of_one_machine(rt: HostRuntime) -> Result<(), Fail> {
    let alloc = rt.alloc();
    let mut told = String::new(alloc);
    tell_finals(&rt, alloc, &mut told)?;
    let wanted = format!(in alloc; "{FINALS}{FINALS}{FINALS}{FINALS}")?;
    assert_eq!(rt; told.as_str(), wanted.as_str());
    Ok(())
}

/// How many finals and shards there are of a table of no rows.
fn empty_counts<R: Threads + Wait + Sync>(
    rt: &R,
    alloc: Global,
) -> Result<(usize, usize, usize), AllocError> {
    let ran = run_pool(
        rt,
        alloc,
        &SubsTable::new(alloc),
        &Book::new(alloc),
        4,
        &OpenGate,
    )?;
    Ok((ran.finals.items().len(), ran.store.len(), ran.peers.len()))
}

#[test]
fn an_empty_table_has_no_finals(rt: HostRuntime) -> Result<(), Fail> {
    assert_eq!(rt; empty_counts(&rt, rt.alloc())?, (0, 16, 16));
    Ok(())
}
