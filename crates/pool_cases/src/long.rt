//! A device of many messages.
ghost use Rattle.std.specs.Prelude.{◌≡◌, length, All, IfOk};
ghost use Rattle.device_types.specs.Line.{IsLine};
ghost use Rattle.session_store.specs.Charter.{IsShort};

use crate::devices::{add_row, message};
use crate::finals::tell_runs;
use device_types::{Body, Book, Messages};
use std::alloc::{AllocError, Global};
use std::sync::Wait;
use std::test::Fail;
use std::thread::Threads;
use subs_table::SubsTable;

/// Each request is refused by one message to the device, since it is not attached.
const FINALS: &str = "10000 messages, 10000 steps, 10000 downs, [] [] Detached\n";

/// A line of so many service requests.
#[tactic(auto, using(crate::proofs::Lines::no_line))]
fn services(alloc: Global, count: u64) -> Result<Messages, AllocError>
    ensures line { IfOk result IsLine }
    ensures count { IfOk result (λ line. length line ≡ count) }
{
    let mut line = Messages::new(alloc);
    for index in 0..count {
        line.push(message(index + 1, Body::Service))?;
    }
    Ok(line)
}

/// A book of one device, with 10,000 service requests.
fn long_book(alloc: Global) -> Result<Book, AllocError>
    ensures lines { IfOk result (λ book. length book ≡ 1) }
    ensures short { IfOk result (All IsShort) }
{
    let mut book = Book::new(alloc);
    book.push(services(alloc, 10_000)?)?;
    Ok(book)
}

/// A table of one device.
fn one_row(alloc: Global) -> Result<SubsTable, Fail>
    ensures { IfOk result (λ table. length table ≡ 1) }
{
    let mut table = SubsTable::new(alloc);
    add_row(alloc, &mut table)?;
    Ok(table)
}

/// The finals of the device, by each number of workers.
fn tell_finals<R: Threads + Wait + Sync>(
    rt: &R,
    alloc: Global,
    told: &mut String,
) -> Result<(), Fail> {
    let table = one_row(alloc)?;
    let book = long_book(alloc)?;
    tell_runs(rt, alloc, &table, &book, told)?;
    Ok(())
}

#[test]
fn a_long_line_comes_to_its_end(rt: HostRuntime) -> Result<(), Fail> {
    let alloc = rt.alloc();
    let mut told = String::new(alloc);
    tell_finals(&rt, alloc, &mut told)?;
    let wanted = format!(in alloc; "{FINALS}{FINALS}{FINALS}{FINALS}")?;
    assert_eq!(rt; told.as_str(), wanted.as_str());
    Ok(())
}
