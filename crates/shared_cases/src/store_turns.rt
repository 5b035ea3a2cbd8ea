//! Turns at the shards of a store of 32 devices, in one thread and in two. What finds no memory is not told, and the text is another
//! one.
ghost use Rattle.std.specs.Prelude.{◌≡◌, All, IfSome};
ghost use Rattle.session_store.specs.Rows.{IsDevice};
ghost use Rattle.front_lock.specs.FrontRow.{AreSeatsOf};
ghost use Rattle.store_shared.specs.StoreBases.{store_basis};

use crate::any_law::{AnyLaw, any_law, first_entry};
use device_types::{DeviceId, Lane, Look};
use session_row::Commit;
use session_store::Asked;
use std::alloc::{AllocError, Global};
use std::fmt::Debug;
use std::sync::Wait;
use std::test::Fail;
use std::thread;
use std::thread::Threads;
use store_shared::{SharedStore, StoreSeat, StoreShard, TurnAnswer};

/// Both seats look at device 1, at version 0; seat 1 writes first, and seat 0 is stale: shard 1 has these four turns and no other.
/// Devices 2 and 18 share shard 2: the write of one is not seen at the other. No other shard has a turn.
const TURNS: &str = "\
seat 0 on 1 read 0 Ready
seat 1 on 1 read 0 Ready
seat 1 on 1 Committed(1)
seat 0 on 1 Stale { read: 0, current: 1 }
seat 0 on 18 Committed(1)
seat 0 on 18 peeked 1 Repeat(1)
seat 1 on 2 peeked 0 Ready
seat 0 on 18 pushed true
seat 0 on 18 Old(0)
shard 1: seat 0 on 1 read 0 Ready
shard 1: seat 1 on 1 read 0 Ready
shard 1: seat 1 on 1 Committed(1)
shard 1: seat 0 on 1 Stale { read: 0, current: 1 }
shard 2: seat 0 on 18 Committed(1)
shard 2: seat 0 on 18 peeked 1 Repeat(1)
shard 2: seat 1 on 2 peeked 0 Ready
shard 2: seat 0 on 18 pushed true
shard 2: seat 0 on 18 Old(0)
";

/// Two threads write version 0 of each of 32 devices, and peek at it: of each shard, how many turns it has, and how many writes were
/// made.
const THREADS: &str = "8 2;8 2;8 2;8 2;8 2;8 2;8 2;8 2;8 2;8 2;8 2;8 2;8 2;8 2;8 2;8 2;";

/// A call about message 1 of a device, its version 0 or its first down.
#[derive(Clone, Copy)]
enum Call {
    Read,
    Peek,
    Write,
    Push,
    Settle,
}

/// Tells a value, as the rest of a line.
fn tell_line<V: Debug>(value: &V, told: &mut String) {
    let _ = writeln!(told, "{value:?}");
}

/// Tells what the row said.
fn tell_look(call: &str, version: u64, look: &Look, told: &mut String) {
    let _ = writeln!(told, "{call} {version} {look:?}");
}

/// Tells whether there was an effect.
fn tell_pushed(pushed: bool, told: &mut String) {
    let _ = writeln!(told, "pushed {pushed}");
}

/// Tells who called at which device, and what it came to.
fn tell_answer(seat: u32, d: DeviceId, answer: &TurnAnswer, told: &mut String) {
    let _ = write!(told, "seat {seat} on {} ", d.0);
    match answer {
        TurnAnswer::Read(seen) => tell_look("read", seen.version, &seen.look, told),
        TurnAnswer::Peek(peeked) => tell_look("peeked", peeked.version, &peeked.look, told),
        TurnAnswer::Commit(commit) => tell_line(commit, told),
        TurnAnswer::Push(effect) => tell_pushed(effect.is_some(), told),
        TurnAnswer::Settle(settled) => tell_line(settled, told),
        TurnAnswer::Offer(offer) => tell_line(offer, told),
    }
}

/// Writes version 0 of a device. `None` where memory runs out.
fn commit_first<R: Wait>(
    rt: &R,
    alloc: Global,
    store: &SharedStore<AnyLaw>,
    seat: &mut StoreSeat<AnyLaw>,
    d: DeviceId,
) -> Option<Commit>
    requires seat { AreSeatsOf store_basis store.now.fronts.fronts.items seat.old.seats.items }
    requires device { IsDevice store.now.devices d.0 }
    ensures { AreSeatsOf store_basis store.now.fronts.fronts.items seat.new.seats.items }
{
    let entry = first_entry(alloc).ok()?;
    store.commit(rt, seat, d, 0, entry).ok()
}

/// Makes a call. Settling, it settles none of the downs. `None` where memory runs out.
fn called<R: Wait>(
    rt: &R,
    alloc: Global,
    store: &SharedStore<AnyLaw>,
    seat: &mut StoreSeat<AnyLaw>,
    call: Call,
    d: DeviceId,
) -> Option<TurnAnswer>
    requires seat { AreSeatsOf store_basis store.now.fronts.fronts.items seat.old.seats.items }
    requires device { IsDevice store.now.devices d.0 }
    ensures { AreSeatsOf store_basis store.now.fronts.fronts.items seat.new.seats.items }
{
    let asked = Asked::Message(1);
    match call {
        Call::Read => store.read(rt, seat, d, asked).ok().map(TurnAnswer::Read),
        Call::Peek => store.peek(rt, seat, d, asked).ok().map(TurnAnswer::Peek),
        Call::Write => commit_first(rt, alloc, store, seat, d).map(TurnAnswer::Commit),
        Call::Push => store
            .push(rt, seat, d, Lane::Down, 1)
            .ok()
            .map(TurnAnswer::Push),
        Call::Settle => store
            .settle(rt, seat, d, Lane::Down, 0)
            .ok()
            .map(TurnAnswer::Settle),
    }
}

/// Makes a call, and tells it.
fn tell_call<R: Wait>(
    rt: &R,
    alloc: Global,
    store: &SharedStore<AnyLaw>,
    seat: &mut StoreSeat<AnyLaw>,
    call: Call,
    d: DeviceId,
    told: &mut String,
)
    requires seat { AreSeatsOf store_basis store.now.fronts.fronts.items seat.old.seats.items }
    requires device { IsDevice store.now.devices d.0 }
    ensures { AreSeatsOf store_basis store.now.fronts.fronts.items seat.new.seats.items }
{
    if let Some(answer) = called(rt, alloc, store, seat, call, d) {
        tell_answer(seat.number(), d, &answer, told);
    }
}

/// Both seats read version 0 of device 1, and write it; then each call at shard 2, where devices 2 and 18 lie.
fn call_all<R: Wait>(
    rt: &R,
    alloc: Global,
    store: &SharedStore<AnyLaw>,
    first: &mut StoreSeat<AnyLaw>,
    second: &mut StoreSeat<AnyLaw>,
    told: &mut String,
)
    requires devices { store.now.devices ≡ 32 }
    requires first { AreSeatsOf store_basis store.now.fronts.fronts.items first.old.seats.items }
    requires second { AreSeatsOf store_basis store.now.fronts.fronts.items second.old.seats.items }
    ensures first { AreSeatsOf store_basis store.now.fronts.fronts.items first.new.seats.items }
    ensures second { AreSeatsOf store_basis store.now.fronts.fronts.items second.new.seats.items }
{
    tell_call(rt, alloc, store, first, Call::Read, DeviceId(1), told);
    tell_call(rt, alloc, store, second, Call::Read, DeviceId(1), told);
    tell_call(rt, alloc, store, second, Call::Write, DeviceId(1), told);
    tell_call(rt, alloc, store, first, Call::Write, DeviceId(1), told);
    tell_call(rt, alloc, store, first, Call::Write, DeviceId(18), told);
    tell_call(rt, alloc, store, first, Call::Peek, DeviceId(18), told);
    tell_call(rt, alloc, store, second, Call::Peek, DeviceId(2), told);
    tell_call(rt, alloc, store, first, Call::Push, DeviceId(18), told);
    tell_call(rt, alloc, store, first, Call::Settle, DeviceId(18), told);
}

/// The two seats of a store, in the order of their numbers. `None` where there are fewer.
fn both(
    store: &SharedStore<AnyLaw>,
    mut seats: Vec<StoreSeat<AnyLaw>>,
) -> Option<(StoreSeat<AnyLaw>, StoreSeat<AnyLaw>)>
    requires { All (λ s. AreSeatsOf store_basis store.now.fronts.fronts.items s.seats.items) seats.items }
    ensures first { IfSome result (λ both. AreSeatsOf store_basis store.now.fronts.fronts.items both.0.seats.items) }
    ensures second { IfSome result (λ both. AreSeatsOf store_basis store.now.fronts.fronts.items both.1.seats.items) }
{
    let Some(second) = seats.pop() else {
        return None;
    };
    let Some(first) = seats.pop() else {
        return None;
    };
    Some((first, second))
}

/// Joins the two seats of a store, and closes it. `None` where they are not its two.
fn closed(
    store: SharedStore<AnyLaw>,
    mut into: StoreSeat<AnyLaw>,
    from: StoreSeat<AnyLaw>,
) -> Option<Vec<StoreShard<AnyLaw>>>
    requires into { AreSeatsOf store_basis store.fronts.fronts.items into.seats.items }
    requires from { AreSeatsOf store_basis store.fronts.fronts.items from.seats.items }
{
    if store.seats() != 2 || into.number() != 0 || from.number() != 1 {
        return None;
    }
    let Ok(()) = store.join(&mut into, from) else {
        unreachable!()
    };
    store.close(into).ok()
}

/// All turns of all shards.
fn tell_turns(shards: &[StoreShard<AnyLaw>], told: &mut String) {
    for (number, shard) in shards.iter().enumerate() {
        for turn in shard.turns() {
            let _ = write!(told, "shard {number}: ");
            tell_answer(turn.seat, turn.device, &turn.answer, told);
        }
    }
}

/// The shards of a store behind these calls. `None` where memory runs out.
fn shards_called<R: Wait>(
    rt: &R,
    alloc: Global,
    store: SharedStore<AnyLaw>,
    seats: Vec<StoreSeat<AnyLaw>>,
    told: &mut String,
) -> Option<Vec<StoreShard<AnyLaw>>>
    requires devices { store.devices ≡ 32 }
    requires seats { All (λ s. AreSeatsOf store_basis store.fronts.fronts.items s.seats.items) seats.items }
{
    let (mut first, mut second) = both(&store, seats)?;
    call_all(rt, alloc, &store, &mut first, &mut second, told);
    closed(store, first, second)
}

/// Tells the calls of two seats of a store, and the turns of the shards that are closed.
fn tell_seats<R: Wait>(rt: &R, alloc: Global, told: &mut String) -> Result<(), AllocError> {
    let (store, seats) = SharedStore::new(alloc, any_law(alloc)?, 32, 2)?;
    if let Some(shards) = shards_called(rt, alloc, store, seats, told) {
        tell_turns(&shards, told);
    }
    Ok(())
}

#[test]
fn two_seats_take_turns(rt: HostRuntime) -> Result<(), Fail> {
    let mut told = String::new(rt.alloc());
    tell_seats(&rt, rt.alloc(), &mut told)?;
    assert_eq!(rt; told.as_str(), TURNS);
    Ok(())
}

/// Writes version 0 of each device, and peeks at it.
fn work<R: Wait>(rt: &R, alloc: Global, store: &SharedStore<AnyLaw>, seat: &mut StoreSeat<AnyLaw>)
    requires devices { store.now.devices ≡ 32 }
    requires seat { AreSeatsOf store_basis store.now.fronts.fronts.items seat.old.seats.items }
    ensures { AreSeatsOf store_basis store.now.fronts.fronts.items seat.new.seats.items }
{
    for index in 0..32 {
        let d = DeviceId(index + 1);
        let _ = commit_first(rt, alloc, store, seat, d);
        let _ = store.peek(rt, seat, d, Asked::Message(1));
    }
}

/// The seats at work, each in a thread of its own where one can be made.
fn work_in_threads<R: Threads + Wait + Sync>(
    rt: &R,
    alloc: Global,
    store: &SharedStore<AnyLaw>,
    seats: &mut [StoreSeat<AnyLaw>],
)
    requires devices { store.now.devices ≡ 32 }
    requires seats { All (λ s. AreSeatsOf store_basis store.now.fronts.fronts.items s.seats.items) seats.old }
    ensures { All (λ s. AreSeatsOf store_basis store.now.fronts.fronts.items s.seats.items) seats.new }
{
    thread::for_each_mut(rt, seats, 2, &|_, seat| work(rt, alloc, store, seat));
}

/// The shards of a store behind this work. `None` where memory runs out.
fn shards_worked<R: Threads + Wait + Sync>(
    rt: &R,
    alloc: Global,
    store: SharedStore<AnyLaw>,
    mut seats: Vec<StoreSeat<AnyLaw>>,
) -> Option<Vec<StoreShard<AnyLaw>>>
    requires devices { store.devices ≡ 32 }
    requires seats { All (λ s. AreSeatsOf store_basis store.fronts.fronts.items s.seats.items) seats.items }
{
    work_in_threads(rt, alloc, &store, &mut seats);
    let (first, second) = both(&store, seats)?;
    closed(store, first, second)
}

/// Of each shard, how many turns it has, and how many writes were made.
fn tell_counts(shards: &[StoreShard<AnyLaw>], told: &mut String) {
    for shard in shards {
        let mut made = 0u32;
        for turn in shard.turns() {
            if let TurnAnswer::Commit(Commit::Committed(_)) = turn.answer {
                made = made.saturating_add(1);
            }
        }
        let _ = write!(told, "{} {made};", shard.turns().len());
    }
}

/// Tells what the shards of a store count at which two threads were at work.
fn tell_threads<R: Threads + Wait + Sync>(
    rt: &R,
    alloc: Global,
    told: &mut String,
) -> Result<(), AllocError> {
    let (store, seats) = SharedStore::new(alloc, any_law(alloc)?, 32, 2)?;
    if let Some(shards) = shards_worked(rt, alloc, store, seats) {
        tell_counts(&shards, told);
    }
    Ok(())
}

#[test]
fn two_threads_take_turns(rt: HostRuntime) -> Result<(), Fail> {
    let mut told = String::new(rt.alloc());
    tell_threads(&rt, rt.alloc(), &mut told)?;
    assert_eq!(rt; told.as_str(), THREADS);
    Ok(())
}
