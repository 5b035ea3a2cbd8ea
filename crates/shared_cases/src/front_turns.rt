//! Turns of seats at one front, in one thread and in several. What finds no memory is not told, and the text is another one.
ghost use Rattle.std.specs.Prelude.{◌≡◌, ◌<◌, ◌≤◌, All, IfOk, IfSome, IsTrue, length};
ghost use Rattle.front_lock.specs.Front.{IsSeatOf, basis_of, seats_of, view};

use device_types::NoRoom;
use front_cases::{Add, Addition, Repeat, Tally, close_all, tally_of_front};
use front_lock::{Front, FrontSeat};
use std::alloc::{AllocError, Global};
use std::sync::Wait;
use std::test::Fail;
use std::thread::Threads;

/// What two seats do in turns, and the history that is closed. Seat 0 adds 3; seat 1 adds 4 and repeats the first number, which
/// the other seat added; seat 0 finds no memory, and its job comes back; then it adds 9.
const TURNS: &str = "\
seat 0: behind 0
seat 1: behind 1
seat 1: again 3
seat 0: back 5 18446744073709551615
seat 0: behind 3
closed: 0 added 3
closed: 1 added 4
closed: 1 added 3
closed: 0 added 9
";

/// How many turns 2 to 4 threads made with 10,000 each, and whether those of each are in its order.
const THREADS: &str = "\
20000 seat 0 true
20000 seat 1 true
30000 seat 0 true
30000 seat 1 true
30000 seat 2 true
40000 seat 0 true
40000 seat 1 true
40000 seat 2 true
40000 seat 3 true
";

/// Adds a number. Where it is added the seat has seen a number.
fn add<R: Wait>(
    rt: &R,
    front: &Front<Tally>,
    seat: &mut FrontSeat<Tally>,
    job: Add,
) -> Result<usize, NoRoom<Add>>
    requires seat { IsSeatOf (λ t. t.most) front.now seat.old }
    requires most { job.amount ≤ basis_of (λ t. t.most) front.now }
    ensures seat { IsSeatOf (λ t. t.most) front.now seat.new }
    ensures seen { IfOk result (λ before. 0 < length (view seat.new).seen) }
{
    front.turn(rt, seat, job)
}

/// Tells behind how many numbers a number was added, or that the job came back.
fn tell_answer(seat: u32, answer: &Result<usize, NoRoom<Add>>, told: &mut String) {
    let _ = match answer {
        Ok(before) => writeln!(told, "seat {seat}: behind {before}"),
        Err(NoRoom(job)) => writeln!(told, "seat {seat}: back {} {}", job.amount, job.room),
    };
}

/// Adds a number, tells what comes, and answers whether it was added: then the seat has seen a number.
fn tell_added<R: Wait>(
    rt: &R,
    front: &Front<Tally>,
    seat: &mut FrontSeat<Tally>,
    job: Add,
    told: &mut String,
) -> bool
    requires seat { IsSeatOf (λ t. t.most) front.now seat.old }
    requires most { job.amount ≤ basis_of (λ t. t.most) front.now }
    ensures seat { IsSeatOf (λ t. t.most) front.now seat.new }
    ensures seen { IsTrue result → 0 < length (view seat.new).seen }
{
    let answer = add(rt, front, seat, job);
    tell_answer(seat.number(), &answer, told);
    answer.is_ok()
}

/// Repeats the first number of all, and tells it.
fn tell_repeated<R: Wait>(
    rt: &R,
    front: &Front<Tally>,
    seat: &mut FrontSeat<Tally>,
    told: &mut String,
)
    requires seat { IsSeatOf (λ t. t.most) front.now seat.old }
    requires seen { 0 < length (view seat.old).seen }
    ensures { IsSeatOf (λ t. t.most) front.now seat.new }
{
    if let Ok(amount) = front.turn(rt, seat, Repeat { place: 0 }) {
        let _ = writeln!(told, "seat {}: again {amount}", seat.number());
    }
}

/// The turns of two seats in one thread. It owns nothing: the seats are lent.
fn tell_turns<R: Wait>(
    rt: &R,
    front: &Front<Tally>,
    first: &mut FrontSeat<Tally>,
    second: &mut FrontSeat<Tally>,
    told: &mut String,
)
    requires most { basis_of (λ t. t.most) front.now ≡ 9 }
    requires first { IsSeatOf (λ t. t.most) front.now first.old }
    requires second { IsSeatOf (λ t. t.most) front.now second.old }
    ensures first { IsSeatOf (λ t. t.most) front.now first.new }
    ensures second { IsSeatOf (λ t. t.most) front.now second.new }
{
    tell_added(rt, front, first, Add { amount: 3, room: 1 }, told);
    if tell_added(rt, front, second, Add { amount: 4, room: 1 }, told) {
        tell_repeated(rt, front, second, told);
    }
    let room = usize::MAX;
    tell_added(rt, front, first, Add { amount: 5, room }, told);
    tell_added(rt, front, first, Add { amount: 9, room: 1 }, told);
}

/// Lets the two seats of a front take their turns, and gives them back. `None` where memory ran out.
fn seats_after<R: Wait>(
    rt: &R,
    alloc: Global,
    front: &Front<Tally>,
    mut seats: Vec<FrontSeat<Tally>>,
    told: &mut String,
) -> Option<Vec<FrontSeat<Tally>>>
    requires most { basis_of (λ t. t.most) front.now ≡ 9 }
    requires seats { All (λ s. IsSeatOf (λ t. t.most) front.now s) seats.items }
    ensures { IfSome result (λ left. All (λ s. IsSeatOf (λ t. t.most) front.now s) left.items) }
{
    let mut second = seats.pop()?;
    let mut first = seats.pop()?;
    tell_turns(rt, front, &mut first, &mut second, told);
    Vec::from_array(alloc, [first, second]).ok()
}

/// The value of a front of two seats behind their turns. `None` where memory ran out.
fn tally_behind<R: Wait>(
    rt: &R,
    alloc: Global,
    front: Front<Tally>,
    seats: Vec<FrontSeat<Tally>>,
    told: &mut String,
) -> Option<Tally>
    requires most { basis_of (λ t. t.most) front ≡ 9 }
    requires count { seats_of front ≡ 2 }
    requires seats { All (λ s. IsSeatOf (λ t. t.most) front s) seats.items }
{
    let left = seats_after(rt, alloc, &front, seats, told)?;
    close_all(front, left, 2)
}

/// Tells the numbers that were added, and by whom.
fn tell_additions(additions: &[Addition], told: &mut String) {
    for addition in additions {
        let _ = writeln!(told, "closed: {} added {}", addition.seat, addition.amount);
    }
}

/// Lets two seats take their turns, and tells them and the history that is closed.
fn tell_history<R: Wait>(rt: &R, alloc: Global, told: &mut String) -> Result<(), AllocError> {
    let (front, seats) = Front::new(alloc, Tally::new(alloc, 9), 2)?;
    if let Some(tally) = tally_behind(rt, alloc, front, seats, told) {
        tell_additions(&tally.additions, told);
    }
    Ok(())
}

#[test]
fn seats_take_turns(rt: HostRuntime) -> Result<(), Fail> {
    let mut told = String::new(rt.alloc());
    tell_history(&rt, rt.alloc(), &mut told)?;
    assert_eq!(rt; told.as_str(), TURNS);
    Ok(())
}

/// Whether the seat's numbers are those below `turns`, in order.
fn are_in_order(additions: &[Addition], seat: u32, turns: u64) -> bool {
    let mut expected = 0..turns;
    for addition in additions {
        if addition.seat == seat && expected.next() != Some(addition.amount) {
            return false;
        }
    }
    expected.next().is_none()
}

/// For each seat of a history, how long the history is and whether the seat's numbers are in its order.
fn tell_seats(additions: &[Addition], seats: u32, told: &mut String) {
    for seat in 0..seats {
        let in_order = are_in_order(additions, seat, 10_000);
        let _ = writeln!(told, "{} seat {seat} {in_order}", additions.len());
    }
}

/// What so many threads make of a front, with 10,000 turns each.
fn tell_tally<R: Threads + Wait + Sync>(rt: &R, alloc: Global, seats: u32, told: &mut String)
    requires { 0 < seats }
{
    if let Ok(Some(tally)) = tally_of_front(rt, alloc, seats, 10_000) {
        tell_seats(&tally.additions, seats, told);
    }
}

#[test]
fn threads_take_turns(rt: HostRuntime) -> Result<(), Fail> {
    let mut told = String::new(rt.alloc());
    for seats in 2..5 {
        tell_tally(&rt, rt.alloc(), seats, &mut told);
    }
    assert_eq!(rt; told.as_str(), THREADS);
    Ok(())
}
