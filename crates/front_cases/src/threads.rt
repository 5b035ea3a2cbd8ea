//! The seats of a front at work in threads of their own.
ghost use Rattle.std.specs.Prelude.{◌≡◌, ◌<◌, ◌≤◌, ℕ, [], All, IfOk, IfSome};
ghost use Rattle.front_lock.specs.Front.{IsSeatOf, SpeaksForAll, basis_of, seats_of, view};
ghost use Rattle.front_lock.specs.Numbers.{turns_of};

use crate::tally::{Add, Tally};
use front_lock::{Front, FrontSeat};
use std::alloc::{AllocError, Global};
use std::sync::Wait;
use std::thread;
use std::thread::Threads;

/// What seats in threads of their own add to a tally: each adds the numbers below `turns`, in order. Where a turn finds no memory
/// its seat stops. `None` where a seat is missing, which none is.
pub fn tally_of_front<R: Threads + Wait + Sync>(
    rt: &R,
    alloc: Global,
    seats: u32,
    turns: u64,
) -> Result<Option<Tally>, AllocError>
    requires { 0 < seats }
    ensures { IfOk result (λ o. IfSome o (λ tally. (k : ℕ) → seats ≤ k → turns_of (λ a. a.seat) k tally.additions.items ≡ [])) }
{
    let (front, all) = Front::new(alloc, Tally::new(alloc, turns), seats)?;
    let left = add_in_threads(rt, &front, all, turns)?;
    Ok(close_all(front, left, seats))
}

// Each seat adds the numbers below `turns`, in a thread of its own where one can be made.
fn add_in_threads<R: Threads + Wait + Sync>(
    rt: &R,
    front: &Front<Tally>,
    seats: Vec<FrontSeat<Tally>>,
    turns: u64,
) -> Result<Vec<FrontSeat<Tally>>, AllocError>
    requires seats { All (λ s. IsSeatOf (λ t. t.most) front.now s) seats.items }
    requires most { turns ≤ basis_of (λ t. t.most) front.now }
    ensures { IfOk result (λ left. All (λ s. IsSeatOf (λ t. t.most) front.now s) left.items) }
{
    thread::map_vec(rt, seats, &|seat| add_below(rt, front, seat, turns))
}

// Adds the numbers below `turns`, and gives the seat back. Where a turn finds no memory it stops.
fn add_below<R: Wait>(
    rt: &R,
    front: &Front<Tally>,
    mut seat: FrontSeat<Tally>,
    turns: u64,
) -> FrontSeat<Tally>
    requires seat { IsSeatOf (λ t. t.most) front.now seat }
    requires most { turns ≤ basis_of (λ t. t.most) front.now }
    ensures { IsSeatOf (λ t. t.most) front.now result }
{
    for amount in 0..turns {
        if front.turn(rt, &mut seat, Add { amount, room: 1 }).is_err() {
            return seat;
        }
    }
    seat
}

/// Joins all seats of the front and closes it. `None` where one is missing: they are those with the numbers from 0, in order.
pub fn close_all(front: Front<Tally>, mut seats: Vec<FrontSeat<Tally>>, count: u32) -> Option<Tally>
    requires some { 0 < count }
    requires count { seats_of front ≡ count }
    requires seats { All (λ s. IsSeatOf (λ t. t.most) front s) seats.items }
    ensures most { IfSome result (λ tally. tally.most ≡ basis_of (λ t. t.most) front) }
    ensures others { IfSome result (λ tally. (k : ℕ) → count ≤ k → turns_of (λ a. a.seat) k tally.additions.items ≡ []) }
{
    let seat = join_all(&front, &mut seats, count)?;
    Some(front.close(seat))
}

// The last of the seats. `None` where there is none, or one of another number.
fn last_seat(
    front: &Front<Tally>,
    seats: &mut Vec<FrontSeat<Tally>>,
    number: u32,
) -> Option<FrontSeat<Tally>>
    requires { All (λ s. IsSeatOf (λ t. t.most) front.now s) seats.old.items }
    ensures seat { IfSome result (λ s. IsSeatOf (λ t. t.most) front.now s) }
    ensures number { IfSome result (λ s. (view s).number ≡ number) }
    ensures others { All (λ s. IsSeatOf (λ t. t.most) front.now s) seats.new.items }
{
    let seat = seats.pop()?;
    if seat.number() == number {
        Some(seat)
    } else {
        None
    }
}

// The seat of all numbers below `count`. `None` where a seat is missing.
fn join_all(
    front: &Front<Tally>,
    seats: &mut Vec<FrontSeat<Tally>>,
    count: u32,
) -> Option<FrontSeat<Tally>>
    requires some { 0 < count }
    requires count { seats_of front.now ≡ count }
    requires seats { All (λ s. IsSeatOf (λ t. t.most) front.now s) seats.old.items }
    ensures seat { IfSome result (λ s. IsSeatOf (λ t. t.most) front.now s) }
    ensures all { IfSome result (λ s. SpeaksForAll front.now s) }
{
    let mut least = count - 1;
    let mut joined = last_seat(front, seats, least)?;
    while least > 0 {
        least -= 1;
        let seat = last_seat(front, seats, least)?;
        front.join(&mut joined, seat);
    }
    Some(joined)
}
