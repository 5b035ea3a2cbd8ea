//! Turns at the fronts of a row. Nothing here knows what the fronts hold.
ghost use Rattle.std.specs.Prelude.{◌≡◌, ◌≢◌, ◌<◌, ◌≤◌, ℕ, [], ◌∷◌, ◌++◌, length, map, slice_get, vec_capacity, All, Some, IfOk, OnOk, IfErr};
ghost use Rattle.front_lock.specs.Front.{basis_of, seats_of, view};
ghost use Rattle.front_lock.specs.FrontRow.{AreSeatsOf, SpeaksOnAll, AreFreshSeats, TurnsAt, MissesAt, AreJoined, AreClosed, AreDealt, AreSeated, IsFrontMore, AreFronts};

use crate::front::Front;
use crate::held::{Held, Job};
use crate::row::{Fronts, FrontsSeat};
use crate::seat::FrontSeat;
use device_types::NoRoom;
use std::alloc::{AllocError, Global};
use std::sync::Wait;

/// Each seat of a front is added to the seat of its number.
fn deal_out<T: Held>(
    made: &mut Vec<FrontsSeat<T>>,
    mut column: Vec<FrontSeat<T>>,
) -> Result<(), AllocError>
    requires count { length column.items ≡ length made.old.items }
    requires numbers { (n : ℕ) (s : _) (t : _) → slice_get made.old.items n ≡ Some s → slice_get column.items n ≡ Some t → (view t).number ≡ s.number }
    ensures { OnOk result (AreDealt made.old.items column.items made.new.items) }
{
    while let Some(seat) = column.pop() {
        let k = column.len();
        made[k].add(seat)?;
    }
    Ok(())
}

/// So many seats, with the numbers from 0 in order, of no front.
fn no_seats<T: Held>(alloc: Global, seats: u32) -> Result<Vec<FrontsSeat<T>>, AllocError>
    ensures count { IfOk result (λ made. length made.items ≡ seats) }
    ensures numbers { IfOk result (λ made. (n : ℕ) (s : _) → slice_get made.items n ≡ Some s → (s.number ≡ n) × (s.seats.items ≡ [])) }
{
    let mut made = Vec::new(alloc);
    for number in 0..seats {
        let Ok(()) = made.push(FrontsSeat {
            number,
            seats: Vec::new(alloc),
        }) else {
            return Err(AllocError);
        };
    }
    Ok(made)
}

/// A front for a value, behind the others, and its seats, each added to the seat of its number. For want of memory the value is
/// dropped.
fn add_front<T: Held>(
    alloc: Global,
    fronts: &mut Vec<Front<T>>,
    made: &mut Vec<FrontsSeat<T>>,
    value: T,
    seats: u32,
) -> Result<(), AllocError>
    requires seats { 0 < seats }
    requires empty { T.turns value ≡ [] }
    requires count { length made.old.items ≡ seats }
    requires seated { AreSeated T.basis seats fronts.old.items made.old.items }
    ensures { OnOk result (IsFrontMore T.basis (T.basis value) seats fronts.old.items fronts.new.items made.old.items made.new.items) }
{
    fronts.reserve(1)?;
    let (front, column) = Front::new(alloc, value, seats)?;
    fronts.push_reserved(front);
    deal_out(made, column)
}

/// A front for each value, and their seats, where there was no front yet.
fn add_fronts<T: Held>(
    alloc: Global,
    fronts: &mut Vec<Front<T>>,
    made: &mut Vec<FrontsSeat<T>>,
    mut values: Vec<T>,
    seats: u32,
) -> Result<(), AllocError>
    requires seats { 0 < seats }
    requires empty { All (λ v. T.turns v ≡ []) values.items }
    requires none { fronts.old.items ≡ [] }
    requires count { length made.old.items ≡ seats }
    requires numbers { (n : ℕ) (s : _) → slice_get made.old.items n ≡ Some s → (s.number ≡ n) × (s.seats.items ≡ []) }
    ensures { OnOk result (AreFronts T.basis (map T.basis values.items) seats fronts.new.items made.new.items) }
{
    values.reverse();
    while let Some(value) = values.pop() {
        add_front(alloc, fronts, made, value, seats)?;
    }
    Ok(())
}

/// The values of the fronts in order, in a list with room for them, once the seat of each speaks for every number.
fn close_each<T: Held>(
    mut fronts: Vec<Front<T>>,
    mut seats: Vec<FrontSeat<T>>,
    mut values: Vec<T>,
) -> Vec<T>
    requires seats { AreSeatsOf T.basis fronts.items seats.items }
    requires all { All (λ f. (n : ℕ) → n < seats_of f → SpeaksOnAll n seats.items) fronts.items }
    requires none { values.items ≡ [] }
    requires room { length fronts.items ≤ vec_capacity values }
    ensures { AreClosed T.turns T.basis T.by fronts.items seats.items result.items }
{
    while let Some(front) = fronts.pop() {
        let Some(seat) = seats.pop() else {
            unreachable!()
        };
        values.push_reserved(front.close(seat));
    }
    values.reverse();
    values
}

impl<T: Held> FrontsSeat<T> {
    /// Takes in the seat of one front more, which has its number.
    fn add(&mut self, seat: FrontSeat<T>) -> Result<(), AllocError>
        requires { (view seat).number ≡ self.old.number }
        ensures number { self.new.number ≡ self.old.number }
        ensures ok { OnOk result (self.new.seats.items ≡ self.old.seats.items ++ seat ∷ []) }
    {
        self.seats.reserve(1)?;
        self.seats.push_reserved(seat);
        Ok(())
    }

    /// Its number, from 0, for which it speaks on each front.
    pub fn number(&self) -> u32
        ensures number { result ≡ self.now.number }
        ensures speaks { SpeaksOnAll result self.now.seats.items }
    {
        self.number
    }
}

impl<T: Held> Fronts<T> {
    /// A front for each value, which has no turns yet, and the seats in the order of their numbers. For want of memory the values
    /// are dropped.
    pub fn new(
        alloc: Global,
        values: Vec<T>,
        seats: u32,
    ) -> Result<(Fronts<T>, Vec<FrontsSeat<T>>), AllocError>
        requires seats { 0 < seats }
        requires empty { All (λ v. T.turns v ≡ []) values.items }
        ensures bases { IfOk result (λ made. map (λ f. basis_of T.basis f) made.0.fronts.items ≡ map T.basis values.items) }
        ensures seated { IfOk result (λ made. All (λ f. seats_of f ≡ seats) made.0.fronts.items) }
        ensures count { IfOk result (λ made. length made.1.items ≡ seats) }
        ensures seats { IfOk result (λ made. AreFreshSeats T.basis (map T.basis values.items) seats made.0.fronts.items made.1.items) }
    {
        let mut made = no_seats(alloc, seats)?;
        let mut fronts = Vec::new(alloc);
        add_fronts(alloc, &mut fronts, &mut made, values, seats)?;
        Ok((Fronts { fronts }, made))
    }

    /// One turn at the front of that place.
    pub fn turn<J: Job<T>, R: Wait>(
        &self,
        rt: &R,
        me: &mut FrontsSeat<T>,
        at: usize,
        job: J,
    ) -> Result<J::Answer, NoRoom<J>>
        requires at { at < length self.now.fronts.items }
        requires seats { AreSeatsOf T.basis self.now.fronts.items me.old.seats.items }
        requires can { (f : _) (s : _) → slice_get self.now.fronts.items at ≡ Some f → slice_get me.old.seats.items at ≡ Some s → J.can job (basis_of T.basis f) (view s).seen }
        ensures seats { AreSeatsOf T.basis self.now.fronts.items me.new.seats.items }
        ensures number { me.new.number ≡ me.old.number }
        ensures others { (k : ℕ) → k ≢ at → slice_get me.new.seats.items k ≡ slice_get me.old.seats.items k }
        ensures ok { IfOk result (λ answer. TurnsAt T.turns T.basis T.by (J.done job) me.old.seats.items at answer me.new.seats.items) }
        ensures err { IfErr result (λ room. MissesAt T.turns T.basis me.old.seats.items at me.new.seats.items) }
        ensures back { IfErr result (λ room. room.0 ≡ job) }
    {
        self.fronts[at].turn(rt, &mut me.seats[at], job)
    }

    /// Joins two seats, one front after another. It takes no memory.
    pub fn join(&self, into: &mut FrontsSeat<T>, from: FrontsSeat<T>)
        requires into { AreSeatsOf T.basis self.now.fronts.items into.old.seats.items }
        requires from { AreSeatsOf T.basis self.now.fronts.items from.seats.items }
        ensures seats { AreSeatsOf T.basis self.now.fronts.items into.new.seats.items }
        ensures number { into.new.number ≡ into.old.number }
        ensures joined { AreJoined into.old.seats.items from.seats.items into.new.seats.items }
        ensures keeps { (n : ℕ) → SpeaksOnAll n into.old.seats.items → SpeaksOnAll n into.new.seats.items }
        ensures gains { (n : ℕ) → SpeaksOnAll n from.seats.items → SpeaksOnAll n into.new.seats.items }
    {
        let FrontsSeat {
            number: _,
            mut seats,
        } = from;
        while let Some(seat) = seats.pop() {
            let k = seats.len();
            self.fronts[k].join(&mut into.seats[k], seat);
        }
    }

    /// The values in order, once the seat speaks for every number of each front. For want of memory, which it takes first, both are
    /// given back.
    pub fn close(self, seat: FrontsSeat<T>) -> Result<Vec<T>, NoRoom<(Fronts<T>, FrontsSeat<T>)>>
        requires seats { AreSeatsOf T.basis self.fronts.items seat.seats.items }
        requires all { All (λ f. (n : ℕ) → n < seats_of f → SpeaksOnAll n seat.seats.items) self.fronts.items }
        ensures ok { IfOk result (λ values. AreClosed T.turns T.basis T.by self.fronts.items seat.seats.items values.items) }
        ensures back { IfErr result (λ room. room.0 ≡ (self, seat)) }
    {
        let alloc = *self.fronts.allocator();
        let Ok(values) = Vec::with_capacity(alloc, self.fronts.len()) else {
            return Err(NoRoom((self, seat)));
        };
        let Fronts { fronts } = self;
        let FrontsSeat { number: _, seats } = seat;
        Ok(close_each(fronts, seats, values))
    }
}
