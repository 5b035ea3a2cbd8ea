//! A front, and its turns.
ghost use Rattle.std.specs.Prelude.{◌≡◌, ◌<◌, ◌^◌, true, false, [], ◌∷◌, All, IfErr, IfOk, IfSome, None, Some, map, vec_capacity};
ghost use Rattle.std.specs.List.{range_with_len};
ghost use mathlib.Core.List.{IsPrefix};
ghost use Rattle.front_lock.specs.declared.view.Stage.TheVariants.{Idle, Waiting, Served, Holding};
ghost use Rattle.front_lock.specs.View.{KnowsItsTurns, dealer_view, dealt_views, fresh_view, view_at};
ghost use Rattle.front_lock.specs.Turns.{AddsTurn, IsClosed, JoinsViews, MakesTurn, MissesTurn, RunsJob};

use crate::held::{Held, Job};
use crate::rule::{Compare, Deal, Draw, Look, Meet, Order, Pass, Raise, Return, Take};
use crate::seat::{FrontSeat, TableSeat};
use crate::view::{Plan, View};
use atomic_table::Table;
use device_types::NoRoom;
use std::alloc::{AllocError, Global};
use std::snapshot::Snapshot;
use std::sync::Wait;
use std::{hint, thread};

/// The word that counts the tickets drawn.
const TICKETS: usize = 0;

/// The word of the ticket that is served.
const SERVING: usize = 1;

/// The word of how many turns were made.
const MADE: usize = 2;

/// As many tickets are drawn at most.
const LAST: u64 = 1 << 62;

/// How often a seat that waits looks before it parks.
const LOOKS: u32 = 40;

// The value alone. For want of memory it is dropped.
fn list_of_one<T: Drop>(alloc: Global, value: T) -> Result<Vec<T>, AllocError>
    ensures { IfOk result (λ list. list.items ≡ value ∷ []) }
{
    let mut list = Vec::with_capacity(alloc, 1)?;
    list.push_reserved(value);
    Ok(list)
}

/// A value that seats take turns at, in the order of their tickets.
#[derive(Drop)]
pub struct Front<T: Held> {
    pub(crate) table: Table<T, View<T::Turn, T::Basis>, Plan<T>, Order<T>, Global>,
    ghost sized: { (table.shared.table_id.words ≡ 3) × (table.shared.table_id.slots ≡ 1) },
}

impl<T: Held> Front<T> {
    ghost use Rattle.front_lock.specs.Front.{IsSeatOf, SpeaksForAll, basis_of, seats_of, view};

    /// A front with this value, which has no turns yet, and its seats with the numbers from 0 in order; no seat is made later.
    /// For want of memory the value is dropped.
    pub fn new(
        alloc: Global,
        value: T,
        seats: u32,
    ) -> Result<(Front<T>, Vec<FrontSeat<T>>), AllocError>
        requires seats { 0 < seats }
        requires empty { T.turns value ≡ [] }
        ensures basis { IfOk result (λ made. basis_of T.basis made.0 ≡ T.basis value) }
        ensures count { IfOk result (λ made. seats_of made.0 ≡ seats) }
        ensures views { IfOk result (λ made. map (λ s. view s) made.1.items ≡ map (fresh_view (T.basis value) seats) (range_with_len 0 seats)) }
        ensures seats { IfOk result (λ made. All (λ s. IsSeatOf T.basis made.0 s) made.1.items) }
    {
        let dealt = Vec::with_capacity(alloc, seats as usize)?;
        let (front, seat) = Front::with_one_seat(alloc, value, seats)?;
        let mut dealt = front.deal(seat, dealt, seats);
        dealt.reverse();
        Ok((front, dealt))
    }

    /// Waits for its turn, runs the job on the value, and lets the next seat in. Once 2^62 tickets were drawn a turn waits for
    /// ever. For want of memory the job is given back, and no turn was made.
    pub fn turn<J: Job<T>, R: Wait>(
        &self,
        rt: &R,
        seat: &mut FrontSeat<T>,
        job: J,
    ) -> Result<J::Answer, NoRoom<J>>
        requires seat { IsSeatOf T.basis self.now seat.old }
        requires can { J.can job (basis_of T.basis self.now) (view seat.old).seen }
        ensures seat { IsSeatOf T.basis self.now seat.new }
        ensures grows { IsPrefix (view seat.old).seen (view seat.new).seen }
        ensures ok { IfOk result (λ answer. MakesTurn T.turns T.basis T.by (J.done job) (view seat.old) answer (view seat.new)) }
        ensures err { IfErr result (λ room. MissesTurn T.turns T.basis (view seat.old) (view seat.new)) }
        ensures back { IfErr result (λ room. room.0 ≡ job) }
    {
        let number = seat.number;
        let ticket = self.draw(rt, &mut seat.seat);
        self.wait(rt, &mut seat.seat, ticket);
        self.serve(&mut seat.seat, ticket, job, number)
    }

    /// Joins two seats to one, which keeps the number of `into`, what both had seen, and the turns of both. It takes no memory.
    pub fn join(&self, into: &mut FrontSeat<T>, from: FrontSeat<T>)
        requires into { IsSeatOf T.basis self.now into.old }
        requires from { IsSeatOf T.basis self.now from }
        ensures seat { IsSeatOf T.basis self.now into.new }
        ensures joined { JoinsViews (view into.old) (view from) (view into.new) }
    {
        let FrontSeat { seat, number: _ } = from;
        self.meet(&mut into.seat, seat);
    }

    /// The value, once all seats are joined to one.
    pub fn close(self, seat: FrontSeat<T>) -> T
        requires seat { IsSeatOf T.basis self seat }
        requires all { SpeaksForAll self seat }
        ensures { IsClosed T.turns T.basis T.by (basis_of T.basis self) (seats_of self) (view seat) result }
    {
        let Front { table } = self;
        let FrontSeat { seat, number: _ } = seat;
        let mut closed = table.close_with(seat);
        let value = closed.take(0);
        closed.free();
        value
    }

    // Draws the next ticket.
    fn draw<R: Wait>(&self, rt: &R, seat: &mut TableSeat<T>) -> u64
        requires table { seat.old.table_id ≡ self.now.table.shared.table_id }
        requires idle { seat.old.me.0.stage ≡ Idle }
        ensures table { seat.new.table_id ≡ seat.old.table_id }
        ensures low { result < 2 ^ 62 }
        ensures view { seat.new.me ≡ (view_at Waiting result seat.old.me.0.seen seat.old.me.0.mine seat.old.me.0, seat.old.me.1) }
    {
        for _ in rt.forever() {
            if let Some(ticket) = self.try_draw(seat) {
                return ticket;
            }
        }
        unreachable!()
    }

    // Draws the next ticket, unless another seat draws it first, or none is left.
    fn try_draw(&self, seat: &mut TableSeat<T>) -> Option<u64>
        requires table { seat.old.table_id ≡ self.now.table.shared.table_id }
        requires idle { seat.old.me.0.stage ≡ Idle }
        ensures table { seat.new.table_id ≡ seat.old.table_id }
        ensures low { IfSome result (λ ticket. ticket < 2 ^ 62) }
        ensures view { IfSome result (λ ticket. seat.new.me ≡ (view_at Waiting ticket seat.old.me.0.seen seat.old.me.0.mine seat.old.me.0, seat.old.me.1)) }
        ensures none { result ≡ None → seat.new.me ≡ seat.old.me }
    {
        let shared = &self.table.shared;
        let ticket = shared.peek(TICKETS);
        if ticket < LAST {
            let found = shared.compare_exchange::<Draw>(seat, TICKETS, ticket, ticket + 1);
            return if found == ticket { Some(ticket) } else { None };
        }
        thread::yield_now();
        None
    }

    // Waits until the ticket is served: looks a few times, then parks.
    fn wait<R: Wait>(&self, rt: &R, seat: &mut TableSeat<T>, ticket: u64)
        requires table { seat.old.table_id ≡ self.now.table.shared.table_id }
        requires waits { (seat.old.me.0.stage ≡ Waiting) × (seat.old.me.0.ticket ≡ ticket) }
        ensures table { seat.new.table_id ≡ seat.old.table_id }
        ensures view { seat.new.me ≡ (view_at Served ticket seat.old.me.0.seen seat.old.me.0.mine seat.old.me.0, seat.old.me.1) }
    {
        if self.spin(seat, ticket) {
            return;
        }
        for _ in rt.forever() {
            if self.look(rt, seat, ticket) {
                return;
            }
        }
        unreachable!()
    }

    // Looks whether the ticket is served, and parks where it is not.
    fn look<R: Wait>(&self, rt: &R, seat: &mut TableSeat<T>, ticket: u64) -> bool
        requires table { seat.old.table_id ≡ self.now.table.shared.table_id }
        requires waits { (seat.old.me.0.stage ≡ Waiting) × (seat.old.me.0.ticket ≡ ticket) }
        ensures table { seat.new.table_id ≡ seat.old.table_id }
        ensures served { result ≡ true → seat.new.me ≡ (view_at Served ticket seat.old.me.0.seen seat.old.me.0.mine seat.old.me.0, seat.old.me.1) }
        ensures waits { result ≡ false → seat.new.me ≡ seat.old.me }
    {
        let shared = &self.table.shared;
        let serving = shared.load::<Look>(seat, SERVING);
        if serving == ticket {
            return true;
        }
        shared.park(rt, SERVING, (serving % (1 << 32)) as u32);
        false
    }

    // Looks a few times whether the ticket is served.
    fn spin(&self, seat: &mut TableSeat<T>, ticket: u64) -> bool
        requires table { seat.old.table_id ≡ self.now.table.shared.table_id }
        requires waits { (seat.old.me.0.stage ≡ Waiting) × (seat.old.me.0.ticket ≡ ticket) }
        ensures table { seat.new.table_id ≡ seat.old.table_id }
        ensures served { result ≡ true → seat.new.me ≡ (view_at Served ticket seat.old.me.0.seen seat.old.me.0.mine seat.old.me.0, seat.old.me.1) }
        ensures waits { result ≡ false → seat.new.me ≡ seat.old.me }
    {
        for _ in 0..LOOKS {
            let serving = self.table.shared.load::<Look>(seat, SERVING);
            if serving == ticket {
                return true;
            }
            hint::spin_loop();
        }
        false
    }

    // Takes the value, runs the job on it, gives it back and lets the next seat in.
    fn serve<J: Job<T>>(
        &self,
        seat: &mut TableSeat<T>,
        ticket: u64,
        job: J,
        number: u32,
    ) -> Result<J::Answer, NoRoom<J>>
        requires table { seat.old.table_id ≡ self.now.table.shared.table_id }
        requires low { ticket < 2 ^ 62 }
        requires served { (seat.old.me.0.stage ≡ Served) × (seat.old.me.0.ticket ≡ ticket) × (seat.old.me.1 ≡ []) }
        requires number { seat.old.me.0.number ≡ number }
        requires can { (y : T) → seat.old.me.0.basis ≡ Some (T.basis y) → J.can job (T.basis y) seat.old.me.0.seen }
        ensures table { seat.new.table_id ≡ seat.old.table_id }
        ensures empty { seat.new.me.1 ≡ [] }
        ensures knows { KnowsItsTurns T.by seat.new.me.0 }
        ensures ok { IfOk result (λ answer. MakesTurn T.turns T.basis T.by (J.done job) seat.old.me.0 answer seat.new.me.0) }
        ensures err { IfErr result (λ room. MissesTurn T.turns T.basis seat.old.me.0 seat.new.me.0) }
        ensures back { IfErr result (λ room. room.0 ≡ job) }
    {
        let shared = &self.table.shared;
        shared.load::<Take>(seat, SERVING);
        let (answer, count) = self.run(seat, job, number);
        match answer {
            Ok(answer) => {
                shared.store::<Raise>(seat, MADE, count);
                self.leave(seat, ticket);
                Ok(answer)
            }
            Err(room) => {
                self.leave(seat, ticket);
                Err(room)
            }
        }
    }

    // Runs the job on the value that the seat holds, and says how many turns the value has then.
    fn run<J: Job<T>>(
        &self,
        seat: &mut TableSeat<T>,
        job: J,
        number: u32,
    ) -> (Result<J::Answer, NoRoom<J>>, u64)
        requires table { seat.old.table_id ≡ self.now.table.shared.table_id }
        requires holds { (y : T) × (seat.old.me.1 ≡ (0, y) ∷ []) × J.can job (T.basis y) (T.turns y) }
        ensures table { seat.new.table_id ≡ seat.old.table_id }
        ensures runs { RunsJob T.turns T.basis (λ b old new. IfOk result.0 (λ answer. AddsTurn T.by number (J.done job b) old answer new) × IfErr result.0 (λ room. (room.0 ≡ job) × (new ≡ old))) seat.old.me result.1 seat.new.me }
    {
        let value = seat.slot_mut(&self.table.shared, 0);
        let answer = job.run(value, number);
        let count = value.turn_count();
        (answer, count)
    }

    // Gives the value back, and lets the next seat in.
    fn leave(&self, seat: &mut TableSeat<T>, ticket: u64)
        requires table { seat.old.table_id ≡ self.now.table.shared.table_id }
        requires low { ticket < 2 ^ 62 }
        requires has { (seat.old.me.0.stage ≡ Holding) × (seat.old.me.0.ticket ≡ ticket) }
        requires value { (y : T) × (seat.old.me.1 ≡ (0, y) ∷ []) × (T.turns y ≡ seat.old.me.0.seen) × (seat.old.me.0.basis ≡ Some (T.basis y)) }
        ensures table { seat.new.table_id ≡ seat.old.table_id }
        ensures view { seat.new.me ≡ (view_at Idle 0 seat.old.me.0.seen seat.old.me.0.mine seat.old.me.0, []) }
        ensures knows { KnowsItsTurns T.by seat.new.me.0 }
    {
        let shared = &self.table.shared;
        shared.load::<Return>(seat, SERVING);
        shared.store::<Pass>(seat, SERVING, ticket + 1);
        self.wake(ticket + 1);
    }

    // Wakes the seats that wait, where a ticket behind the one that is served now was drawn. Whoever draws one later looks
    // later, too, and so does not park on what was served before.
    fn wake(&self, serving: u64) {
        let shared = &self.table.shared;
        if shared.peek(TICKETS) > serving {
            shared.wake_all(SERVING);
        }
    }

    // A front with one seat, which speaks for all numbers.
    fn with_one_seat(
        alloc: Global,
        value: T,
        seats: u32,
    ) -> Result<(Front<T>, TableSeat<T>), AllocError>
        requires seats { 0 < seats }
        requires empty { T.turns value ≡ [] }
        ensures front { IfOk result (λ made. (basis_of T.basis made.0 ≡ T.basis value) × (seats_of made.0 ≡ seats)) }
        ensures seat { IfOk result (λ made. (made.1.table_id ≡ made.0.table.shared.table_id) × (made.1.me ≡ (dealer_view (T.basis value) seats seats, []))) }
    {
        let plan = Plan {
            value: Snapshot::of(&value),
            seats,
        };
        let slots = list_of_one(alloc, value)?;
        match Table::new(alloc, &[0, 0, 0], slots, &plan) {
            Ok((table, seat)) => Ok((Front { table }, seat)),
            Err(_) => Err(AllocError),
        }
    }

    // Splits the seat until each number has one. The greatest number comes first.
    fn deal(
        &self,
        mut seat: TableSeat<T>,
        mut dealt: Vec<FrontSeat<T>>,
        seats: u32,
    ) -> Vec<FrontSeat<T>>
        requires some { 0 < seats }
        requires room { (dealt.items ≡ []) × (vec_capacity dealt ≡ seats) }
        requires count { seats_of self.now ≡ seats }
        requires seat { (seat.table_id ≡ self.now.table.shared.table_id) × (seat.me ≡ (dealer_view (basis_of T.basis self.now) seats seats, [])) }
        ensures views { map (λ s. s.seat.me.0) result.items ≡ dealt_views (basis_of T.basis self.now) seats seats }
        ensures seats { All (λ s. IsSeatOf T.basis self.now s) result.items }
    {
        let mut number = seats - 1;
        while 0 < number {
            let other = self.table.shared.split_seat::<Deal>(&mut seat);
            dealt.push_reserved(FrontSeat::new(other, number));
            number -= 1;
        }
        dealt.push_reserved(FrontSeat::new(seat, 0));
        dealt
    }

    // Joins a seat to another, and compares what both had seen.
    fn meet(&self, into: &mut TableSeat<T>, from: TableSeat<T>)
        requires into { (into.old.table_id ≡ self.now.table.shared.table_id) × (into.old.me.1 ≡ []) × (into.old.me.0.stage ≡ Idle) }
        requires from { (from.table_id ≡ self.now.table.shared.table_id) × (from.me.1 ≡ []) × (from.me.0.stage ≡ Idle) }
        ensures table { into.new.table_id ≡ into.old.table_id }
        ensures empty { into.new.me.1 ≡ [] }
        ensures joined { JoinsViews into.old.me.0 from.me.0 into.new.me.0 }
        ensures knows { KnowsItsTurns T.by into.new.me.0 }
    {
        let shared = &self.table.shared;
        shared.join_seat::<Meet>(into, from);
        shared.load::<Compare>(into, TICKETS);
    }
}
