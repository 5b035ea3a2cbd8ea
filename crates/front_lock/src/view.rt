//! What a seat knows, and what a front is made with.
use std::collections::LinkedList;
use std::snapshot::Snapshot;

/// How far a seat is in its turn.
pub enum Stage {
    /// It was joined to another seat, and is none any more.
    Spent,
    /// It has no ticket.
    Idle,
    /// It has a ticket, of which it has not seen that it is served.
    Waiting,
    /// Its ticket is served.
    Served,
    /// Its ticket is served, and it has the value.
    Holding,
}

/// What a seat knows. It is plain data that contracts speak of: no value of it is ever made.
pub struct View<X, B> {
    /// How far the seat is in its turn.
    pub stage: Stage,
    /// Its ticket, while it has one.
    pub ticket: u64,
    /// Its own number, from 0.
    pub number: u32,
    /// The front's basis. A spent seat has none.
    pub basis: Option<B>,
    /// With how many seats the front was made.
    pub seats: u32,
    /// The history as far as the seat has seen it, the oldest turn first.
    pub seen: LinkedList<X>,
    /// While two seats are joined: the shorter of what both had seen, until it is compared with the longer.
    pub met: LinkedList<X>,
    /// For each number that the seat speaks for, the turns of that number.
    pub mine: LinkedList<(u32, LinkedList<X>)>,
}

/// What a front is made with: its value at that time, and how many seats.
#[derive(Drop)]
pub struct Plan<T> {
    pub value: Snapshot<T>,
    pub seats: u32,
}
