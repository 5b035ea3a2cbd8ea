//! A value whose turns add numbers, behind a front: the tests of the front take it, and its bench.
#![tactic(auto)]

mod tally;
mod threads;

pub use tally::{Add, Addition, Repeat, Tally};
pub use threads::{close_all, tally_of_front};
