//! A value that threads take turns at, in the order of their tickets. Each turn is written into the value's history, and a seat
//! knows what of the history it has seen and which turns are its own. Fronts in a row have seats that are one seat of each.
#![tactic(auto)]

mod front;
mod fronts;
mod held;
mod row;
mod rule;
mod seat;
mod view;

pub use front::Front;
pub use held::{Held, Job};
pub use row::{Fronts, FrontsSeat};
pub use seat::FrontSeat;
pub use view::{Stage, View};
