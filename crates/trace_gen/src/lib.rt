//! Made cases: large valid case texts, each from a number.
#![tactic(auto)]

mod counts;
mod draws;
mod events;
mod made;
mod message;
mod nas;
mod schedule;
mod script;
mod subscribers;
mod trace;

pub use draws::Draws;
pub use made::make_case;
