//! Agents of one device that share no register: each base station numbers its own streams, and the row alone decides their merge.
#![tactic(auto)]

mod agent;
mod event;
mod every_event;
mod heard;
mod row;
mod stream;
mod world;

pub use event::{EpochAnswer, EpochEvent};
pub use every_event::{low_names_stay_low, merge_keeps_streams};
pub use stream::{Merged, Stream};
pub use world::EpochWorld;
