//! The world of events: what each event of a schedule comes to, and what holds after every list of events.
#![tactic(auto)]

mod answer;
mod apply;
mod effect;
mod event_log;
mod finals;
mod floor;
mod marks;
mod opening;
mod own_floor;
mod push;
mod read;
mod reply;
mod send;
mod settle;
mod settling;
mod stop;
mod take;
mod world;
mod write;

pub use floor::Floor;
pub use own_floor::OwnFloor;
pub use world::World;
