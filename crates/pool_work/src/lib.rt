//! What a thread of the pool does by itself, over any shared rows and peers: what goes through the channel and by which rule, a
//! worker's work, a call that is brought to its peer, and a device that is taken to its end.
#![tactic(auto)]

mod board;
mod bring;
mod desk;
mod gate;
mod line;
mod lines;
mod runner;
mod seat_store;
mod settle;
mod work;
mod worker;

pub use board::{Bell, Board};
pub use bring::carry;
pub use desk::{Desk, Seats};
pub use gate::{Gate, OpenGate, Point};
pub use line::{Ends, Line, Named, OwnPackets, Packet, Place, another, message_at, send};
pub use lines::{device_behind, marked_device, messages_of};
pub use seat_store::SeatStore;
