//! Between the octets of a base station and the messages of devices: which lines of a trace are messages of which devices,
//! and the octets of a message to a device.
#![tactic(auto)]

mod admission;
mod bindings;
mod check;
mod down;
mod laws;
mod sent;

pub use admission::{Admitted, RefusedLine, admit};
pub use check::decode;
pub use down::down_bytes;
pub use laws::{bound_is_last, bound_once, line_admitted, line_refused};
