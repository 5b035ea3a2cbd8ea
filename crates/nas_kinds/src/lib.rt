//! The messages of EPS mobility management and session management (3GPP TS 24.301): those of a device, each read exactly, refusals
//! included, and those of the network, each written in one way.
#![tactic(auto)]

mod identity;
mod kind;
mod laws;
mod nas_in;
mod reader;
mod reading;
mod writing;

pub use laws::{one_answer, readings_are_exact, types_stand_in_place};
pub use nas_in::NasIn;
pub use reading::read_nas;
pub use writing::write_nas;
