//! The calls of the serving gateway and their answers as GTPv2-C (3GPP TS 29.274), both ways.
#![tactic(auto)]

mod calls;
mod content;
mod gtp;
mod header;
mod kind;
mod laws;
mod parts;
mod picking;
mod reading;
mod tables;
mod writing;

pub use calls::{answer_of, call_of};
pub use gtp::{Gtp, GtpBody};
pub use laws::{one_answer, written_is_read};
pub use reading::read_gtp;
pub use writing::write_gtp;
