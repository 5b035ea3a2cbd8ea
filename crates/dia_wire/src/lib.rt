//! The calls of the subscriber server and their answers as Diameter S6a (RFC 6733; 3GPP TS 29.272), both ways.
#![tactic(auto)]

mod calls;
mod content;
mod dia;
mod header;
mod kind;
mod laws;
mod picking;
mod reading;
mod said;
mod tables;
mod writing;

pub use calls::{ask_of, reply_of};
pub use dia::{Dia, DiaBody};
pub use laws::{one_answer, written_is_read};
pub use reading::read_dia;
pub use writing::write_dia;
