//! Thirteen messages of S1AP (3GPP TS 36.413, 9.1) in aligned PER (ITU-T X.691), piece by piece: read exactly, refusals included,
//! and written in one way.
#![tactic(auto)]

mod build;
mod header;
mod laws;
mod pdu;
mod reading;
mod slots;
mod tables;
mod value;
mod writing;

pub use header::{Header, Outcome};
pub use laws::{one_answer, small_is_right, spelled_is_right, written_is_spelled};
pub use pdu::{ErabsDone, ErabsToAdd, ErabsToSetup, Pdu, Tais};
pub use protocol_ies::{IeRow, IeTable};
pub use reading::{read_pieces, receive_pieces};
pub use tables::{MessageKind, header_of, ies_of, is_downlink, kind_with, message_name};
pub use writing::write_pieces;
