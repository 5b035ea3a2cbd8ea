//! Thirteen messages of S1AP (3GPP TS 36.413, 9.1) in aligned PER (ITU-T X.691): read exactly, refusals included, and written in
//! one way. What has its usual form goes octet by octet, and all else piece by piece.
#![tactic(auto)]

mod reading;
mod usual;
mod writing;

pub use reading::{read_pdu, read_uplink};
pub use s1ap_pdu::{
    ErabsDone, ErabsToAdd, ErabsToSetup, IeRow, IeTable, MessageKind, Pdu, Tais, ies_of,
    message_name, one_answer, read_pieces, small_is_right, spelled_is_right, write_pieces,
    written_is_spelled,
};
pub use usual::{read_usual, write_usual};
pub use writing::write_pdu;
