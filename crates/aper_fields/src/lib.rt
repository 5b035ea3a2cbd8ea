//! The pieces of aligned PER (ITU-T X.691) that S1AP is spelled with, and the types of ASN.1 (ITU-T X.680) that are made of
//! them: readers that are exact, refusals included, and writers of the one spelling.
#![tactic(auto)]

mod choice;
mod enumerated;
mod extension;
mod laws;
mod ranged;
mod reader;
mod reading;
mod sequence;
mod whole;
mod width;
mod writer;
mod writing;

pub use choice::{read_choice, write_choice};
pub use enumerated::EnumValue;
pub use extension::{read_criticality, read_zero_bit, skip_extensions};
pub use laws::{least_sizes, one_reading, written_is_read};
pub use ranged::Ranged;
pub use reader::BitReader;
pub use reading::{
    close, end, read_bits_fixed, read_enum, read_len, read_octet_string, read_octets_fixed,
    read_open,
};
pub use sequence::{read_present, write_present};
pub use whole::all_or_nothing;
pub use writer::{BitWriter, Mark};
pub use writing::{
    begin_open, end_open, write_bits_fixed, write_enum, write_len, write_octet_string,
    write_octets_fixed, write_open,
};
