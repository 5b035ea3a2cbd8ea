//! Aligned PER (ITU-T X.691) where every piece begins at an octet: lengths (11.9), numbers (13), octet strings (17), what stands
//! before what an IE contains, and values of S1AP IEs (3GPP TS 36.413, 9.2), in whole octets and by no bit.
#![tactic(auto)]

mod octets;
mod put;
mod values;

pub use octets::{counted, id, ie, number, one, three};
pub use put::{count_len, counted_len, finish, octets_in, put_counted, put_ie, put_number};
pub use values::{caps_of, cgi_of, four, nas_cause, octets_of, radio_cause, stmsi_of, tai_of};
