//! The information elements of GTPv2-C (3GPP TS 29.274, 8), both ways: how they are framed, and the values of those of the gateway's
//! calls.
#![tactic(auto)]

mod elements;
mod frame;
mod header;
mod picking;
mod values;

pub use elements::{
    put_address, put_apn, put_cause, put_fteid, put_head, put_imsi, put_octet, put_qos, put_rates,
};
pub use frame::Ies;
pub use header::put_header;
pub use picking::{found, rejecting};
pub use values::{address, apn, cause, ebi, exactly, fteid, imsi, no_address, qos, rates};
