//! The values of S1AP IEs (3GPP TS 36.413, 9.2), each read exactly, refusals included, and written in one way.
#![tactic(auto)]

mod bearer;
mod bit_rates;
mod cause;
mod cgi;
mod erab_done;
mod erab_to_add;
mod erab_to_setup;
pub mod names;
mod paging;
mod sec_caps;
mod stmsi;
mod tai;
mod ue_ids;

pub use aper_types::{OwnedValue, PlainValue, spelled_is_right, written_is_spelled};
pub use bit_rates::BitRates;
pub use cause::{Cause, cause_roots};
pub use cgi::Cgi;
pub use erab_done::ErabDone;
pub use erab_to_add::ErabToAdd;
pub use erab_to_setup::ErabToSetup;
pub use paging::{read_paging_id, write_paging_id};
pub use protocol_ies::{
    Criticality, FoundList, Item, begin_item, find_list, read_item, write_list,
};
pub use sec_caps::SecCaps;
pub use stmsi::Stmsi;
pub use tai::Tai;
pub use ue_ids::UeIds;
