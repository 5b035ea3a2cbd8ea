//! What containers of S1AP IEs are made of (3GPP TS 36.413, 9.3.5 to 9.3.7, ProtocolIE-Container), whatever the values of the IEs
//! are: lists of items, tables of IEs, a row each, and a slot for the value of each row.
#![tactic(auto)]

mod criticality;
mod item;
mod list;
mod slots;
mod tables;

pub use criticality::Criticality;
pub use item::{begin_item, read_item};
pub use list::{FoundList, Item, MOST_ITEMS, find_list, write_list};
pub use slots::{Slots, count_of};
pub use tables::{
    IeRow, IeTable, NO_ROW, ignore, optional, optional_ignore, place_of, reject, rows,
};
