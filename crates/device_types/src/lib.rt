//! The values of a device that the crates above share, with the conditions that several of them cite.
//!
//! Octets as a number are so with the first octet highest: the PLMN 208 93 (3GPP TS 36.413, 9.2.3.8), whose octets are 02 f8 39,
//! is 0x02f839, and the IPv4 address 10.45.0.1 is 0x0a2d0001.
#![tactic(auto)]

mod alone_laws;
mod book;
mod cause;
mod down;
mod effect;
mod event;
mod finals;
mod input;
mod key;
mod laws;
mod list_of;
mod look;
mod message;
mod nas_out;
mod no_room;
mod session;
mod shared;
mod short_octets;
mod state;
mod step;
mod step_laws;
mod subscriber;
mod try_copy;

pub use alone_laws::{
    alone_has_both, alone_is_ready, alone_is_sound, alone_is_the_only, alone_takes_each,
};
pub use book::Book;
pub use cause::CauseCode;
pub use down::{Accept, Down, Downs};
pub use effect::{Effect, Effects, GwCall, GwCalls, SubCall, SubCalls};
pub use event::{Event, EventAnswer, Lane};
pub use finals::{DeviceEnd, Finals};
pub use input::{Answer, Input, Offer};
pub use key::Key;
pub use laws::one_more_entry;
pub use list_of::{Areas, ListOf, Octets};
pub use look::Look;
pub use message::{Body, Message, Messages, Side};
pub use nas_out::NasOut;
pub use no_room::NoRoom;
pub use session::{Bearer, Link, Second, Session, Stage};
pub use shared::Shared;
pub use short_octets::ShortOctets;
pub use step::{Entry, Reply, Step};
pub use step_laws::{
    answers_in_range, elsewhere_fits_no_row, listed_areas_are_forbidden, one_row_fits,
    settled_awaits_nothing, step_awaits_one, step_can_be_written, step_keeps_connection,
    step_keeps_ranges, step_makes_few, step_of_row,
};
pub use subscriber::{DeviceId, Subscriber};
pub use try_copy::TryCopy;
