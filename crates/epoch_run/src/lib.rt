//! Drawn events of a device's streams: its messages are cut into streams, and events of these are drawn from a number. What they come
//! to is a text.
#![tactic(auto)]

mod course;
mod drawn;
mod streams;
mod text;

pub use streams::streams_of;
pub use text::device_text;
