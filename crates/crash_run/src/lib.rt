//! What a disk keeps that fails: the entries of the machines alone are committed to a store on a disk in memory, which fails after so
//! many calls, and what it kept is opened again. What came of it is a text.
#![tactic(auto)]

mod course;
mod kept;
mod maker;
mod peers;
mod runs;
mod text;

pub use maker::AloneMaker;
pub use text::crash_text;
