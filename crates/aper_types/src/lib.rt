//! Types of ASN.1 (ITU-T X.680) as types of Rust: how a value of each lies in code, is read and written in aligned PER (ITU-T X.691).
#![tactic(auto)]

mod choice;
mod coding;
mod components;
mod laws;
mod named;
mod pieces;
mod sequence;
mod value;

pub use choice::{Choice, Either};
pub use coding::Coding;
pub use components::{Absent, Components, Needed};
pub use laws::{spelled_is_right, written_is_spelled};
pub use named::{Made, Named};
pub use pieces::{BitString, Extensible, Integer, TwoRoots};
pub use sequence::Sequence;
pub use value::{OwnedValue, PlainValue};
