//! What every other crate stands on: octets in and out, refusals, and the statuses of the programs.
#![tactic(auto)]

mod column;
mod hexadecimal;
mod identity;
mod laws;
mod memory;
mod plan;
mod real;
mod reason;
mod refusal;
mod sink;
mod source;
mod status;
mod whole;

pub use column::Column;
pub use hexadecimal::{decode_hex, encode_hex, read_hex};
pub use identity::Identity;
pub use laws::fields_are_exact;
pub use memory::{MemSink, MemSource, SureSource};
pub use plan::Give;
pub use real::{RealSink, RealSource};
pub use reason::{Reason, name_of_number};
pub use refusal::{Bad, Refusal, refused};
pub use sink::{Sink, WriteStep};
pub use source::{ReadStep, Source};
pub use status::Status;
pub use std::alloc::AllocError as OutOfMemory;
pub use whole::{ReadAll, WriteFault, read_all, write_all};
