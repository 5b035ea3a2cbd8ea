//! The case text: subscribers, a trace and a schedule in one text of lines.
#![tactic(auto)]

mod case;
mod event;
mod laws;
mod number;
mod printed;
mod reading;
mod section;
mod trace;
mod words;

pub use case::{Case, CaseBad, PduText, TraceKind, TraceLine};
pub use laws::{events_are_exact, trace_lines_are_exact};
pub use printed::{EventLine, LaneWord};
pub use reading::read_case;
