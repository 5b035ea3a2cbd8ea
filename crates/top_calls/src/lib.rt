//! What the top calls share: where a case text comes from, what admission gives of it, the text of its ends and their sums, where a text
//! goes, and the edge of a program.
#![tactic(auto)]

mod admission;
mod no_text;
mod program;
mod sink;
mod source;
mod summary;

pub use admission::{admitted, ends_text};
pub use no_text::NoText;
pub use program::{program_end, program_words};
pub use sink::put_text;
pub use source::{MadeCase, case_text};
pub use summary::summary_text;
