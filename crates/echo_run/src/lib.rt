//! The top call: a case text is read, and what a command makes of it is written.
#![tactic(auto)]

mod answer;
mod calls;
mod ends;
mod own;
mod replay;
mod summary;
mod top;

pub use own::replay_own;
pub use top::replay_top;
