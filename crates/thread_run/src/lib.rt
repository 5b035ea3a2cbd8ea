//! The top call with threads: a case text is read or made, and taken to its end by a pool of workers; what comes of it is written.
#![tactic(auto)]

mod answer;
mod top;

pub use top::threads_top;
