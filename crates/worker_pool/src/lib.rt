//! The pool of workers: threads that bring each device of a book to its end, over shared rows and shared peers.
#![tactic(auto)]

mod entry;
mod mover;
mod queues;
mod run;
mod start;

pub use pool_work::{Board, Gate, OpenGate, Point};
pub use run::{Ran, run_over, run_pool};
