//! The words of a command line: which command they are, with the values of its options.
#![tactic(auto)]

mod command;
mod matches;
mod options;

pub use command::{Command, Protocol, ThreadsCommand, command_of, threads_command_of};
