//! Tests of the pool of workers, by public calls alone, and a gate for them that other tests hold their workers by.
#![tactic(auto)]

#[cfg(test)]
mod devices;
#[cfg(test)]
mod finals;
#[cfg(test)]
mod held;
mod holding;
#[cfg(test)]
mod long;

pub use holding::HoldingGate;
