//! Tests of the top call with threads, by public calls alone. There is nothing else here.
#![tactic(auto)]

#[cfg(test)]
mod faults;
#[cfg(test)]
mod held;
#[cfg(test)]
mod runs;
#[cfg(test)]
mod texts;
