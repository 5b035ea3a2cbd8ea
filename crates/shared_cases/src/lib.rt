//! Tests of the front, and of the shared store and the shared peers, by public calls alone. There is nothing else here.
#![tactic(auto)]

#[cfg(test)]
mod any_law;
#[cfg(test)]
mod front_turns;
#[cfg(test)]
mod offer_turns;
#[cfg(test)]
mod store_turns;
