//! Tests of the core as a whole: what no clause says, seen over all crates together. There is nothing else here.
#![tactic(auto)]

#[cfg(test)]
mod case_texts;
#[cfg(test)]
mod crashes;
#[cfg(test)]
mod damaged;
#[cfg(test)]
mod events;
#[cfg(test)]
mod faults;
#[cfg(test)]
mod made_cases;
#[cfg(test)]
mod messages;
#[cfg(test)]
mod runs;
#[cfg(test)]
mod schedules;
#[cfg(test)]
mod stops;
#[cfg(test)]
mod worlds;
