//! Tests of the messages of the peers: what no clause says of them. There is nothing else here.
#![tactic(auto)]

#[cfg(test)]
mod calls;
#[cfg(test)]
mod changes;
#[cfg(test)]
mod cuts;
#[cfg(test)]
mod dia_calls;
#[cfg(test)]
mod dia_changed;
#[cfg(test)]
mod dia_cut;
#[cfg(test)]
mod dia_forms;
#[cfg(test)]
mod dia_refused;
#[cfg(test)]
mod dia_sessions;
#[cfg(test)]
mod dia_worked;
#[cfg(test)]
mod gtp2_calls;
#[cfg(test)]
mod gtp2_changed;
#[cfg(test)]
mod gtp2_cut;
#[cfg(test)]
mod gtp2_forms;
#[cfg(test)]
mod gtp2_refused;
#[cfg(test)]
mod gtp2_worked;
#[cfg(test)]
mod tables;
#[cfg(test)]
mod wire;
