//! Tests of the base: what no clause of `echo_base` and `device_types` says. There is nothing else here.
#![tactic(auto)]

#[cfg(test)]
mod device_types_calls;
#[cfg(test)]
mod echo_base_calls;
