//! Tests of agents, rows, stores, replicas and peers: what no clause says of them, through public calls alone. They stand in a crate
//! of their own, so that the crates below are proved without them, and a test that is changed proves this crate alone. There is
//! nothing else here.
//!
//! Each module but `words` has the calls of one crate. A test writes what came of each case into one text, which is compared once
//! with the table of the cases.
#![tactic(auto)]

#[cfg(test)]
mod agent_order_calls;
#[cfg(test)]
mod agent_resend_calls;
#[cfg(test)]
mod effect_outbox_calls;
#[cfg(test)]
mod peer_calls_calls;
#[cfg(test)]
mod peer_gateway_calls;
#[cfg(test)]
mod peer_subscriber_calls;
#[cfg(test)]
mod replica_worker_calls;
#[cfg(test)]
mod session_row_calls;
#[cfg(test)]
mod session_store_calls;
#[cfg(test)]
mod words;
