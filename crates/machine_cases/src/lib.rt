//! Tests of the machine of a device, and of its session as octets: what no clause says, seen through public calls. There is nothing
//! else here.
//!
//! That the code has the step table is proved; that the table is the standard's is what these cases show, each worked out from 3GPP TS 23.401.
#![tactic(auto)]

#[cfg(test)]
mod device_machine_calls;
#[cfg(test)]
mod session_form_calls;
