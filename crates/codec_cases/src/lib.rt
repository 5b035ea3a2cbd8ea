//! Tests of the codec: what no clause says of its pieces, its values and its messages. There is nothing else here.
#![tactic(auto)]

#[cfg(test)]
mod aper_fields_reading;
#[cfg(test)]
mod aper_fields_writing;
#[cfg(test)]
mod s1ap_ies_tables;
#[cfg(test)]
mod s1ap_ies_values;
#[cfg(test)]
mod s1ap_messages_changed;
#[cfg(test)]
mod s1ap_messages_damaged;
#[cfg(test)]
mod s1ap_messages_long;
#[cfg(test)]
mod s1ap_messages_orders;
#[cfg(test)]
mod s1ap_messages_refused;
#[cfg(test)]
mod s1ap_messages_uplink;
#[cfg(test)]
mod s1ap_messages_usual;
#[cfg(test)]
mod s1ap_messages_worked;
#[cfg(test)]
mod tables;
