//! Tests of the texts, by their public calls alone: admission of a trace, and the octets of what goes down (`entry_edge_..`), what is printed
//! (`report_text_..`), and made cases (`trace_gen_..`). Each test writes what all cases of a table give into one text, and compares it once with
//! the text that is wanted, which is worked out by hand. There is nothing else here.
#![tactic(auto)]

#[cfg(test)]
mod entry_edge_calls;
#[cfg(test)]
mod entry_edge_downs;
#[cfg(test)]
mod report_text_calls;
#[cfg(test)]
mod report_text_epochs;
#[cfg(test)]
mod report_text_lines;
#[cfg(test)]
mod report_text_peers;
#[cfg(test)]
mod report_text_summaries;
#[cfg(test)]
mod report_text_transcripts;
#[cfg(test)]
mod trace_gen_calls;
