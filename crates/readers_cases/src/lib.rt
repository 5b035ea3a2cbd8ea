//! Tests of the readers, by their public calls alone: rows of subscribers and their table (`subs_table_..`), NAS messages
//! (`nas_kinds_..`), case texts (`case_form_..`) and the words of a command line (`command_words_..`). Each test writes what all cases
//! of a table give into one text, and compares it once with the text that is wanted, which is worked out by hand. There is nothing else here.
#![tactic(auto)]

#[cfg(test)]
mod case_form_calls;
#[cfg(test)]
mod case_form_lines;
#[cfg(test)]
mod command_words_calls;
#[cfg(test)]
mod nas_kinds_calls;
#[cfg(test)]
mod nas_kinds_damaged;
#[cfg(test)]
mod nas_kinds_written;
#[cfg(test)]
mod subs_table_calls;
#[cfg(test)]
mod subs_table_tables;
