//! The texts that are printed: what became of the devices, what the lines of a trace are, and how a program ended.
#![tactic(auto)]

mod calls;
mod device;
mod epochs;
mod gateway_calls;
mod messages;
mod server_calls;
mod session;
mod show;
mod status;
mod summary;
mod transcript;
mod whole;

pub use epochs::{epoch_line, merge_line};
pub use gateway_calls::s11_text;
pub use messages::{show_dia_text, show_gtp_text, show_text};
pub use server_calls::s6a_text;
pub use session::session_line;
pub use status::status_line;
pub use summary::{Scheduled, Summary, summary_line};
pub use transcript::{put_transcript_line, transcript_line};
pub use whole::{final_text, put_final_text};
