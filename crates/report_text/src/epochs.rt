//! The lines of a device's streams.

ghost use Rattle.std.specs.Prelude.{◌≡◌, ◌++◌, Some, IfOk, OnOk, string_bytes};
ghost use Rattle.report_text.specs.Epochs.{epoch_text, epoch_line, merge_line};

use device_types::Octets;
use echo_base::OutOfMemory;
use epoch_agents::{EpochAnswer, Merged};
use std::alloc::Global;
use std::fmt;

/// What an event of the streams comes to.
#[derive(Clone, Copy)]
struct EpochText(EpochAnswer);

impl fmt::Display for EpochText {
    ghost output = { λ answer. Some (epoch_text answer.0) };

    fn fmt<W: fmt::Write>(&self, f: &mut fmt::Formatter<W>) -> fmt::Result {
        match self.0 {
            EpochAnswer::Sent => write!(f, "sent"),
            EpochAnswer::VoidWindow => write!(f, "void window"),
            EpochAnswer::VoidLink => write!(f, "void link"),
            EpochAnswer::Repeat(n) => write!(f, "repeat {n}"),
            EpochAnswer::OverAt(n) => write!(f, "over {n}"),
            EpochAnswer::Low(stamp) => write!(f, "low {stamp}"),
            EpochAnswer::Committed(version) => write!(f, "committed {version}"),
            EpochAnswer::Ahead(n) => write!(f, "ahead {n}"),
            EpochAnswer::Old => write!(f, "old"),
            EpochAnswer::Acked(n) => write!(f, "acked {n}"),
            EpochAnswer::Renamed(stamp) => write!(f, "renamed {stamp}"),
            EpochAnswer::Over => write!(f, "over"),
        }
    }
}

/// Puts `event NUMBER: `, what the event came to, and an LF behind a text.
fn put_epoch_line(text: &mut String, number: u64, answer: EpochText) -> Result<(), OutOfMemory>
    ensures { OnOk result (string_bytes text.new ≡ string_bytes text.old ++ epoch_line number answer.0) }
{
    writeln!(text, "event {number}: {answer}")
}

/// The line of event `number` of a device's streams, with the LF that ends it: `event NUMBER: ` and what the event comes to, its
/// numbers in decimal.
pub fn epoch_line(alloc: Global, number: u64, answer: EpochAnswer) -> Result<Octets, OutOfMemory>
    ensures { IfOk result (λ line. line ≡ epoch_line number answer) }
{
    let mut text = String::new(alloc);
    put_epoch_line(&mut text, number, EpochText(answer))?;
    Ok(Octets::from(text.into_bytes()))
}

/// Puts the line of a committed message behind a text.
fn put_merge_line(
    text: &mut String,
    station: u16,
    index: u32,
    entry: Merged,
) -> Result<(), OutOfMemory>
    ensures { OnOk result (string_bytes text.new ≡ string_bytes text.old ++ merge_line station index entry) }
{
    let Merged { stamp, n, .. } = entry;
    writeln!(text, "merge {station} {index} {stamp} {n}")
}

/// The line of a message that the row has committed, with the LF that ends it: `merge STATION INDEX STAMP N`, with the base station of
/// its stream, the stream's place among that station's, the stamp under which it came, and its number in the stream.
pub fn merge_line(
    alloc: Global,
    station: u16,
    index: u32,
    entry: Merged,
) -> Result<Octets, OutOfMemory>
    ensures { IfOk result (λ line. line ≡ merge_line station index entry) }
{
    let mut text = String::new(alloc);
    put_merge_line(&mut text, station, index, entry)?;
    Ok(Octets::from(text.into_bytes()))
}
