//! The lines of a transcript.

ghost use Rattle.std.specs.Prelude.{◌≡◌, ◌++◌, codes, decimal, IfOk, OnOk, string_bytes};
ghost use Rattle.case_form.specs.Event.{lane_word};
ghost use Rattle.report_text.specs.Lines.{ended};
ghost use Rattle.report_text.specs.Transcript.{answer_text, transcript_line};

use case_form::LaneWord;
use device_types::{EventAnswer, Lane, Octets};
use echo_base::OutOfMemory;
use itoa::Buffer;
use std::alloc::Global;

/// Puts a number behind a text, in decimal.
fn put_number(text: &mut String, number: u64) -> Result<(), OutOfMemory>
    ensures { OnOk result (string_bytes text.new ≡ string_bytes text.old ++ decimal number) }
{
    text.push_str(Buffer::new().format(number))
}

/// Puts a word behind a text, and a number behind that.
fn put_counted(text: &mut String, word: &str, number: u64) -> Result<(), OutOfMemory>
    ensures { OnOk result (string_bytes text.new ≡ string_bytes text.old ++ word.now ++ decimal number) }
{
    text.push_str(word)?;
    put_number(text, number)
}

/// Puts a word behind a text, a number behind that, and an LF.
fn put_counted_end(text: &mut String, word: &str, number: u64) -> Result<(), OutOfMemory>
    ensures { OnOk result (string_bytes text.new ≡ string_bytes text.old ++ word.now ++ ended (decimal number)) }
{
    put_counted(text, word, number)?;
    text.push_str("\n")
}

/// Puts a word, a lane and the number of a call of it behind a text, and an LF.
fn put_call(text: &mut String, word: &str, lane: Lane, k: u64) -> Result<(), OutOfMemory>
    ensures { OnOk result (string_bytes text.new ≡ string_bytes text.old ++ word.now ++ lane_word lane ++ codes " " ++ ended (decimal k)) }
{
    text.push_str(word)?;
    text.push_str(LaneWord(lane).word())?;
    put_counted_end(text, " ", k)
}

/// Puts behind a text what an event comes to, between `: ` and an LF.
fn put_answer(text: &mut String, answer: &EventAnswer) -> Result<(), OutOfMemory>
    ensures { OnOk result (string_bytes text.new ≡ string_bytes text.old ++ codes ": " ++ ended (answer_text answer.now)) }
{
    match *answer {
        EventAnswer::Sent => text.push_str(": sent\n"),
        EventAnswer::Taken => text.push_str(": taken\n"),
        EventAnswer::Stopped => text.push_str(": stopped\n"),
        EventAnswer::Pushed => text.push_str(": pushed\n"),
        EventAnswer::VoidReplica => text.push_str(": void replica\n"),
        EventAnswer::VoidWindow => text.push_str(": void window\n"),
        EventAnswer::VoidLink => text.push_str(": void link\n"),
        EventAnswer::VoidHand => text.push_str(": void hand\n"),
        EventAnswer::VoidOutbox => text.push_str(": void outbox\n"),
        EventAnswer::Ready(version) => put_counted_end(text, ": ready ", version),
        EventAnswer::Waiting(lane, k) => put_call(text, ": waiting ", lane, k),
        EventAnswer::Repeat(n) => put_counted_end(text, ": repeat ", n),
        EventAnswer::Settled(n) => put_counted_end(text, ": settled ", n),
        EventAnswer::Ahead(n) => put_counted_end(text, ": ahead ", n),
        EventAnswer::OldCall(lane, k) => put_call(text, ": old ", lane, k),
        EventAnswer::Committed(version) => put_counted_end(text, ": committed ", version),
        EventAnswer::Stale { read, current } => {
            put_counted(text, ": stale ", read)?;
            put_counted_end(text, " ", current)
        }
        EventAnswer::Acked(n) => put_counted_end(text, ": acked ", n),
        EventAnswer::Accepted(k) => put_counted_end(text, ": accepted ", k),
        EventAnswer::Old(n) => put_counted_end(text, ": old ", n),
    }
}

/// Puts the line of event number `index` in a transcript behind a text, with the LF that ends it: `event INDEX: ` and what the event
/// comes to, its numbers in decimal.
pub fn put_transcript_line(
    text: &mut String,
    index: u64,
    answer: &EventAnswer,
) -> Result<(), OutOfMemory>
    ensures { OnOk result (string_bytes text.new ≡ string_bytes text.old ++ transcript_line index answer.now) }
{
    put_counted(text, "event ", index)?;
    put_answer(text, answer)
}

/// The line of event number `index` in a transcript, as `put_transcript_line` puts it.
pub fn transcript_line(
    alloc: Global,
    index: u64,
    answer: &EventAnswer,
) -> Result<Octets, OutOfMemory>
    ensures { IfOk result (λ line. line ≡ transcript_line index answer.now) }
{
    let mut line = String::new(alloc);
    put_transcript_line(&mut line, index, answer)?;
    Ok(Octets::from(line.into_bytes()))
}
