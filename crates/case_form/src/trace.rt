//! The lines of a trace.

ghost use Rattle.std.specs.Prelude.{◌≡◌, option_map};
ghost use Rattle.echo_base.specs.Reading.{GivesSome, GivesSomeBy};
ghost use Rattle.subs_table.specs.Kinds as kinds;
ghost use Rattle.case_form.specs.Trace.{text_at, sent_of, data_at, imsi_at, notice_of, kind_of};

use crate::case::{PduText, TraceKind};
use crate::number::are_digits;
use crate::words::Words;
use std::str;
use subs_table::fifteen_digits;

/// Reads a word that is not empty.
#[tactic(auto, unfolding(crate::specs::Trace::text_at))]
fn read_text<'a>(words: &mut Words<'a>) -> Option<&'a [u8]>
    ensures { GivesSomeBy (λ text. text.now) result words.new (text_at words.old) }
{
    let text = words.word()?;
    if text.is_empty() {
        return None;
    }
    Some(text)
}

/// The base station that a line of a trace names, and the text behind it.
#[tactic(auto, unfolding(crate::specs::Trace::sent_at, crate::specs::Trace::sent_of))]
fn read_sent(line: &[u8]) -> Option<(u16, &[u8])>
    ensures { option_map (λ sent. (sent.0, sent.1.now)) result ≡ sent_of line.now }
{
    let mut words = Words::new(line);
    let station = words.number(u32::from(u16::MAX))?;
    let text = read_text(&mut words)?;
    if !words.is_at_end() {
        return None;
    }
    Some((station as u16, text))
}

/// Reads the word with which a notice begins.
#[tactic(auto, unfolding(crate::specs::Trace::data_at))]
fn read_data(words: &mut Words) -> Option<()>
    ensures { GivesSome result words.new (data_at words.old) }
{
    match words.word()? {
        b"data" => Some(()),
        _ => None,
    }
}

/// The number of a word of 15 decimal digits.
fn imsi_of(word: &[u8]) -> Option<u64>
    ensures { result ≡ kinds.number_of 15 word.now }
{
    if !are_digits(word) {
        return None;
    }
    let Ok(text) = str::from_utf8(word) else {
        return None;
    };
    fifteen_digits(text)
}

/// Reads an IMSI.
#[tactic(auto, unfolding(crate::specs::Trace::imsi_at))]
fn read_imsi(words: &mut Words) -> Option<u64>
    ensures { GivesSome result words.new (imsi_at words.old) }
{
    imsi_of(words.word()?)
}

/// The IMSI that a notice names.
#[tactic(auto, unfolding(crate::specs::Trace::notice_at, crate::specs::Trace::notice_of))]
fn read_notice(line: &[u8]) -> Option<u64>
    ensures { result ≡ notice_of line.now }
{
    let mut words = Words::new(line);
    read_data(&mut words)?;
    let imsi = read_imsi(&mut words)?;
    if !words.is_at_end() {
        return None;
    }
    Some(imsi)
}

/// What a line of a trace says, if it is one.
#[tactic(auto, unfolding(crate::specs::Trace::kind_of))]
pub(crate) fn read_kind(line: &[u8]) -> Option<TraceKind<'_>>
    ensures { result ≡ kind_of line.now }
{
    if let Some((station, text)) = read_sent(line) {
        let text = PduText::new(text);
        return Some(TraceKind::Pdu { station, text });
    }
    let imsi = read_notice(line)?;
    Some(TraceKind::Data { imsi })
}
