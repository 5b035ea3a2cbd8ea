//! What the lines of a trace are as messages of a protocol, as text.

ghost use Rattle.std.specs.Prelude.{◌≡◌, ◌++◌, IfOk, OnOk, string_bytes};
ghost use Rattle.echo_base.specs.Answer.{IsAnswer};
ghost use Rattle.report_text.specs.Lines.{ended};
ghost use Rattle.report_text.specs.Show.{Shown, message_of, message_line, refusal_line, shown, line_text, shown_text};

use case_form::{TraceKind, TraceLine};
use device_types::Octets;
use echo_base::{Bad, OutOfMemory, Refusal, encode_hex};
use entry_edge::decode;
use std::alloc::Global;

/// A message that a line of a trace may be.
pub(crate) trait TraceMessage: Sized + Drop {
    /// What octets are, and what is told of a message.
    ghost protocol: { Shown Self };

    /// The messages that can be written.
    ghost is_right: { Self → Type 0 };

    /// Reads the message that the octets are.
    fn read(alloc: Global, octets: &[u8]) -> Result<Self, Bad>
        ensures message { IsAnswer (protocol.read octets.now) result }
        ensures right { IfOk result is_right };

    /// Puts the name of the message behind a text.
    fn put_name(&self, text: &mut String) -> Result<(), OutOfMemory>
        ensures { OnOk result (string_bytes text.new ≡ string_bytes text.old ++ protocol.name self.now) };

    /// The octets with which the message is written.
    fn write(&self, alloc: Global) -> Result<Octets, OutOfMemory>
        requires { is_right self.now }
        ensures { IfOk result (λ octets. octets ≡ protocol.octets self.now) };
}

/// Reads the message whose octets a line of a trace has in hexadecimal digits: BadHex, and the refusals of reading.
#[tactic(auto, unfolding(crate::specs::Show::message_of))]
fn read_text<M: TraceMessage>(alloc: Global, text: &[u8]) -> Result<M, Bad>
    ensures message { IsAnswer (message_of M.protocol text.now) result }
    ensures right { IfOk result M.is_right }
{
    let octets = decode(alloc, text)?;
    M::read(alloc, octets.octets())
}

/// Puts the line of a message behind a text: its name and the octets with which it is written.
fn put_message<M: TraceMessage>(
    alloc: Global,
    text: &mut String,
    line: u32,
    message: &M,
) -> Result<(), OutOfMemory>
    requires { M.is_right message.now }
    ensures { OnOk result (string_bytes text.new ≡ string_bytes text.old ++ ended (message_line line (M.protocol.name message.now) (M.protocol.octets message.now))) }
{
    write!(text, "line {line} ")?;
    message.put_name(text)?;
    let octets = message.write(alloc)?;
    let digits = encode_hex(alloc, octets.octets())?;
    writeln!(text, " {digits}")
}

/// Puts the line of a refusal behind a text.
fn put_refusal(text: &mut String, line: u32, refusal: Refusal) -> Result<(), OutOfMemory>
    ensures { OnOk result (string_bytes text.new ≡ string_bytes text.old ++ ended (refusal_line line refusal)) }
{
    writeln!(text, "line {line} refused {refusal}")
}

/// Puts the line that tells a message of a trace behind a text, or why it is refused.
fn put_text<M: TraceMessage>(
    alloc: Global,
    text: &mut String,
    line: u32,
    message: &[u8],
) -> Result<(), OutOfMemory>
    ensures { OnOk result (string_bytes text.new ≡ string_bytes text.old ++ shown M.protocol line (message_of M.protocol message.now)) }
{
    match read_text::<M>(alloc, message) {
        Ok(message) => put_message(alloc, text, line, &message),
        Err(Bad::Refused(refusal)) => put_refusal(text, line, refusal),
        Err(Bad::OutOfMemory) => Err(OutOfMemory),
    }
}

/// Puts what tells a line of a trace behind a text: a notice is passed over.
fn put_line<M: TraceMessage>(
    alloc: Global,
    text: &mut String,
    line: &TraceLine,
) -> Result<(), OutOfMemory>
    ensures { OnOk result (string_bytes text.new ≡ string_bytes text.old ++ line_text M.protocol line.now) }
{
    match &line.kind {
        TraceKind::Pdu { text: message, .. } => {
            put_text::<M>(alloc, text, line.line, message.octets())
        }
        TraceKind::Data { .. } => Ok(()),
    }
}

/// What the lines of a trace are as such messages: for each that is no notice a line `line LINE NAME HEX`, with the message as it is
/// written, or `line LINE refused ` and the refusal, which is BadHex or that of reading.
pub(crate) fn shown_text<M: TraceMessage>(
    alloc: Global,
    trace: &[TraceLine],
) -> Result<Octets, OutOfMemory>
    ensures { IfOk result (λ text. text ≡ shown_text M.protocol trace.now) }
{
    let mut text = String::new(alloc);
    for line in trace {
        put_line::<M>(alloc, &mut text, line)?;
    }
    Ok(Octets::from(text.into_bytes()))
}
