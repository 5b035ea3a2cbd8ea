//! Admission of a trace.

ghost use Rattle.std.specs.Prelude.{◌≡◌, ◌-◌, ◌≤◌, ◌∷◌, ◌++◌, [], ℕ, List, length, replicate, All, OnOk, IfOk, slice_index_or, slice_set};
ghost use Rattle.device_types.specs.Line.{IsLine};
ghost use Rattle.device_types.specs.Numbers.{IsWithin};
ghost use Rattle.case_form.specs.Said.{HasStation};
ghost use Rattle.entry_edge.specs.Trace.{Turn, turn, history, and_message, book_of, refused_of};
ghost use Rattle.entry_edge.specs.Kept.{IsSeen};

use crate::bindings::Bindings;
use crate::check::{Taken, check};
use case_form::TraceLine;
use device_types::{Book, Message, Messages};
use echo_base::{Bad, OutOfMemory, Refusal};
use std::alloc::Global;
use subs_table::SubsTable;

/// A line that is refused.
#[derive(Clone, Copy, Debug, PartialEq, Eq)]
pub struct RefusedLine {
    /// The number of the line in the case text, from 1.
    pub line: u32,
    /// Why.
    pub refusal: Refusal,
}

/// What a trace gives.
#[derive(Debug, Drop)]
pub struct Admitted {
    /// The messages of each device.
    pub book: Book,
    /// The lines that are refused, in order.
    pub refused: Vec<RefusedLine>,
}

/// What is kept of the lines so far.
#[derive(Debug, Drop)]
pub struct Admission {
    pub bindings: Bindings,
    pub lines: Vec<Messages>,
    pub refused: Vec<RefusedLine>,
    /// The octets of the last line: memory that is used again for each.
    pub octets: Vec<u8>,
}

/// Puts what a line says behind a device's messages, with the next number. It fails for want of memory alone.
fn push_message(messages: &mut Messages, t: Taken) -> Result<(), OutOfMemory>
    ensures { OnOk result (messages.new ≡ and_message messages.old t) }
{
    let number = messages.items().len() as u64 + 1;
    let Taken { station, sent, .. } = t;
    messages.push(Message {
        number,
        station,
        enb: sent.enb,
        body: sent.body,
    })
}

/// Puts what a line says behind the messages of the device that it is from. It fails for want of memory alone.
fn add_message(lines: &mut Vec<Messages>, t: Taken) -> Result<(), OutOfMemory>
    requires { IsWithin (length lines.old.items) t.device.0 }
    ensures { OnOk result (lines.new.items ≡ slice_set lines.old.items (t.device.0 - 1)
        (and_message (slice_index_or lines.old.items (t.device.0 - 1) []) t)) }
{
    let messages = &mut lines[t.device.index()];
    push_message(messages, t)
}

/// Notes a line that is refused, behind those before it. It fails for want of memory alone.
fn add_refused(refused: &mut Vec<RefusedLine>, line: RefusedLine) -> Result<(), OutOfMemory>
    ensures { OnOk result (refused.new.items ≡ refused.old.items ++ line ∷ []) }
{
    refused.push(line)?;
    Ok(())
}

/// A list of messages for each of `devices` devices, with nothing in it.
fn no_lines(alloc: Global, devices: u32) -> Result<Vec<Messages>, OutOfMemory>
    ensures { IfOk result (λ lines. lines.items ≡ replicate devices []) }
{
    let mut lines = Vec::new(alloc);
    for _i in 0..devices {
        lines.push(Messages::new(alloc))?;
    }
    Ok(lines)
}

/// What is kept before the first line of a trace: no pair is bound, no message and no refusal noted.
fn begin(alloc: Global, table: &SubsTable) -> Result<Admission, OutOfMemory>
    ensures { IfOk result (IsSeen table.now []) }
{
    let devices = table.len();
    Ok(Admission {
        bindings: Bindings::new(alloc, devices)?,
        lines: no_lines(alloc, devices)?,
        refused: Vec::new(alloc),
        octets: Vec::new(alloc),
    })
}

/// Takes the next line of a trace: an admitted one is noted in the pairs and put behind its device's messages, another one is
/// noted as refused. It fails for want of memory alone.
fn take_line(
    alloc: Global,
    table: &SubsTable,
    state: &mut Admission,
    line: &TraceLine,
) -> Result<(), OutOfMemory>
    requires { (H : List Turn) × IsSeen table.now H state.old }
    ensures { (H : List Turn) → IsSeen table.now H state.old → OnOk result (IsSeen table.now (turn table.now H line.now) state.new) }
{
    match check(alloc, &mut state.octets, table, &state.bindings, line) {
        Ok(t) => {
            state.bindings.note(&t)?;
            add_message(&mut state.lines, t)?;
            Ok(())
        }
        Err(Bad::Refused(refusal)) => {
            let refused = RefusedLine {
                line: line.line,
                refusal,
            };
            add_refused(&mut state.refused, refused)?;
            Ok(())
        }
        Err(Bad::OutOfMemory) => Err(OutOfMemory),
    }
}

/// The book of these messages, those of device `d` at place `d - 1`.
fn bound_up(alloc: Global, lines: Vec<Messages>) -> Result<Book, OutOfMemory>
    requires { All IsLine lines.items }
    ensures { IfOk result (λ book. book ≡ lines.items) }
{
    let mut book = Book::new(alloc);
    for line in lines {
        book.push(line)?;
    }
    Ok(book)
}

/// Goes through a trace in order. Each line is admitted to the book, as the next message of its device, or refused for the first
/// check that it fails. A notice has the one check UnknownDevice, for an IMSI that is that of no row. A PDU has these: BadHex; the
/// refusals of `read_pdu`; WrongDirection at octet 1 for a message that an MME sends; for an INITIAL UE MESSAGE and an UPLINK NAS
/// TRANSPORT the refusals of `read_nas`, then NasKind with the message type where the NAS message does not belong there; MissingIe
/// of the S-TMSI, whose id is 96, at the end of the PDU, for a SERVICE REQUEST without it; UnknownDevice for an INITIAL UE MESSAGE
/// whose identity is that of no row; UnknownPair for any other message whose pair of base station and eNB UE S1AP ID is bound to no
/// device, or to one whose number is not the message's MME UE S1AP ID. An admitted INITIAL UE MESSAGE binds its pair to its device
/// and frees the pair that the device had; an admitted UE CONTEXT RELEASE COMPLETE frees its pair. A notice binds nothing, and has
/// the base station and the eNB UE S1AP ID 0. A refused line adds nothing and binds nothing.
pub fn admit(alloc: Global, table: &SubsTable, trace: &[TraceLine]) -> Result<Admitted, OutOfMemory>
    // No base station of a PDU is 0.
    requires { All (λ line. HasStation line.kind) trace.now }
    ensures book { IfOk result (λ a. a.book ≡ book_of (length table.now) (history table.now trace.now)) }
    ensures refused { IfOk result (λ a. a.refused.items ≡ refused_of (history table.now trace.now)) }
    ensures lines { IfOk result (λ a. All IsLine a.book) }
    ensures rows { IfOk result (λ a. length a.book ≡ length table.now) }
    ensures few { IfOk result (λ a. All (λ messages. length messages ≤ length trace.now) a.book) }
{
    let mut state = begin(alloc, table)?;
    for line in trace {
        take_line(alloc, table, &mut state, line)?;
    }
    let Admission { lines, refused, .. } = state;
    Ok(Admitted {
        book: bound_up(alloc, lines)?,
        refused,
    })
}
