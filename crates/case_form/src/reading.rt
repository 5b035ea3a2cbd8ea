//! Reading a case text, line by line.

ghost use Rattle.std.specs.Prelude.{◌≡◌, ◌+◌, length, is_some, true, false, Err, IfOk, IfErr};
ghost use Rattle.subs_table.specs.Row.{row_of};
ghost use Rattle.subs_table.specs.Table.{IsTable};
ghost use Rattle.case_form.specs.declared.case.CaseBad.TheVariants.{OutOfMemory};
ghost use Rattle.case_form.specs.Case.{row_reason, form_reason, first_bad, MatchFirstBad, IsCase, IsNumbered, HasCounted};
ghost use Rattle.case_form.specs.Event.{event_of};
ghost use Rattle.case_form.specs.Said.{IsInLimits};
ghost use Rattle.case_form.specs.Section.{heading_of};
ghost use Rattle.case_form.specs.State.{Takes, TakesLine, counts_behind, seen_of, unread, next, next_heading_reason, reason_behind, rows_after, trace_after, schedule_after, after};
ghost use Rattle.case_form.specs.Trace.{kind_of};

use crate::case::{Case, CaseBad, TraceLine};
use crate::event::read_event;
use crate::section::{Section, heading_of, is_heading, is_passed_over};
use crate::trace::read_kind;
use bstr::ByteSlice;
use device_types::Event;
use echo_base::{Bad, Reason, refused};
use std::alloc::Global;
use subs_table::{SubsTable, read_row};

/// As many octets as a line may have, without its end.
const MOST_OCTETS: usize = 8192;

/// As many lines as a trace or a schedule may have.
const MOST_LINES: usize = 100_000;

/// Goes on to the section of a heading, which has to come later than the section before.
fn take_heading(section: &mut Option<Section>, line: &[u8]) -> Result<(), Bad>
    ensures { Takes result (next_heading_reason section.old (heading_of line.now)) false
        (section.new ≡ heading_of line.now) }
{
    let Some(heading) = heading_of(line) else {
        return Err(refused(Reason::BadSection).into());
    };
    if Some(heading) <= *section {
        return Err(refused(Reason::BadSection).into());
    }
    *section = Some(heading);
    Ok(())
}

/// Adds the row of a line to the table.
#[tactic(auto, unfolding(crate::specs::State::rows_after))]
fn take_row(alloc: Global, table: &mut SubsTable, line: &[u8]) -> Result<(), Bad>
    ensures { Takes result (row_reason table.old (row_of (length table.old + 1) line.now)) true
        (table.new ≡ rows_after table.old line.now) }
{
    let row = read_row(alloc, line, table.len() + 1)?;
    table.add(row)?;
    Ok(())
}

/// Adds a line of that number to the trace.
#[tactic(auto, unfolding(crate::specs::State::trace_after))]
fn take_trace_line<'a>(
    trace: &mut Vec<TraceLine<'a>>,
    number: u32,
    line: &'a [u8],
) -> Result<(), Bad>
    ensures { Takes result (form_reason (length trace.old.items) (is_some (kind_of line.now))) true
        (trace.new.items ≡ trace_after number trace.old.items line.now) }
{
    if trace.len() >= MOST_LINES {
        return Err(refused(Reason::TooManyLines).into());
    }
    let Some(kind) = read_kind(line) else {
        return Err(refused(Reason::BadLine).into());
    };
    trace.push(TraceLine { line: number, kind })?;
    Ok(())
}

/// Adds the event of a line to the schedule, where there are so many rows.
#[tactic(auto, unfolding(crate::specs::State::schedule_after))]
fn take_event(schedule: &mut Vec<Event>, rows: u32, line: &[u8]) -> Result<(), Bad>
    ensures { Takes result (form_reason (length schedule.old.items) (is_some (event_of rows line.now))) true
        (schedule.new.items ≡ schedule_after rows schedule.old.items line.now) }
{
    if schedule.len() >= MOST_LINES {
        return Err(refused(Reason::TooManyLines).into());
    }
    let Some(event) = read_event(line, rows) else {
        return Err(refused(Reason::BadLine).into());
    };
    schedule.push(event)?;
    Ok(())
}

/// A case text that was read in part.
#[derive(Drop)]
struct Reading<'a> {
    alloc: Global,
    /// The section of the last heading.
    section: Option<Section>,
    /// The number of the last line.
    number: u32,
    /// The rows of the subscribers.
    table: SubsTable,
    /// The lines of the trace.
    trace: Vec<TraceLine<'a>>,
    /// The events of the schedule.
    schedule: Vec<Event>,
}

/// Nothing read.
fn begin<'a>(alloc: Global) -> Reading<'a>
    ensures { seen_of result ≡ unread }
{
    Reading {
        alloc,
        section: None,
        number: 0,
        table: SubsTable::new(alloc),
        trace: Vec::new(alloc),
        schedule: Vec::new(alloc),
    }
}

/// Takes a line, of the number that is set.
#[tactic(auto, unfolding(crate::specs::State::reason_behind, crate::specs::State::counts_behind, crate::specs::State::after))]
fn take<'a>(reading: &mut Reading<'a>, line: &'a [u8]) -> Result<(), Bad>
    ensures { Takes result (reason_behind (seen_of reading.old) line.now) (counts_behind reading.old.section line.now)
        (seen_of reading.new ≡ after (seen_of reading.old) line.now) }
{
    if line.len() > MOST_OCTETS {
        return Err(refused(Reason::LineTooLong).into());
    }
    if is_passed_over(line) {
        return Ok(());
    }
    if is_heading(line) {
        return take_heading(&mut reading.section, line);
    }
    let alloc = reading.alloc;
    let number = reading.number;
    match reading.section {
        None => Err(refused(Reason::BadSection).into()),
        Some(Section::Subscribers) => take_row(alloc, &mut reading.table, line),
        Some(Section::Trace) => take_trace_line(&mut reading.trace, number, line),
        Some(Section::Schedule) => {
            let rows = reading.table.len();
            take_event(&mut reading.schedule, rows, line)
        }
    }
}

/// Takes the next line.
fn take_next<'a>(reading: &mut Reading<'a>, line: &'a [u8]) -> Result<(), CaseBad>
    ensures { let seen = next (seen_of reading.old) in
        TakesLine result (reason_behind seen line.now) (counts_behind seen.section line.now) seen.number
        (seen_of reading.new ≡ after seen line.now) }
{
    let number = reading.number.saturating_add(1);
    reading.number = number;
    match take(reading, line) {
        Ok(()) => Ok(()),
        Err(Bad::Refused(refusal)) => Err(CaseBad::Refused {
            reason: refusal.reason,
            line: number,
        }),
        Err(Bad::OutOfMemory) => Err(CaseBad::OutOfMemory),
    }
}

/// Reads a case text. It is refused for the first line that is bad, with the first reason that applies to that line.
///
/// Lines end with LF. One CR before a LF is dropped, and the last line may lack its LF. Empty lines, and comments, which
/// begin with `#`, are passed over. The headings `[subscribers]`, `[trace]` and `[schedule]` stand in this order, each at
/// most once. Behind them stand:
/// - JSON objects, the rows of the subscriber table;
/// - lines `STATION TEXT`: a base station from 1 to 65535, and a text of one octet or more without spaces; and lines `data IMSI`:
///   that word, and 15 decimal digits;
/// - events, as `take R D N`, with words parted by one space: a replica from 1 to 16, a device from 1 to the number of
///   rows, and numbers of messages and effects from 1 to 4294967295. Numbers have no leading zeros.
///
/// A line is refused as LineTooLong where it has more than 8,192 octets; as BadSection where it is another heading, where
/// that heading or a later one stands before it, or where it is no heading and none stands before it; as TooManyLines
/// where 100,000 lines of its trace or schedule stand before it; for what reading or adding its row refuses; or as BadLine
/// where it has another form. Line numbers begin with 1; those above 4,294,967,295 count as that number. Only lines of a
/// section take memory.
#[tactic(auto, unfolding(crate::specs::Case::first_bad))]
pub fn read_case<'a>(alloc: Global, bytes: &'a [u8]) -> Result<Case<'a>, CaseBad>
    ensures first_bad { MatchFirstBad result (first_bad bytes.now) }
    ensures case { IfOk result (IsCase bytes.now) }
    ensures numbers { IfErr result IsNumbered }
    ensures memory { result ≡ Err OutOfMemory → HasCounted bytes.now }
    ensures table { IfOk result (λ case. IsTable case.table) }
    ensures limits { IfOk result IsInLimits }
{
    let mut reading = begin(alloc);
    for line in bytes.lines() {
        take_next(&mut reading, line)?;
    }
    let Reading {
        table,
        trace,
        schedule,
        ..
    } = reading;
    table.recall();
    Ok(Case {
        table,
        trace,
        schedule,
    })
}
