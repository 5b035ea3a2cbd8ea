//! Cases.
ghost use Rattle.std.specs.Prelude.{◌≡◌, ◌≤◌, length, All};
ghost use Rattle.device_types.specs.Event.{IsInForm};
ghost use Rattle.subs_table.specs.Table.{IsTable};
ghost use Rattle.case_form.specs.Said.{most_lines, HasStation, IsInLimits};

use device_types::Event;
use echo_base::Reason;
use std::marker::Model;
use subs_table::SubsTable;

/// The text of a PDU, where it stands in the case text.
#[derive(Clone, Debug, Drop)]
pub struct PduText<'a> {
    octets: &'a [u8],
}

impl<'a> Model for PduText<'a> {
    ghost use Rattle.std.specs.Prelude.{ℕ, List};

    ghost Value = { List ℕ };

    ghost view = { λ text. text.octets.now };
}

impl<'a> PduText<'a> {
    /// The text with these octets. It takes no memory.
    pub fn new(octets: &'a [u8]) -> PduText<'a>
        ensures { result ≡ octets.now }
    {
        PduText { octets }
    }

    /// Its octets. They take no memory.
    pub fn octets(&self) -> &'a [u8]
        ensures { result.now ≡ self.now }
    {
        self.octets
    }
}

/// A line of a trace.
#[derive(Debug, Drop)]
pub struct TraceLine<'a> {
    /// The number of the line in the case text, from 1.
    pub line: u32,
    /// What it says.
    pub kind: TraceKind<'a>,
}

/// What a line of a trace says.
#[derive(Debug, Drop)]
pub enum TraceKind<'a> {
    /// What a base station sent.
    Pdu {
        /// The base station, from 1.
        station: u16,
        /// The PDU as hexadecimal text, which is not yet looked at: one octet or more, none of which is a space.
        text: PduText<'a>,
    },
    /// The gateway's notice that data waits for a device.
    Data {
        /// The device's IMSI, of 15 decimal digits.
        imsi: u64,
    },
}

/// What a case text says: subscribers, what base stations and the gateway sent, and a schedule. A base station is from 1 to 65535,
/// the numbers of an event are in their limits, its device is one of the subscribers, and trace and schedule have at most 100,000
/// lines each.
#[derive(Debug, Drop)]
pub struct Case<'a> {
    pub(crate) table: SubsTable,
    pub(crate) trace: Vec<TraceLine<'a>>,
    pub(crate) schedule: Vec<Event>,
}

impl<'a> Model for Case<'a> {
    ghost use Rattle.case_form.specs.Said.{CaseState, IsInLimits};

    ghost Value = { CaseState };

    ghost view = { λ case. record { table = case.table; trace = case.trace.items; schedule = case.schedule.items } };

    ghost invariant = { λ case. IsInLimits (record { table = case.table; trace = case.trace.items; schedule = case.schedule.items }) };
}

impl<'a> Case<'a> {
    /// The subscribers. It takes no memory.
    pub fn table(&self) -> &SubsTable
        ensures value { result.now ≡ self.now.table }
        ensures rows { IsTable self.now.table }
    {
        self.table.recall();
        &self.table
    }

    /// What base stations and the gateway sent, in order. It takes no memory.
    pub fn trace(&self) -> &[TraceLine<'a>]
        ensures value { result.now ≡ self.now.trace }
        ensures stations { All (λ line. HasStation line.kind) self.now.trace }
        ensures most { length self.now.trace ≤ most_lines }
    {
        &self.trace
    }

    /// The events that are to happen, in order. It takes no memory.
    pub fn schedule(&self) -> &[Event]
        ensures value { result.now ≡ self.now.schedule }
        ensures events { All (IsInForm (length self.now.table)) self.now.schedule }
        ensures most { length self.now.schedule ≤ most_lines }
    {
        &self.schedule
    }

    /// The subscribers, what base stations and the gateway sent, and the events, each by itself. It takes no memory.
    pub fn into_parts(self) -> (SubsTable, Vec<TraceLine<'a>>, Vec<Event>)
        ensures table { result.0 ≡ self.entry.table }
        ensures trace { result.1.items ≡ self.entry.trace }
        ensures schedule { result.2.items ≡ self.entry.schedule }
        ensures limits { IsInLimits self.entry }
    {
        (self.table, self.trace, self.schedule)
    }
}

/// Why a case text gave no case.
#[derive(Clone, Copy, Debug, PartialEq, Eq)]
pub enum CaseBad {
    /// A line is refused. It is the first.
    Refused {
        /// Why.
        reason: Reason,
        /// The line's number, from 1.
        line: u32,
    },
    /// There was no memory.
    OutOfMemory,
}
